//! The blocks of a text: its pieces of text with their styles.
ghost use Rattle.std.specs.Prelude.{◌≡◌, ◌≤◌, false, ◌↔◌, length};
ghost use Rattle.ansi_scan.specs.Sequences.{ForPieces};
ghost use Rattle.ansi_scan.specs.Attributes.{plain_attributes};
ghost use Rattle.ansi_str_search.specs.Text.Blocks.{blocks_from};

use ansi_scan::{Kind, Style, scan};
use std::marker::Model;

/// A piece of text, and the style that it shows.
#[derive(Clone, Debug, Drop)]
pub struct AnsiBlock<'a> {
    text: &'a str,
    style: Style,
}

impl<'a> Model for AnsiBlock<'a> {
    ghost use Rattle.ansi_str_search.specs.Text.Blocks.{Block};

    ghost Value = { Block };

    ghost view = { λ block. record { text = block.text.now; style = block.style } };
}

impl<'a> AnsiBlock<'a> {
    /// The text, without sequences.
    pub fn text(&self) -> &'a str
        ensures { result.now ≡ self.now.text }
    {
        self.text
    }

    /// Whether the style is other than plain.
    pub fn has_ansi(&self) -> bool
        ensures { (result ≡ false) ↔ (self.now.style ≡ plain_attributes) }
    {
        !self.style.is_plain()
    }

    /// The style known before the text.
    pub fn style(&self) -> &Style
        ensures { result.now ≡ self.now.style }
    {
        &self.style
    }
}

/// The blocks of a text that are still to come, made by `get_blocks`. After the last it gives
/// `None` forever. In a contract it is the list of these blocks.
#[derive(Debug, Drop)]
pub struct AnsiBlockIter<'a> {
    rest: &'a str,
    style: Style,
}

impl<'a> Model for AnsiBlockIter<'a> {
    ghost use Rattle.std.specs.Prelude.{List};
    ghost use Rattle.ansi_scan.specs.Pieces.{pieces};
    ghost use Rattle.ansi_str_search.specs.Text.Blocks.{Block, blocks_from};

    ghost Value = { List Block };

    ghost view = { λ iter. blocks_from iter.style (pieces iter.rest.now) };
}

impl<'a> AnsiBlockIter<'a> {
    /// The blocks of the text.
    pub(crate) fn new(text: &'a str) -> Self
        ensures blocks { ForPieces text.now (λ pieces. result ≡ blocks_from plain_attributes pieces) }
        ensures count { length result ≤ length text.now }
    {
        AnsiBlockIter {
            rest: text,
            style: Style::plain(),
        }
    }
}

impl<'a> Iterator for AnsiBlockIter<'a> {
    type Item = AnsiBlock<'a>;

    ghost use Rattle.std.specs.Iterator.{YieldsFirst, item_count};

    ghost next_gives = { YieldsFirst (λ blocks. blocks) };

    ghost remaining = { item_count (λ blocks. blocks) };

    fn next(&mut self) -> Option<AnsiBlock<'a>> {
        while let Some(item) = scan(self.rest).next() {
            let bytes = &self.rest[..item.end];
            self.rest = &self.rest[item.end..];
            match item.kind {
                Kind::Text => {
                    return Some(AnsiBlock {
                        text: bytes,
                        style: self.style,
                    });
                }
                Kind::Sgr => self.style = self.style.apply(bytes),
                _ => {}
            }
        }
        None
    }
}
