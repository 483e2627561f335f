//! The items and the iterator over them.

ghost use Rattle.std.specs.Prelude.{◌≡◌, ◌+◌, ◌*◌, ◌<◌, ◌≤◌, ◌^◌, length};
ghost use Rattle.ansi_scan.specs.Reads.{reads_over};
ghost use Rattle.ansi_scan.specs.Pieces.{pieces};

use crate::sequences::{FirstItem, front};

/// What an item of a text is. The names of the sequences follow ECMA-48.
#[derive(Debug, Clone, Copy, PartialEq, Eq)]
pub enum Kind {
    /// Characters other than ESC, up to the next ESC or the end of the text.
    Text,
    /// SELECT GRAPHIC RENDITION: ESC and `[`, digits, `;` and `:`, then `m` (ECMA-48, 8.3.117).
    Sgr,
    /// Any other control sequence: ESC and `[`, parameter bytes 0x30 to 0x3f, intermediate bytes
    /// 0x20 to 0x2f, one final byte 0x40 to 0x7e (ECMA-48, 5.4).
    Csi,
    /// An operating system command: ESC and `]`, a string, then BEL or ESC and `\` (ECMA-48, 8.3.89).
    Osc,
    /// An escape sequence: ESC, intermediate bytes 0x20 to 0x2f, one final byte 0x30 to 0x7e that
    /// without intermediate bytes opens nothing longer (ECMA-35).
    Esc,
    /// Any other control string: ESC and `P`, `X`, `^` or `_`, a string, then ESC and `\`
    /// (ECMA-48, 5.6). No string holds ESC, CANCEL or SUBSTITUTE.
    Str,
    /// An ESC by which no sequence begins.
    Broken,
}

/// One item of a text: what it is, and the bytes of the text at which it begins (included) and
/// ends (excluded).
#[derive(Clone, Copy, Debug, PartialEq, Eq)]
pub struct Item {
    /// What the item is.
    pub kind: Kind,
    /// The byte at which the item begins.
    pub start: usize,
    /// The byte after the item.
    pub end: usize,
}

/// The items of a text that are still to come, made by `scan`. After the last it gives `None` for
/// ever.
#[derive(Debug, Drop)]
pub struct Scan<'a> {
    rest: &'a [u8],
    place: usize,
    // the reads so far, beyond one of each byte before the place
    beyond: u128,
    ghost fits: { place + length rest.now < 2 ^ 64 },
    ghost few: { place + beyond + reads_over (pieces rest.now) ≤ 3 * (place + length rest.now) },
}

impl<'a> Scan<'a> {
    ghost use Rattle.ansi_scan.specs.Places.{placed};
    ghost use Rattle.ansi_scan.specs.Scan.{items_left, reads_in_all, reads_taken, text_length};

    /// The items of a text, given as its bytes.
    pub(crate) fn new(bytes: &'a [u8]) -> Self
        ensures items { items_left result ≡ placed 0 (pieces bytes.now) }
        ensures text { text_length result ≡ length bytes.now }
        ensures reads { reads_in_all result ≡ reads_over (pieces bytes.now) }
        ensures none_taken { reads_taken result ≡ 0 }
    {
        Scan {
            rest: bytes,
            place: 0,
            beyond: 0,
        }
    }

    /// How many looks were made so far: a look is one read of one byte of the text. At any
    /// time, and so after the last item, there are at most three for each byte of the text.
    pub fn looks(&self) -> u128
        ensures value { result ≡ reads_taken self.now }
        ensures few { result ≤ 3 * text_length self.now }
    {
        self.place as u128 + self.beyond
    }
}

impl Iterator for Scan<'_> {
    type Item = Item;

    ghost use Rattle.std.specs.Iterator.{YieldsFirst, item_count};
    ghost use Rattle.ansi_scan.specs.Scan.{GoesOn, items_left};

    ghost next_gives = { YieldsFirst items_left };

    ghost remaining = { item_count items_left };

    fn next(&mut self) -> Option<Item>
        ensures steps { YieldsFirst items_left self.old result self.new }
        ensures goes { GoesOn self.old result self.new }
    {
        if self.rest.is_empty() {
            return None;
        }
        let FirstItem { kind, len, beyond } = front(self.rest);
        let (_, rest) = self.rest.split_at(len);
        let start = self.place;
        let end = start + len;
        self.rest = rest;
        self.place = end;
        self.beyond += beyond as u128;
        Some(Item { kind, start, end })
    }
}
