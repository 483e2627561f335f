//! A colour that owns its texts.
use crate::colors::borrowed::ANSIStr;
use crate::colors::closing::closes;
use crate::colors::fault::BufFault;
use ansi_str_search::text::get_blocks;
use grid_config_values::CloneIn;
use std::alloc::{AllocError, Global};
use std::marker::Model;

/// A colour: a text that is written before what it colours, and one that is written after it.
#[derive(Debug)]
pub struct ANSIBuf {
    prefix: String,
    suffix: String,
}

impl Drop for ANSIBuf {
    fn drop(self) {
        let ANSIBuf { prefix, suffix } = self;
        drop(prefix);
        drop(suffix);
    }
}

impl Model for ANSIBuf {
    ghost use Rattle.std.specs.Prelude.{string_bytes};
    ghost use Rattle.grid_config.specs.Ansi.Colors.{Color};

    ghost Value = { Color };

    ghost view = { λ b. record { prefix = string_bytes b.prefix; suffix = string_bytes b.suffix } };
}

impl ANSIBuf {
    ghost use Rattle.std.specs.Prelude.{◌≡◌, ◌↔◌, [], Err, Some, IfOk, IsOk, IsTrue, true};
    ghost use Rattle.ansi_scan.specs.Sequences.{ForPieces};
    ghost use Rattle.ansi_scan.specs.Attributes.{plain_attributes};
    ghost use Rattle.ansi_str_search.specs.Text.Blocks.{blocks_from};
    ghost use Rattle.grid_config.specs.Ansi.Colors.{color_of, is_no_color, no_color};
    ghost use Rattle.grid_config.specs.Ansi.Closing.{Closes};
    ghost use Rattle.grid_config.specs.Ansi.FirstColor.{first_color};
    ghost use Rattle.grid_config.specs.declared.colors.fault.BufFault.TheVariants.{NoBlock};

    /// The colour with these texts, which may be any. Fails only where allocation fails.
    pub fn new(alloc: Global, prefix: &str, suffix: &str) -> Result<ANSIBuf, AllocError>
        ensures { IfOk result (λ color. color ≡ record { prefix = prefix.now; suffix = suffix.now }) }
    {
        Ok(ANSIBuf {
            prefix: String::from_str(alloc, prefix)?,
            suffix: String::from_str(alloc, suffix)?,
        })
    }

    /// No colour: both texts are empty. Does not allocate.
    pub fn empty(alloc: Global) -> ANSIBuf
        ensures { result ≡ no_color }
    {
        ANSIBuf {
            prefix: String::new(alloc),
            suffix: String::new(alloc),
        }
    }

    /// The same colour with texts of its own. Fails only where allocation fails, and never where both are empty.
    pub fn from_ansi_str(alloc: Global, color: ANSIStr<'_>) -> Result<ANSIBuf, AllocError>
        ensures color { IfOk result (λ owned. owned ≡ color_of color.entry) }
        ensures none { is_no_color (color_of color.entry) ≡ true → IsOk result }
    {
        if color.is_empty() {
            return Ok(ANSIBuf::empty(alloc));
        }
        ANSIBuf::new(alloc, color.get_prefix(), color.get_suffix())
    }

    /// The start and the end of the style of the text's first block, which is the first text in it.
    /// Refused as `NoBlock` exactly where the text shows nothing, and else only where allocation fails.
    pub fn from_text(alloc: Global, text: &str) -> Result<ANSIBuf, BufFault>
        ensures color { IfOk result (λ color. ForPieces text.now (λ pieces. first_color (blocks_from plain_attributes pieces) ≡ Some color)) }
        ensures no_block { ForPieces text.now (λ pieces. (result ≡ Err NoBlock) ↔ (blocks_from plain_attributes pieces ≡ [])) }
    {
        let Some(block) = get_blocks(text).next() else {
            return Err(BufFault::NoBlock);
        };
        Ok(ANSIBuf {
            prefix: block.style().start().to_string(alloc)?,
            suffix: block.style().end().to_string(alloc)?,
        })
    }

    /// The same colour again. Fails only where allocation fails, and never where both texts are empty.
    pub fn clone(&self, alloc: Global) -> Result<ANSIBuf, AllocError>
        ensures color { IfOk result (λ copy. copy ≡ self.now) }
        ensures none { is_no_color self.now ≡ true → IsOk result }
    {
        ANSIBuf::from_ansi_str(alloc, self.as_ref())
    }

    /// The same colour, borrowed: it can be compared. Does not allocate.
    pub fn as_ref(&self) -> ANSIStr<'_>
        ensures { color_of result ≡ self.now }
    {
        ANSIStr::new(self.get_prefix(), self.get_suffix())
    }

    /// Whether both texts are empty.
    pub fn is_empty(&self) -> bool
        ensures { result ≡ is_no_color self.now }
    {
        self.as_ref().is_empty()
    }

    /// What is written before.
    pub fn get_prefix(&self) -> &str
        ensures { result.now ≡ self.now.prefix }
    {
        self.prefix.as_str()
    }

    /// What is written after.
    pub fn get_suffix(&self) -> &str
        ensures { result.now ≡ self.now.suffix }
    {
        self.suffix.as_str()
    }

    /// Whether the colour closes, as for `ANSIStr`. Does not allocate.
    pub fn closes(&self) -> bool
        ensures { IsTrue result ↔ Closes self.now }
    {
        closes(self.get_prefix(), self.get_suffix())
    }
}

impl CloneIn for ANSIBuf {
    fn clone_in(&self, alloc: Global) -> Result<ANSIBuf, AllocError> {
        self.clone(alloc)
    }
}
