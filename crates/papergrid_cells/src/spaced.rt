//! A text that is appended together with spaces before it.
ghost use Rattle.std.specs.Prelude.{string_bytes};
ghost use Rattle.papergrid_cells.specs.Spaces.{IsSpaced};

use crate::painting::push_repeated;
use std::alloc::{AllocError, Global};

// How many spaces are kept before a text.
const SPACES: usize = 64;

/// A text after spaces that are kept with it: few spaces and the text are appended as one.
#[derive(Drop)]
pub struct Spaced {
    text: String,
    spaces: usize,
    ghost spaced: { IsSpaced spaces (string_bytes text) },
}

impl Spaced {
    ghost use Rattle.std.specs.Prelude.{◌≡◌, ◌++◌, IfOk, OnOk, length};
    ghost use Rattle.papergrid_cells.specs.Flat.{spaced_text};
    ghost use Rattle.papergrid_cells.specs.Painting.{fill_bytes};

    /// This text. Fails only where allocation fails.
    pub(crate) fn new(alloc: Global, text: &str) -> Result<Spaced, AllocError>
        ensures { IfOk result (λ made. spaced_text made ≡ text.now) }
    {
        let mut spaced = String::new(alloc);
        push_repeated(&mut spaced, ' ', SPACES)?;
        spaced.push_str(text)?;
        Ok(Spaced {
            text: spaced,
            spaces: SPACES,
        })
    }

    /// How many bytes the text has.
    pub(crate) fn len(&self) -> usize
        ensures { result ≡ length (spaced_text self.now) }
    {
        self.text.len() - self.spaces
    }

    /// Appends `spaces` spaces and the text. Fails only where allocation fails.
    #[inline(always)]
    pub(crate) fn push_behind(&self, out: &mut String, spaces: usize) -> Result<(), AllocError>
        ensures { OnOk result (string_bytes out.new ≡ string_bytes out.old ++ (fill_bytes 0x20 spaces ++ spaced_text self.now)) }
    {
        let text = self.text.as_str();
        if spaces <= self.spaces {
            out.push_str(&text[self.spaces - spaces..])?;
            return Ok(());
        }
        push_repeated(out, ' ', spaces)?;
        out.push_str(&text[self.spaces..])?;
        Ok(())
    }
}
