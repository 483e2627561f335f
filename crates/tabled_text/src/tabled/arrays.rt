//! Arrays: the texts of the members, and numbers for names.
ghost use Rattle.std.specs.Prelude.{map};
ghost use Rattle.tabled_text.specs.Fields.{numbers};

use crate::cell_text::{CellText, displayed};
use crate::tabled::Tabled;
use std::alloc::{AllocError, Global};
use std::borrow::CowStr;

impl<T: CellText, const N: usize> Tabled for [T; N] {
    ghost texts = { map T.text };

    ghost names = { numbers N };

    #[tactic(auto, using(crate::proofs::Numbers::numbers_count))]
    fn length() -> usize {
        N
    }

    #[tactic(auto, using(crate::proofs::Numbers::numbers_count))]
    fn fields(&self, alloc: Global) -> Result<Vec<CowStr<'_>>, AllocError> {
        let mut fields = Vec::with_capacity(alloc, N)?;
        for member in self {
            fields.push(member.cell_text(alloc)?)?;
        }
        Ok(fields)
    }

    #[tactic(auto, using(crate::proofs::Numbers::numbers_count, crate::proofs::Numbers::numbers_push))]
    fn headers(alloc: Global) -> Result<Vec<CowStr<'static>>, AllocError> {
        let mut headers = Vec::with_capacity(alloc, N)?;
        for number in 0..N {
            headers.push(displayed(alloc, &number)?)?;
        }
        Ok(headers)
    }
}
