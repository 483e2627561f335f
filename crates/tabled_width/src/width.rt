//! Makers of options of widths.
ghost use Rattle.std.specs.Prelude.{◌≡◌, ℕ, [], IfOk, List, false};
ghost use Rattle.tabled_size.specs.declared.dimension.suffix.SuffixLimit.TheVariants.{Cut as CutSuffix};
ghost use Rattle.std.specs.Iterator.{Drains, IsFinite};
ghost use Rattle.tabled_width.specs.Options.{justified_width, truncation, widening, wrapping};

use crate::justify::Justify;
use crate::list::WidthList;
use crate::min_width::MinWidth;
use crate::truncate::Truncate;
use crate::wrap::Wrap;
use std::alloc::{AllocError, Global};
use tabled_steps::Measurement;

/// Makes options of widths; and it marks that a `Measurement` is one of a width, in columns.
#[derive(Clone, Copy, Debug)]
pub struct Width;

impl Width {
    /// Wraps the texts of a table, or of cells, so that they are at most as wide: `Wrap::new`.
    pub fn wrap<W: Measurement<Width>>(width: W) -> Wrap<W>
        ensures { wrapping result ≡ record { width = width; keep_words = false; priority = 0 } }
    {
        Wrap::new(width)
    }

    /// Cuts the texts of a table, or of cells, so that they are at most as wide: `Truncate::new`.
    pub fn truncate<W: Measurement<Width>>(width: W) -> Truncate<'static, W>
        ensures { truncation result ≡ record { width = width; cutting = record { suffix = []; limit = CutSuffix; multiline = false; try_color = false }; priority = 0 } }
    {
        Truncate::new(width)
    }

    /// Makes a table, or the lines of cells, at least as wide: `MinWidth::new`.
    pub fn increase<W: Measurement<Width>>(width: W) -> MinWidth<W>
        ensures { widening result ≡ record { width = width; fill = 0x20; priority = 0 } }
    {
        MinWidth::new(width)
    }

    /// Makes each cell as wide: `Justify::new`.
    pub fn justify<W: Measurement<Width>>(width: W) -> Justify<W>
        ensures { justified_width result ≡ width }
    {
        Justify::new(width)
    }

    /// A list of the items in their order, provided that they end: `WidthList::from_iter`. Fails
    /// only where allocation fails.
    pub fn list<I: IntoIterator<Item = usize>>(
        alloc: Global,
        items: I,
    ) -> Result<WidthList, AllocError>
    where
        I::IntoIter: Drop,
        requires { (s : I.IntoIter) → I.into_iter_gives items s → I.IntoIter.can_next s × IsFinite (I.IntoIter.remaining s) }
        ensures { IfOk result (λ list. (s : I.IntoIter) × (taken : List ℕ) × I.into_iter_gives items s × Drains I.IntoIter.next_gives s taken × (list ≡ taken)) }
    {
        WidthList::from_iter(alloc, items)
    }
}
