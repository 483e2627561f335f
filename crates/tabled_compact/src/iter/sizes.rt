//! What is set of a table's shape, and the sizes that follow from it.
ghost use Rattle.std.specs.Prelude.{◌≡◌, ◌+◌, ◌⊎◌, IfErr, IfOk};
ghost use Rattle.grid_config_values.specs.declared.fault.Fault.TheVariants.{Memory, Range as PassesMax};
ghost use Rattle.grid_records_traits.specs.Sources.{texts_of_rows};
ghost use Rattle.tabled_compact.specs.Tables.{first_or_all};
ghost use Rattle.tabled_compact.specs.Iter.Content.{heights_or, widths_or};
ghost use Rattle.tabled_compact.specs.Iter.Padded.{AreGreater, PassesRange};

use crate::iter::content::{first, heights_or, widths_or};
use crate::iter::padded::padded;
use grid_config::{Fault, Indent, Sides};
use grid_records_traits::Cell;
use std::alloc::Global;
use tabled_size::StaticDimension;

/// What is set of a table's shape. It is how many columns it has, how many rows are sniffed and how many are
/// kept, and the width and the height of its content.
#[derive(Clone, Copy, Debug, PartialEq, Eq, PartialOrd, Ord, Hash)]
pub(crate) struct Shape {
    pub(crate) columns: Option<usize>,
    pub(crate) sniff: usize,
    pub(crate) kept: Option<usize>,
    pub(crate) width: Option<usize>,
    pub(crate) height: Option<usize>,
}

/// The sizes of a table, without its paddings and with them.
#[derive(Drop)]
pub(crate) struct InnerAndOuterSizes {
    pub(crate) content: StaticDimension,
    pub(crate) sizes: StaticDimension,
}

/// The sizes that the sniffed rows give. Refused as `Range` where a size with its paddings
/// passes `usize::MAX`, and as `Memory` where allocation fails.
pub(crate) fn inner_and_outer_of<C: Cell>(
    alloc: Global,
    sniffed: &[Vec<C>],
    shape: Shape,
    columns: usize,
    padding: Sides<Indent>,
) -> Result<InnerAndOuterSizes, Fault>
    ensures widths { let texts = texts_of_rows C.text sniffed.now in IfOk result (λ both. both.content.0 ≡ widths_or shape.width columns texts) }
    ensures wide { let texts = texts_of_rows C.text sniffed.now in IfOk result (λ both. AreGreater (padding.left.size + padding.right.size) (widths_or shape.width columns texts) both.sizes.0) }
    ensures high { let texts = texts_of_rows C.text sniffed.now in IfOk result
        (λ both. AreGreater (padding.top.size + padding.bottom.size)
        (heights_or shape.height shape.width columns (first_or_all shape.kept texts)) both.sizes.1) }
    ensures refused { let texts = texts_of_rows C.text sniffed.now in IfErr result (λ fault. (fault ≡ Memory)
        ⊎ ((fault ≡ PassesMax) × (PassesRange (padding.left.size + padding.right.size) (widths_or shape.width columns texts)
        ⊎ PassesRange (padding.top.size + padding.bottom.size) (heights_or shape.height shape.width columns (first_or_all shape.kept texts))))) }
{
    let widths = widths_or(alloc, shape.width, columns, sniffed)?;
    let kept = first_or_all(sniffed, shape.kept);
    let heights = heights_or(alloc, shape.height, shape.width, columns, kept)?;
    let wide = padded(alloc, &widths, padding.left.size, padding.right.size)?;
    let high = padded(alloc, &heights, padding.top.size, padding.bottom.size)?;
    Ok(InnerAndOuterSizes {
        content: StaticDimension::new(widths, heights),
        sizes: StaticDimension::new(wide, high),
    })
}

/// The first `count`, or all where none is given.
pub(crate) fn first_or_all<T>(items: &[T], count: Option<usize>) -> &[T]
    ensures { result.now ≡ first_or_all count items.now }
{
    match count {
        Some(count) => first(items, count),
        None => items,
    }
}
