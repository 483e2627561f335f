//! Tables of rows of texts.
ghost use Rattle.std.specs.Iterator.{Drains};
ghost use Rattle.std.specs.List.{AllZip};
ghost use Rattle.std.specs.Prelude.{◌≡◌, ℕ, IfErr, IfOk, List};
ghost use Rattle.grid_config_values.specs.declared.fault.Fault.TheVariants.{Memory};
ghost use Rattle.tabled.specs.Making.{EndsOnceRead, HoldsTexts};
ghost use Rattle.tabled.specs.Tables.{new_state, state_of};
ghost use Rattle.tabled_text.specs.Rows.{filled};

use crate::table::Table;
use grid_config::Fault;
use grid_records::Text;
use std::alloc::{AllocError, Global};
use std::convert::AsStr;
use tabled_text::Builder;

impl Table<Text> {
    /// The table of these rows of texts, the short ones filled with empty texts, provided that the rows
    /// and their texts end. Fails only where allocation fails.
    pub fn from_rows<I: IntoIterator>(alloc: Global, rows: I) -> Result<Table<Text>, Fault>
    where
        I::Item: IntoIterator + Drop,
        <I::Item as IntoIterator>::Item: AsStr + Drop,
        <I::Item as IntoIterator>::IntoIter: Drop,
        I::IntoIter: Drop,
        requires rows { EndsOnceRead I.into_iter_gives I.IntoIter.can_next I.IntoIter.remaining rows }
        requires texts { (row : I.Item) → EndsOnceRead I.Item.into_iter_gives I.Item.IntoIter.can_next I.Item.IntoIter.remaining row }
        ensures table { IfOk result (λ table. (s : I.IntoIter) × (taken : List I.Item) × (texts : List (List (List ℕ)))
            × I.into_iter_gives rows s × Drains I.IntoIter.next_gives s taken
            × AllZip (HoldsTexts I.Item.into_iter_gives I.Item.IntoIter.next_gives I.Item.Item.text) taken texts
            × (state_of (λ text. text) table ≡ new_state (filled texts))) }
        ensures refused { IfErr result (λ fault. fault ≡ Memory) }
    {
        let builder = builder_of::<I>(alloc, rows)?;
        Table::from_builder(builder)
    }
}

// A builder of these rows.
fn builder_of<I: IntoIterator>(alloc: Global, rows: I) -> Result<Builder, AllocError>
where
    I::Item: IntoIterator + Drop,
    <I::Item as IntoIterator>::Item: AsStr + Drop,
    <I::Item as IntoIterator>::IntoIter: Drop,
    I::IntoIter: Drop,
    requires rows { EndsOnceRead I.into_iter_gives I.IntoIter.can_next I.IntoIter.remaining rows }
    requires texts { (row : I.Item) → EndsOnceRead I.Item.into_iter_gives I.Item.IntoIter.can_next I.Item.IntoIter.remaining row }
    ensures { IfOk result (λ builder. (s : I.IntoIter) × (taken : List I.Item) × I.into_iter_gives rows s
        × Drains I.IntoIter.next_gives s taken
        × AllZip (HoldsTexts I.Item.into_iter_gives I.Item.IntoIter.next_gives I.Item.Item.text) taken builder) }
{
    let mut builder = Builder::new(alloc);
    for row in rows {
        builder.push_record(row)?;
    }
    Ok(builder)
}
