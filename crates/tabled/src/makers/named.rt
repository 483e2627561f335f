//! Tables of names beside fields.
ghost use Rattle.std.specs.Iterator.{Drains};
ghost use Rattle.std.specs.Prelude.{◌≡◌, ◌<◌, ◌++◌, [], ◌∷◌, IfErr, IfOk, List, OnOk, length, map, slice_index_or, string_bytes};
ghost use Rattle.grid_config_values.specs.declared.fault.Fault.TheVariants.{Memory};
ghost use Rattle.tabled.specs.Making.{EndsOnceRead, named_field_rows, named_fields};
ghost use Rattle.tabled.specs.Tables.{new_state, state_of};
ghost use Rattle.tabled_text.specs.Rows.{text_rows};

use crate::cells::cells_of;
use crate::makers::{fields_of, owned};
use crate::table::Table;
use grid_config::Fault;
use grid_records::Text;
use std::alloc::{AllocError, Global};
use tabled_text::Tabled;

impl Table<Text> {
    /// A row for each field of each value: the name of the field, and its text, provided that the values
    /// end. Fails only where allocation fails.
    pub fn kv<T: Tabled + Drop, I: IntoIterator<Item = T> + Drop>(
        alloc: Global,
        items: I,
    ) -> Result<Table<Text>, Fault>
    where
        I::IntoIter: Drop,
        requires { EndsOnceRead I.into_iter_gives I.IntoIter.can_next I.IntoIter.remaining items }
        ensures table { IfOk result (λ table. (s : I.IntoIter) × (taken : List T) × I.into_iter_gives items s
            × Drains I.IntoIter.next_gives s taken × (state_of (λ text. text) table ≡ new_state (named_field_rows T.names T.texts taken))) }
        ensures refused { IfErr result (λ fault. fault ≡ Memory) }
    {
        let names = owned(alloc, T::headers(alloc)?)?;
        let rows = rows_of::<T, I>(alloc, &names, items)?;
        let cells = cells_of(alloc, rows)?;
        Ok(Table::of_cells(alloc, cells))
    }
}

// A row for each field of each value, where these are the names.
fn rows_of<T: Tabled + Drop, I: IntoIterator<Item = T> + Drop>(
    alloc: Global,
    names: &[String],
    items: I,
) -> Result<Vec<Vec<String>>, AllocError>
where
    I::IntoIter: Drop,
    requires names { map string_bytes names.now ≡ T.names }
    requires ends { EndsOnceRead I.into_iter_gives I.IntoIter.can_next I.IntoIter.remaining items }
    ensures rows { IfOk result (λ out. (s : I.IntoIter) × (taken : List T) × I.into_iter_gives items s
        × Drains I.IntoIter.next_gives s taken × (text_rows out.items ≡ named_field_rows T.names T.texts taken)) }
{
    let mut rows = Vec::new(alloc);
    for item in items {
        push_named(alloc, &mut rows, names, &fields_of(alloc, &item)?)?;
    }
    Ok(rows)
}

// More rows: each name with its text.
fn push_named(
    alloc: Global,
    rows: &mut Vec<Vec<String>>,
    names: &[String],
    texts: &[String],
) -> Result<(), AllocError>
    requires { length names.now ≡ length texts.now }
    ensures { OnOk result (text_rows rows.new.items ≡ text_rows rows.old.items ++ named_fields (map string_bytes names.now) (map string_bytes texts.now)) }
{
    for index in 0..names.len() {
        rows.push(pair(alloc, text_at(names, index), text_at(texts, index))?)?;
    }
    Ok(())
}

// The text with this number.
fn text_at(texts: &[String], index: usize) -> &str
    requires { index < length texts.now }
    ensures { result.now ≡ slice_index_or (map string_bytes texts.now) index [] }
{
    &texts[index]
}

// A row of these two texts.
fn pair(alloc: Global, name: &str, text: &str) -> Result<Vec<String>, AllocError>
    ensures { IfOk result (λ row. map string_bytes row.items ≡ name.now ∷ text.now ∷ []) }
{
    let mut row = Vec::with_capacity(alloc, 2)?;
    row.push(name.to_string(alloc)?)?;
    row.push(text.to_string(alloc)?)?;
    Ok(row)
}
