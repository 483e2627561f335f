//! Tables of values.
ghost use Rattle.std.specs.List.{All};
ghost use Rattle.std.specs.Prelude.{◌≡◌, [], ◌∷◌, ◌++◌, IfErr, IfOk, List, length, map, string_bytes};
ghost use Rattle.grid_config_values.specs.declared.fault.Fault.TheVariants.{Memory};
ghost use Rattle.tabled.specs.Making.{Collects, EndsOnceRead};
ghost use Rattle.tabled.specs.Tables.{new_state, state_of};
ghost use Rattle.tabled_text.specs.Fields.{texts_of};
ghost use Rattle.tabled_text.specs.Rows.{text_rows};

mod named;
mod of_cells;
mod of_texts;

use crate::cells::cells_of;
use crate::table::Table;
use grid_config::Fault;
use grid_records::Text;
use std::alloc::{AllocError, Global};
use std::borrow::CowStr;
use tabled_text::{Builder, Tabled};

impl Table<Text> {
    /// A row of the names of the values' fields, and then a row of the fields of each, provided that the
    /// values end. Fails only where allocation fails.
    pub fn new<T: Tabled + Drop, I: IntoIterator<Item = T> + Drop>(
        alloc: Global,
        items: I,
    ) -> Result<Table<Text>, Fault>
    where
        I::IntoIter: Drop,
        requires { EndsOnceRead I.into_iter_gives I.IntoIter.can_next I.IntoIter.remaining items }
        ensures table { IfOk result (λ table. Collects I.into_iter_gives I.IntoIter.next_gives items (λ taken. state_of (λ text. text) table ≡ new_state (T.names ∷ map T.texts taken))) }
        ensures refused { IfErr result (λ fault. fault ≡ Memory) }
    {
        let rows = headed_rows::<T, I>(alloc, Vec::new(alloc), items)?;
        let cells = cells_of(alloc, rows)?;
        Ok(Table::of_cells(alloc, cells))
    }

    /// The same as `new`. Memory for `rows` rows is allocated at once; `rows` decides nothing else.
    pub fn with_capacity<T: Tabled + Drop, I: IntoIterator<Item = T> + Drop>(
        alloc: Global,
        items: I,
        rows: usize,
    ) -> Result<Table<Text>, Fault>
    where
        I::IntoIter: Drop,
        requires { EndsOnceRead I.into_iter_gives I.IntoIter.can_next I.IntoIter.remaining items }
        ensures table { IfOk result (λ table. Collects I.into_iter_gives I.IntoIter.next_gives items (λ taken. state_of (λ text. text) table ≡ new_state (T.names ∷ map T.texts taken))) }
        ensures refused { IfErr result (λ fault. fault ≡ Memory) }
    {
        let room = Vec::with_capacity(alloc, rows.saturating_add(1))?;
        let rows = headed_rows::<T, I>(alloc, room, items)?;
        let cells = cells_of(alloc, rows)?;
        Ok(Table::of_cells(alloc, cells))
    }

    /// A row of the fields of each value, without a row of names, provided that the values end. Fails
    /// only where allocation fails.
    pub fn nohead<T: Tabled + Drop, I: IntoIterator<Item = T> + Drop>(
        alloc: Global,
        items: I,
    ) -> Result<Table<Text>, Fault>
    where
        I::IntoIter: Drop,
        requires { EndsOnceRead I.into_iter_gives I.IntoIter.can_next I.IntoIter.remaining items }
        ensures table { IfOk result (λ table. Collects I.into_iter_gives I.IntoIter.next_gives items (λ taken. state_of (λ text. text) table ≡ new_state (map T.texts taken))) }
        ensures refused { IfErr result (λ fault. fault ≡ Memory) }
    {
        let rows = value_rows::<T, I>(alloc, Vec::new(alloc), items)?;
        let cells = cells_of(alloc, rows)?;
        Ok(Table::of_cells(alloc, cells))
    }

    /// A builder of the rows of `new`, provided that the values end. Fails only where allocation fails.
    pub fn builder<T: Tabled + Drop, I: IntoIterator<Item = T> + Drop>(
        alloc: Global,
        items: I,
    ) -> Result<Builder, Fault>
    where
        I::IntoIter: Drop,
        requires { EndsOnceRead I.into_iter_gives I.IntoIter.can_next I.IntoIter.remaining items }
        ensures rows { IfOk result (λ builder. Collects I.into_iter_gives I.IntoIter.next_gives items (λ taken. builder ≡ T.names ∷ map T.texts taken)) }
        ensures refused { IfErr result (λ fault. fault ≡ Memory) }
    {
        let rows = headed_rows::<T, I>(alloc, Vec::new(alloc), items)?;
        Ok(Builder::from_vec(rows))
    }
}

// A row of the names of the values' fields, and then the fields of each, where memory suffices.
fn headed_rows<T: Tabled + Drop, I: IntoIterator<Item = T> + Drop>(
    alloc: Global,
    room: Vec<Vec<String>>,
    items: I,
) -> Result<Vec<Vec<String>>, AllocError>
where
    I::IntoIter: Drop,
    requires empty { room.items ≡ [] }
    requires ends { EndsOnceRead I.into_iter_gives I.IntoIter.can_next I.IntoIter.remaining items }
    ensures rows { IfOk result (λ out. Collects I.into_iter_gives I.IntoIter.next_gives items (λ taken. text_rows out.items ≡ T.names ∷ map T.texts taken)) }
    ensures wide { IfOk result (λ out. All (λ row. length row ≡ length T.names) (text_rows out.items)) }
{
    let mut rows = room;
    rows.push(owned(alloc, T::headers(alloc)?)?)?;
    value_rows::<T, I>(alloc, rows, items)
}

// The fields of each value, after the rows that are there.
fn value_rows<T: Tabled + Drop, I: IntoIterator<Item = T> + Drop>(
    alloc: Global,
    before: Vec<Vec<String>>,
    items: I,
) -> Result<Vec<Vec<String>>, AllocError>
where
    I::IntoIter: Drop,
    requires wide { All (λ row. length row ≡ length T.names) (text_rows before.items) }
    requires ends { EndsOnceRead I.into_iter_gives I.IntoIter.can_next I.IntoIter.remaining items }
    ensures rows { IfOk result (λ out. Collects I.into_iter_gives I.IntoIter.next_gives items (λ taken. text_rows out.items ≡ text_rows before.items ++ map T.texts taken)) }
    ensures wide { IfOk result (λ out. All (λ row. length row ≡ length T.names) (text_rows out.items)) }
{
    let mut rows = before;
    for item in items {
        rows.push(fields_of(alloc, &item)?)?;
    }
    Ok(rows)
}

// The fields of a value.
fn fields_of<T: Tabled>(alloc: Global, item: &T) -> Result<Vec<String>, AllocError>
    ensures texts { IfOk result (λ out. map string_bytes out.items ≡ T.texts item.now) }
    ensures count { IfOk result (λ out. length (map string_bytes out.items) ≡ length T.names) }
{
    owned(alloc, item.fields(alloc)?)
}

// These texts, each its own.
fn owned(alloc: Global, texts: Vec<CowStr<'_>>) -> Result<Vec<String>, AllocError>
    ensures texts { IfOk result (λ out. map string_bytes out.items ≡ texts_of texts.entry.items) }
    ensures count { IfOk result (λ out. length (map string_bytes out.items) ≡ length texts.entry.items) }
{
    let mut out = Vec::with_capacity(alloc, texts.len())?;
    for text in texts {
        out.push(text.into_owned(alloc)?)?;
    }
    Ok(out)
}
