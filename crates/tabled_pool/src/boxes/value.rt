//! The nesting of a pool.
ghost use Rattle.std.specs.Prelude.{◌≡◌, IfOk};
ghost use Rattle.tabled_pool.specs.Boxes.Values.{nesting_of, nestings_of};

use std::alloc::{AllocError, Global};

/// What a pool shows: a text, or such values side by side in a row or one below the other in a column. It may be
/// nested as deep as the stack allows. To clone, compare, print or drop it recurses once a level. Where the stack
/// runs out the system ends the process.
#[derive(PartialEq, Eq, PartialOrd, Ord, Debug, Drop)]
pub enum TableValue {
    /// Members side by side.
    Row(Vec<TableValue>),
    /// Members one below the other.
    Column(Vec<TableValue>),
    /// A text.
    Cell(String),
}

impl TableValue {
    /// The same value again. Fails only where allocation fails.
    pub fn clone(&self, alloc: Global) -> Result<TableValue, AllocError>
        ensures { IfOk result (λ value. nesting_of value ≡ nesting_of self.now) }
    {
        copy(alloc, self)
    }
}

#[cycle(copy)]
fn copy(alloc: Global, value: &TableValue) -> Result<TableValue, AllocError>
    ensures { IfOk result (λ copied. nesting_of copied ≡ nesting_of value.now) }
{
    match value {
        TableValue::Row(members) => Ok(TableValue::Row(copy_members(alloc, members)?)),
        TableValue::Column(members) => Ok(TableValue::Column(copy_members(alloc, members)?)),
        TableValue::Cell(text) => Ok(TableValue::Cell(String::from_str(alloc, text)?)),
    }
}

#[cycle(copy)]
fn copy_members(alloc: Global, members: &Vec<TableValue>) -> Result<Vec<TableValue>, AllocError>
    ensures { IfOk result (λ copies. nestings_of copies.items ≡ nestings_of members.now.items) }
{
    let mut copies = Vec::with_capacity(alloc, members.len())?;
    for member in members {
        copies.push(copy(alloc, member)?)?;
    }
    Ok(copies)
}
