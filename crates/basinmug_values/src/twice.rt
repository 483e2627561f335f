//! Whether a column is there twice in a list.
ghost use Rattle.std.specs.Prelude.{◌≡◌, ◌||◌, IfOk, OnOk, false, map, not};
ghost use Rattle.basinmug_values.specs.Lists.{Column, column_of_name, has_twice, is_same};
ghost use Rattle.basinmug_values.specs.Met.{is_met};

use program_options::basinmug::ColumnName;
use std::alloc::{AllocError, Global};
use std::collections::HashSet;

/// Whether a column is there twice, by the same number or by the same text. Fails only where allocation fails.
pub fn has_twice<T>(alloc: Global, given: &[(ColumnName, T)]) -> Result<bool, AllocError>
    ensures { IfOk result (λ twice. twice ≡ has_twice (map (λ item. column_of_name item.0) given.now)) }
{
    let mut columns = MetColumns::new(alloc);
    let mut twice = false;
    for item in given {
        if !columns.add(&item.0)? {
            twice = true;
        }
    }
    Ok(twice)
}

// Columns that were met.
#[derive(Drop)]
struct MetColumns<'a> {
    numbers: HashSet<usize>,
    titles: HashSet<&'a str>,
}

impl<'a> MetColumns<'a> {
    // None.
    fn new(alloc: Global) -> MetColumns<'a>
        ensures { (column : Column) → is_met result column ≡ false }
    {
        MetColumns {
            numbers: HashSet::new(alloc),
            titles: HashSet::new(alloc),
        }
    }

    // Adds a column, and says whether it is new.
    fn add(&mut self, column: &'a ColumnName) -> Result<bool, AllocError>
        ensures is_new { IfOk result (λ is_new. is_new ≡ not (is_met self.old (column_of_name column.now))) }
        ensures met { OnOk result ((other : Column) → is_met self.new other ≡ (is_same (column_of_name column.now) other || is_met self.old other)) }
    {
        match column {
            ColumnName::Number(number) => Ok(self.numbers.insert(*number)?),
            ColumnName::Header(title) => Ok(self.titles.insert(title.as_str())?),
        }
    }
}
