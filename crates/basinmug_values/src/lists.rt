//! A list of columns, read.
ghost use Rattle.std.specs.Prelude.{◌≡◌, IfOk, option_map};
ghost use Rattle.program_options.specs.ColorList.Steps.{with_one_more};
ghost use Rattle.basinmug_values.specs.Lists.{column_of_name, item_of, items_of, listed, seen_items};

use crate::columns::column_named;
use crate::names::Named;
use crate::twice::has_twice;
use program_options::basinmug::ColumnName;
use std::alloc::{AllocError, Global};

/// The columns of a list and the value of each: `COLUMN=NAME`, separated by commas. None where an item has another
/// form, a column is there twice, or a name is not known. Fails only where allocation fails.
pub fn listed<T: Named + Drop>(
    alloc: Global,
    list: &str,
) -> Result<Option<Vec<(ColumnName, T)>>, AllocError>
    ensures { IfOk result (λ found. option_map (λ given. seen_items given.items) found ≡ listed T.value_of list.now) }
{
    let Some(given) = items_of(alloc, list)? else {
        return Ok(None);
    };
    if has_twice(alloc, &given)? {
        return Ok(None);
    }
    Ok(Some(given))
}

// The items of a list.
fn items_of<T: Named + Drop>(
    alloc: Global,
    list: &str,
) -> Result<Option<Vec<(ColumnName, T)>>, AllocError>
    ensures { IfOk result (λ found. option_map (λ items. seen_items items.items) found ≡ items_of T.value_of list.now) }
{
    let mut given = Some(Vec::new(alloc));
    for item in list.split(',') {
        given = match given {
            Some(items) => with_item(alloc, items, item)?,
            None => None,
        };
    }
    Ok(given)
}

// The items with one more.
fn with_item<T: Named + Drop>(
    alloc: Global,
    given: Vec<(ColumnName, T)>,
    item: &str,
) -> Result<Option<Vec<(ColumnName, T)>>, AllocError>
    ensures { IfOk result (λ found. option_map (λ items. seen_items items.items) found ≡ with_one_more (seen_items given.items) (item_of T.value_of item.now)) }
{
    let Some(item) = item_of(alloc, item)? else {
        return Ok(None);
    };
    let mut items = given;
    items.push(item)?;
    Ok(Some(items))
}

// A column and the value of its name.
fn item_of<T: Named + Drop>(
    alloc: Global,
    item: &str,
) -> Result<Option<(ColumnName, T)>, AllocError>
    ensures { IfOk result (λ found. option_map (λ given. (column_of_name given.0, given.1)) found ≡ item_of T.value_of item.now) }
{
    let Some((column, name)) = item.split_once('=') else {
        return Ok(None);
    };
    let Some(value) = T::named(alloc, name)? else {
        return Ok(None);
    };
    let Some(column) = column_named(alloc, column)? else {
        return Ok(None);
    };
    Ok(Some((column, value)))
}
