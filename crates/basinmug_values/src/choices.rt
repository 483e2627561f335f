//! A list of chosen columns, read.
ghost use Rattle.std.specs.Prelude.{◌≡◌, IfOk, map, option_map};
ghost use Rattle.program_options.specs.ColorList.Steps.{with_one_more};
ghost use Rattle.basinmug_values.specs.Choices.{chosen_listed, chosen_named, chosen_of, range_of, rising};

use crate::columns::column_named;
use program_options::basinmug::ColumnChoice;
use program_options::color_list::column_of;
use std::alloc::{AllocError, Global};

/// The columns that a list chooses: `COLUMN` or `NUMBER-NUMBER`, separated by commas. None where an item is neither,
/// or the second number of a range is less than the first. Fails only where allocation fails.
pub fn chosen_listed(alloc: Global, list: &str) -> Result<Option<Vec<ColumnChoice>>, AllocError>
    ensures { IfOk result (λ found. option_map (λ choices. map chosen_of choices.items) found ≡ chosen_listed list.now) }
{
    let mut chosen = Some(Vec::new(alloc));
    for item in list.split(',') {
        chosen = match chosen {
            Some(choices) => with_choice(alloc, choices, item)?,
            None => None,
        };
    }
    Ok(chosen)
}

// The choices with one more.
fn with_choice(
    alloc: Global,
    chosen: Vec<ColumnChoice>,
    item: &str,
) -> Result<Option<Vec<ColumnChoice>>, AllocError>
    ensures { IfOk result (λ found. option_map (λ choices. map chosen_of choices.items) found ≡ with_one_more (map chosen_of chosen.items) (chosen_named item.now)) }
{
    let Some(choice) = chosen_named(alloc, item)? else {
        return Ok(None);
    };
    let mut choices = chosen;
    choices.push(choice)?;
    Ok(Some(choices))
}

// The columns that an item chooses.
fn chosen_named(alloc: Global, item: &str) -> Result<Option<ColumnChoice>, AllocError>
    ensures { IfOk result (λ found. option_map chosen_of found ≡ chosen_named item.now) }
{
    if let Some((first, last)) = range_of(item) {
        return Ok(rising(first, last));
    }
    match column_named(alloc, item)? {
        Some(name) => Ok(Some(ColumnChoice::One(name))),
        None => Ok(None),
    }
}

// The two numbers on both sides of the hyphen of a text.
fn range_of(text: &str) -> Option<(usize, usize)>
    ensures { result ≡ range_of text.now }
{
    let Some((first, last)) = text.split_once('-') else {
        return None;
    };
    match (column_of(first), column_of(last)) {
        (Some(first), Some(last)) => Some((first, last)),
        _ => None,
    }
}

// The columns from one number to another that is not less.
fn rising(first: usize, last: usize) -> Option<ColumnChoice>
    ensures { option_map chosen_of result ≡ rising first last }
{
    if first <= last {
        Some(ColumnChoice::Range { first, last })
    } else {
        None
    }
}
