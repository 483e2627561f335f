//! The column that a text names.
ghost use Rattle.std.specs.Prelude.{◌≡◌, IfOk, option_map};
ghost use Rattle.std.specs.Char.{is_ascii_digit};
ghost use Rattle.std.specs.List.{list_all};
ghost use Rattle.basinmug_values.specs.Lists.{column_named, column_of_name};

use program_options::basinmug::ColumnName;
use program_options::color_list::column_of;
use std::alloc::{AllocError, Global};

/// The column that a text names: digits are its number, any other text its header. None for the empty text and
/// for a number above 4294967295. Fails only where allocation fails.
pub fn column_named(alloc: Global, text: &str) -> Result<Option<ColumnName>, AllocError>
    ensures { IfOk result (λ found. option_map column_of_name found ≡ column_named text.now) }
{
    if is_digits(text) {
        return Ok(column_of(text).map(ColumnName::Number));
    }
    Ok(Some(ColumnName::Header(String::from_str(alloc, text)?)))
}

// Whether a text is of decimal digits alone.
fn is_digits(text: &str) -> bool
    ensures { result ≡ list_all is_ascii_digit text.now }
{
    text.as_bytes().iter().all(|byte| byte.is_ascii_digit())
}
