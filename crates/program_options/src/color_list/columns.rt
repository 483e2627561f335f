//! The number of a column.
ghost use Rattle.std.specs.Prelude.{◌≡◌};
ghost use Rattle.std.specs.Char.{is_ascii_digit};
ghost use Rattle.std.specs.List.{list_all};
ghost use Rattle.program_options.specs.ColorList.Listed.{column_of};

/// The column that one or more decimal digits write; none above 4294967295. Does not allocate.
pub fn column_of(text: &str) -> Option<usize>
    ensures { result ≡ column_of text.now }
{
    if !are_digits(text) {
        return None;
    }
    match text.parse::<u32>() {
        Ok(column) => Some(column as usize),
        Err(_) => None,
    }
}

// Whether all bytes are decimal digits.
fn are_digits(text: &str) -> bool
    ensures { result ≡ list_all is_ascii_digit text.now }
{
    text.as_bytes().iter().all(|byte| byte.is_ascii_digit())
}
