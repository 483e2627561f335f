//! The columns of a text of one line.
ghost use Rattle.std.specs.Prelude.{◌≡◌, chars, true};
ghost use Rattle.grid_records_measure.specs.Measures.{measure};
ghost use Rattle.grid_records_traits.specs.SingleLines.{IsSingleLine};
ghost use Rattle.basinmug_input.specs.Cleaning.{has_no_controls};

use grid_records_fronts::measured_front;
use grid_records_measure::get_string_width;

/// The columns that a text without control characters takes, which is one line. Does not allocate.
pub(crate) fn line_width(text: &str) -> usize
    requires { has_no_controls text.now ≡ true }
    ensures { IsSingleLine text.now result }
{
    columns_of(text)
}

// The columns that a text takes. It is read once where its columns add up.
fn columns_of(text: &str) -> usize
    ensures { result ≡ measure (chars text.now) }
{
    let (len, columns) = measured_front(text);
    if len == text.len() {
        columns
    } else {
        get_string_width(text)
    }
}
