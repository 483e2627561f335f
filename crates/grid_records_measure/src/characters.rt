//! The columns that characters take.
ghost use Rattle.std.specs.Prelude.{◌≡◌, chars};
ghost use Rattle.grid_records_measure.specs.Measures.{cost, measure, own_width};

use crate::printable::is_printable;
use crate::simple::{behind_ideograms, without_simple_end};
use unicode_width::{UnicodeWidthChar, UnicodeWidthStr};

/// The columns that a character takes by itself; none counts as 0. Does not allocate. (Unicode Standard
/// Annex 11, by the rules of `unicode_width`.)
pub fn get_char_width(c: char) -> usize
    ensures { result ≡ own_width c }
{
    c.width().unwrap_or(0)
}

/// The columns that a text takes with its sequences read as text. Does not allocate.
pub fn get_string_width(text: &str) -> usize
    ensures { result ≡ measure (chars text.now) }
{
    if let [b' '..=b'~', .., b' '..=b'~'] = text.as_bytes() {
        if is_printable(text) {
            return text.len();
        }
    }
    let (front, behind) = without_simple_end(text);
    if front.is_empty() {
        return behind;
    }
    let (others, before) = behind_ideograms(front);
    before + others.width() + behind
}

/// What a character costs in a line that is cut or wrapped: the larger of 1 and its own width.
pub(crate) fn cost(c: char) -> usize
    ensures { result ≡ cost c }
{
    get_char_width(c).max(1)
}
