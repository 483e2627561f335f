//! The measures of texts and their lines, without allocating.
ghost use Rattle.std.specs.Prelude.{◌≡◌, chars, length};
ghost use Rattle.ansi_scan.specs.Sequences.{ForPieces};
ghost use Rattle.ansi_str.specs.StyledText.{strip};
ghost use Rattle.grid_records_measure.specs.Measures.{measure};
ghost use Rattle.grid_records_measure.specs.TextLines.{line_width, shown_lines, text_height, text_width, widest};

use crate::characters::get_string_width;
use crate::printable::printable_width;
use crate::raw_lines::split_line;
use ansi_str::AnsiStr;
use ansi_str_search::text::stripped_chars;
use unicode_width::char_iter_width;

/// The columns that a text takes without its sequences, as one line. Does not allocate. (Unicode Standard
/// Annex 11, by the rules of `unicode_width`.)
pub fn get_line_width(text: &str) -> usize
    ensures pieces { ForPieces text.now (λ pieces. result ≡ measure (chars (strip pieces))) }
    ensures text { result ≡ line_width text.now }
{
    if !text.ansi_has_any() {
        return get_string_width(text);
    }
    match printable_width(text) {
        Some(width) => width,
        None => char_iter_width(stripped_chars(text)),
    }
}

/// The columns of the widest line of a text. Does not allocate.
pub fn get_text_width(text: &str) -> usize
    ensures pieces { ForPieces text.now (λ pieces. result ≡ widest (shown_lines pieces)) }
    ensures text { result ≡ text_width text.now }
{
    let (_, width) = get_text_dimension(text);
    width
}

/// How many lines a text has, and the columns of the widest. Does not allocate.
pub fn get_text_dimension(text: &str) -> (usize, usize)
    ensures lines { ForPieces text.now (λ pieces. result.0 ≡ length (shown_lines pieces)) }
    ensures width { ForPieces text.now (λ pieces. result.1 ≡ widest (shown_lines pieces)) }
    ensures height { result.0 ≡ text_height text.now }
    ensures columns { result.1 ≡ text_width text.now }
{
    let (line, mut rest) = split_line(text);
    let mut count = 1;
    let mut width = get_line_width(line);
    while let Some(others) = rest {
        let (line, behind) = split_line(others);
        count += 1;
        width = width.max(get_line_width(line));
        rest = behind;
    }
    (count, width)
}
