//! Texts that stay as they are where they are wrapped.
ghost use Rattle.std.specs.Prelude.{◌≡◌, chars, false, nat_le};
ghost use Rattle.std.specs.List.{list_all};
ghost use Rattle.ansi_scan.specs.Pieces.{pieces};
ghost use Rattle.ansi_str.specs.StyledText.{has_escape};
ghost use Rattle.grid_records_measure.specs.Measures.{line_cost};
ghost use Rattle.grid_records_measure.specs.PlainCharacters.{is_one_column as takes_one, is_plain_character, is_two_columns as takes_two};
ghost use Rattle.grid_records_measure.specs.TextLines.{shown_lines};
ghost use Rattle.tabled_size_wrap.specs.Staying.{line_stays as stays_as_line, stays as stays_as_text};

use ansi_str::AnsiStr;
use grid_records_measure::{get_char_width, split_line};

/// Whether a look shows that a text stays, byte for byte, where it is wrapped at a width. It does where the width
/// is at least 1, the text has no ESC, and the characters of each line cost at most the width. Where words are kept
/// the characters must be plain ones too. Does not allocate.
pub fn stays(text: &str, width: usize, keep_words: bool) -> bool
    ensures { result ≡ stays_as_text keep_words width text.now }
{
    if width == 0 || text.ansi_has_any() {
        return false;
    }
    lines_stay(text, width, keep_words)
}

// The same of the lines of a text without ESC.
fn lines_stay(text: &str, width: usize, keep_words: bool) -> bool
    requires { has_escape text.now ≡ false }
    ensures { result ≡ list_all (stays_as_line keep_words width) (shown_lines (pieces text.now)) }
{
    let (line, mut rest) = split_line(text);
    if !line_stays(line, width, keep_words) {
        return false;
    }
    while let Some(others) = rest {
        let (line, behind) = split_line(others);
        if !line_stays(line, width, keep_words) {
            return false;
        }
        rest = behind;
    }
    true
}

// The same of a line without ESC.
fn line_stays(line: &str, width: usize, keep_words: bool) -> bool
    ensures { result ≡ stays_as_line keep_words width line.now }
{
    takes_at_most(line, width) && (!keep_words || is_plain(line))
}

// Whether the characters cost at most the width.
fn takes_at_most(line: &str, width: usize) -> bool
    ensures { result ≡ nat_le (line_cost (chars line.now)) width }
{
    let mut left = width;
    for c in line.chars() {
        let cost = get_char_width(c).max(1);
        if cost > left {
            return false;
        }
        left -= cost;
    }
    true
}

// Whether a word of these characters measures what they cost: whether all are plain.
fn is_plain(line: &str) -> bool
    ensures { result ≡ list_all is_plain_character (chars line.now) }
{
    line.chars().all(|c| is_one_column(c) || is_two_columns(c))
}

fn is_one_column(c: char) -> bool
    ensures { result ≡ takes_one c }
{
    matches!(c, ' '..='~' | '\u{c0}'..='\u{24f}' | '\u{410}'..='\u{44f}' | '\u{2500}'..='\u{257f}' | '\u{fffd}')
}

fn is_two_columns(c: char) -> bool
    ensures { result ≡ takes_two c }
{
    matches!(c, '\u{4e00}'..='\u{9fff}' | '\u{1f600}'..='\u{1f64f}')
}
