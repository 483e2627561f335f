//! Words of a line without sequences, and what they cost.
ghost use Rattle.std.specs.Prelude.{◌≡◌, ◌++◌, ◌∷◌, [], MatchOption, not, chars, encode_utf8, true};
ghost use Rattle.std.specs.List.{prefix_len};
ghost use Rattle.grid_records_measure.specs.Measures.{are_printable, cost, measure};
ghost use Rattle.tabled_size_wrap.specs.Units.{is_space};
ghost use Rattle.tabled_size_wrap.specs.Words.{AreWordAndRest};

use grid_records_measure::{get_char_width, get_string_width};

/// The word or the space that a text begins with, and the text after it. Both are empty where the text is.
pub(crate) fn split_word(text: &str) -> (&str, &str)
    ensures { AreWordAndRest text.now result.0.now result.1.now }
{
    let len = word_len(text).max(1).min(text.len());
    (&text[..len], &text[len..])
}

/// The first character of a text, and what comes after it.
pub(crate) fn split_character(text: &str) -> Option<(char, &str)>
    ensures { MatchOption result ((text.now ≡ []) × (chars text.now ≡ [])) (λ found.
        (text.now ≡ encode_utf8 found.0 ++ found.1.now) × (chars text.now ≡ found.0 ∷ chars found.1.now)) }
{
    let mut characters = text.chars();
    let c = characters.next()?;
    Some((c, characters.as_str()))
}

// How many bytes come before the first space.
fn word_len(text: &str) -> usize
    ensures { result ≡ prefix_len (λ byte. not (is_space byte)) text.now }
{
    for (i, byte) in text.as_bytes().iter().enumerate() {
        if *byte == b' ' {
            return i;
        }
    }
    text.len()
}

/// What a word costs: the columns that it measures. One that is known to be printable ASCII has a column for each byte.
pub(crate) fn word_cost(word: &str, printable: bool) -> usize
    requires { printable ≡ true → are_printable word.now ≡ true }
    ensures { result ≡ measure (chars word.now) }
{
    if printable {
        word.len()
    } else {
        get_string_width(word)
    }
}

/// What a character costs: the larger of 1 and the columns that it takes by itself.
pub(crate) fn cost(c: char) -> usize
    ensures { result ≡ cost c }
{
    match c {
        ' '..='~' => 1,
        _ => get_char_width(c).max(1),
    }
}
