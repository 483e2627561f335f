//! Characters that join nothing after them: they add their columns to those of the text before them.
ghost use Rattle.std.specs.Prelude.{◌≡◌, ◌+◌, ◌*◌, ◌≤◌, ◌<◌, chars, length, true, false, IfNone, IfSome, ℕ};
ghost use Rattle.grid_records_measure.specs.Measures.{measure};
ghost use Rattle.grid_records_measure.specs.SimpleCharacters.{AreOfThree, AreOfTwo, of_three, of_two, takes};

/// The text before such characters at its end, and the columns that these take. Does not allocate.
/// (Unicode Standard Annex 11, by the rules of `unicode_width`.)
pub(crate) fn without_simple_end(text: &str) -> (&str, usize)
    ensures adds { measure (chars text.now) ≡ measure (chars result.0.now) + result.1 }
    ensures bound { result.1 + 2 * length result.0.now ≤ 2 * length text.now }
{
    let mut rest = text;
    let mut columns = 0;
    while let Some((front, own)) = without_run(rest) {
        rest = front;
        columns += own;
    }
    (rest, columns)
}

// The text before a run of such characters at its end, and the columns of the run, where there is one.
#[inline(always)]
fn without_run(text: &str) -> Option<(&str, usize)>
    ensures adds { IfSome result (λ found. measure (chars text.now) ≡ measure (chars found.0.now) + found.1) }
    ensures bound { IfSome result (λ found. found.1 + 2 * length found.0.now ≤ 2 * length text.now) }
    ensures shorter { IfSome result (λ found. length found.0.now < length text.now) }
{
    if let Some(front) = without_printable(text) {
        let (front, columns) = without_printables(front);
        return Some((front, columns + 1));
    }
    if let Some(front) = without_ideogram(text) {
        let (front, columns) = without_ideograms(front);
        return Some((front, columns + 2));
    }
    without_letter(text)
}

// The text before the printable ASCII at its end, and the columns of that ASCII.
#[inline(always)]
fn without_printables(text: &str) -> (&str, usize)
    ensures adds { measure (chars text.now) ≡ measure (chars result.0.now) + result.1 }
    ensures bound { result.1 + 2 * length result.0.now ≤ 2 * length text.now }
    ensures shorter { length result.0.now ≤ length text.now }
{
    let mut rest = text;
    let mut columns = 0;
    while let Some(front) = without_printable(rest) {
        rest = front;
        columns += 1;
    }
    (rest, columns)
}

// The text before the ideograms at its end, and their columns.
#[inline(always)]
fn without_ideograms(text: &str) -> (&str, usize)
    ensures adds { measure (chars text.now) ≡ measure (chars result.0.now) + result.1 }
    ensures bound { result.1 + 2 * length result.0.now ≤ 2 * length text.now }
    ensures shorter { length result.0.now ≤ length text.now }
{
    let mut rest = text;
    let mut columns = 0;
    while let Some(front) = without_ideogram(rest) {
        rest = front;
        columns += 2;
    }
    (rest, columns)
}

// The text before its last character, where that is printable ASCII.
#[inline(always)]
fn without_printable(text: &str) -> Option<&str>
    ensures adds { IfSome result (λ front. measure (chars text.now) ≡ measure (chars front.now) + 1) }
    ensures shorter { IfSome result (λ front. length front.now + 1 ≡ length text.now) }
{
    match text.as_bytes() {
        [.., b' '..=b'~'] => Some(&text[..text.len() - 1]),
        _ => None,
    }
}

// The text before its last character, where the first byte of that says that it is an ideogram or a syllable.
#[inline(always)]
fn without_ideogram(text: &str) -> Option<&str>
    ensures adds { IfSome result (λ front. measure (chars text.now) ≡ measure (chars front.now) + 2) }
    ensures shorter { IfSome result (λ front. length front.now + 3 ≡ length text.now) }
{
    match text.as_bytes() {
        [.., 0xE4..=0xE9 | 0xEB..=0xEC, _, _] => Some(&text[..text.len() - 3]),
        _ => None,
    }
}

// The text before its last character, and the columns of that, where it is another such character of two or three
// bytes.
#[inline(always)]
fn without_letter(text: &str) -> Option<(&str, usize)>
    ensures adds { IfSome result (λ found. measure (chars text.now) ≡ measure (chars found.0.now) + found.1) }
    ensures bound { IfSome result (λ found. found.1 + 2 * length found.0.now ≤ 2 * length text.now) }
    ensures shorter { IfSome result (λ found. length found.0.now < length text.now) }
{
    match text.as_bytes() {
        [.., lead @ 0xC0..=0xDF, last] => {
            let columns = columns_of_two(*lead, *last)?;
            Some((&text[..text.len() - 2], columns))
        }
        [.., lead @ 0xE0..=0xEF, middle, last] => {
            let columns = columns_of_three(*lead, *middle, *last)?;
            Some((&text[..text.len() - 3], columns))
        }
        _ => None,
    }
}

/// The columns of the letter or the mark of these two bytes, where it joins nothing after it; `None` for any other
/// character. Does not allocate. (Unicode Standard Annex 11, by the rules of `unicode_width`.)
#[inline(always)]
pub fn columns_of_two(lead: u8, last: u8) -> Option<usize>
    ensures takes { IfSome result (λ columns. takes (of_two lead last) columns ≡ true) }
    ensures others { IfNone result (AreOfTwo lead last → (columns : ℕ) → takes (of_two lead last) columns ≡ false) }
    ensures bound { IfSome result (λ columns. columns ≤ 2) }
{
    match (lead, last) {
        (0xC3..=0xCA | 0xCE..=0xD0, _) | (0xCD, 0xB0..=0xBF) => Some(1),
        (0xCB | 0xD1 | 0xD3, 0x80..=0xBF) => Some(1),
        (0xD2, 0x80..=0x82 | 0x8A..=0xBF) | (0xD4, 0x80..=0xAF) => Some(1),
        (0xCC, 0x80..=0xB7 | 0xB9..=0xBF) | (0xCD, 0x80..=0xAF) | (0xD2, 0x83..=0x89) => Some(0),
        _ => None,
    }
}

/// The columns of the character of these three bytes, where it is simple: an ideogram, a syllable, a letter or a
/// mark that joins nothing after it. `None` for any other character. The second and the third byte must be UTF-8
/// continuation bytes. Does not allocate. (Unicode Standard Annex 11, by the rules of `unicode_width`.)
#[inline(always)]
pub fn columns_of_three(lead: u8, middle: u8, last: u8) -> Option<usize>
    requires middle { (0x80 ≤ middle) × (middle ≤ 0xBF) }
    requires last { (0x80 ≤ last) × (last ≤ 0xBF) }
    ensures takes { IfSome result (λ columns. takes (of_three lead middle last) columns ≡ true) }
    ensures others { IfNone result (AreOfThree lead middle last → (columns : ℕ) → takes (of_three lead middle last) columns ≡ false) }
    ensures bound { IfSome result (λ columns. columns ≤ 2) }
{
    match (lead, middle) {
        (0xE4..=0xE9 | 0xEB..=0xEC, _) => Some(2),
        (0xEA, 0xB0..=0xBF) | (0xED, 0x80..=0x9D) | (0xE3, 0x83) => Some(2),
        (0xE3, 0x80) if (0x81..=0xA9).contains(&last) => Some(2),
        (0xE3, 0x81) if last >= 0x81 => Some(2),
        (0xE3, 0x82) if last <= 0x96 || last >= 0xA0 => Some(2),
        (0xEF, 0xBC) if last >= 0x81 => Some(2),
        (0xEF, 0xBD) if last <= 0xA0 => Some(2),
        (0xE2, 0x80) if (0x90..=0xA7).contains(&last) => Some(1),
        (0xE0, 0xA4 | 0xA5) => devanagari_columns(middle, last),
        (0xE0, 0xB8 | 0xB9) => thai_columns(middle, last),
        _ => None,
    }
}

// The columns of a letter or a mark of Devanagari, by the last two of its bytes.
fn devanagari_columns(middle: u8, last: u8) -> Option<usize>
    requires middle { (0xA4 ≤ middle) × (middle ≤ 0xA5) }
    requires last { (0x80 ≤ last) × (last ≤ 0xBF) }
    ensures takes { IfSome result (λ columns. takes (of_three 0xE0 middle last) columns ≡ true) }
    ensures others { IfNone result ((columns : ℕ) → takes (of_three 0xE0 middle last) columns ≡ false) }
    ensures bound { IfSome result (λ columns. columns ≤ 2) }
{
    match (middle, last) {
        (0xA4, 0x83..=0xB9 | 0xBD..=0xBF) | (0xA5, 0x80) => Some(1),
        (0xA4, 0xBC) | (0xA5, 0x81..=0x88 | 0x8D) => Some(0),
        _ => None,
    }
}

// The same of Thai.
fn thai_columns(middle: u8, last: u8) -> Option<usize>
    requires middle { (0xB8 ≤ middle) × (middle ≤ 0xB9) }
    requires last { (0x80 ≤ last) × (last ≤ 0xBF) }
    ensures takes { IfSome result (λ columns. takes (of_three 0xE0 middle last) columns ≡ true) }
    ensures others { IfNone result ((columns : ℕ) → takes (of_three 0xE0 middle last) columns ≡ false) }
    ensures bound { IfSome result (λ columns. columns ≤ 2) }
{
    match (middle, last) {
        (0xB8, 0x81..=0xB0 | 0xB2..=0xB3) | (0xB9, 0x80..=0x86) => Some(1),
        (0xB8, 0xB1 | 0xB4..=0xBA) | (0xB9, 0x87..=0x8E) => Some(0),
        _ => None,
    }
}

/// The text after the ideograms and syllables that it begins with, and the columns that these take. They join
/// nothing after them, whatever it is. Does not allocate.
#[inline(always)]
pub(crate) fn behind_ideograms(text: &str) -> (&str, usize)
    ensures adds { measure (chars text.now) ≡ measure (chars result.0.now) + result.1 }
    ensures bound { result.1 + 2 * length result.0.now ≤ 2 * length text.now }
{
    let mut rest = text;
    let mut columns = 0;
    while let Some(behind) = behind_ideogram(rest) {
        rest = behind;
        columns += 2;
    }
    (rest, columns)
}

// The text after its first character, where the first byte says that this is an ideogram or a syllable.
#[inline(always)]
fn behind_ideogram(text: &str) -> Option<&str>
    ensures adds { IfSome result (λ behind. measure (chars text.now) ≡ measure (chars behind.now) + 2) }
    ensures shorter { IfSome result (λ behind. length behind.now + 3 ≡ length text.now) }
{
    match text.as_bytes() {
        [0xE4..=0xE9 | 0xEB..=0xEC, _, _, ..] => Some(&text[3..]),
        _ => None,
    }
}
