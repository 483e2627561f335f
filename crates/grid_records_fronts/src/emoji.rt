//! Emoji that a text begins with: flags, and emoji that joiners make one (Unicode Technical Standard 51).
ghost use Rattle.std.specs.Prelude.{◌≡◌, [], ◌∷◌, IfSome};
ghost use Rattle.grid_records_fronts.specs.Emoji.{is_element, is_indicator, is_pictograph};
ghost use Rattle.grid_records_fronts.specs.Fronts.{Begins, BeginsWithElement, BeginsWithEmoji, BeginsWithFlag, BeginsWithJoined, BeginsWithOther};

use ucd_emoji::{is_emoji_modifier_base, is_emoji_variation_base};

/// ZERO WIDTH JOINER.
const JOINER: char = '\u{200D}';

/// VARIATION SELECTOR-16, which requests an emoji.
const SELECTOR: char = '\u{FE0F}';

/// The text after the emoji that it begins with.
pub(crate) fn behind_emoji(text: &str) -> Option<&str>
    ensures { IfSome result (λ rest. BeginsWithEmoji text.now rest.now) }
{
    match behind_flag(text) {
        Some(rest) => Some(rest),
        None => behind_joined(text),
    }
}

// The text after a flag: two regional indicators (definition 14).
#[inline(always)]
fn behind_flag(text: &str) -> Option<&str>
    ensures { IfSome result (λ rest. BeginsWithFlag text.now rest.now) }
{
    let (first, behind) = split_first(text)?;
    if !is_indicator(first) {
        return None;
    }
    let (second, rest) = split_first(behind)?;
    if is_indicator(second) {
        Some(rest)
    } else {
        None
    }
}

// The text after emoji with a joiner between each two (definition 16).
#[inline(always)]
fn behind_joined(text: &str) -> Option<&str>
    ensures { IfSome result (λ rest. BeginsWithJoined text.now rest.now) }
{
    let mut rest = behind_element(text)?;
    while let Some(next) = behind_other(rest) {
        rest = next;
    }
    Some(rest)
}

// The text after a joiner and an emoji.
#[inline(always)]
fn behind_other(text: &str) -> Option<&str>
    ensures { IfSome result (λ rest. BeginsWithOther text.now rest.now) }
{
    match split_first(text)? {
        (JOINER, behind) => behind_element(behind),
        _ => None,
    }
}

// The text after one emoji: a pictograph, a character with the selector, or one with a modifier.
#[inline(always)]
fn behind_element(text: &str) -> Option<&str>
    ensures { IfSome result (λ rest. BeginsWithElement text.now rest.now) }
{
    let (base, behind) = split_first(text)?;
    if let Some((mark, rest)) = split_first(behind) {
        if is_marked(base, mark) {
            return Some(rest);
        }
    }
    if is_pictograph(base) {
        Some(behind)
    } else {
        None
    }
}

// Whether the two are an emoji by the selector, or by a modifier (definitions 9a and 13).
#[inline(always)]
fn is_marked(base: char, mark: char) -> bool
    ensures { result ≡ is_element (base ∷ mark ∷ []) }
{
    match mark {
        SELECTOR => is_emoji_variation_base(base),
        '\u{1F3FB}'..='\u{1F3FF}' => is_emoji_modifier_base(base),
        _ => false,
    }
}

// The first character, and the text after it.
#[inline(always)]
fn split_first(text: &str) -> Option<(char, &str)>
    ensures { IfSome result (λ found. Begins text.now (found.0 ∷ []) found.1.now) }
{
    let mut characters = text.chars();
    let first = characters.next()?;
    Some((first, characters.as_str()))
}

fn is_indicator(c: char) -> bool
    ensures { result ≡ is_indicator c }
{
    matches!(c, '\u{1F1E6}'..='\u{1F1FF}')
}

// Whether a character is one of the pictographs that are listed.
fn is_pictograph(c: char) -> bool
    ensures { result ≡ is_pictograph c }
{
    matches!(
        c,
        '\u{2705}'
            | '\u{2728}'
            | '\u{274c}'
            | '\u{2753}'..='\u{2755}'
            | '\u{2757}'
            | '\u{2b50}'
            | '\u{1f300}'..='\u{1f320}'
            | '\u{1f32d}'..='\u{1f335}'
            | '\u{1f337}'..='\u{1f37c}'
            | '\u{1f37e}'..='\u{1f393}'
            | '\u{1f3a0}'..='\u{1f3ca}'
            | '\u{1f3e0}'..='\u{1f3f0}'
            | '\u{1f400}'..='\u{1f43e}'
            | '\u{1f442}'..='\u{1f4fc}'
            | '\u{1f4ff}'..='\u{1f53d}'
            | '\u{1f550}'..='\u{1f567}'
            | '\u{1f5fb}'..='\u{1f64f}'
            | '\u{1f680}'..='\u{1f6c5}'
            | '\u{1f90c}'..='\u{1f93a}'
            | '\u{1f93c}'..='\u{1f945}'
            | '\u{1f947}'..='\u{1f9ff}'
    )
}
