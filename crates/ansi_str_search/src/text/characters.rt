//! The characters that a text shows, from either end.
ghost use Rattle.std.specs.Prelude.{◌≡◌, ◌≤◌, [], ◌∷◌, ◌++◌, MatchOption, chars, length};
ghost use Rattle.ansi_scan.specs.Sequences.{ForPieces};
ghost use Rattle.ansi_str_search.specs.Text.StyledText.{strip};
ghost use Rattle.ansi_str_search.specs.Text.Characters.{shown_chars};

use crate::text::last::split_last_text;
use ansi_scan::{Kind, scan};
use std::marker::Model;

/// The characters of a text without its sequences that are still to come, made by `stripped_chars`.
/// Each is given once, from whichever end, and after the last there is `None` forever. In a contract
/// it is the list of these characters.
#[derive(Debug, Drop)]
pub struct StrippedChars<'a> {
    // what is left of the item of text that was begun at the start
    front: &'a str,
    // what is between the two
    rest: &'a str,
    // what is left of the item of text that was begun at the back
    back: &'a str,
}

impl<'a> Model for StrippedChars<'a> {
    ghost use Rattle.std.specs.Prelude.{ℕ, List, ◌++◌, chars};
    ghost use Rattle.ansi_str_search.specs.Text.Characters.{shown_chars};

    ghost Value = { List ℕ };

    ghost view = { λ s. chars s.front.now ++ (shown_chars s.rest.now ++ chars s.back.now) };
}

impl<'a> StrippedChars<'a> {
    /// The characters of the text.
    pub(crate) fn new(text: &'a str) -> Self
        ensures characters { ForPieces text.now (λ pieces. result ≡ chars (strip pieces)) }
        ensures count { length result ≤ length text.now }
    {
        StrippedChars {
            front: "",
            rest: text,
            back: "",
        }
    }
}

impl Iterator for StrippedChars<'_> {
    type Item = char;

    ghost use Rattle.std.specs.Iterator.{YieldsFirst, item_count};

    ghost next_gives = { YieldsFirst (λ characters. characters) };

    ghost remaining = { item_count (λ characters. characters) };

    fn next(&mut self) -> Option<char> {
        if let Some((character, left)) = split_first(self.front) {
            self.front = left;
            return Some(character);
        }
        let (shown, rest) = split_first_text(self.rest);
        self.rest = rest;
        if let Some((character, left)) = split_first(shown) {
            self.front = left;
            return Some(character);
        }
        let (character, left) = split_first(self.back)?;
        self.back = left;
        Some(character)
    }
}

impl DoubleEndedIterator for StrippedChars<'_> {
    ghost use Rattle.std.specs.Iterator.{YieldsLast};

    ghost next_back_gives = { YieldsLast (λ characters. characters) };

    fn next_back(&mut self) -> Option<char> {
        if let Some((left, character)) = split_last(self.back) {
            self.back = left;
            return Some(character);
        }
        let (rest, shown) = split_last_text(self.rest);
        self.rest = rest;
        if let Some((left, character)) = split_last(shown) {
            self.back = left;
            return Some(character);
        }
        let (left, character) = split_last(self.front)?;
        self.front = left;
        Some(character)
    }
}

// The first character, and the text after it.
fn split_first(text: &str) -> Option<(char, &str)>
    ensures { MatchOption result (text.now ≡ []) (λ found. chars text.now ≡ found.0 ∷ chars found.1.now) }
{
    let mut characters = text.chars();
    let first = characters.next()?;
    Some((first, characters.as_str()))
}

// The text before the last character, and that.
fn split_last(text: &str) -> Option<(&str, char)>
    ensures { MatchOption result (text.now ≡ []) (λ found. chars text.now ≡ chars found.0.now ++ found.1 ∷ []) }
{
    let mut characters = text.chars();
    let last = characters.next_back()?;
    Some((characters.as_str(), last))
}

// The first item of text, and the text after it. The item is empty where the text shows nothing.
fn split_first_text(text: &str) -> (&str, &str)
    ensures shown { shown_chars text.now ≡ chars result.0.now ++ shown_chars result.1.now }
    ensures empty { result.0.now ≡ [] → shown_chars result.1.now ≡ [] }
{
    let mut rest = text;
    while let Some(item) = scan(rest).next() {
        let behind = &rest[item.end..];
        if let Kind::Text = item.kind {
            return (&rest[..item.end], behind);
        }
        rest = behind;
    }
    ("", "")
}
