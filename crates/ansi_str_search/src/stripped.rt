//! What a text shows, and how much of it is passed.
ghost use Rattle.std.specs.Prelude.{◌≡◌, ◌≤◌, ◌+◌, ◌-◌, IfSome, length, drop};
ghost use Rattle.std.specs.Cow.{cow_str_bytes};
ghost use Rattle.std.specs.Option.{option_map};
ghost use Rattle.std.specs.Str.{IsCharBoundary};
ghost use Rattle.ansi_str_search.specs.PartsLeft.{first_match};

use crate::matches::find_text;
use std::borrow::CowStr;
use std::marker::Model;

/// What a text shows from a place on. In a contract it is these bytes.
#[derive(Debug, Drop)]
pub(crate) struct Stripped<'a> {
    text: CowStr<'a>,
    // how many of its last bytes are left
    left: usize,
    ghost fits: { left ≤ length (cow_str_bytes text) },
    ghost cut: { IsCharBoundary (cow_str_bytes text) (length (cow_str_bytes text) - left) },
}

impl<'a> Model for Stripped<'a> {
    ghost use Rattle.std.specs.Prelude.{ℕ, List, ◌-◌, drop, length};
    ghost use Rattle.std.specs.Cow.{cow_str_bytes};

    ghost Value = { List ℕ };

    ghost view = { λ s. drop (length (cow_str_bytes s.text) - s.left) (cow_str_bytes s.text) };
}

impl<'a> Stripped<'a> {
    /// All of it.
    pub(crate) fn new(text: CowStr<'a>) -> Stripped<'a>
        ensures { result ≡ cow_str_bytes text.entry }
    {
        let left = text.as_str().len();
        Stripped { text, left }
    }

    /// How many bytes come before the first match.
    pub(crate) fn find(&self, pattern: &str) -> Option<usize>
        ensures found { result ≡ first_match pattern.now 0 self.now }
        ensures ends { IfSome result (λ n. IsCharBoundary self.now (n + length pattern.now)) }
    {
        let text = self.text.as_str();
        find_text(&text[text.len() - self.left..], pattern)
    }

    /// Passes `n` bytes.
    pub(crate) fn pass(&mut self, n: usize)
        requires { IsCharBoundary self.old n }
        ensures { self.new ≡ drop n self.old }
    {
        self.left -= n;
    }
}

/// What is shown after `n` bytes.
pub(crate) fn behind<'a>(stripped: Option<Stripped<'a>>, n: usize) -> Option<Stripped<'a>>
    requires { IfSome stripped (λ bytes. IsCharBoundary bytes n) }
    ensures { result ≡ option_map (drop n) stripped.entry }
{
    let mut stripped = stripped?;
    stripped.pass(n);
    Some(stripped)
}
