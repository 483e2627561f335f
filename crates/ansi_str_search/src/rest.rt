//! What is left of a text that is split.
ghost use Rattle.std.specs.Prelude.{◌≡◌, ℕ, List, Some, false};
ghost use Rattle.ansi_scan.specs.Pieces.{pieces};
ghost use Rattle.ansi_scan.specs.Attributes.{plain_attributes};
ghost use Rattle.ansi_str_search.specs.Text.StyledText.{has_escape, strip};

use crate::matches::find_empty;
use crate::places::{Place, behind_byte};
use crate::strip::{has_escape, strip_text};
use crate::stripped::{Stripped, behind};
use std::alloc::{AllocError, Global};
use std::borrow::CowStr;

/// What is left of a text that is split at a pattern.
#[derive(Debug, Drop)]
pub(crate) struct Rest<'a> {
    pub(crate) alloc: Global,
    pub(crate) pattern: &'a str,
    // where the next part begins, and whether it begins after a match
    pub(crate) place: Place<'a>,
    pub(crate) begun: bool,
    // whether the text holds an ESC
    pub(crate) styled: bool,
    // what the text shows from the place on, once that was requested
    pub(crate) stripped: Option<Stripped<'a>>,
    ghost no_escape: { styled ≡ false → has_escape place.rest.now ≡ false },
    ghost plain: { styled ≡ false → place.style ≡ plain_attributes },
    ghost shown: { (bytes : List ℕ) → stripped ≡ Some bytes → bytes ≡ strip (pieces place.rest.now) },
}

impl<'a> Rest<'a> {
    ghost use Rattle.std.specs.Prelude.{◌≡◌, ◌<◌, ◌+◌, [], ◌∷◌, IfSome, IfOk, IfErr, IsTrue, false, length};
    ghost use Rattle.std.specs.Str.{IsCharBoundary};
    ghost use Rattle.std.specs.Cow.{IsOwnedStr, cow_str_bytes};
    ghost use Rattle.ansi_scan.specs.Pieces.{pieces};
    ghost use Rattle.ansi_scan.specs.Attributes.{plain_attributes};
    ghost use Rattle.ansi_str_search.specs.Text.StyledText.{has_escape, strip};
    ghost use Rattle.ansi_str_search.specs.PartsLeft.{first_match, passed_over, parts_left};
    ghost use Rattle.ansi_str_search.specs.Rests.{rest_parts, parts_of};

    /// All of a text.
    pub(crate) fn new(alloc: Global, text: &'a str, pattern: &'a str) -> Rest<'a>
        ensures parts { rest_parts result ≡ parts_left pattern.now false plain_attributes (pieces text.now) }
        ensures styled { result.styled ≡ has_escape text.now }
    {
        Rest {
            alloc,
            pattern,
            place: Place::start_of(text),
            begun: false,
            styled: has_escape(text),
            stripped: None,
        }
    }

    /// The next part, and what is left after the match that ends it.
    pub(crate) fn split_first(self) -> Result<(CowStr<'a>, Option<Rest<'a>>), AllocError>
        ensures part { IfOk result (λ found. rest_parts self.entry ≡ cow_str_bytes found.0 ∷ parts_of found.1) }
        ensures styled { IfOk result (λ found. IfSome found.1 (λ rest. rest.styled ≡ self.entry.styled)) }
        ensures borrows { IfOk result (λ found. IsOwnedStr found.0 → IsTrue self.entry.styled) }
        ensures refuses { IfErr result (λ _. IsTrue self.entry.styled) }
    {
        let pattern = self.pattern;
        match pattern.as_bytes() {
            [byte] if byte.is_ascii() => self.split_at_byte(*byte),
            _ => self.split_at_match(),
        }
    }

    // The same where the pattern is one ASCII character: one walk to it.
    fn split_at_byte(mut self, byte: u8) -> Result<(CowStr<'a>, Option<Rest<'a>>), AllocError>
        requires { (byte < 128) × (self.pattern.now ≡ byte ∷ []) }
        ensures part { IfOk result (λ found. rest_parts self.entry ≡ cow_str_bytes found.0 ∷ parts_of found.1) }
        ensures styled { IfOk result (λ found. IfSome found.1 (λ rest. rest.styled ≡ self.entry.styled)) }
        ensures borrows { IfOk result (λ found. IsOwnedStr found.0 → IsTrue self.entry.styled) }
        ensures refuses { IfErr result (λ _. IsTrue self.entry.styled) }
    {
        let end = self.place.to_byte(byte);
        let part = self.place.part_to(self.alloc, &end)?;
        if end.rest.is_empty() {
            return Ok((part, None));
        }
        self.place = Place {
            rest: behind_byte(end.rest),
            style: end.style,
        };
        self.begun = true;
        self.stripped = None;
        Ok((part, Some(self)))
    }

    // The same for any pattern: a search, and a walk to what it found.
    fn split_at_match(mut self) -> Result<(CowStr<'a>, Option<Rest<'a>>), AllocError>
        ensures part { IfOk result (λ found. rest_parts self.entry ≡ cow_str_bytes found.0 ∷ parts_of found.1) }
        ensures styled { IfOk result (λ found. IfSome found.1 (λ rest. rest.styled ≡ self.entry.styled)) }
        ensures borrows { IfOk result (λ found. IsOwnedStr found.0 → IsTrue self.entry.styled) }
        ensures refuses { IfErr result (λ _. IsTrue self.entry.styled) }
    {
        let found = self.next_match()?;
        let len = found.unwrap_or(self.place.rest.len());
        let (part, cut) = self.place.part(self.alloc, len)?;
        let Some(n) = found else {
            return Ok((part, None));
        };
        let size = self.pattern.len();
        self.stripped = behind(self.stripped.take(), n + size);
        self.place = cut.after(size);
        self.begun = true;
        Ok((part, Some(self)))
    }

    // How many bytes the text shows from here to the next match.
    fn next_match(&mut self) -> Result<Option<usize>, AllocError>
        ensures found { IfOk result (λ found. found ≡ first_match self.new.pattern.now
            (passed_over self.new.begun self.new.pattern.now) (strip (pieces self.new.place.rest.now))) }
        ensures ends { IfOk result (λ found. IfSome found (λ n.
            IsCharBoundary (strip (pieces self.new.place.rest.now)) (n + length self.new.pattern.now))) }
        ensures refuses { IfErr result (λ _. IsTrue self.old.styled) }
        ensures parts { rest_parts self.new ≡ rest_parts self.old }
        ensures styled { self.new.styled ≡ self.old.styled }
    {
        match self.pattern.as_bytes() {
            [] => Ok(find_empty(self.place.rest, self.begun)),
            _ => self.find_shown(),
        }
    }

    // The same for a pattern that is not empty, in what the text shows, which is kept.
    fn find_shown(&mut self) -> Result<Option<usize>, AllocError>
        ensures found { IfOk result (λ found. found ≡ first_match self.new.pattern.now 0
            (strip (pieces self.new.place.rest.now))) }
        ensures ends { IfOk result (λ found. IfSome found (λ n.
            IsCharBoundary (strip (pieces self.new.place.rest.now)) (n + length self.new.pattern.now))) }
        ensures refuses { IfErr result (λ _. IsTrue self.old.styled) }
        ensures parts { rest_parts self.new ≡ rest_parts self.old }
        ensures pattern { self.new.pattern.now ≡ self.old.pattern.now }
        ensures styled { self.new.styled ≡ self.old.styled }
    {
        let stripped = match self.stripped.take() {
            Some(stripped) => stripped,
            None => Stripped::new(strip_text(self.alloc, self.place.rest)?),
        };
        let found = stripped.find(self.pattern);
        self.stripped = Some(stripped);
        Ok(found)
    }
}
