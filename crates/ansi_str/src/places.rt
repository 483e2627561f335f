//! The parts of a text that is split at places.
ghost use Rattle.std.specs.Prelude.{◌≡◌, ◌↔◌, [], ◌∷◌, length, map, min, IfOk, IsOk, IsTrue, false};
ghost use Rattle.std.specs.Cow.{cow_str_bytes};
ghost use Rattle.ansi_scan.specs.Sequences.{ForPieces};
ghost use Rattle.ansi_str.specs.StyledText.{BorrowsWithoutEscape, has_escape, strip};
ghost use Rattle.ansi_str.specs.Cuts.{AreSplitPlaces, parts_at};
ghost use Rattle.ansi_str.specs.Parts.{IsGoodBound};

use ansi_str_search::{Place, behind_place};
use std::alloc::{AllocError, Global};
use std::borrow::CowStr;

/// The parts of a text between places of the text without its sequences, one more than there are places,
/// provided that `are_places` is true of these. A part has the sequences after its first place, up to its
/// last place; the first part has those at its first place too. A part begins with the start of the style
/// known after the parts before it, and ends with the end of the style then open. Fails only where
/// allocation fails.
pub fn split_places<'a>(
    alloc: Global,
    text: &'a str,
    places: &[usize],
) -> Result<Vec<CowStr<'a>>, AllocError>
    requires { ForPieces text.now (λ pieces. AreSplitPlaces (strip pieces) places.now) }
    ensures { IfOk result (λ parts. ForPieces text.now (λ pieces. map cow_str_bytes parts.items ≡ parts_at places.now pieces)) }
{
    let mut parts = Vec::new(alloc);
    let mut place = Place::start_of(text);
    let mut from = 0;
    for at in places {
        let end = place.through(*at - from);
        parts.push(place.part_to(alloc, &end)?)?;
        place = end;
        from = *at;
    }
    let end = place.through(place.rest.len());
    parts.push(place.part_to(alloc, &end)?)?;
    Ok(parts)
}

/// Whether a text can be split at these places. Each is a character boundary of the text without its
/// sequences, and after the one before it. Does not allocate.
pub fn are_places(text: &str, places: &[usize]) -> bool
    ensures { ForPieces text.now (λ pieces. IsTrue result ↔ AreSplitPlaces (strip pieces) places.now) }
{
    let Some((first, others)) = places.split_first() else {
        return true;
    };
    let Some(mut rest) = behind_place(text, *first) else {
        return false;
    };
    let mut from = *first;
    for at in others {
        if *at <= from {
            return false;
        }
        let Some(behind) = behind_place(rest, *at - from) else {
            return false;
        };
        rest = behind;
        from = *at;
    }
    true
}

/// The two parts of a text that is split at one place, or at its end where the place is past it.
pub(crate) fn split_at(
    alloc: Global,
    text: &str,
    mid: usize,
) -> Result<(CowStr<'_>, CowStr<'_>), AllocError>
    requires { ForPieces text.now (λ pieces. IsGoodBound (strip pieces) mid) }
    ensures parts { IfOk result (λ parts. ForPieces text.now (λ pieces.
        parts_at (min mid (length (strip pieces)) ∷ []) pieces ≡ cow_str_bytes parts.0 ∷ cow_str_bytes parts.1 ∷ [])) }
    ensures answers { has_escape text.now ≡ false → IsOk result }
    ensures borrows { IfOk result (λ parts. BorrowsWithoutEscape text.now parts.0 × BorrowsWithoutEscape text.now parts.1) }
{
    let start = Place::start_of(text);
    let cut = start.through(mid);
    let first = start.part_to(alloc, &cut)?;
    let second = cut.part_to(alloc, &cut.through(cut.rest.len()))?;
    Ok((first, second))
}
