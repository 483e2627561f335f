//! The first item of a text, found byte by byte.
//!
//! A read is of one byte. Each byte of an item is read once for that item. The reads beyond those are counted
//! apart. After a text item that is one read, of the ESC there. After an ESC that begins no sequence, the bytes
//! up to the next ESC are read, then that ESC and the byte after it, each at most once. So there are at most
//! three reads of each byte of a text.

ghost use Rattle.std.specs.Prelude.{◌≡◌, ◌≤◌, ◌<◌, ◌+◌, ◌^◌, ℕ, List, IfNone, IfSome, drop, length, true};
ghost use Rattle.ansi_scan.specs.Pieces.{text_len, control_from, string_from, escape_from, sequence_front, leading_piece};
ghost use Rattle.ansi_scan.specs.Reads.{control_reads, escape_reads, piece_reads, string_reads, tried_reads};

use crate::items::Kind;

/// ESCAPE, by which every sequence begins (ECMA-48, 8.3.48).
pub const ESC: u8 = 0x1b;
/// BELL, which ends an operating system command (ECMA-48, 8.3.3).
const BEL: u8 = 0x07;

/// CANCEL, which no string holds (ECMA-48, 8.3.6).
const CAN: u8 = 0x18;

/// SUBSTITUTE, which no string holds (ECMA-48, 8.3.148).
const SUB: u8 = 0x1a;

/// The first item of a text.
#[derive(Clone, Copy)]
pub(crate) struct FirstItem {
    pub kind: Kind,
    /// How many bytes it has.
    pub len: usize,
    /// How many reads were made beyond one of each of its bytes.
    pub beyond: usize,
}

/// The first item.
#[tactic(auto, unfolding(crate::specs::Pieces::leading_piece, crate::specs::Pieces::at_escape))]
pub(crate) fn front(bytes: &[u8]) -> FirstItem
    requires { 0 < length bytes.now }
    ensures kind { (result.kind, result.len) ≡ leading_piece bytes.now }
    ensures some { 0 < result.len }
    ensures in_range { result.len ≤ length bytes.now }
    ensures reads { result.len + result.beyond ≡ piece_reads result.kind result.len (drop result.len bytes.now) }
{
    let len = text_len(bytes);
    if len > 0 {
        // the read of the ESC after it
        let beyond = usize::from(len < bytes.len());
        return FirstItem {
            kind: Kind::Text,
            len,
            beyond,
        };
    }
    let mut beyond = 0;
    let (kind, len) = sequence(bytes, &mut beyond).unwrap_or((Kind::Broken, 1));
    FirstItem { kind, len, beyond }
}

// How many bytes come before the first ESC, or all of them where there is none.
fn text_len(bytes: &[u8]) -> usize
    ensures value { result ≡ text_len bytes.now }
    ensures in_range { result ≤ length bytes.now }
{
    for (i, byte) in bytes.iter().enumerate() {
        if *byte == ESC {
            return i;
        }
    }
    bytes.len()
}

// The kind and the length of the sequence at the start of bytes that begin with ESC. Where there is none,
// `tried` becomes the count of reads after the ESC that showed it.
#[tactic(auto, unfolding(crate::specs::Pieces::sequence_front, crate::specs::Pieces::opened))]
fn sequence(bytes: &[u8], tried: &mut usize) -> Option<(Kind, usize)>
    ensures value { result ≡ sequence_front bytes.now }
    ensures in_range { IfSome result (λ found. found.1 ≤ length bytes.now) }
    ensures some { IfSome result (λ found. 0 < found.1) }
    ensures plain { IfSome result (λ found. piece_reads found.0 found.1 (drop found.1 bytes.now) ≡ found.1) }
    ensures untouched { IfSome result (λ _. tried.new ≡ tried.old) }
    ensures tried { IfNone result (tried.new ≡ tried_reads (drop 1 bytes.now)) }
{
    let [_, opener, rest @ ..] = bytes else {
        *tried = 0;
        return None;
    };
    match *opener {
        b'[' => {
            let (kind, len) = control_sequence(rest, tried)?;
            Some((kind, len + 2))
        }
        b']' => Some((Kind::Osc, string_len(rest, true, tried)? + 2)),
        b'P' | b'X' | b'^' | b'_' => Some((Kind::Str, string_len(rest, false, tried)? + 2)),
        0x20..=0x2f => Some((Kind::Esc, escape_len(rest, tried)? + 2)),
        0x30..=0x7e => Some((Kind::Esc, 2)),
        _ => {
            *tried = 1;
            None
        }
    }
}

// The kind and the length of a control sequence after ESC and `[` (ECMA-48, 5.4). Where there is none, `tried`
// becomes the count of reads that showed it, `[` included. The functions below count the opener likewise.
#[tactic(auto, unfolding(crate::specs::Pieces::control_from))]
fn control_sequence(bytes: &[u8], tried: &mut usize) -> Option<(Kind, usize)>
    requires { length bytes.now + 1 < 2 ^ 64 }
    ensures value { result ≡ control_from 0 true true bytes.now }
    ensures in_range { IfSome result (λ found. found.1 ≤ length bytes.now) }
    ensures plain { (behind : List ℕ) → IfSome result (λ found. piece_reads found.0 found.1 behind ≡ found.1) }
    ensures untouched { IfSome result (λ _. tried.new ≡ tried.old) }
    ensures tried { IfNone result (tried.new ≡ 1 + control_reads bytes.now) }
{
    let mut numeric = true;
    let mut parameters = true;
    for (i, byte) in bytes.iter().enumerate() {
        let byte = *byte;
        match byte {
            0x30..=0x3f if parameters => numeric = numeric && byte <= 0x3b,
            0x20..=0x2f => {
                numeric = false;
                parameters = false;
            }
            b'm' if numeric => return Some((Kind::Sgr, i + 1)),
            0x40..=0x7e => return Some((Kind::Csi, i + 1)),
            _ => {
                *tried = i + 2;
                return None;
            }
        }
    }
    *tried = bytes.len() + 1;
    None
}

// The length of a string with its end: STRING TERMINATOR, or BELL where that ends it.
#[tactic(auto, unfolding(crate::specs::Pieces::string_from))]
fn string_len(bytes: &[u8], bell_ends: bool, tried: &mut usize) -> Option<usize>
    requires { length bytes.now + 1 < 2 ^ 64 }
    ensures value { result ≡ string_from 0 bell_ends bytes.now }
    ensures in_range { IfSome result (λ len. len ≤ length bytes.now) }
    ensures untouched { IfSome result (λ _. tried.new ≡ tried.old) }
    ensures tried { IfNone result (tried.new ≡ 1 + string_reads bell_ends bytes.now) }
{
    for (i, byte) in bytes.iter().enumerate() {
        if bell_ends && *byte == BEL {
            return Some(i + 1);
        }
        if *byte == ESC {
            // and the read of the byte after an ESC, where there is one
            let next = bytes.get(i + 1);
            if next == Some(&b'\\') {
                return Some(i + 2);
            }
            *tried = i + 2 + usize::from(next.is_some());
            return None;
        }
        if *byte == CAN || *byte == SUB {
            *tried = i + 2;
            return None;
        }
    }
    *tried = bytes.len() + 1;
    None
}

// The length of further intermediate bytes of an escape sequence with its final byte.
#[tactic(auto, unfolding(crate::specs::Pieces::escape_from))]
fn escape_len(bytes: &[u8], tried: &mut usize) -> Option<usize>
    requires { length bytes.now + 1 < 2 ^ 64 }
    ensures value { result ≡ escape_from 0 bytes.now }
    ensures in_range { IfSome result (λ len. len ≤ length bytes.now) }
    ensures untouched { IfSome result (λ _. tried.new ≡ tried.old) }
    ensures tried { IfNone result (tried.new ≡ 1 + escape_reads bytes.now) }
{
    for (i, byte) in bytes.iter().enumerate() {
        match *byte {
            0x20..=0x2f => {}
            0x30..=0x7e => return Some(i + 1),
            _ => {
                *tried = i + 2;
                return None;
            }
        }
    }
    *tried = bytes.len() + 1;
    None
}
