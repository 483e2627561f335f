//! What is requested of a table, as numbers.
ghost use Rattle.std.specs.Prelude.{◌≡◌, ◌<◌, ◌↔◌, IfErr, IfNone, IfOk, IfSome, IsTrue, Option, get_or, length};
ghost use Rattle.columns_bounded.specs.Requests.{IsAccepted, IsRefusedAs, ReservesNothing, most_by, priorities, styles, wanted_by, width_by};
ghost use Rattle.program_options.specs.Columns.Settings.{settings_with};
ghost use Rattle.columns_run.specs.Narrow.{HasNarrowGlyphs, IsRunnable};
ghost use Rattle.columns_run.specs.Wanted.{wanted_of};
ghost use Rattle.grid_config.specs.Compact.{compact_of};
ghost use Rattle.tabled_glyphs.specs.Glyphs.{ascii};

use grid_config::{Borders, CompactConfig};
use program_options::columns::{Options, default_style};
use std::alloc::Global;
use tabled_glyphs::{ascii, extended, modern};
use tabled_size_priority::Choice;

/// The version of `Request` that this library accepts.
pub const VERSION: u32 = 1;

/// The width of a table that may be as wide as its text.
pub const NO_WIDTH: usize = usize::MAX;

/// What is requested of a table. A number without a meaning is refused, so that a later version may give it one.
#[repr(C)]
#[derive(Drop)]
pub struct Request {
    /// `VERSION`.
    pub version: u32,
    /// The style: 0 ascii, 1 modern, 2 extended, 3 empty.
    pub style: u32,
    /// The greatest width of the table, in columns; `NO_WIDTH` if it may be as wide as its text.
    pub width: usize,
    /// Which column gives up width first if the table is made narrower: 0 each in turn, 1 the narrowest, 2 the widest,
    /// 3 the leftmost, 4 the rightmost.
    pub priority: u32,
    /// 1 to cut off what passes the width, 0 to wrap lines.
    pub truncate: u32,
    /// 1 to wrap lines between words if they can be, 0 to wrap them anywhere.
    pub keep_words: u32,
    /// 0.
    pub reserved: u32,
    /// How many bytes the table may have; 0 if it may have any number.
    pub max_size: u64,
    /// 0, each of them.
    pub reserved_words: [u64; 3],
}

/// Which number of a request has no meaning. Of several it is the first in this order.
#[derive(Clone, Copy)]
pub enum RequestFault {
    /// The version is not `VERSION`.
    Version,
    /// No style has this number.
    Style,
    /// No priority has this number.
    Priority,
    /// `truncate` is neither 0 nor 1.
    Truncate,
    /// `keep_words` is neither 0 nor 1.
    KeepWords,
    /// A reserved number is not 0.
    Reserved,
}

impl Request {
    /// The options that the numbers mean, with a narrow style and without colours; or the first number without a
    /// meaning. Does not allocate.
    pub fn options(&self, alloc: Global) -> Result<Options, RequestFault>
        ensures ok { IfOk result (λ options. IsAccepted self.now × (wanted_of options ≡ wanted_by self.now)) }
        ensures runnable { IfOk result (λ options. IsRunnable (wanted_of options)) }
        ensures err { IfErr result (λ fault. IsRefusedAs self.now fault) }
    {
        match self.first_fault() {
            Some(fault) => Err(fault),
            None => Ok(Options {
                width: width_of(self.width),
                truncate: self.truncate == 1,
                keep_words: self.keep_words == 1,
                priority: priority_numbered(self.priority),
                style: style_numbered(self.style),
                colors: Vec::new(alloc),
            }),
        }
    }

    /// How many bytes the table may have, if that is limited.
    pub fn most(&self) -> Option<usize>
        ensures { result ≡ most_by self.now.max_size }
    {
        if self.max_size == 0 {
            None
        } else {
            Some(self.max_size as usize)
        }
    }

    // The first number without a meaning.
    fn first_fault(&self) -> Option<RequestFault>
        ensures some { IfSome result (λ fault. IsRefusedAs self.now fault) }
        ensures none { IfNone result (IsAccepted self.now) }
    {
        if self.version != VERSION {
            Some(RequestFault::Version)
        } else if self.style > 3 {
            Some(RequestFault::Style)
        } else if self.priority > 4 {
            Some(RequestFault::Priority)
        } else if self.truncate > 1 {
            Some(RequestFault::Truncate)
        } else if self.keep_words > 1 {
            Some(RequestFault::KeepWords)
        } else if !self.reserves_nothing() {
            Some(RequestFault::Reserved)
        } else {
            None
        }
    }

    // Whether each reserved number is 0.
    fn reserves_nothing(&self) -> bool
        ensures { IsTrue result ↔ ReservesNothing self.now }
    {
        self.reserved == 0 && self.reserved_words == [0; 3]
    }
}

// The settings of the style of this number: its glyphs, and one column of space on both sides of a text.
fn style_numbered(number: u32) -> CompactConfig
    requires { number < length styles }
    ensures style { compact_of result ≡ settings_with (get_or styles number ascii) }
    ensures narrow { HasNarrowGlyphs (compact_of result) }
{
    style_of(borders_numbered(number))
}

// The settings with these glyphs.
fn style_of(borders: Borders<char>) -> CompactConfig
    ensures { compact_of result ≡ settings_with borders }
{
    default_style().set_borders(borders)
}

// The glyphs of the style of this number.
fn borders_numbered(number: u32) -> Borders<char>
    requires { number < length styles }
    ensures { result ≡ get_or styles number ascii }
{
    match number {
        0 => ascii(),
        1 => modern(),
        2 => extended(),
        _ => Borders::empty(),
    }
}

// The priority of this number. Of equally wide columns the left one gives up width first.
fn priority_numbered(number: u32) -> Choice
    requires { number < length priorities }
    ensures { result ≡ get_or priorities number Choice.None }
{
    match number {
        0 => Choice::None,
        1 => Choice::MinLeft,
        2 => Choice::MaxLeft,
        3 => Choice::Left,
        _ => Choice::Right,
    }
}

// The width that is requested, if any.
fn width_of(width: usize) -> Option<usize>
    ensures { result ≡ width_by width }
{
    if width == NO_WIDTH { None } else { Some(width) }
}
