//! The settings of a run, and the defaults of all settings.
ghost use Rattle.std.specs.Prelude.{◌≡◌, [], None, false};
ghost use Rattle.program_options.specs.Columns.Settings.{default_settings};
ghost use Rattle.grid_config.specs.Compact.{compact_of};

use grid_config::{ANSIBuf, CompactConfig, Indent, Sides};
use std::alloc::Global;
use tabled_glyphs::ascii;
use tabled_size_priority::Choice;

/// The settings of a run.
#[derive(Debug, Drop)]
pub struct Options {
    /// The greatest width of the table, in columns; none where it may be as wide as its text. Where the boundaries,
    /// margins and paddings alone take more, the table takes that.
    pub width: Option<usize>,
    /// Whether text beyond the width is cut off, and not wrapped. It has no effect without a width.
    pub truncate: bool,
    /// Whether lines are wrapped between words where they can be. It has no effect without a width, nor where
    /// cells are cut.
    pub keep_words: bool,
    /// Which columns are made narrower first. It has no effect without a width.
    pub priority: Choice,
    /// The glyphs, paddings, margins and alignment of the table.
    pub style: CompactConfig,
    /// Columns, counted from 0, and the colour of each: of several colours of one column the last decides. One
    /// of a column that the table does not have has no effect.
    pub colors: Vec<(usize, ANSIBuf)>,
}

impl Options {
    /// The defaults: no width, lines wrapped anywhere, columns made narrower one after the other, the style of
    /// `default_style`, and no colour. Does not allocate.
    pub fn new(alloc: Global) -> Options
        ensures width { result.width ≡ None }
        ensures truncate { result.truncate ≡ false }
        ensures keep_words { result.keep_words ≡ false }
        ensures priority { result.priority ≡ Choice.None }
        ensures style { compact_of result.style ≡ default_settings }
        ensures colors { result.colors.items ≡ [] }
    {
        Options {
            width: None,
            truncate: false,
            keep_words: false,
            priority: Choice::None,
            style: default_style(),
            colors: Vec::new(alloc),
        }
    }
}

/// The default style: boundaries of `-`, `|` and `+`, and one space on both sides of a text. Does not allocate.
pub fn default_style() -> CompactConfig
    ensures { compact_of result ≡ default_settings }
{
    let column = Indent::spaced(1);
    let none = Indent::zero();
    CompactConfig::new()
        .set_borders(ascii())
        .set_padding(Sides::new(column, column, none, none))
}
