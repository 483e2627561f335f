//! From a reader to a writer: all bytes, the text, the table.
ghost use Rattle.std.specs.Prelude.{◌≡◌};
ghost use Rattle.program_options.specs.Columns.ColumnColors.{AllClose};
ghost use Rattle.grid_config.specs.Compact.{compact_of};
ghost use Rattle.columns_run.specs.Narrow.{HasNarrowGlyphs, IsRunnable};
ghost use Rattle.columns_run.specs.Run.{IsRun};
ghost use Rattle.columns_run.specs.Wanted.{wanted_of, style_alone};
ghost use Rattle.columns_run.specs.Written.{WritesTable};

use crate::input::{read_all, text_of};
use crate::layout::write_text;
use grid_config::CompactConfig;
use program_options::columns::{Options, RunFault};
use std::alloc::Global;
use std::io::{Read, Write};
use tabled_output::Counted;
use tabled_size_priority::Choice;

// How many reads without an end are too many: `read_limit` of the contract.
const READ_LIMIT: u64 = 1 << 40;

/// Reads all text, cells between tabs and rows between line feeds, and writes it as a table with borders, in the
/// requested width and colours. Each line of the table ends with a line feed; for a text without rows it writes
/// nothing. The style must be narrow, which `style_is_plain` decides, and the colours must close, which `colors_close`
/// decides.
///
/// It holds the input, the places of its cells, one line of the table at a time, and what the rows have in common.
/// Where the text has an ESC, or columns shrink, it also holds texts of cells. Before an error of the reader or the
/// input it writes nothing; before one of the writer, or `Memory`, it may have written a prefix of the table. It
/// flushes nothing.
pub fn run<R: Read, W: Write>(
    alloc: Global,
    options: &Options,
    reader: &mut Counted<R>,
    writer: &mut Counted<W>,
) -> Result<(), RunFault>
    requires { IsRunnable (wanted_of options.now) }
    ensures { IsRun R.remaining W.contents (wanted_of options.now) result reader.old reader.new writer.old writer.new }
{
    run_buffered(alloc, options, 0, reader, writer)
}

/// Does what `run` does, but writes many lines at once. They are held in a buffer of so many bytes, for a writer
/// that has no buffer of its own. Where the buffer has no bytes, each line is written as soon as it is made.
pub fn run_buffered<R: Read, W: Write>(
    alloc: Global,
    options: &Options,
    size: usize,
    reader: &mut Counted<R>,
    writer: &mut Counted<W>,
) -> Result<(), RunFault>
    requires { IsRunnable (wanted_of options.now) }
    ensures { IsRun R.remaining W.contents (wanted_of options.now) result reader.old reader.new writer.old writer.new }
{
    let bytes = read_all(alloc, reader, READ_LIMIT)?;
    write_input(alloc, options, &bytes, size, writer)
}

/// Does what `run` does without a width and without colours: the table is in this style, and as wide as its text. The
/// style must be narrow, which `style_is_plain` decides. It fails as `run` does, and then has written the same.
pub fn run_streamed<R: Read, W: Write>(
    alloc: Global,
    style: &CompactConfig,
    reader: &mut Counted<R>,
    writer: &mut Counted<W>,
) -> Result<(), RunFault>
    requires { HasNarrowGlyphs (compact_of style.now) }
    ensures { IsRun R.remaining W.contents (style_alone (compact_of style.now)) result reader.old reader.new writer.old writer.new }
{
    run(alloc, &streamed_options(alloc, style), reader, writer)
}

/// Does what `run_streamed` does, with lines buffered as in `run_buffered`.
pub fn run_streamed_buffered<R: Read, W: Write>(
    alloc: Global,
    style: &CompactConfig,
    size: usize,
    reader: &mut Counted<R>,
    writer: &mut Counted<W>,
) -> Result<(), RunFault>
    requires { HasNarrowGlyphs (compact_of style.now) }
    ensures { IsRun R.remaining W.contents (style_alone (compact_of style.now)) result reader.old reader.new writer.old writer.new }
{
    run_buffered(alloc, &streamed_options(alloc, style), size, reader, writer)
}

// The options of a table in this style that is as wide as its text. Does not allocate.
fn streamed_options(alloc: Global, style: &CompactConfig) -> Options
    ensures wanted { wanted_of result ≡ style_alone (compact_of style.now) }
    ensures close { AllClose result.colors.items }
{
    Options {
        width: None,
        truncate: false,
        keep_words: false,
        priority: Choice::None,
        style: *style,
        colors: Vec::new(alloc),
    }
}

// Writes the table of an input, or returns why it has none.
fn write_input<W: Write>(
    alloc: Global,
    options: &Options,
    bytes: &[u8],
    size: usize,
    writer: &mut Counted<W>,
) -> Result<(), RunFault>
    ensures { WritesTable W.contents (wanted_of options.now) bytes.now result writer.old writer.new }
{
    write_text(alloc, options, text_of(bytes)?, size, writer)
}
