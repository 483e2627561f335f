//! The library `libbasinmug`, for programs in other languages. Its documentation is `include/basinmug.h`.
#![tactic(auto)]

ghost use Rattle.std.specs.Prelude.{◌≡◌, None, Some};
ghost use Rattle.basinmug_bounded.specs.Answers.{ReportsCells, ReportsText};
ghost use Rattle.basinmug_bounded.specs.Cells.{given};
ghost use Rattle.basinmug_bounded.specs.Lists.{texts};
ghost use Rattle.columns_bounded.specs.Answers.{Tells};
ghost use Rattle.columns_bounded.specs.Texts.{TellsStripped, TellsWidth};

use basinmug_bounded::{
    Cells, Lists, PrintAnswer, PrintRequest, print_cells_reported, print_reported,
};
use columns_bounded::{Answer, Request, strip_told, table_told, width_told};
use std::alloc::Global;

/// Prints the records of a text as far as they fit. Its status and `answer` report how many bytes the whole output has, or
/// the error.
#[unsafe(no_mangle)]
pub extern "C" fn basinmug_print(
    alloc: Global,
    options: &PrintRequest,
    columns: &[u8],
    align: &[u8],
    color: &[u8],
    text: &[u8],
    out: &mut [u8],
    answer: &mut PrintAnswer,
) -> u32
    ensures { ReportsText options.now (texts columns.now align.now color.now) text.now out.old out.new result answer.new }
{
    let lists = Lists {
        columns,
        align,
        color,
    };
    print_reported(alloc, options, lists, text, out, answer)
}

/// The same, of records as cells: the bytes of all cells, how many each has, and how many cells a record has.
#[unsafe(no_mangle)]
pub extern "C" fn basinmug_print_cells(
    alloc: Global,
    options: &PrintRequest,
    columns: &[u8],
    align: &[u8],
    color: &[u8],
    bytes: &[u8],
    lengths: &[usize],
    per_record: usize,
    out: &mut [u8],
    answer: &mut PrintAnswer,
) -> u32
    ensures { ReportsCells options.now (texts columns.now align.now color.now) (given bytes.now lengths.now per_record) out.old out.new result answer.new }
{
    let lists = Lists {
        columns,
        align,
        color,
    };
    let cells = Cells {
        bytes,
        lengths,
        per_record,
    };
    print_cells_reported(alloc, options, lists, cells, out, answer)
}

/// Writes the table as far as it fits. Its status and `answer` report how many bytes the whole table has, or the error.
#[unsafe(no_mangle)]
pub extern "C" fn basinmug_table(
    alloc: Global,
    options: &Request,
    text: &[u8],
    out: &mut [u8],
    answer: &mut Answer,
) -> u32
    ensures { Tells options.now None text.now out.old out.new result answer.new }
{
    table_told(alloc, options, None, text, out, answer)
}

/// The same, with the colours of a list for its columns.
#[unsafe(no_mangle)]
pub extern "C" fn basinmug_colored_table(
    alloc: Global,
    options: &Request,
    colors: &[u8],
    text: &[u8],
    out: &mut [u8],
    answer: &mut Answer,
) -> u32
    ensures { Tells options.now (Some colors.now) text.now out.old out.new result answer.new }
{
    table_told(alloc, options, Some(colors), text, out, answer)
}

/// Reports how many columns the widest line of a text takes, without its sequences.
#[unsafe(no_mangle)]
pub extern "C" fn basinmug_width(text: &[u8], answer: &mut Answer) -> u32
    ensures { TellsWidth text.now result answer.new }
{
    width_told(text, answer)
}

/// Writes a text without its sequences as far as it fits, and reports how many bytes the whole has.
#[unsafe(no_mangle)]
pub extern "C" fn basinmug_strip(
    alloc: Global,
    text: &[u8],
    out: &mut [u8],
    answer: &mut Answer,
) -> u32
    ensures { TellsStripped text.now out.old out.new result answer.new }
{
    strip_told(alloc, text, out, answer)
}

/// The version of this library, 10000 times its first number, 100 times its second, and its third.
#[unsafe(no_mangle)]
pub extern "C" fn basinmug_version() -> u32
    ensures { result ≡ 100 }
{
    100
}
