//! A picture that is printed.
ghost use Rattle.std.specs.Prelude.{◌≡◌, ◌⊎◌, ◌++◌, IfErr, IfOk, IsErrOf, OnErr, OnOk};
ghost use Rattle.grid_config_values.specs.declared.fault.Fault.TheVariants.{Memory};
ghost use Rattle.tabled_list.specs.Lists.{AreSetters};
ghost use Rattle.basinmug_run.specs.Picture.TableRows.{state_of};
ghost use Rattle.tabled.specs.Writing.{FitsOrIsRefused, IsBuilt, chosen_lines};
ghost use Rattle.tabled_output.specs.Counts.{WritesUntil, inner_of};
ghost use Rattle.basinmug_run.specs.Picture.Known.{AreKnown};
ghost use Rattle.basinmug_run.specs.Picture.Lines.{picture_text};
ghost use Rattle.basinmug_run.specs.Picture.Pictures.{IsMade, IsNotMade, is_wider};
ghost use Rattle.basinmug_run.specs.Picture.Printed.{PrintsFront, PrintsShown, PrintsShownFront, PrintsTableFront, IsShownFault, IsWithoutText, IsPictureFault, IsTableFault, Prints, PrintsTable};

use crate::kept::{KeptRows, kept_of};
use crate::options::Options;
use crate::picture::appearance::{Appearance, appearance_of};
use crate::picture::cells::cells_of;
use crate::picture::documents::write_document;
use crate::picture::facts::ColumnFacts;
use crate::picture::fault::PrintFault;
use crate::picture::lines::{RuledLines, Shown, below};
use crate::picture::narrowing::{narrow_if_asked, run_settings};
use crate::picture::rows::is_markdown;
use crate::picture::table_rows::TableRows;
use basinmug_cells::Rows;
use program_options::basinmug::LineStyle;
use std::alloc::Global;
use std::io::Write;
use tabled::{BuildFault, Counted, Fault, LineChoice, TableOf};
use tabled_output::write_piece;

/// At most so many bytes of lines are held before they are written: more than what a program's own buffer holds, which they
/// pass by.
const OUTPUT_PIECE: usize = 81920;

/// Of a table of few rows, so many for each, so that a small one takes no more memory than it needs.
const ROW_PIECE: usize = 64;

/// What there is to say of a picture that was printed.
#[derive(Clone, Copy, Debug, PartialEq, Eq)]
pub struct Printed {
    /// Whether the table is wider than was requested.
    pub wider: bool,
}

/// Prints rows as a table, of which the first is the header where the options say so: the records that are requested, in
/// the settings of `specs/Picture`, the lines between rows that are requested, and below them how many rows are left out.
/// Where rows are left out between others, a row of ellipses is in their place. A document always has a header, which is
/// empty where the rows have none, and the delimiter row below it; it is never wrapped, so that it is as wide as its text
/// whatever is requested. It fails with `NoColumn` where a name is in no column of the header, and as a table that is
/// written does; nothing is written of a table that is not made or doesn't fit. Nothing is flushed.
pub fn print<W: Write>(
    alloc: Global,
    rows: Rows<'_>,
    options: &Options,
    writer: &mut Counted<W>,
) -> Result<Printed, PrintFault>
    ensures printed { IfOk result (λ printed. Prints options.now rows.entry.rows printed.wider (W.contents (inner_of writer.old)) (W.contents (inner_of writer.new))) }
    ensures front { OnErr result ((writer.new ≡ writer.old) ⊎
        PrintsFront options.now rows.entry.rows (W.contents (inner_of writer.old)) (W.contents (inner_of writer.new))) }
    ensures untouched { IfErr result (λ fault. IsWithoutText fault → writer.new ≡ writer.old) }
    ensures refused { IfErr result (IsPictureFault options.now rows.entry.rows) }
    ensures writer { WritesUntil (IsErrOf result (PrintFault.Table BuildFault.Write)) (IsErrOf result (PrintFault.Table BuildFault.WriteZero)) writer.old writer.new }
{
    let KeptRows { rows, shown, .. } = kept_of(rows, options);
    let shown = Shown {
        columns: None,
        rows: shown,
    };
    print_shown(alloc, rows, options, shown, None, writer)
}

/// Prints rows that are shown of others as a table, as `print` does, with this below it. What is known of their columns
/// is not found again.
pub(crate) fn print_shown<W: Write>(
    alloc: Global,
    rows: Rows<'_>,
    options: &Options,
    shown: Shown,
    known: Option<ColumnFacts>,
    writer: &mut Counted<W>,
) -> Result<Printed, PrintFault>
    requires { AreKnown options.now.header rows.rows known }
    ensures printed { IfOk result (λ printed. PrintsShown options.now shown.rows rows.entry.rows shown.columns printed.wider (W.contents (inner_of writer.old)) (W.contents (inner_of writer.new))) }
    ensures front { OnErr result ((writer.new ≡ writer.old) ⊎
        PrintsShownFront options.now shown.rows rows.entry.rows shown.columns (W.contents (inner_of writer.old)) (W.contents (inner_of writer.new))) }
    ensures untouched { IfErr result (λ fault. IsWithoutText fault → writer.new ≡ writer.old) }
    ensures refused { IfErr result (IsShownFault options.now shown.rows rows.entry.rows) }
    ensures writer { WritesUntil (IsErrOf result (PrintFault.Table BuildFault.Write)) (IsErrOf result (PrintFault.Table BuildFault.WriteZero)) writer.old writer.new }
{
    let more = below(alloc, options.line_style, shown)?;
    let texts = rows.view();
    let appearance = appearance_of(alloc, texts, options, known)?;
    let cells = cells_of(alloc, rows, options.line_style, options.header, shown.rows)?;
    let lines = RuledLines {
        rules: options.rules,
        header: options.header,
        rows: cells.len(),
    };
    let mut table = TableOf::new(alloc, TableRows::new(cells));
    let ending = more.as_str();
    print_table(
        alloc,
        &mut table,
        &appearance,
        options,
        &lines,
        ending,
        writer,
    )
}

// Prints a table: its settings, its width, its lines in their style, and then a text.
fn print_table<W: Write>(
    alloc: Global,
    table: &mut TableOf<TableRows<'_>>,
    appearance: &Appearance,
    options: &Options,
    lines: &RuledLines,
    more: &str,
    writer: &mut Counted<W>,
) -> Result<Printed, PrintFault>
    requires { AreSetters appearance.now.settings.items }
    ensures printed { IfOk result (λ printed. PrintsTable
        (IsMade options.now appearance.now.settings.items appearance.now.needs.items (state_of table.old))
        (picture_text options.now.line_style lines.now.rules lines.now.header lines.now.rows more.now) options.now.width
        printed.wider (W.contents (inner_of writer.old)) (W.contents (inner_of writer.new))) }
    ensures front { OnErr result ((writer.new ≡ writer.old) ⊎ PrintsTableFront
        (IsMade options.now appearance.now.settings.items appearance.now.needs.items (state_of table.old))
        (picture_text options.now.line_style lines.now.rules lines.now.header lines.now.rows more.now)
        (W.contents (inner_of writer.old)) (W.contents (inner_of writer.new))) }
    ensures untouched { IfErr result (λ fault. IsWithoutText fault → writer.new ≡ writer.old) }
    ensures refused { IfErr result (IsTableFault
        (IsMade options.now appearance.now.settings.items appearance.now.needs.items (state_of table.old))
        (IsNotMade options.now appearance.now.settings.items appearance.now.needs.items (state_of table.old))) }
    ensures writer { WritesUntil (IsErrOf result (PrintFault.Table BuildFault.Write)) (IsErrOf result (PrintFault.Table BuildFault.WriteZero)) writer.old writer.new }
{
    let wider = make_table(alloc, table, appearance, options)?;
    write_picture(alloc, table, options.line_style, lines, more, writer)?;
    Ok(Printed { wider })
}

// Sets what a table looks like, and makes it narrower where a width is requested. Returns whether it is wider than
// requested.
fn make_table(
    alloc: Global,
    table: &mut TableOf<TableRows<'_>>,
    appearance: &Appearance,
    options: &Options,
) -> Result<bool, Fault>
    requires { AreSetters appearance.now.settings.items }
    ensures made { OnOk result (IsMade options.now appearance.now.settings.items appearance.now.needs.items
        (state_of table.old) (state_of table.new)) }
    ensures wider { IfOk result (λ wider. wider ≡ is_wider options.now.width (state_of table.new)) }
    ensures refused { IfErr result (λ fault. (fault ≡ Memory) ⊎ IsNotMade options.now
        appearance.now.settings.items appearance.now.needs.items (state_of table.old) fault) }
{
    let list = appearance.settings.as_slice();
    run_settings(table, list)?;
    let needs = appearance.needs.as_slice();
    narrow_if_asked(alloc, table, needs, options)
}

// Writes the lines of a table in this style, and then a text.
fn write_picture<W: Write>(
    alloc: Global,
    table: &TableOf<TableRows<'_>>,
    line_style: LineStyle,
    lines: &RuledLines,
    more: &str,
    writer: &mut Counted<W>,
) -> Result<(), BuildFault>
    ensures built { IsBuilt W.contents (state_of table.now)
        (picture_text line_style lines.now.rules lines.now.header lines.now.rows more.now (state_of table.now))
        result writer.old writer.new }
    ensures table { FitsOrIsRefused (state_of table.now) result }
{
    if is_markdown(line_style) {
        write_document(alloc, table, more, writer)
    } else {
        write_lines(table, lines, more, writer)
    }
}

/// Writes the lines of a table that are chosen, and then a text. It fails as `build_lines` does.
pub(crate) fn write_lines<W: Write, K: LineChoice>(
    table: &TableOf<TableRows<'_>>,
    choice: &K,
    more: &str,
    writer: &mut Counted<W>,
) -> Result<(), BuildFault>
    ensures built { IsBuilt W.contents (state_of table.now) (chosen_lines (K.chooses choice.now) (state_of table.now) ++ more.now) result writer.old writer.new }
    ensures table { FitsOrIsRefused (state_of table.now) result }
{
    let size = table.count_rows().saturating_mul(ROW_PIECE);
    table.build_buffered_lines(writer, choice, size.min(OUTPUT_PIECE))?;
    write_piece(writer, more.as_bytes())?;
    Ok(())
}
