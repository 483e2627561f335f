//! A table in a document: its header, the delimiter row below it, and its records.
ghost use Rattle.std.specs.Io.KnownBytes.{Appends};
ghost use Rattle.std.specs.Prelude.{◌≡◌, IfErr, IfOk, IsErrOf, Ok, OnOk, string_bytes};
ghost use Rattle.grid_config_values.specs.declared.fault.Fault.TheVariants.{Memory};
ghost use Rattle.tabled.specs.Printing.{IsFitsAnswer};
ghost use Rattle.basinmug_run.specs.Picture.TableRows.{state_of};
ghost use Rattle.tabled.specs.Writing.{FitsOrIsRefused, IsBuilt};
ghost use Rattle.tabled_output.specs.Counts.{WritesUntil, inner_of};
ghost use Rattle.tabled_output.specs.Streams.{AppendsFront};
ghost use Rattle.basinmug_run.specs.Picture.Documents.{below_header, document_text, header_alignments, header_delimiters};
ghost use Rattle.basinmug_run.specs.Picture.Printed.{IsLate};

use crate::picture::printing::write_lines;
use crate::picture::table_rows::TableRows;
use basinmug_columns::markdown::delimiter_row;
use grid_config::AlignmentHorizontal;
use std::alloc::{AllocError, Global};
use std::io::Write;
use tabled::{BuildFault, Counted, Fault, LineChoice, LineKind, Position, TableOf};
use tabled_output::write_piece;

/// A part of a table in a document.
#[derive(Clone, Copy)]
pub(crate) enum DocumentPart {
    /// The first row.
    Header,
    /// The rows below it.
    Records,
}

impl LineChoice for DocumentPart {
    ghost use Rattle.basinmug_run.specs.Picture.Documents.{is_of};

    ghost chooses = { is_of };

    fn is_chosen(&self, kind: LineKind) -> bool {
        match (self, kind) {
            (DocumentPart::Header, LineKind::Row(row)) => row == 0,
            (DocumentPart::Records, LineKind::Row(row)) => row > 0,
            (_, LineKind::Boundary(_) | LineKind::InMargin) => false,
        }
    }
}

/// Writes a table as a document has it, and then a text: the lines of its header, the delimiter row below it, the
/// lines of its records. It fails as `build_lines` does.
pub(crate) fn write_document<W: Write>(
    alloc: Global,
    table: &TableOf<TableRows<'_>>,
    more: &str,
    writer: &mut Counted<W>,
) -> Result<(), BuildFault>
    ensures built { IsBuilt W.contents (state_of table.now) (document_text more.now (state_of table.now)) result writer.old writer.new }
    ensures table { FitsOrIsRefused (state_of table.now) result }
{
    table.build_lines(writer, &DocumentPart::Header)?;
    write_below_header(alloc, table, more, writer)
}

// Writes the delimiter row of a table that fits, the lines of its records, and then a text.
fn write_below_header<W: Write>(
    alloc: Global,
    table: &TableOf<TableRows<'_>>,
    more: &str,
    writer: &mut Counted<W>,
) -> Result<(), BuildFault>
    requires fits { IsFitsAnswer (state_of table.now) (Ok tt) }
    ensures whole { OnOk result (Appends (W.contents (inner_of writer.old)) (W.contents (inner_of writer.new)) (below_header more.now (state_of table.now))) }
    ensures front { AppendsFront (W.contents (inner_of writer.old)) (W.contents (inner_of writer.new)) (below_header more.now (state_of table.now)) }
    ensures late { IfErr result IsLate }
    ensures writer { WritesUntil (IsErrOf result BuildFault.Write) (IsErrOf result BuildFault.WriteZero) writer.old writer.new }
{
    let row = header_delimiters_of(alloc, table)?;
    write_piece(writer, row.as_bytes())?;
    write_lines(table, &DocumentPart::Records, more, writer)
}

// The delimiter row below the header of a table that fits. Fails only where allocation fails.
fn header_delimiters_of(alloc: Global, table: &TableOf<TableRows<'_>>) -> Result<String, Fault>
    requires fits { IsFitsAnswer (state_of table.now) (Ok tt) }
    ensures header_delimiters { IfOk result (λ text. string_bytes text ≡ header_delimiters (state_of table.now)) }
    ensures refused { IfErr result (λ fault. fault ≡ Memory) }
{
    let widths = table.widths()?;
    let alignments = header_alignments(alloc, table)?;
    Ok(delimiter_row(alloc, &alignments, &widths)?)
}

// How the header's texts are aligned, column by column. Fails only where allocation fails.
fn header_alignments(
    alloc: Global,
    table: &TableOf<TableRows<'_>>,
) -> Result<Vec<AlignmentHorizontal>, AllocError>
    ensures { IfOk result (λ made. made.items ≡ header_alignments (state_of table.now)) }
{
    let config = table.get_config().spanned();
    let columns = table.count_columns();
    let mut alignments = Vec::with_capacity(alloc, columns)?;
    for column in 0..columns {
        alignments.push(config.get_alignment_horizontal(Position::new(0, column)))?;
    }
    Ok(alignments)
}
