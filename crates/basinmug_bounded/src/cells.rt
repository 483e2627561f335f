//! Records as cells, one after another.
ghost use Rattle.std.specs.Prelude.{◌≡◌, ◌==◌, ◌≤◌, ◌<◌, ◌↔◌, IfErr, IfOk, IsTrue, MatchResult, OnOk, if◌then◌else◌, length, sum};
ghost use Rattle.basinmug_bounded.specs.Cells.{AreRecords, AreShownCells, AreWhole, HasFlawed, IsCellFault, IsReadCells, cells_in, cells_read, fault_at, given_by, lengths_read};
ghost use Rattle.basinmug_cells.specs.Held.{row_ended};

use crate::refusal::{CellFault, Refusal};
use basinmug_cells::Rows;
use basinmug_input::{Flaw, push_field};
use basinmug_run::{Escapes, RunFault};
use std::alloc::{AllocError, Global};

/// The cells of records, one after another, record by record.
#[derive(Clone, Copy)]
pub struct Cells<'a> {
    /// The bytes of all cells.
    pub bytes: &'a [u8],
    /// How many bytes each cell has.
    pub lengths: &'a [usize],
    /// How many cells each record has.
    pub per_record: usize,
}

/// A cell that can't be shown: its number, from 0, and what is wrong with it.
#[derive(Clone, Copy)]
pub(crate) struct FlawedCell {
    pub(crate) cell: usize,
    pub(crate) flaw: Flaw,
}

/// The first so many records of cells, or all, as a table shows them; or why cells are no records, or the first of those
/// that are read that can't be shown. Else it fails only if allocation fails.
pub(crate) fn rows_of_cells<'a>(
    alloc: Global,
    cells: Cells<'_>,
    records: Option<usize>,
    escapes: Escapes,
) -> Result<Rows<'a>, Refusal>
    ensures read { IfOk result (λ rows. IsReadCells escapes records (given_by cells.entry) rows.rows) }
    ensures refused { IfErr result (IsCellFault escapes records (given_by cells.entry)) }
{
    if !are_records(cells) {
        return Err(Refusal::Cell(CellFault::Lengths));
    }
    match read_rows(alloc, cells, records, escapes) {
        Ok(Ok(rows)) => Ok(rows),
        Ok(Err(flawed)) => Err(Refusal::Cell(fault_of(flawed, cells.per_record))),
        Err(_) => Err(Refusal::Run(RunFault::Memory)),
    }
}

// The first so many records of cells, or all, or the first of their cells that can't be shown.
fn read_rows<'a>(
    alloc: Global,
    cells: Cells<'_>,
    records: Option<usize>,
    escapes: Escapes,
) -> Result<Result<Rows<'a>, FlawedCell>, AllocError>
    requires { AreRecords (given_by cells) }
    ensures { IfOk result (λ read. MatchResult read (λ rows. IsReadCells escapes records (given_by cells.entry) rows.rows) (λ flawed. HasFlawed escapes (cells_read records (given_by cells.entry)) flawed.cell flawed.flaw)) }
{
    let lengths = lengths_read(cells, records);
    read_cells(alloc, cells.bytes, lengths, cells.per_record, escapes)
}

// Whether cells are whole records, and have all bytes.
fn are_records(cells: Cells<'_>) -> bool
    ensures { IsTrue result ↔ AreRecords (given_by cells.entry) }
{
    are_whole(cells.lengths.len(), cells.per_record)
        && are_lengths(cells.lengths, cells.bytes.len())
}

// Whether so many cells are whole records.
fn are_whole(count: usize, per_record: usize) -> bool
    ensures { IsTrue result ↔ AreWhole count per_record }
{
    if per_record == 0 {
        count == 0
    } else {
        count % per_record == 0
    }
}

// Whether these lengths are those of so many bytes.
fn are_lengths(lengths: &[usize], total: usize) -> bool
    ensures { IsTrue result ↔ (sum lengths.now ≡ total) }
{
    let mut left = total;
    for count in lengths {
        if *count > left {
            return false;
        }
        left -= *count;
    }
    left == 0
}

// The lengths of the cells of the first so many records, or of all.
fn lengths_read<'a>(cells: Cells<'a>, records: Option<usize>) -> &'a [usize]
    ensures { result.now ≡ lengths_read records (given_by cells.entry) }
{
    match records {
        Some(records) => {
            let most = records.saturating_mul(cells.per_record);
            &cells.lengths[..most.min(cells.lengths.len())]
        }
        None => cells.lengths,
    }
}

// The cells of these lengths, as a table shows them, in rows of so many; or the first that can't be shown.
fn read_cells<'a>(
    alloc: Global,
    bytes: &[u8],
    lengths: &[usize],
    per_record: usize,
    escapes: Escapes,
) -> Result<Result<Rows<'a>, FlawedCell>, AllocError>
    requires enough { sum lengths.now ≤ length bytes.now }
    requires whole { AreWhole (length lengths.now) per_record }
    ensures { IfOk result (λ read. MatchResult read (λ rows. AreShownCells escapes per_record (cells_in lengths.now bytes.now) rows.rows) (λ flawed. HasFlawed escapes (cells_in lengths.now bytes.now) flawed.cell flawed.flaw)) }
{
    let mut rows = Rows::new(alloc, "");
    let mut rest = bytes;
    for (cell, count) in lengths.iter().enumerate() {
        let given = &rest[..*count];
        rest = &rest[*count..];
        match push_field(&mut rows, alloc, given, escapes)? {
            Ok(()) => end_full(&mut rows, per_record)?,
            Err(flaw) => return Ok(Err(FlawedCell { cell, flaw })),
        }
    }
    Ok(Ok(rows))
}

// Ends the row that isn't ended, if it has so many cells.
fn end_full(rows: &mut Rows<'_>, per_record: usize) -> Result<(), AllocError>
    ensures { OnOk result (rows.new ≡ (if length rows.old.begun == per_record then row_ended rows.old else rows.old)) }
{
    if rows.begun_len() == per_record {
        rows.end_row()?;
    }
    Ok(())
}

// The error of a cell among records of so many.
fn fault_of(flawed: FlawedCell, per_record: usize) -> CellFault
    requires { 0 < per_record }
    ensures { result ≡ fault_at flawed.cell flawed.flaw per_record }
{
    let row = flawed.cell / per_record;
    let column = flawed.cell % per_record;
    match flawed.flaw {
        Flaw::NotText { .. } => CellFault::NotText { row, column },
        Flaw::Escape { .. } => CellFault::Escape { row, column },
    }
}
