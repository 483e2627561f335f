//! Columns by what they are called.
ghost use Rattle.std.specs.Prelude.{◌≡◌, ℕ, List, IfOk, string_bytes};
ghost use Rattle.std.specs.List.{position_from};
ghost use Rattle.std.specs.BTreeMap.{get_by_text};
ghost use Rattle.ansi_scan.specs.Pieces.{pieces};
ghost use Rattle.ansi_str.specs.StyledText.{strip};
ghost use Rattle.basinmug_columns.specs.Names.{column_number, number_of, shows};
ghost use Rattle.basinmug_columns.specs.Numbers.Columns.{cell};
ghost use Rattle.program_options.specs.declared.basinmug.ColumnName.{ColumnName as Name};

use ansi_str::AnsiStr;
use basinmug_cells::CellRow;
use grid_records_traits::Cell;
use program_options::basinmug::ColumnName;
use std::alloc::{AllocError, Global};
use std::collections::BTreeMap;

/// The columns of a header by their texts, which are looked up, so that many names take no longer each.
#[derive(Drop)]
pub struct NamedColumns {
    first: BTreeMap<String, usize>,
}

impl NamedColumns {
    /// The columns of a header: of several with one text, whose sequences don't count, the first. Fails only where
    /// allocation fails.
    pub fn new<H: CellRow>(alloc: Global, header: H) -> Result<NamedColumns, AllocError>
        ensures { IfOk result (λ columns. (name : Name) → number_of columns name ≡ column_number (H.texts header) name) }
    {
        let first = first_columns(alloc, header)?;
        Ok(NamedColumns { first })
    }

    /// The number of a column: of one that is called by its number, this; of one that is called by its text, the first
    /// that has it, and none where there is none. Does not allocate.
    pub fn number(&self, name: &ColumnName) -> Option<usize>
        ensures { result ≡ number_of self.now name.now }
    {
        match name {
            ColumnName::Number(number) => Some(*number),
            ColumnName::Header(text) => self.first.get(text.as_str()).copied(),
        }
    }
}

// The first column of each text in the header, without its sequences: the last column comes first, so that the first one
// of a text stays.
fn first_columns<H: CellRow>(
    alloc: Global,
    header: H,
) -> Result<BTreeMap<String, usize>, AllocError>
    ensures { IfOk result (λ columns. (name : List ℕ) → get_by_text columns name ≡ position_from (shows name) 0 (H.texts header)) }
{
    let mut columns = BTreeMap::new(alloc);
    for column in (0..header.len()).rev() {
        columns.insert(shown_at(alloc, header, column)?, column)?;
    }
    Ok(columns)
}

// The text of a cell of the header without its sequences; an empty one after the last.
fn shown_at<H: CellRow>(alloc: Global, header: H, column: usize) -> Result<String, AllocError>
    ensures { IfOk result (λ shown. string_bytes shown ≡ strip (pieces (cell column (H.texts header)))) }
{
    match header.cell(column) {
        Some(cell) => shown_text(alloc, cell.text()),
        None => Ok(String::new(alloc)),
    }
}

// A text without its sequences.
fn shown_text(alloc: Global, text: &str) -> Result<String, AllocError>
    ensures { IfOk result (λ shown. string_bytes shown ≡ strip (pieces text.now)) }
{
    let stripped = text.ansi_strip(alloc)?;
    stripped.into_owned(alloc)
}
