//! Texts that get lines, and texts that keep only their first.
ghost use Rattle.std.specs.Prelude.{◌≡◌, ◌++◌, IfOk, MatchResult, OnOk, replicate, slice_index, string_bytes};
ghost use Rattle.std.specs.Cow.{cow_str_bytes};
ghost use Rattle.grid_config_values.specs.declared.position.Position.{Position as CellPosition};
ghost use Rattle.grid_records_measure.specs.TextLines.{line_feed};
ghost use Rattle.grid_records_traits.specs.Rows.{text_at};
ghost use Rattle.tabled_height.specs.Lines.{first_lines as first_lines_of, limited, raised, with_line};

use grid_config::Position;
use grid_records::Text;
use grid_records_measure::get_lines;
use grid_records_traits::records::PeekableRecords;
use std::alloc::{AllocError, Global};
use std::borrow::CowStr;
use tabled_steps::TextChange;

/// Texts with fewer lines get line feeds at their end, until they have `height` lines.
#[derive(Drop)]
pub(crate) struct Raising {
    pub(crate) height: usize,
}

impl TextChange for Raising {
    ghost changed = { λ change. raised change.height };

    fn change<R: PeekableRecords>(
        &self,
        alloc: Global,
        records: &R,
        pos: Position,
    ) -> Result<Option<Text>, AllocError> {
        let lines = records.count_lines(pos);
        if lines >= self.height {
            return Ok(None);
        }
        let raised = with_line_feeds(alloc, records.get_text(pos), self.height - lines)?;
        Ok(Some(Text::new(alloc, raised)?))
    }
}

// The text, and `count` line feeds after it. Memory for them is allocated at once.
fn with_line_feeds(alloc: Global, text: &str, count: usize) -> Result<String, AllocError>
    ensures { IfOk result (λ out. string_bytes out ≡ text.now ++ replicate count line_feed) }
{
    let mut out = String::from_str(alloc, text)?;
    out.try_reserve(count)?;
    push_line_feeds(&mut out, count)?;
    Ok(out)
}

fn push_line_feeds(out: &mut String, count: usize) -> Result<(), AllocError>
    ensures { OnOk result (string_bytes out.new ≡ string_bytes out.old ++ replicate count line_feed) }
{
    for _ in 0..count {
        out.push('\n')?;
    }
    Ok(())
}

/// Texts with more lines keep only the first `height` of them.
#[derive(Drop)]
pub(crate) struct Limiting {
    pub(crate) height: usize,
}

impl TextChange for Limiting {
    ghost changed = { λ change. limited change.height };

    fn change<R: PeekableRecords>(
        &self,
        alloc: Global,
        records: &R,
        pos: Position,
    ) -> Result<Option<Text>, AllocError> {
        limited_text(alloc, records, pos, self.height)
    }
}

/// Each text keeps at most as many lines as its row has.
#[derive(Drop)]
pub(crate) struct LimitingRows<'a> {
    pub(crate) heights: &'a [usize],
}

impl<'a> TextChange for LimitingRows<'a> {
    ghost changed = { λ change place. limited (slice_index change.heights.now place.row) place };

    fn change<R: PeekableRecords>(
        &self,
        alloc: Global,
        records: &R,
        pos: Position,
    ) -> Result<Option<Text>, AllocError> {
        limited_text(alloc, records, pos, height_at(self.heights, pos.row))
    }
}

// The height of the row with this number, and after the last 0.
fn height_at(heights: &[usize], row: usize) -> usize
    ensures { result ≡ slice_index heights.now row }
{
    heights.get(row).copied().unwrap_or(0)
}

// The first lines of the text at this place, where it has more than `height`.
fn limited_text<R: PeekableRecords>(
    alloc: Global,
    records: &R,
    pos: Position,
    height: usize,
) -> Result<Option<Text>, AllocError>
    ensures { (place : CellPosition) → IfOk result (λ out. out ≡ limited height place (text_at (R.rows records.now) pos)) }
{
    if records.count_lines(pos) <= height {
        return Ok(None);
    }
    let first = first_lines(alloc, records.get_text(pos), height)?;
    Ok(Some(Text::new(alloc, first)?))
}

// `count` lines of a text from the first on, joined by line feeds.
fn first_lines(alloc: Global, text: &str, count: usize) -> Result<String, AllocError>
    ensures { IfOk result (λ out. string_bytes out ≡ first_lines_of count text.now) }
{
    let mut out = String::new(alloc);
    let mut taken: usize = 0;
    for line in get_lines(alloc, text) {
        if taken == count {
            return Ok(out);
        }
        push_line(&mut out, line, taken > 0)?;
        taken += 1;
    }
    Ok(out)
}

// Appends a line that came, after a line feed where others came before it.
fn push_line(
    out: &mut String,
    line: Result<CowStr<'_>, AllocError>,
    behind_others: bool,
) -> Result<(), AllocError>
    ensures { OnOk result (MatchResult line.entry (λ part. string_bytes out.new ≡ with_line (string_bytes out.old) behind_others (cow_str_bytes part)) (λ _. ⊥)) }
{
    let line = line?;
    if behind_others {
        out.push('\n')?;
    }
    out.push_str(&line)?;
    Ok(())
}
