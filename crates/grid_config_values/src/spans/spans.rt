//! The cells that span several columns or rows.
ghost use Rattle.std.specs.Prelude.{false, true, ◌≡◌, ◌≢◌, ◌+◌, ◌≤◌, ◌<◌, ◌↔◌, [], if◌then◌else◌, ◌==◌, IsOk, IsTrue, IfErr, IfOk, IfSome, OnErr, OnOk, map, None, Some, Err, Ok};
ghost use Rattle.grid_config_values.specs.declared.fault.Fault.TheVariants.{Memory, Spans as BadSpan};
ghost use Rattle.std.specs.List.{find};
ghost use Rattle.std.specs.List.Sorted.{IsStrictlySortedBy};
ghost use Rattle.std.specs.Map.{lookup};
ghost use Rattle.std.specs.Ordering.{is_gt, is_le};
ghost use Rattle.grid_config_values.specs.declared.position.Position.{Position as CellPosition};
ghost use Rattle.grid_config_values.specs.Order.{position_cmp, same_place};
ghost use Rattle.grid_config_values.specs.declared.spans.extent.Extent.{Extent as Size};
ghost use Rattle.grid_config_values.specs.Spans.Clear.{Has, IsClear, IsClearFrom, IsClearIn, IsLastLeftOf, IsOverlapped, IsOverlappedIn, NoneIsSingle};
ghost use Rattle.grid_config_values.specs.Spans.Owners.{IsFirst, UpTo, hides, owner};
ghost use Rattle.grid_config_values.specs.Spans.Rectangles.{Holds};
ghost use Rattle.grid_config_values.specs.Spans.Search.{begins_before, begins_from};
ghost use Rattle.grid_config_values.specs.Spans.Spans.{AreGood, ArePositive, IsVisible, SetsExtent, SetsSpanOrIsRefused, SpansSeveral, extent_at, single, span_if_several};

use crate::spans::extent::Extent;
use crate::{Fault, Position};
use std::alloc::{AllocError, Global};
use std::collections::BTreeMap;
use std::marker::Model;

/// The cells of a table that span several columns or rows, by their places. A cell that is not among
/// them takes one column and one row.
#[derive(Debug, Drop)]
pub struct Spans {
    extents: BTreeMap<Position, Extent>,
    // no cell takes more
    most_rows: usize,
    most_columns: usize,
}

impl Model for Spans {
    ghost use Rattle.std.specs.Prelude.{List};
    ghost use Rattle.grid_config_values.specs.declared.position.Position.{Position as CellPosition};
    ghost use Rattle.grid_config_values.specs.declared.spans.extent.Extent.{Extent as Size};

    ghost Value = { List (CellPosition × Size) };

    ghost view = { λ fields. fields.extents.entries };

    ghost use Rattle.grid_config_values.specs.Spans.Spans.{IsBounded};

    ghost invariant = { IsBounded };
}

impl Spans {
    /// No cell spans several columns or rows. Does not allocate.
    pub fn new(alloc: Global) -> Spans
        ensures { result ≡ [] }
    {
        Spans {
            extents: BTreeMap::new(alloc),
            most_rows: 1,
            most_columns: 1,
        }
    }

    /// Whether no cell spans several columns or rows.
    pub fn is_empty(&self) -> bool
        ensures empty { IsTrue result ↔ (self.now ≡ []) }
        ensures several { IsTrue result ↔ ((place : CellPosition) → ¬ (SpansSeveral self.now place)) }
    {
        self.extents.len() == 0
    }

    /// The same spans again. Fails only where allocation fails, and never where no cell spans several.
    pub fn clone(&self, alloc: Global) -> Result<Spans, AllocError>
        ensures spans { IfOk result (λ copy. copy ≡ self.now) }
        ensures none { self.now ≡ [] → IsOk result }
    {
        if self.extents.is_empty() {
            return Ok(Spans::new(alloc));
        }
        Ok(Spans {
            extents: self.extents.clone()?,
            most_rows: self.most_rows,
            most_columns: self.most_columns,
        })
    }

    /// How many columns the cell at this place takes: `None` for one.
    pub fn get_column_span(&self, pos: Position) -> Option<usize>
        ensures value { result ≡ span_if_several (extent_at self.now pos).columns }
        ensures several { IfSome result (λ n. 1 < n) }
    {
        span_of(self.extent(pos).columns)
    }

    /// How many rows the cell at this place takes: `None` for one.
    pub fn get_row_span(&self, pos: Position) -> Option<usize>
        ensures value { result ≡ span_if_several (extent_at self.now pos).rows }
        ensures several { IfSome result (λ n. 1 < n) }
    {
        span_of(self.extent(pos).rows)
    }

    /// Sets how many columns the cell at this place takes; 1 takes its span over columns away. Refused as
    /// `Spans` for 0, and as `Memory` where allocation fails, and then nothing has changed. Allocates only
    /// where a cell of one row and one column gets a span of several.
    pub fn set_column_span(&mut self, pos: Position, n: usize) -> Result<(), Fault>
        ensures { SetsSpanOrIsRefused self.old self.new pos n (record (extent_at self.old pos) { columns = n }) result }
    {
        let columns = span(n)?;
        let extent = self.extent(pos);
        self.set(pos, Extent { columns, ..extent })
    }

    /// Sets how many rows the cell at this place takes; 1 takes its span over rows away. Refused as `Spans`
    /// for 0, and as `Memory` where allocation fails, and then nothing has changed. Allocates only where a
    /// cell of one row and one column gets a span of several.
    pub fn set_row_span(&mut self, pos: Position, n: usize) -> Result<(), Fault>
        ensures { SetsSpanOrIsRefused self.old self.new pos n (record (extent_at self.old pos) { rows = n }) result }
    {
        let rows = span(n)?;
        let extent = self.extent(pos);
        self.set(pos, Extent { rows, ..extent })
    }

    // Sets what the cell at this place takes. Only what was not kept may allocate.
    fn set(&mut self, pos: Position, extent: Extent) -> Result<(), Fault>
        requires rows { 0 < extent.rows }
        requires columns { 0 < extent.columns }
        ensures ok { OnOk result (SetsExtent self.old self.new pos extent) }
        ensures err { OnErr result (self.new ≡ self.old) }
        ensures memory { IfErr result (λ fault. fault ≡ Memory) }
        ensures again { extent_at self.old pos ≢ single → IsOk result }
        ensures none { extent ≡ single → IsOk result }
    {
        if extent == Extent::SINGLE {
            self.extents.remove(&pos);
            return Ok(());
        }
        match self.extents.insert(pos, extent) {
            Ok(_) => {}
            Err(_) => return Err(Fault::Memory),
        }
        self.most_rows = self.most_rows.max(extent.rows);
        self.most_columns = self.most_columns.max(extent.columns);
        Ok(())
    }

    /// Whether the rectangle of no other cell holds this place. Looks at no span where there is none, and
    /// else at those alone that begin near enough.
    pub fn is_cell_visible(&self, pos: Position) -> bool
        ensures { IsTrue result ↔ IsVisible self.now pos }
    {
        self.holder_from(self.first_that_may_hold(pos), pos)
            .is_none()
    }

    /// The cell that is seen at this place: the first by row, then by column, of the other cells whose
    /// rectangles hold the place, and where there is none the cell of the place itself. Each cell takes at
    /// least one row and one column. Looks at no span where there is none, and else at those alone that
    /// begin near enough.
    pub fn owner(&self, pos: Position) -> Position
        ensures first { result ≡ owner (extent_at self.now) pos }
        ensures positive { ArePositive self.now }
    {
        self.holder_from(self.first_that_may_hold(pos), pos)
            .unwrap_or(pos)
    }

    /// Whether in a table of `rows` rows and `columns` columns the rectangle of each cell that spans
    /// several stays inside the table, and no two of them share a place. Cells outside the table don't
    /// count. Each cell takes at least one row and one column. Looks for each span at one other in each
    /// of its rows in which one begins.
    pub fn spans_are_good(&self, rows: usize, columns: usize) -> bool
        ensures good { IsTrue result ↔ AreGood self.now rows columns }
        ensures positive { ArePositive self.now }
    {
        for (anchor, extent) in self.extents.iter() {
            if !self.is_clear(*anchor, *extent, rows, columns) {
                return false;
            }
        }
        true
    }

    // Whether this one is not in the table, or inside it and overlapped in none of its rows by the last there.
    // Where that holds of each, no two overlap: one that reaches across the last of its row overlaps that one.
    fn is_clear(&self, anchor: Position, extent: Extent, rows: usize, columns: usize) -> bool
        requires one { Has self.now (anchor, extent) }
        requires positive { ArePositive self.now }
        requires several { NoneIsSingle self.now }
        ensures clear { IsTrue result → IsClear self.now rows columns (anchor, extent) }
        ensures bad { result ≡ false → AreGood self.now rows columns → ⊥ }
    {
        if anchor.row >= rows || anchor.col >= columns {
            return true;
        }
        if !extent.is_inside(anchor, rows, columns) {
            return false;
        }
        !self.is_overlapped(anchor, extent)
    }

    // Whether in one of its rows the last that begins left of its right end is another one that overlaps it.
    fn is_overlapped(&self, anchor: Position, extent: Extent) -> bool
        requires rows { anchor.row + extent.rows ≤ usize.MAX }
        requires columns { anchor.col + extent.columns ≤ usize.MAX }
        ensures overlapped { IsTrue result → IsOverlapped self.now anchor extent }
        ensures clear { result ≡ false → IsClearFrom self.now anchor extent (anchor.row + extent.rows) }
    {
        let end = anchor.row + extent.rows;
        let mut row = anchor.row;
        while row < end {
            if self.is_overlapped_in(row, anchor, extent) {
                return true;
            }
            row = self.next_row(row + 1, end);
        }
        false
    }

    // Whether in this row the last that begins left of its right end is another one that overlaps it.
    fn is_overlapped_in(&self, row: usize, anchor: Position, extent: Extent) -> bool
        requires { anchor.col + extent.columns ≤ usize.MAX }
        ensures overlapped { IsTrue result → IsOverlappedIn self.now anchor extent row }
        ensures clear { result ≡ false → IsClearIn self.now anchor extent row }
    {
        match self.last_left_of(Position::new(row, anchor.col + extent.columns)) {
            Some((other, size)) => other != anchor && extent.overlaps(anchor, other, size),
            None => false,
        }
    }

    // The last of the spans that begin in the row of this place, left of it.
    fn last_left_of(&self, place: Position) -> Option<(Position, Extent)>
        ensures { IsLastLeftOf self.now place result }
    {
        let (anchor, extent) = self.extents.range(..place).next_back()?;
        if anchor.row == place.row {
            return Some((*anchor, *extent));
        }
        None
    }

    // The first row from this one on in which a span begins, and the end where there is none before it.
    fn next_row(&self, from: usize, end: usize) -> usize
        requires { from ≤ end }
        ensures further { from ≤ result }
        ensures within { result ≤ end }
        ensures none { (span : CellPosition × Size) → Has self.now span → from ≤ span.0.row → result ≤ span.0.row }
    {
        if from == end {
            return end;
        }
        match self.next_from(Position::new(from, 0)) {
            Some((anchor, _)) => anchor.row.min(end),
            None => end,
        }
    }

    // Where the first rectangle begins that holds this place, of those of other cells; none of them begins
    // before the first place. Of each row those are looked at that may reach the column of the place.
    fn holder_from(&self, first: Position, pos: Position) -> Option<Position>
        requires { (anchor : CellPosition) → Holds anchor (extent_at self.now anchor) pos → is_gt (position_cmp first anchor) ≡ false }
        ensures found { IsFirst (hides (extent_at self.now) pos) (UpTo pos) result }
        ensures positive { ArePositive self.now }
    {
        let mut from = first;
        while let Some((anchor, extent)) = self.next_from(from) {
            if !begins_before(anchor, pos) {
                return None;
            }
            if extent.holds(anchor, pos) {
                return Some(anchor);
            }
            from = self.passed(anchor, pos);
        }
        None
    }

    // The first of the spans that begin at this place or after it. Where there are none it looks at nothing.
    fn next_from(&self, from: Position) -> Option<(Position, Extent)>
        ensures found { result ≡ find (begins_from from) self.now }
        ensures kept { IfSome result (λ span. lookup (same_place span.0) self.now ≡ Some span.1) }
        ensures ordered { IsStrictlySortedBy position_cmp (map (λ span. span.0) self.now) }
        ensures positive { ArePositive self.now }
    {
        if self.is_empty() {
            return None;
        }
        match self.extents.range(from..).next() {
            Some((anchor, extent)) => Some((*anchor, *extent)),
            None => None,
        }
    }

    // After the cell at this anchor, which doesn't hold `pos` and begins before it, no rectangle that
    // begins before this place holds `pos`.
    fn passed(&self, anchor: Position, pos: Position) -> Position
        requires { begins_before anchor pos ≡ true }
        ensures none { (p : CellPosition) → begins_before anchor p ≡ true → Holds p (extent_at self.now p) pos → is_le (position_cmp result p) ≡ true }
        ensures further { begins_before anchor result ≡ true }
        ensures row { result.row ≤ pos.row }
        ensures column { result.col ≤ pos.col }
    {
        let least = pos.col.saturating_sub(self.most_columns - 1);
        if anchor.col < least {
            return Position::new(anchor.row, least);
        }
        if anchor.col < pos.col {
            return Position::new(anchor.row, anchor.col + 1);
        }
        Position::new(anchor.row + 1, least)
    }

    // No rectangle that begins before this place holds `pos`.
    fn first_that_may_hold(&self, pos: Position) -> Position
        ensures first { is_gt (position_cmp result pos) ≡ false }
        ensures before { (anchor : CellPosition) → Holds anchor (extent_at self.now anchor) pos → is_gt (position_cmp result anchor) ≡ false }
    {
        if self.most_rows == 1 {
            Position::new(pos.row, pos.col.saturating_sub(self.most_columns - 1))
        } else {
            Position::new(pos.row.saturating_sub(self.most_rows - 1), 0)
        }
    }

    // What the cell at this place takes.
    fn extent(&self, pos: Position) -> Extent
        ensures kept { result ≡ extent_at self.now pos }
        ensures rows { 0 < result.rows }
        ensures columns { 0 < result.columns }
    {
        match self.extents.get(&pos) {
            Some(extent) => *extent,
            None => Extent::SINGLE,
        }
    }
}

// A number of columns or rows, which is refused where it is 0.
fn span(n: usize) -> Result<usize, Fault>
    ensures { result ≡ (if n == 0 then Err BadSpan else Ok n) }
{
    if n == 0 {
        return Err(Fault::Spans);
    }
    Ok(n)
}

// A number of columns or rows, where it is not one.
fn span_of(n: usize) -> Option<usize>
    requires { 0 < n }
    ensures value { result ≡ span_if_several n }
    ensures several { IfSome result (λ k. 1 < k) }
{
    if n == 1 { None } else { Some(n) }
}

// Whether this place is before another one, by row, then by column.
fn begins_before(a: Position, b: Position) -> bool
    ensures { result ≡ begins_before a b }
{
    a.row < b.row || (a.row == b.row && a.col < b.col)
}
