//! All settings of a table.
ghost use Rattle.std.specs.Prelude.{◌≡◌, ◌<◌, ◌↔◌, [], None, IfSome, IfOk, IsOk, IsTrue};
ghost use Rattle.grid_config_values.specs.Glyphs.{boundary_count, boundary_kind, has_column_boundary, has_row_boundary};
ghost use Rattle.grid_config_values.specs.Spans.Owners.{owner};
ghost use Rattle.grid_config_values.specs.Spans.Spans.{AreGood, ArePositive, IsVisible, SetsSpanOrIsRefused, SpansSeveral, extent_at, span_if_several};
ghost use Rattle.grid_config_values.specs.declared.position.Position.{Position as CellPosition};
ghost use Rattle.grid_config_values.specs.Settings.{SetsOrIsRefused, value_at};
ghost use Rattle.grid_config.specs.Compact.{compact_of};
ghost use Rattle.grid_config.specs.Looks.{look_of};
ghost use Rattle.grid_config.specs.Settings.{AreUniform, AreUniformButAlignment, AreUniformButLines, IsUncolored, KeepsOthers, StartsWith, compact_start, new_start};
ghost use Rattle.grid_config.specs.Settings.{Padding, PaddingColor, HorizontalAlignment};
ghost use Rattle.grid_config.specs.Settings.{VerticalAlignment, LineAlignment, TrimHorizontal, TrimVertical, Justification, JustificationColor};
ghost use Rattle.grid_config.specs.Settings.{CellSpans};

use crate::cells::CellSettings;
use crate::colors::ANSIBuf;
use crate::compact::CompactConfig;
use crate::owning::owned_sides;
use crate::whole::WholeSettings;
use grid_config_values::spans::Spans;
use grid_config_values::{
    AlignmentHorizontal, AlignmentVertical, Borders, Entity, Fault, Indent, Position, Sides,
};
use std::alloc::{AllocError, Global};
use std::marker::Model;

/// All settings of a table: those of the whole, those that each cell has, and the spans. A cell has
/// the value of the last accepted call whose entity covers it, and before any the one that these settings
/// were made with.
///
/// Settings of cells fail as [`EntityMap::insert`] does: as `Memory`, where allocation fails.
#[derive(Debug)]
pub struct SpannedConfig {
    whole: WholeSettings,
    cells: CellSettings,
    spans: Spans,
    alloc: Global,
}

impl Drop for SpannedConfig {
    fn drop(self) {
        let SpannedConfig {
            whole,
            cells,
            spans,
            alloc: _,
        } = self;
        drop(whole);
        drop(cells);
        drop(spans);
    }
}

impl Model for SpannedConfig {
    ghost use Rattle.grid_config.specs.Settings.{Settings};

    ghost Value = { Settings };

    ghost view = { λ config. record {
      margin = config.whole.margin;
      margin_color = config.whole.margin_color;
      borders = config.whole.borders;
      borders_color = config.whole.borders_color;
      padding = config.cells.padding;
      padding_color = config.cells.padding_color;
      alignment_horizontal = config.cells.alignment_horizontal;
      alignment_vertical = config.cells.alignment_vertical;
      line_alignment = config.cells.line_alignment;
      trim_horizontal = config.cells.trim_horizontal;
      trim_vertical = config.cells.trim_vertical;
      justification = config.cells.justification;
      justification_color = config.cells.justification_color;
      spans = config.spans;
    } };
}

impl SpannedConfig {
    /// No glyph, margin and padding 0, texts at the left and top, no line alignment, no trims, spaces
    /// for justification, no colour, no span. Does not allocate.
    pub fn new(alloc: Global) -> SpannedConfig
        ensures { StartsWith new_start result }
    {
        let none = Sides::new(None, None, None, None);
        let padding = Sides::filled(Indent::zero());
        SpannedConfig {
            whole: WholeSettings::new(),
            cells: CellSettings::new(alloc, padding, none, AlignmentHorizontal::Left),
            spans: Spans::new(alloc),
            alloc,
        }
    }

    /// The settings of a compact table, for the whole table, and else those of `new`. A colour whose
    /// texts are empty is none, but on a border. Fails only where allocation fails, and never where no colour has
    /// a text.
    pub fn from_compact_config(alloc: Global, c: CompactConfig) -> Result<SpannedConfig, AllocError>
        ensures settings { IfOk result (StartsWith (compact_start (compact_of c))) }
        ensures answers { IsUncolored (compact_of c) → IsOk result }
    {
        let whole = WholeSettings::from_compact(alloc, &c)?;
        let padding_color = owned_sides(alloc, c.get_padding_color())?;
        Ok(SpannedConfig {
            whole,
            cells: CellSettings::new(
                alloc,
                *c.get_padding(),
                padding_color,
                c.get_alignment_horizontal(),
            ),
            spans: Spans::new(alloc),
            alloc,
        })
    }

    /// A clone of the settings, which shares no memory with them. Fails only where allocation fails.
    pub fn clone(&self, alloc: Global) -> Result<SpannedConfig, AllocError>
        ensures look { IfOk result (λ copy. look_of copy ≡ look_of self.now) }
        ensures spans { IfOk result (λ copy. copy.spans ≡ self.now.spans) }
    {
        let whole = self.whole.clone(alloc)?;
        let cells = self.cells.clone(alloc)?;
        let spans = self.spans.clone(alloc)?;
        Ok(SpannedConfig {
            whole,
            cells,
            spans,
            alloc,
        })
    }

    // The allocator that it keeps.
    pub(crate) fn allocator(&self) -> Global {
        self.alloc
    }

    /// Sets the margin around the table. Does not allocate.
    pub fn set_margin(&mut self, value: Sides<Indent>)
        ensures { self.new ≡ record self.old { margin = value } }
    {
        self.whole.margin = value;
    }

    /// The margin around the table: columns at the left and right, lines at the top and bottom.
    pub fn get_margin(&self) -> &Sides<Indent>
        ensures { result.now ≡ self.now.margin }
    {
        &self.whole.margin
    }

    /// Sets the colours of the margin. Does not allocate.
    pub fn set_margin_color(&mut self, value: Sides<Option<ANSIBuf>>)
        ensures { self.new ≡ record self.old { margin_color = value } }
    {
        self.whole.margin_color = value;
    }

    /// The colours of the margin, where it has any.
    pub fn get_margin_color(&self) -> &Sides<Option<ANSIBuf>>
        ensures { result.now ≡ self.now.margin_color }
    {
        &self.whole.margin_color
    }

    /// Sets the glyphs of the table's boundaries. Does not allocate.
    pub fn set_borders(&mut self, value: Borders<char>)
        ensures { self.new ≡ record self.old { borders = value } }
    {
        self.whole.borders = value;
    }

    /// The glyphs of the table's boundaries.
    pub fn get_borders(&self) -> &Borders<char>
        ensures { result.now ≡ self.now.borders }
    {
        &self.whole.borders
    }

    /// Sets the colours of the glyphs of the table's boundaries. Does not allocate.
    pub fn set_borders_color(&mut self, value: Borders<ANSIBuf>)
        ensures { self.new ≡ record self.old { borders_color = value } }
    {
        self.whole.borders_color = value;
    }

    /// The colours of the glyphs of the table's boundaries.
    pub fn get_borders_color(&self) -> &Borders<ANSIBuf>
        ensures { result.now ≡ self.now.borders_color }
    {
        &self.whole.borders_color
    }

    /// Sets the padding of cells, for the cells of the entity. Fails with
    /// `Memory` alone, and then nothing has changed; for all cells it never fails.
    pub fn set_padding(&mut self, entity: Entity, value: Sides<Indent>) -> Result<(), Fault>
        ensures outcome { SetsOrIsRefused self.old.padding self.new.padding entity value result }
        ensures others { KeepsOthers Padding self.old self.new }
    {
        self.cells.padding.insert(entity, value)?;
        Ok(())
    }

    /// The padding of a cell: columns at the left and right, lines at the top and bottom.
    pub fn get_padding(&self, pos: Position) -> &Sides<Indent>
        ensures { result.now ≡ value_at self.now.padding pos }
    {
        self.cells.padding.get(pos)
    }

    /// Sets the colours of cells' paddings, for the cells of the entity. Fails with
    /// `Memory` alone, and then nothing has changed; for all cells it never fails.
    pub fn set_padding_color(
        &mut self,
        entity: Entity,
        value: Sides<Option<ANSIBuf>>,
    ) -> Result<(), Fault>
        ensures outcome { SetsOrIsRefused self.old.padding_color self.new.padding_color entity value result }
        ensures others { KeepsOthers PaddingColor self.old self.new }
    {
        self.cells.padding_color.insert(entity, value)?;
        Ok(())
    }

    /// The colours of a cell's padding, where it has any.
    pub fn get_padding_color(&self, pos: Position) -> &Sides<Option<ANSIBuf>>
        ensures { result.now ≡ value_at self.now.padding_color pos }
    {
        self.cells.padding_color.get(pos)
    }

    /// Sets where cells' texts are between their left and right padding, for the cells of the entity. Fails with
    /// `Memory` alone, and then nothing has changed; for all cells it never fails.
    pub fn set_alignment_horizontal(
        &mut self,
        entity: Entity,
        value: AlignmentHorizontal,
    ) -> Result<(), Fault>
        ensures outcome { SetsOrIsRefused self.old.alignment_horizontal self.new.alignment_horizontal entity value result }
        ensures others { KeepsOthers HorizontalAlignment self.old self.new }
    {
        self.cells.alignment_horizontal.insert(entity, value)?;
        Ok(())
    }

    /// Where a cell's text is between its left and right padding.
    pub fn get_alignment_horizontal(&self, pos: Position) -> AlignmentHorizontal
        ensures { result ≡ value_at self.now.alignment_horizontal pos }
    {
        *self.cells.alignment_horizontal.get(pos)
    }

    /// Where all texts of this column are known to be: no call named a row or a cell since one named all. `None` says
    /// nothing.
    pub fn column_alignment(&self, column: usize) -> Option<AlignmentHorizontal>
        ensures { IfSome result (λ one. (place : CellPosition) → place.col ≡ column → value_at self.now.alignment_horizontal place ≡ one) }
    {
        self.cells
            .alignment_horizontal
            .column_value(column)
            .copied()
    }

    /// Sets where cells' texts are between their top and bottom padding, for the cells of the entity. Fails with
    /// `Memory` alone, and then nothing has changed; for all cells it never fails.
    pub fn set_alignment_vertical(
        &mut self,
        entity: Entity,
        value: AlignmentVertical,
    ) -> Result<(), Fault>
        ensures outcome { SetsOrIsRefused self.old.alignment_vertical self.new.alignment_vertical entity value result }
        ensures others { KeepsOthers VerticalAlignment self.old self.new }
    {
        self.cells.alignment_vertical.insert(entity, value)?;
        Ok(())
    }

    /// Where a cell's text is between its top and bottom padding.
    pub fn get_alignment_vertical(&self, pos: Position) -> AlignmentVertical
        ensures { result ≡ value_at self.now.alignment_vertical pos }
    {
        *self.cells.alignment_vertical.get(pos)
    }

    /// Sets whether each line of a cell is aligned by itself, for the cells of the entity. Fails with
    /// `Memory` alone, and then nothing has changed; for all cells it never fails.
    pub fn set_line_alignment(&mut self, entity: Entity, value: bool) -> Result<(), Fault>
        ensures outcome { SetsOrIsRefused self.old.line_alignment self.new.line_alignment entity value result }
        ensures others { KeepsOthers LineAlignment self.old self.new }
    {
        self.cells.line_alignment.insert(entity, value)?;
        Ok(())
    }

    /// Whether each line of a cell is aligned by itself, and not its text as a block.
    pub fn get_line_alignment(&self, pos: Position) -> bool
        ensures { result ≡ value_at self.now.line_alignment pos }
    {
        *self.cells.line_alignment.get(pos)
    }

    /// Sets whether white space at the ends of cells' lines is left out, for the cells of the entity. Fails with
    /// `Memory` alone, and then nothing has changed; for all cells it never fails.
    pub fn set_trim_horizontal(&mut self, entity: Entity, value: bool) -> Result<(), Fault>
        ensures outcome { SetsOrIsRefused self.old.trim_horizontal self.new.trim_horizontal entity value result }
        ensures others { KeepsOthers TrimHorizontal self.old self.new }
    {
        self.cells.trim_horizontal.insert(entity, value)?;
        Ok(())
    }

    /// Whether white space at both ends of each line of a cell is left out.
    pub fn get_trim_horizontal(&self, pos: Position) -> bool
        ensures { result ≡ value_at self.now.trim_horizontal pos }
    {
        *self.cells.trim_horizontal.get(pos)
    }

    /// Sets whether blank lines at the ends of cells' texts are left out, for the cells of the entity. Fails with
    /// `Memory` alone, and then nothing has changed; for all cells it never fails.
    pub fn set_trim_vertical(&mut self, entity: Entity, value: bool) -> Result<(), Fault>
        ensures outcome { SetsOrIsRefused self.old.trim_vertical self.new.trim_vertical entity value result }
        ensures others { KeepsOthers TrimVertical self.old self.new }
    {
        self.cells.trim_vertical.insert(entity, value)?;
        Ok(())
    }

    /// Whether lines of nothing but white space at both ends of a cell's text are left out.
    pub fn get_trim_vertical(&self, pos: Position) -> bool
        ensures { result ≡ value_at self.now.trim_vertical pos }
    {
        *self.cells.trim_vertical.get(pos)
    }

    /// Sets what fills the columns that cells' lines leave free, for the cells of the entity. Fails with
    /// `Memory` alone, and then nothing has changed; for all cells it never fails.
    pub fn set_justification(&mut self, entity: Entity, value: char) -> Result<(), Fault>
        ensures outcome { SetsOrIsRefused self.old.justification self.new.justification entity value result }
        ensures others { KeepsOthers Justification self.old self.new }
    {
        self.cells.justification.insert(entity, value)?;
        Ok(())
    }

    /// What fills the columns that a cell's lines leave free.
    pub fn get_justification(&self, pos: Position) -> char
        ensures { result ≡ value_at self.now.justification pos }
    {
        *self.cells.justification.get(pos)
    }

    /// Sets the colour of what fills the columns that cells' lines leave free, for the cells of the entity. Fails with
    /// `Memory` alone, and then nothing has changed; for all cells it never fails.
    pub fn set_justification_color(
        &mut self,
        entity: Entity,
        value: Option<ANSIBuf>,
    ) -> Result<(), Fault>
        ensures outcome { SetsOrIsRefused self.old.justification_color self.new.justification_color entity value result }
        ensures others { KeepsOthers JustificationColor self.old self.new }
    {
        self.cells.justification_color.insert(entity, value)?;
        Ok(())
    }

    /// The colour of what fills the columns that a cell's lines leave free, where it has one.
    pub fn get_justification_color(&self, pos: Position) -> &Option<ANSIBuf>
        ensures { result.now ≡ value_at self.now.justification_color pos }
    {
        self.cells.justification_color.get(pos)
    }

    /// Whether column boundary `j` of `columns` columns is there: `has_left` of the borders at 0,
    /// `has_right` at `columns`, else `has_vertical`.
    pub fn has_vertical(&self, j: usize, columns: usize) -> bool
        ensures { result ≡ has_column_boundary self.now.borders (boundary_kind j columns) }
    {
        self.whole.borders.has_vertical_at(j, columns)
    }

    /// Whether row boundary `i` of `rows` rows is there: `has_top` of the borders at 0, `has_bottom`
    /// at `rows`, else `has_horizontal`.
    pub fn has_horizontal(&self, i: usize, rows: usize) -> bool
        ensures { result ≡ has_row_boundary self.now.borders (boundary_kind i rows) }
    {
        self.whole.borders.has_horizontal_at(i, rows)
    }

    /// How many of the column boundaries from 0 to `columns`, which is below `usize::MAX`, are there. Looks at
    /// no column.
    pub fn count_vertical(&self, columns: usize) -> usize
        requires { columns < usize.MAX }
        ensures { result ≡ boundary_count (has_column_boundary self.now.borders) columns }
    {
        self.whole.borders.count_vertical(columns)
    }

    /// How many of the row boundaries from 0 to `rows`, which is below `usize::MAX`, are there. Looks at no row.
    pub fn count_horizontal(&self, rows: usize) -> usize
        requires { rows < usize.MAX }
        ensures { result ≡ boundary_count (has_row_boundary self.now.borders) rows }
    {
        self.whole.borders.count_horizontal(rows)
    }

    /// Whether all cells are known to have the same settings, but for what they span: no call named fewer
    /// since the last that named all.
    pub fn is_uniform(&self) -> bool
        ensures { IsTrue result → AreUniform self.now }
    {
        self.is_uniform_but_alignment() && self.cells.alignment_horizontal.is_uniform()
    }

    /// Whether all cells are known to have the same settings, but for what they span and for the side, left,
    /// right or middle, at which their texts are: no call that sets another setting named fewer since the
    /// last that named all.
    pub fn is_uniform_but_alignment(&self) -> bool
        ensures { IsTrue result → AreUniformButAlignment self.now }
    {
        let cells = &self.cells;
        cells.padding.is_uniform()
            && cells.padding_color.is_uniform()
            && cells.alignment_vertical.is_uniform()
            && cells.line_alignment.is_uniform()
            && cells.trim_horizontal.is_uniform()
            && cells.trim_vertical.is_uniform()
            && cells.justification.is_uniform()
            && cells.justification_color.is_uniform()
    }

    /// Whether all cells are known to have the same settings, but for what they span, for the side at which their
    /// texts are, and for whether their lines are trimmed at both ends and aligned one by one: no call that sets
    /// another setting named fewer since the last that named all.
    pub fn is_uniform_but_lines(&self) -> bool
        ensures { IsTrue result → AreUniformButLines self.now }
    {
        let cells = &self.cells;
        cells.padding.is_uniform()
            && cells.padding_color.is_uniform()
            && cells.alignment_vertical.is_uniform()
            && cells.trim_vertical.is_uniform()
            && cells.justification.is_uniform()
            && cells.justification_color.is_uniform()
    }

    /// Whether no cell spans several columns or rows.
    pub fn has_no_spans(&self) -> bool
        ensures empty { IsTrue result ↔ (self.now.spans ≡ []) }
        ensures several { IsTrue result ↔ ((place : CellPosition) → ¬ (SpansSeveral self.now.spans place)) }
    {
        self.spans.is_empty()
    }

    /// Sets how many columns the cell at this place takes; 1 takes its span over columns away. Refused as `Spans`
    /// for 0, and as `Memory` where allocation fails, and then nothing has changed. Allocates only where a cell of
    /// one row and one column gets a span of several.
    pub fn set_column_span(&mut self, pos: Position, n: usize) -> Result<(), Fault>
        ensures outcome { SetsSpanOrIsRefused self.old.spans self.new.spans pos n (record (extent_at self.old.spans pos) { columns = n }) result }
        ensures others { KeepsOthers CellSpans self.old self.new }
    {
        self.spans.set_column_span(pos, n)
    }

    /// How many columns the cell at this place takes: `None` for one.
    pub fn get_column_span(&self, pos: Position) -> Option<usize>
        ensures value { result ≡ span_if_several (extent_at self.now.spans pos).columns }
        ensures several { IfSome result (λ n. 1 < n) }
    {
        self.spans.get_column_span(pos)
    }

    /// Sets how many rows the cell at this place takes; 1 takes its span over rows away. Refused as `Spans` for 0,
    /// and as `Memory` where allocation fails, and then nothing has changed. Allocates only where a cell of one
    /// row and one column gets a span of several.
    pub fn set_row_span(&mut self, pos: Position, n: usize) -> Result<(), Fault>
        ensures outcome { SetsSpanOrIsRefused self.old.spans self.new.spans pos n (record (extent_at self.old.spans pos) { rows = n }) result }
        ensures others { KeepsOthers CellSpans self.old self.new }
    {
        self.spans.set_row_span(pos, n)
    }

    /// How many rows the cell at this place takes: `None` for one.
    pub fn get_row_span(&self, pos: Position) -> Option<usize>
        ensures value { result ≡ span_if_several (extent_at self.now.spans pos).rows }
        ensures several { IfSome result (λ n. 1 < n) }
    {
        self.spans.get_row_span(pos)
    }

    /// Whether the rectangle of no other cell holds this place.
    pub fn is_cell_visible(&self, pos: Position) -> bool
        ensures { IsTrue result ↔ IsVisible self.now.spans pos }
    {
        self.spans.is_cell_visible(pos)
    }

    /// The cell that is seen at this place: the first by row, then by column, of the other cells whose rectangles
    /// hold the place, and its own where there is none. Each cell takes at least one row and one column.
    pub fn owner(&self, pos: Position) -> Position
        ensures first { result ≡ owner (extent_at self.now.spans) pos }
        ensures positive { ArePositive self.now.spans }
    {
        self.spans.owner(pos)
    }

    /// Whether the spans are good in a table of `rows` rows and `columns` columns: the rectangle of each cell in it
    /// that spans several rows or columns stays inside it, and no two of these share a place. Each cell takes at
    /// least one row and one column.
    pub fn spans_are_good(&self, rows: usize, columns: usize) -> bool
        ensures good { IsTrue result ↔ AreGood self.now.spans rows columns }
        ensures positive { ArePositive self.now.spans }
    {
        self.spans.spans_are_good(rows, columns)
    }
}
