//! Rows, where all cells of a table have the same settings except for how lines are placed and trimmed: what comes
//! between their texts is made once.
ghost use Rattle.std.specs.Prelude.{◌≡◌, ◌<◌, ◌≤◌, ◌++◌, ℕ, [], IfOk, IfSome, IsSome, IsTrue, None, OnOk, Some, length, replicate, slice_index_or, string_bytes};
ghost use Rattle.std.specs.Option.{option_map};
ghost use Rattle.grid_config.specs.Looks.{Look, look_of};
ghost use Rattle.grid_config.specs.Colors.{color_of};
ghost use Rattle.grid_config_values.specs.declared.position.Position.{Position as CellPosition};
ghost use Rattle.papergrid_picture.specs.Blocks.{free_left};
ghost use Rattle.papergrid_cells.specs.BlockLines.{alone_bytes};
ghost use Rattle.papergrid_cells.specs.Boundaries.{upright_bytes};
ghost use Rattle.papergrid_cells.specs.Flat.{AreEven, AreFlatRows, AreOfColumns, AreUntrimmed, GoesOn, HasSlot, IsEmptyRow, IsSlotOf, behind_text, empty_from, head_bytes, joints_of, kept_bytes, led_bytes, line_in_column, room_in, slots_from, spaced_text, standing_of};
ghost use Rattle.papergrid_cells.specs.Painting.{colored, fill_bytes};
ghost use Rattle.papergrid_cells.specs.declared.block.BlockLine.TheVariants.{Text};
ghost use Rattle.papergrid_cells.specs.declared.empty_row.Ink.TheVariants.{Uncolored};
ghost use Rattle.grid_config_values.specs.declared.alignment.AlignmentHorizontal.TheVariants.{Left};

use crate::block::{OpenCell, borrowed, free_left, push_indent};
use crate::empty_row::{EmptyRow, Ink, TextSlot};
use crate::glyphs::push_upright;
use crate::painting::{push_fill, push_repeated, push_text};
use crate::spaced::Spaced;
use grid_config::{ANSIBuf, ANSIStr, SpannedConfig};
use grid_config_values::{AlignmentHorizontal, Indent, Position};
use std::alloc::{AllocError, Global};

// The cell whose settings are taken as those of all cells.
const FIRST: Position = Position { row: 0, col: 0 };

/// What rows have in common:
/// - what a line has before the first text, between two, and after the last;
/// - what comes before a text in the first column and in each other one, and after it, in a line whose cells are
///   appended one by one;
/// - how texts are placed in their columns, and the alignment of all cells where they have only one, or else that of
///   each column where its cells have only one;
/// - whether no text is trimmed;
/// - the line of a row of empty cells, where it was made.
#[derive(Drop)]
pub struct FlatRows<'a> {
    pub front: String,
    pub between: Spaced,
    pub back: Spaced,
    pub first_head: String,
    pub head: String,
    pub tail: Spaced,
    pub left: usize,
    pub right: usize,
    pub fill: char,
    pub fill_color: Option<ANSIStr<'a>>,
    pub alignment: Option<AlignmentHorizontal>,
    pub alignments: Vec<AlignmentHorizontal>,
    pub untrimmed: bool,
    pub empty: Option<EmptyRow<'a>>,
}

/// Whether all cells are known to have the same settings except for how the lines of their texts are placed from left
/// to right and trimmed. Also none spans several rows or columns, or is padded above or below.
pub fn are_even(cfg: &SpannedConfig) -> bool
    ensures { IsTrue result → AreEven cfg.now }
{
    let padding = cfg.get_padding(FIRST);
    cfg.has_no_spans()
        && cfg.is_uniform_but_lines()
        && padding.top.size == 0
        && padding.bottom.size == 0
}

// Whether it is known that no text is trimmed.
fn are_untrimmed(cfg: &SpannedConfig) -> bool
    ensures { IsTrue result → AreUntrimmed (look_of cfg.now) }
{
    cfg.is_uniform_but_alignment()
        && !cfg.get_trim_horizontal(FIRST)
        && !cfg.get_trim_vertical(FIRST)
}

impl<'a> FlatRows<'a> {
    /// The rows of a table of `columns` columns, without the line of a row of empty cells. Fails only where
    /// allocation fails.
    pub fn new(
        alloc: Global,
        cfg: &'a SpannedConfig,
        columns: usize,
    ) -> Result<FlatRows<'a>, AllocError>
        ensures rows { IfOk result (λ rows. AreFlatRows (look_of cfg.now) columns rows) }
        ensures empty { IfOk result (λ rows. rows.empty ≡ None) }
    {
        let (margin, margin_color) = (cfg.get_margin(), cfg.get_margin_color());
        let (padding, padding_color) = (cfg.get_padding(FIRST), cfg.get_padding_color(FIRST));
        let before = Blank::new(&margin.left, &margin_color.left);
        let left = Blank::new(&padding.left, &padding_color.left);
        let right = Blank::new(&padding.right, &padding_color.right);
        let behind = Blank::new(&margin.right, &margin_color.right);
        let front = joint(alloc, cfg, before, 0, columns, left)?;
        let between = spaced_joint(alloc, cfg, right, 1, columns, left)?;
        let back = spaced_joint(alloc, cfg, right, columns, columns, behind)?;
        let (first_head, head) = heads(alloc, cfg, columns, left)?;
        let tail = tail(alloc, right)?;
        let alignments = column_alignments(alloc, cfg, columns)?;
        Ok(FlatRows {
            front,
            between,
            back,
            first_head,
            head,
            tail,
            left: padding.left.size,
            right: padding.right.size,
            fill: cfg.get_justification(FIRST),
            fill_color: borrowed(cfg.get_justification_color(FIRST)),
            alignment: one_alignment(cfg),
            alignments,
            untrimmed: are_untrimmed(cfg),
            empty: None,
        })
    }

    /// The same with the line of a row of empty cells, for columns of these widths and inks. It is made where spaces in
    /// no colour fill what texts leave free. Fails only where allocation fails.
    pub fn with_empty_row(
        self,
        alloc: Global,
        widths: &[usize],
        inks: &[Ink<'a>],
    ) -> Result<FlatRows<'a>, AllocError>
        ensures rows { IfOk result (λ rows. (look : Look) (columns : ℕ) → AreFlatRows look columns self.entry → AreFlatRows look columns rows) }
        ensures empty { IfOk result (λ rows. IfSome rows.empty (IsEmptyRow rows widths.now inks.now)) }
        ensures alignment { IfOk result (λ rows. rows.alignment ≡ self.entry.alignment) }
        ensures made { IfOk result (λ rows. rows.fill ≡ 0x20 → rows.fill_color ≡ None → IsSome rows.empty) }
    {
        let mut rows = self;
        rows.empty = rows.empty_row(alloc, widths, inks)?;
        Ok(rows)
    }

    // The line of a row of empty cells.
    fn empty_row(
        &self,
        alloc: Global,
        widths: &[usize],
        inks: &[Ink<'a>],
    ) -> Result<Option<EmptyRow<'a>>, AllocError>
        ensures row { IfOk result (λ row. IfSome row (IsEmptyRow self.now widths.now inks.now)) }
        ensures made { IfOk result (λ row. self.now.fill ≡ 0x20 → self.now.fill_color ≡ None → IsSome row) }
    {
        if self.fill != ' ' || self.fill_color.is_some() {
            return Ok(None);
        }
        let line = self.empty_line(alloc, widths, inks)?;
        let rest = line.len() - self.front.len();
        let slots = self.slots(alloc, widths, inks, rest)?;
        Ok(Some(EmptyRow { line, slots }))
    }

    // Its bytes.
    fn empty_line(
        &self,
        alloc: Global,
        widths: &[usize],
        inks: &[Ink<'a>],
    ) -> Result<String, AllocError>
        ensures { IfOk result (λ line. string_bytes line ≡ string_bytes self.now.front ++ empty_from (joints_of self.now) inks.now (length widths.now) 0 widths.now) }
    {
        let mut line = String::new(alloc);
        line.push_str(&self.front)?;
        for j in 0..widths.len() {
            let (room, ink) = (self.room(widths[j]), ink_at(inks, j));
            line.push_str(ink.lead())?;
            push_repeated(&mut line, ' ', ink.kept())?;
            self.behind(j, widths.len()).push_behind(&mut line, room)?;
        }
        Ok(line)
    }

    // The slots in it, where `rest` bytes come after what it has before the first text.
    fn slots(
        &self,
        alloc: Global,
        widths: &[usize],
        inks: &[Ink<'a>],
        mut rest: usize,
    ) -> Result<Vec<TextSlot<'a>>, AllocError>
        requires { rest ≡ length (empty_from (joints_of self.now) inks.now (length widths.now) 0 widths.now) }
        ensures { IfOk result (λ slots. slots.items ≡ slots_from (joints_of self.now) inks.now (length widths.now) 0 widths.now) }
    {
        let mut slots = Vec::with_capacity(alloc, widths.len())?;
        for j in 0..widths.len() {
            let (width, ink) = (self.room(widths[j]), ink_at(inks, j));
            rest -= ink.lead().len();
            slots.push(TextSlot { width, ink, rest })?;
            rest = rest - ink.kept() - width - self.behind(j, widths.len()).len();
        }
        Ok(slots)
    }

    // How many columns a text has in a column of this width.
    #[inline(always)]
    fn room(&self, width: usize) -> usize
        ensures { result ≡ room_in (joints_of self.now) width }
    {
        width.saturating_sub(self.left).saturating_sub(self.right)
    }

    /// The line of a row of empty cells, where it was made.
    #[inline(always)]
    pub fn empty(&self) -> &Option<EmptyRow<'a>>
        ensures { result.now ≡ self.now.empty }
    {
        &self.empty
    }

    /// Whether the texts of all cells are known to be at the left.
    #[inline(always)]
    pub fn stand_left(&self) -> bool
        ensures { IsTrue result → self.now.alignment ≡ Some Left }
    {
        match self.alignment {
            Some(AlignmentHorizontal::Left) => true,
            Some(AlignmentHorizontal::Center) => false,
            Some(AlignmentHorizontal::Right) => false,
            None => false,
        }
    }

    /// How many of the columns that the text of this cell leaves free are before it. The rows were made for the
    /// table of these settings.
    #[inline(always)]
    pub fn free_before_line(&self, cfg: &SpannedConfig, pos: Position, free: usize) -> usize
        ensures { (columns : ℕ) → AreFlatRows (look_of cfg.now) columns self.now → result ≡ free_left ((look_of cfg.now).alignment_horizontal pos) free }
    {
        match self.alignment {
            Some(alignment) => free_left(alignment, free),
            None => self.free_in_column(cfg, pos, free),
        }
    }

    // The same by the alignment of the column, where its cells have only one.
    #[inline(always)]
    fn free_in_column(&self, cfg: &SpannedConfig, pos: Position, free: usize) -> usize
        ensures { (columns : ℕ) → AreFlatRows (look_of cfg.now) columns self.now → result ≡ free_left ((look_of cfg.now).alignment_horizontal pos) free }
    {
        match self.alignments.get(pos.col) {
            Some(alignment) => free_left(*alignment, free),
            None => free_before_line_of(cfg, pos, free),
        }
    }

    /// What comes before the first text of a row.
    pub fn front(&self) -> &str
        ensures { result.now ≡ string_bytes self.now.front }
    {
        &self.front
    }

    // What comes after the text in column `j` of `columns`.
    #[inline(always)]
    fn behind(&self, j: usize, columns: usize) -> &Spaced
        requires { j < columns }
        ensures { spaced_text result.now ≡ behind_text self.now j columns }
    {
        if j + 1 == columns {
            &self.back
        } else {
            &self.between
        }
    }

    /// Appends a line to the column of its cell, one of `columns`, by the alignment of that cell, and what comes
    /// after it. The line measures `measure`, and is placed as one that measures `counted`; the column is `width` wide.
    /// Fails only where allocation fails.
    #[inline(always)]
    pub fn push_line(
        &self,
        out: &mut String,
        cfg: &SpannedConfig,
        pos: Position,
        columns: usize,
        width: usize,
        measure: usize,
        counted: usize,
        color: Option<ANSIStr<'_>>,
        line: &str,
    ) -> Result<(), AllocError>
        requires made { AreFlatRows (look_of cfg.now) columns self.now }
        requires column { pos.col < columns }
        ensures { OnOk result (string_bytes out.new ≡ string_bytes out.old
            ++ (line_in_column (standing_of self.now ((look_of cfg.now).alignment_horizontal pos)) width measure counted (option_map color_of color.entry) line.now
            ++ behind_text self.now pos.col columns)) }
    {
        let room = self.room(width);
        let free_before = self.free_before_line(cfg, pos, room.saturating_sub(counted));
        let rest = room.saturating_sub(free_before).saturating_sub(measure);
        push_fill(out, self.fill, free_before, self.fill_color)?;
        push_text(out, line, color)?;
        self.push_rest(out, rest, self.behind(pos.col, columns))
    }

    /// Appends the boundary before the column of this cell, one of `columns`, and the line of its text with this
    /// number, between its paddings. The rows were made for the table of these settings. Fails only where
    /// allocation fails.
    pub fn push_part(
        &self,
        out: &mut String,
        cfg: &SpannedConfig,
        cell: &OpenCell<'_>,
        columns: usize,
        k: usize,
    ) -> Result<(), AllocError>
        requires even { AreEven cfg.now }
        requires made { AreFlatRows (look_of cfg.now) columns self.now }
        requires column { cell.now.pos.col < columns }
        ensures { OnOk result (string_bytes out.new ≡ string_bytes out.old ++ (upright_bytes (look_of cfg.now) cell.now.pos.col columns ++ alone_bytes (look_of cfg.now) cell.now (Text k))) }
    {
        let lines = &cell.lines;
        let counted = lines.counted(cfg.get_line_alignment(cell.pos), k);
        let measure = lines.width(k);
        out.push_str(self.head_of(cell.pos.col))?;
        let room = self.room(cell.width);
        let before = self.free_before_line(cfg, cell.pos, room.saturating_sub(counted));
        let free = room.saturating_sub(before).saturating_sub(measure);
        push_fill(out, self.fill, before, self.fill_color)?;
        push_text(out, lines.text(k), cell.color)?;
        self.push_rest(out, free, &self.tail)
    }

    /// Appends what is left of the line of a row of empty cells up to the column of this slot. Then appends a text of
    /// one line in the column, by the alignment of its cell. The text measures `measure`, and is placed as one that
    /// measures `counted`. The rows were made for the table of these settings. Returns what is left after that. Fails
    /// only where allocation fails.
    #[inline(always)]
    pub fn push_next<'e>(
        &self,
        out: &mut String,
        cfg: &SpannedConfig,
        slot: &TextSlot<'_>,
        left: &'e str,
        pos: Position,
        measure: usize,
        counted: usize,
        color: Option<ANSIStr<'_>>,
        text: &str,
    ) -> Result<&'e str, AllocError>
        requires { HasSlot left.now slot.now }
        ensures { IfOk result (λ rest. (columns width : ℕ) → AreFlatRows (look_of cfg.now) columns self.now → IsSlotOf self.now width slot.now → (has : HasSlot left.now slot.now)
            → GoesOn (string_bytes out.new) rest.now
            ((string_bytes out.old ++ has.middle) ++ line_in_column (standing_of self.now ((look_of cfg.now).alignment_horizontal pos)) width measure counted (option_map color_of color.entry) text.now)
            has.spaces.after) }
    {
        if leaves_empty(slot, measure, text) {
            return Ok(left);
        }
        let before = self.free_before_line(cfg, pos, slot.width.saturating_sub(counted));
        let free = slot.width.saturating_sub(before).saturating_sub(measure);
        out.push_str(left_before(left, slot))?;
        push_fill(out, ' ', before, None)?;
        push_text(out, text, color)?;
        Ok(left_behind(left, slot, free))
    }

    // What comes before a text in this column, where its cell is appended alone.
    #[inline(always)]
    fn head_of(&self, column: usize) -> &str
        ensures { result.now ≡ head_bytes self.now column }
    {
        if column == 0 {
            &self.first_head
        } else {
            &self.head
        }
    }

    // Appends what is free after a text, and what comes after that.
    #[inline(always)]
    fn push_rest(&self, out: &mut String, rest: usize, behind: &Spaced) -> Result<(), AllocError>
        ensures { OnOk result (string_bytes out.new ≡ string_bytes out.old ++ (colored (option_map color_of self.now.fill_color) (fill_bytes self.now.fill rest) ++ spaced_text behind.now)) }
    {
        if self.fill == ' ' && self.fill_color.is_none() {
            return behind.push_behind(out, rest);
        }
        push_fill(out, self.fill, rest, self.fill_color)?;
        behind.push_behind(out, 0)
    }
}

// Whether a line leaves this slot as it is in the line of a row of empty cells.
#[inline(always)]
fn leaves_empty(slot: &TextSlot<'_>, measure: usize, text: &str) -> bool
    ensures slot { IsTrue result → (led_bytes slot.now.ink ≡ []) × (kept_bytes slot.now.ink ≡ 0) }
    ensures line { IsTrue result → (measure ≡ 0) × (length text.now ≡ 0) }
{
    if measure != 0 || !text.is_empty() {
        return false;
    }
    match slot.ink {
        Ink::Uncolored => true,
        Ink::Led { .. } => false,
        Ink::Asked(shade) => shade == 0,
    }
}

// What is left of the line of a row of empty cells before the column of this slot.
#[inline(always)]
fn left_before<'e>(left: &'e str, slot: &TextSlot<'_>) -> &'e str
    requires { HasSlot left.now slot.now }
    ensures { (has : HasSlot left.now slot.now) → result.now ≡ has.middle }
{
    let begin = left.len() - slot.rest;
    &left[..begin - slot.ink.lead().len()]
}

// What is left of it after a text in this slot, where so many columns after the text are free.
#[inline(always)]
fn left_behind<'e>(left: &'e str, slot: &TextSlot<'_>, free: usize) -> &'e str
    requires slot { HasSlot left.now slot.now }
    requires free { free ≤ slot.now.width }
    ensures { (has : HasSlot left.now slot.now) → result.now ≡ replicate free 0x20 ++ has.spaces.after }
{
    let begin = left.len() - slot.rest;
    let used = slot.ink.kept() + (slot.width - free);
    &left[begin + used..]
}

// The ink of this column; after the last column it has no colour.
fn ink_at<'a>(inks: &[Ink<'a>], column: usize) -> Ink<'a>
    ensures { result ≡ slice_index_or inks.now column Uncolored }
{
    match inks.get(column) {
        Some(ink) => *ink,
        None => Ink::Uncolored,
    }
}

// The alignment of all cells, where they are known to have only one.
fn one_alignment(cfg: &SpannedConfig) -> Option<AlignmentHorizontal>
    ensures { IfSome result (λ one. (cell : CellPosition) → (look_of cfg.now).alignment_horizontal cell ≡ one) }
{
    if cfg.is_uniform() {
        Some(cfg.get_alignment_horizontal(FIRST))
    } else {
        None
    }
}

// The alignment of each column, up to the first whose cells are not known to have only one; none where all cells are
// known to have one.
fn column_alignments(
    alloc: Global,
    cfg: &SpannedConfig,
    columns: usize,
) -> Result<Vec<AlignmentHorizontal>, AllocError>
    ensures { IfOk result (λ made. AreOfColumns (look_of cfg.now) made.items) }
{
    let count = if cfg.is_uniform() { 0 } else { columns };
    let mut alignments = Vec::with_capacity(alloc, count)?;
    for column in 0..count {
        let Some(alignment) = cfg.column_alignment(column) else {
            return Ok(alignments);
        };
        alignments.push(alignment)?;
    }
    Ok(alignments)
}

// How many of the free columns are before the text of this cell. Its alignment is looked up only where
// there are some.
#[inline]
fn free_before_line_of(cfg: &SpannedConfig, pos: Position, free: usize) -> usize
    ensures { result ≡ free_left ((look_of cfg.now).alignment_horizontal pos) free }
{
    if free == 0 {
        return 0;
    }
    free_left(cfg.get_alignment_horizontal(pos), free)
}

// A padding or a margin, and its colour.
#[derive(Clone, Copy)]
struct Blank<'a> {
    indent: &'a Indent,
    color: &'a Option<ANSIBuf>,
}

impl<'a> Blank<'a> {
    fn new(indent: &'a Indent, color: &'a Option<ANSIBuf>) -> Blank<'a>
        ensures indent { result.indent.now ≡ indent.now }
        ensures color { result.color.now ≡ color.now }
    {
        Blank { indent, color }
    }
}

// What column boundary `j` shows, and the padding after it.
fn head(
    alloc: Global,
    cfg: &SpannedConfig,
    j: usize,
    columns: usize,
    left: Blank<'_>,
) -> Result<String, AllocError>
    ensures { IfOk result (λ text. string_bytes text ≡ upright_bytes (look_of cfg.now) j columns ++ colored left.entry.color.now (fill_bytes left.entry.indent.now.fill left.entry.indent.now.size)) }
{
    let mut text = String::new(alloc);
    push_upright(&mut text, cfg, j, columns)?;
    push_indent(&mut text, left.indent, left.color)?;
    Ok(text)
}

// The same of the first column boundary, and of each one between two columns.
fn heads(
    alloc: Global,
    cfg: &SpannedConfig,
    columns: usize,
    left: Blank<'_>,
) -> Result<(String, String), AllocError>
    ensures first { IfOk result (λ heads. string_bytes heads.0 ≡ upright_bytes (look_of cfg.now) 0 columns ++ colored left.entry.color.now (fill_bytes left.entry.indent.now.fill left.entry.indent.now.size)) }
    ensures other { IfOk result (λ heads. string_bytes heads.1 ≡ upright_bytes (look_of cfg.now) 1 columns ++ colored left.entry.color.now (fill_bytes left.entry.indent.now.fill left.entry.indent.now.size)) }
{
    let first = head(alloc, cfg, 0, columns, left)?;
    let other = head(alloc, cfg, 1, columns, left)?;
    Ok((first, other))
}

// A padding, to be appended after spaces.
fn tail(alloc: Global, right: Blank<'_>) -> Result<Spaced, AllocError>
    ensures { IfOk result (λ made. spaced_text made ≡ colored right.entry.color.now (fill_bytes right.entry.indent.now.fill right.entry.indent.now.size)) }
{
    let mut text = String::new(alloc);
    push_indent(&mut text, right.indent, right.color)?;
    Spaced::new(alloc, &text)
}

// What column boundary `j` shows, between two blanks.
fn joint(
    alloc: Global,
    cfg: &SpannedConfig,
    before: Blank<'_>,
    j: usize,
    columns: usize,
    behind: Blank<'_>,
) -> Result<String, AllocError>
    ensures { IfOk result (λ text. string_bytes text ≡ colored before.entry.color.now (fill_bytes before.entry.indent.now.fill before.entry.indent.now.size)
        ++ (upright_bytes (look_of cfg.now) j columns ++ colored behind.entry.color.now (fill_bytes behind.entry.indent.now.fill behind.entry.indent.now.size))) }
{
    let mut text = String::new(alloc);
    push_indent(&mut text, before.indent, before.color)?;
    push_upright(&mut text, cfg, j, columns)?;
    push_indent(&mut text, behind.indent, behind.color)?;
    Ok(text)
}

// The same, to be appended after spaces.
fn spaced_joint(
    alloc: Global,
    cfg: &SpannedConfig,
    before: Blank<'_>,
    j: usize,
    columns: usize,
    behind: Blank<'_>,
) -> Result<Spaced, AllocError>
    ensures { IfOk result (λ made. spaced_text made ≡ colored before.entry.color.now (fill_bytes before.entry.indent.now.fill before.entry.indent.now.size)
        ++ (upright_bytes (look_of cfg.now) j columns ++ colored behind.entry.color.now (fill_bytes behind.entry.indent.now.fill behind.entry.indent.now.size))) }
{
    let text = joint(alloc, cfg, before, j, columns, behind)?;
    Spaced::new(alloc, &text)
}
