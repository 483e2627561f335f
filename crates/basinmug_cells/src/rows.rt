//! Rows of cells in one vector.
ghost use Rattle.std.specs.Prelude.{◌≡◌, ◌≤◌, ◌++◌, ◌∷◌, [], IfOk, OnErr, OnOk, length, string_bytes};
ghost use Rattle.basinmug_cells.specs.Ends.{start_at};
ghost use Rattle.basinmug_cells.specs.OwnTexts.{own_texts};
ghost use Rattle.basinmug_cells.specs.Places.{own_place};

use crate::own_text::OwnText;
use crate::place::Place;
use crate::rows_view::{RowsView, start_of};
use grid_config_values::Position;
use std::alloc::{AllocError, Global};
use std::marker::Model;
use std::rc::Rc;

/// Rows of cells, each a part of one text or a text of its own. All cells are in one vector, and where each row ends is in
/// another: a part takes 16 bytes of memory, and a row 8. In a contract it is this text, the rows that are ended, and the
/// cells of the row that isn't.
#[derive(Drop)]
pub struct Rows<'a> {
    pub(crate) text: &'a str,
    pub(crate) places: Vec<Place>,
    pub(crate) ends: Vec<usize>,
    // The texts that are no parts of it.
    pub(crate) own: Vec<Rc<OwnText>>,
}

impl<'a> Model for Rows<'a> {
    ghost use Rattle.std.specs.Prelude.{All, length};
    ghost use Rattle.basinmug_cells.specs.Ends.{Ascend};
    ghost use Rattle.basinmug_cells.specs.Held.{Held, held_in};
    ghost use Rattle.basinmug_cells.specs.OwnTexts.{own_texts};
    ghost use Rattle.basinmug_cells.specs.Places.{IsPlace};

    ghost Value = { Held };

    ghost view = { λ rows. held_in rows.text.now (own_texts rows.own.items) rows.places.items rows.ends.items };

    ghost invariant = { λ rows. All (IsPlace rows.text.now (own_texts rows.own.items)) rows.places.items × Ascend 0 rows.ends.items (length rows.places.items) };
}

impl<'a> Rows<'a> {
    ghost use Rattle.std.specs.Prelude.{◌≡◌, ◌≤◌, IfOk, OnErr, OnOk, length, slice_range, string_bytes, true};
    ghost use Rattle.std.specs.Str.{IsCharBoundary};
    ghost use Rattle.grid_records_measure.specs.Measures.{are_printable};
    ghost use Rattle.grid_records_traits.specs.Rows.{HasCell, with_text};
    ghost use Rattle.grid_records_traits.specs.SingleLines.{IsSingleLine};
    ghost use Rattle.basinmug_cells.specs.Views.{view_rows};
    ghost use Rattle.basinmug_cells.specs.Held.{no_rows, row_ended, with_cell};

    /// No rows, of whose cells parts of this text may be. Does not allocate.
    pub fn new(alloc: Global, text: &'a str) -> Rows<'a>
        ensures { result ≡ no_rows text.now }
    {
        Rows {
            text,
            places: Vec::new(alloc),
            ends: Vec::new(alloc),
            own: Vec::new(alloc),
        }
    }

    /// The same, with capacity for so many cells and rows. Fails only where allocation fails.
    pub fn with_capacity(
        alloc: Global,
        text: &'a str,
        cells: usize,
        rows: usize,
    ) -> Result<Rows<'a>, AllocError>
        ensures { IfOk result (λ rows. rows ≡ no_rows text.now) }
    {
        let places = Vec::with_capacity(alloc, cells)?;
        let ends = Vec::with_capacity(alloc, rows)?;
        Ok(Rows {
            text,
            places,
            ends,
            own: Vec::new(alloc),
        })
    }

    /// How many rows are ended. Does not allocate.
    #[inline(always)]
    pub fn len(&self) -> usize
        ensures { result ≡ length self.now.rows }
    {
        self.ends.len()
    }

    /// How many cells the row has that isn't ended. Does not allocate.
    #[inline(always)]
    pub fn begun_len(&self) -> usize
        ensures { result ≡ length self.now.begun }
    {
        self.places.len() - start_of(0, &self.ends, self.ends.len())
    }

    /// The rows that are ended, to look at. Does not allocate.
    #[inline(always)]
    pub fn view(&self) -> RowsView<'_>
        ensures { view_rows result ≡ self.now.rows }
    {
        RowsView {
            text: self.text,
            own: &self.own,
            places: &self.places,
            start: 0,
            ends: &self.ends,
        }
    }

    /// Appends a cell to the row that isn't ended: the part from `start` to `end`, which is printable ASCII. Fails only where
    /// allocation fails, and then nothing has changed.
    #[inline(always)]
    pub fn push_printable(&mut self, start: usize, end: usize) -> Result<(), AllocError>
        requires ascending { start ≤ end }
        requires start { IsCharBoundary self.old.text start }
        requires end { IsCharBoundary self.old.text end }
        requires printable { are_printable (slice_range self.old.text start end) ≡ true }
        ensures more { OnOk result (self.new ≡ with_cell self.old (slice_range self.old.text start end)) }
        ensures err { OnErr result (self.new ≡ self.old) }
    {
        self.push_line(start, end, end - start)
    }

    /// The same of a part that is one line, and takes so many columns.
    #[inline(always)]
    pub fn push_line(&mut self, start: usize, end: usize, width: usize) -> Result<(), AllocError>
        requires ascending { start ≤ end }
        requires start { IsCharBoundary self.old.text start }
        requires end { IsCharBoundary self.old.text end }
        requires line { IsSingleLine (slice_range self.old.text start end) width }
        ensures more { OnOk result (self.new ≡ with_cell self.old (slice_range self.old.text start end)) }
        ensures err { OnErr result (self.new ≡ self.old) }
    {
        match Place::of_part(start, end, width) {
            Some(place) => {
                self.places.push(place)?;
                Ok(())
            }
            None => self.push_copied(start, end),
        }
    }

    // Appends a part as a text of its own.
    #[cold]
    #[inline(never)]
    fn push_copied(&mut self, start: usize, end: usize) -> Result<(), AllocError>
        requires ascending { start ≤ end }
        requires start { IsCharBoundary self.old.text start }
        requires end { IsCharBoundary self.old.text end }
        ensures more { OnOk result (self.new ≡ with_cell self.old (slice_range self.old.text start end)) }
        ensures err { OnErr result (self.new ≡ self.old) }
    {
        let text = String::from_str(*self.places.allocator(), &self.text[start..end])?;
        self.push_text(text)
    }

    /// Appends a cell with a text of its own, which is measured, to the row that isn't ended. Fails only where allocation
    /// fails, and then nothing has changed.
    pub fn push_text(&mut self, text: String) -> Result<(), AllocError>
        ensures more { OnOk result (self.new ≡ with_cell self.old (string_bytes text)) }
        ensures err { OnErr result (self.new ≡ self.old) }
    {
        let place = push_own(&mut self.own, text)?;
        self.places.push(place)?;
        Ok(())
    }

    /// Ends the row. Fails only where allocation fails, and then nothing has changed.
    #[inline(always)]
    pub fn end_row(&mut self) -> Result<(), AllocError>
        ensures ended { OnOk result (self.new ≡ row_ended self.old) }
        ensures err { OnErr result (self.new ≡ self.old) }
    {
        self.ends.push(self.places.len())?;
        Ok(())
    }

    /// Gives the cell at this place a text of its own, which is measured. Fails only where allocation fails, and then nothing
    /// has changed.
    pub fn set_text(&mut self, pos: Position, text: String) -> Result<(), AllocError>
        requires { HasCell self.old.rows pos }
        ensures set { OnOk result (self.new ≡ record self.old { rows = with_text self.old.rows pos (string_bytes text) }) }
        ensures err { OnErr result (self.new ≡ self.old) }
    {
        let place = push_own(&mut self.own, text)?;
        let index = start_of(0, &self.ends, pos.row) + pos.col;
        self.places[index] = place;
        Ok(())
    }
}

/// Appends a text of a cell's own, which is measured, and returns its place. Fails only where allocation fails, and then
/// nothing has changed.
pub(crate) fn push_own(own: &mut Vec<Rc<OwnText>>, text: String) -> Result<Place, AllocError>
    ensures place { IfOk result (λ place. place ≡ own_place (length own.old.items)) }
    ensures more { OnOk result (own_texts own.new.items ≡ own_texts own.old.items ++ string_bytes text ∷ []) }
    ensures err { OnErr result (own_texts own.new.items ≡ own_texts own.old.items) }
{
    let alloc = *own.allocator();
    let measured = OwnText::new(alloc, text)?;
    let place = Place::of_own(own.len());
    own.push(Rc::new(alloc, measured)?)?;
    Ok(place)
}
