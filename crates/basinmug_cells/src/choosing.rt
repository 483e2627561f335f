//! Rows and columns that are chosen of rows, and a row between them.
ghost use Rattle.std.specs.Prelude.{◌≡◌, ◌≤◌, ◌+◌, ◌-◌, ◌++◌, ◌∷◌, ◌<◌, ◌^◌, ℕ, List, All, IfOk, OnOk, drop, length, map, replicate, take, true};
ghost use Rattle.basinmug_cells.specs.Ends.{Ascend, rows_by, start_at};
ghost use Rattle.basinmug_cells.specs.Held.{number_behind, numbered, owned, owned_here, renumbered};
ghost use Rattle.basinmug_cells.specs.OwnTexts.{own_texts};
ghost use Rattle.basinmug_cells.specs.Places.{IsPlace};
ghost use Rattle.basinmug_cells.specs.Selecting.{selected_place};

use crate::cell_rows::all_between;
use crate::own_text::OwnText;
use crate::place::Place;
use crate::rows::{Rows, push_own};
use crate::rows_view::start_of;
use std::alloc::{AllocError, Global};
use std::rc::Rc;

impl<'a> Rows<'a> {
    ghost use Rattle.std.specs.Prelude.{◌≡◌, ◌≤◌, ◌++◌, IfOk, drop, insert, length, map, replicate, take};
    ghost use Rattle.basinmug_cells.specs.Held.{first_and_last, held};
    ghost use Rattle.basinmug_cells.specs.Selecting.{selected};

    /// Keeps the first `first` rows that are ended, and of those after them the last `last`. The row that isn't ended stays.
    /// The texts of cells' own of the rows between are freed, where a list of the others can be allocated. Capacity stays.
    pub fn keep_ends(&mut self, first: usize, last: usize)
        ensures { self.new ≡ record self.old { rows = first_and_last first last self.old.rows } }
    {
        let count = self.ends.len();
        let start = first.min(count);
        let end = count - last.min(count - start);
        self.remove(start, end);
        self.free();
    }

    // Removes the rows from one on before another.
    fn remove(&mut self, start: usize, end: usize)
        requires ascending { start ≤ end }
        requires there { end ≤ length self.old.rows }
        ensures { self.new ≡ record self.old { rows = take start self.old.rows ++ drop end self.old.rows } }
    {
        let from = start_of(0, &self.ends, start);
        let to = start_of(0, &self.ends, end);
        remove_items(&mut self.places, from, to);
        remove_items(&mut self.ends, start, end);
        lower(&mut self.ends, start, to - from);
    }

    // Frees the texts of cells' own that no cell has any more, where there is memory for a list of the others.
    fn free(&mut self)
        ensures { self.new ≡ self.old }
    {
        if self.own.is_empty() {
            return;
        }
        let Ok(own) = owned(&self.places, &self.own) else {
            return;
        };
        self.own = own;
        renumber(&mut self.places);
    }

    /// The rows with a row more, before the one with this number: so many cells of this text. Fails only where allocation
    /// fails.
    pub fn with_row(
        self,
        alloc: Global,
        row: usize,
        columns: usize,
        text: &str,
    ) -> Result<Rows<'a>, AllocError>
        requires { row ≤ length self.rows }
        ensures { IfOk result (λ more. more ≡ record self.entry { rows = insert self.entry.rows row (replicate columns text.now) }) }
    {
        let text = String::from_str(alloc, text)?;
        let Rows {
            text: of,
            mut places,
            mut ends,
            mut own,
        } = self;
        let place = push_own(&mut own, text)?;
        let start = start_of(0, &ends, row);
        insert_cells(&mut places, start, columns, place)?;
        insert_end(&mut ends, row, start, columns)?;
        Ok(Rows {
            text: of,
            places,
            ends,
            own,
        })
    }

    /// The rows that are ended, of these columns: where a row lacks one it has an empty text, and for a column that is left
    /// out it has this mark. No text is copied. Fails only where allocation fails.
    pub fn select(
        self,
        alloc: Global,
        columns: &[Option<usize>],
        mark: &str,
    ) -> Result<Rows<'a>, AllocError>
        ensures { IfOk result (λ chosen. chosen ≡ held self.entry.text (map (selected columns.now mark.now) self.entry.rows)) }
    {
        let mark = String::from_str(alloc, mark)?;
        let Rows {
            text,
            places,
            ends,
            mut own,
        } = self;
        let mark = push_own(&mut own, mark)?;
        let empty = push_own(&mut own, String::new(alloc))?;
        let (places, ends) = selected_rows(alloc, &places, &ends, columns, mark, empty)?;
        Ok(Rows {
            text,
            places,
            ends,
            own,
        })
    }
}

// Removes the items from one on before another.
fn remove_items<T: Drop>(items: &mut Vec<T>, start: usize, end: usize)
    requires ascending { start ≤ end }
    requires there { end ≤ length items.old.items }
    ensures { items.new.items ≡ take start items.old.items ++ drop end items.old.items }
{
    drop(items.drain(start..end));
}

// Puts so many cells before the one with this number.
fn insert_cells(
    places: &mut Vec<Place>,
    at: usize,
    count: usize,
    place: Place,
) -> Result<(), AllocError>
    requires { at ≤ length places.old.items }
    ensures { OnOk result (places.new.items ≡ take at places.old.items ++ replicate count place ++ drop at places.old.items) }
{
    let alloc = *places.allocator();
    let mut cells = Vec::new(alloc);
    cells.resize(count, place)?;
    let behind = Vec::from_slice(alloc, &places[at..])?;
    places.truncate(at);
    places.extend_from_slice(&cells)?;
    places.extend_from_slice(&behind)?;
    Ok(())
}

// Puts the end of a row of so many cells, which begins there, before the end with this number; the rows behind it move.
fn insert_end(
    ends: &mut Vec<usize>,
    row: usize,
    start: usize,
    count: usize,
) -> Result<(), AllocError>
    requires there { row ≤ length ends.old.items }
    requires fit { All (λ end. end + count < 2 ^ 64) ends.old.items }
    requires begin { start + count < 2 ^ 64 }
    ensures { OnOk result (ends.new.items ≡ take row ends.old.items ++ (start + count) ∷ map (λ end. end + count) (drop row ends.old.items)) }
{
    raise(ends, row, count);
    ends.insert(row, start + count)?;
    Ok(())
}

// The places of these columns of rows, and where the rows end then.
fn selected_rows(
    alloc: Global,
    places: &[Place],
    ends: &[usize],
    columns: &[Option<usize>],
    mark: Place,
    empty: Place,
) -> Result<(Vec<Place>, Vec<usize>), AllocError>
    requires { Ascend 0 ends.now (length places.now) }
    ensures rows { IfOk result (λ chosen. rows_by 0 chosen.1.items chosen.0.items ≡ map (λ row. map (selected_place row mark empty) columns.now) (rows_by 0 ends.now places.now)) }
    ensures all { IfOk result (λ chosen. start_at 0 chosen.1.items (length chosen.1.items) ≡ length chosen.0.items) }
    ensures ascending { IfOk result (λ chosen. Ascend 0 chosen.1.items (length chosen.0.items)) }
    ensures places { IfOk result (λ chosen. (text : List ℕ) (own : List (List ℕ)) → All (IsPlace text own) places.now → IsPlace text own mark → IsPlace text own empty → All (IsPlace text own) chosen.0.items) }
{
    let cells = ends.len().saturating_mul(columns.len());
    let mut chosen = Vec::with_capacity(alloc, cells)?;
    let mut chosen_ends = Vec::with_capacity(alloc, ends.len())?;
    let mut start = 0;
    for end in ends {
        let row = all_between(places, start, *end);
        push_selected(&mut chosen, row, columns, mark, empty)?;
        chosen_ends.push(chosen.len())?;
        start = *end;
    }
    Ok((chosen, chosen_ends))
}

// Appends the places of these columns of a row.
fn push_selected(
    chosen: &mut Vec<Place>,
    row: &[Place],
    columns: &[Option<usize>],
    mark: Place,
    empty: Place,
) -> Result<(), AllocError>
    ensures { OnOk result (chosen.new.items ≡ chosen.old.items ++ map (selected_place row.now mark empty) columns.now) }
{
    for column in columns {
        chosen.push(selected(row, *column, mark, empty))?;
    }
    Ok(())
}

// The place of a row's cell in this column; an empty one where it has none, and the mark for a column that is left out.
fn selected(row: &[Place], column: Option<usize>, mark: Place, empty: Place) -> Place
    ensures { result ≡ selected_place row.now mark empty column }
{
    let Some(column) = column else {
        return mark;
    };
    match row.get(column) {
        Some(place) => *place,
        None => empty,
    }
}

// The texts of cells' own that are at these places, in turn.
fn owned(places: &Vec<Place>, own: &[Rc<OwnText>]) -> Result<Vec<Rc<OwnText>>, AllocError>
    requires { All (λ place. place.is_own ≡ true → place.start < length own.now) places.now.items }
    ensures { IfOk result (λ kept. own_texts kept.items ≡ owned places.now.items (own_texts own.now)) }
{
    let mut kept = Vec::new(*places.allocator());
    for place in places {
        push_owned(&mut kept, *place, own)?;
    }
    Ok(kept)
}

// Appends the text of a cell's own that is at a place, if one is.
fn push_owned(
    kept: &mut Vec<Rc<OwnText>>,
    place: Place,
    own: &[Rc<OwnText>],
) -> Result<(), AllocError>
    requires { place.is_own ≡ true → place.start < length own.now }
    ensures { OnOk result (own_texts kept.new.items ≡ own_texts kept.old.items ++ owned_here place (own_texts own.now)) }
{
    if !place.is_own {
        return Ok(());
    }
    kept.push(own[place.start].clone()?)?;
    Ok(())
}

// Gives the places of cells' own texts their numbers in turn.
fn renumber(places: &mut [Place])
    ensures { places.new ≡ renumbered 0 places.old }
{
    let mut next = 0;
    for place in places.iter_mut() {
        next = number(place, next);
    }
}

// Gives a place this number, if it is of a text of a cell's own, and returns the next number.
fn number(place: &mut Place, next: usize) -> usize
    requires { next < usize.MAX }
    ensures place { place.new ≡ numbered next place.old }
    ensures next { result ≡ number_behind next place.old }
{
    if !place.is_own {
        return next;
    }
    place.start = next;
    next + 1
}

// Makes each number from one on less by so much.
fn lower(numbers: &mut Vec<usize>, from: usize, by: usize)
    requires { from ≤ length numbers.old.items }
    ensures { numbers.new.items ≡ take from numbers.old.items ++ map (λ number. number - by) (drop from numbers.old.items) }
{
    for i in from..numbers.len() {
        numbers[i] = numbers[i].saturating_sub(by);
    }
}

// Makes each number from one on more by so much.
fn raise(numbers: &mut Vec<usize>, from: usize, by: usize)
    requires there { from ≤ length numbers.old.items }
    requires fit { All (λ number. number + by < 2 ^ 64) numbers.old.items }
    ensures { numbers.new.items ≡ take from numbers.old.items ++ map (λ number. number + by) (drop from numbers.old.items) }
{
    for i in from..numbers.len() {
        numbers[i] = numbers[i] + by;
    }
}
