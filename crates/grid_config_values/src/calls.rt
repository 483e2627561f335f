//! The calls that set values for some of the cells.
ghost use Rattle.std.specs.Prelude.{◌≡◌, ◌≢◌, ◌+◌, [], IfOk, IfSome, IsTrue, OnErr, OnOk};
ghost use Rattle.grid_config_values.specs.declared.entity.Entity.TheVariants.{Global as EveryCell};
ghost use Rattle.grid_config_values.specs.declared.position.Position.{Position as CellPosition};
ghost use Rattle.std.specs.Ordering.{nat_cmp};
ghost use Rattle.grid_config_values.specs.Numbers.{AreKept, AreRising, IsNewest, calls_for, in_order, keys_of, seen};
ghost use Rattle.grid_config_values.specs.Order.{position_cmp};
ghost use Rattle.grid_config_values.specs.Settings.{AddsCall, value_after};

use crate::clone_in::CloneIn;
use crate::entity::Entity;
use crate::numbered::{Numbered, copied, found_cell, found_line, keep, later_of};
use crate::position::Position;
use crate::renumbering::next_number;
use std::alloc::{AllocError, Global};
use std::marker::Model;

/// The calls that set a value for some of the cells and still count, each with its number: of the calls for one
/// column, row or cell the last. In a contract they are the list of them, the oldest first.
#[derive(Debug, Drop)]
pub(crate) struct Calls<T> {
    columns: Vec<Numbered<usize, T>>,
    rows: Vec<Numbered<usize, T>>,
    cells: Vec<Numbered<Position, T>>,
    // the number of the next call
    next: u128,
}

impl<T> Model for Calls<T> {
    ghost use Rattle.std.specs.Prelude.{List};
    ghost use Rattle.grid_config_values.specs.declared.entity.Entity.{Entity};

    ghost Value = { List (Entity × T) };

    ghost use Rattle.grid_config_values.specs.Numbers.{AreKeptInside, calls_of};

    ghost view = { calls_of };

    ghost invariant = { AreKeptInside };
}

impl<T: Drop> Calls<T> {
    /// No calls. Does not allocate.
    pub(crate) fn new(alloc: Global) -> Calls<T>
        ensures { result ≡ [] }
    {
        Calls::numbered_from(alloc, 0)
    }

    /// No calls. The first one gets this number. Does not allocate.
    pub(crate) fn numbered_from(alloc: Global, next: u128) -> Calls<T>
        ensures { result ≡ [] }
    {
        Calls {
            columns: Vec::new(alloc),
            rows: Vec::new(alloc),
            cells: Vec::new(alloc),
            next,
        }
    }

    /// Whether no number has been given, so that there are none.
    #[inline]
    pub(crate) fn is_empty(&self) -> bool
        ensures { IsTrue result → self.now ≡ [] }
    {
        self.next == 0
    }

    /// Forgets all calls. Does not allocate.
    pub(crate) fn clear(&mut self)
        ensures { self.new ≡ [] }
    {
        self.columns.clear();
        self.rows.clear();
        self.cells.clear();
        self.next = 0;
    }

    /// Adds a call, as the newest, in place of the one for the same entity. Fails only where there was none and
    /// allocation fails; then nothing has changed.
    pub(crate) fn push(&mut self, entity: Entity, value: T) -> Result<(), AllocError>
        requires { entity ≢ EveryCell }
        ensures ok { OnOk result (AddsCall self.old self.new entity value) }
        ensures err { OnErr result (self.new ≡ self.old) }
    {
        let number = next_number(
            self.next,
            &mut self.columns,
            &mut self.rows,
            &mut self.cells,
        );
        self.next = number;
        keep_for(
            entity,
            number,
            value,
            &mut self.columns,
            &mut self.rows,
            &mut self.cells,
        )?;
        self.next = number + 1;
        Ok(())
    }

    /// The value of the last call that covers the cell at this place, or else this one. Where there are no calls
    /// it is one test, without a call.
    #[inline]
    pub(crate) fn get<'a>(&'a self, pos: Position, otherwise: &'a T) -> &'a T
        ensures { result.now ≡ value_after otherwise.now self.now pos }
    {
        if self.is_empty() {
            return otherwise;
        }
        self.newest(pos, otherwise)
    }

    // The same. It is a function of its own, so that `get` is small where it is inlined.
    #[inline(never)]
    fn newest<'a>(&'a self, pos: Position, otherwise: &'a T) -> &'a T
        ensures { result.now ≡ value_after otherwise.now self.now pos }
    {
        match newest_of(&self.columns, &self.rows, &self.cells, pos) {
            Some((_, value)) => value,
            None => otherwise,
        }
    }

    /// The value of the last call for this column, or else this one, where there are no calls for rows or cells.
    pub(crate) fn column_value<'a>(&'a self, column: usize, otherwise: &'a T) -> Option<&'a T>
        ensures { IfSome result (λ one. (p : CellPosition) → p.col ≡ column → value_after otherwise.now self.now p ≡ one.now) }
    {
        if !self.rows.is_empty() || !self.cells.is_empty() {
            return None;
        }
        match found_line(&self.columns, column) {
            Some((_, value)) => Some(value),
            None => Some(otherwise),
        }
    }
}

impl<T: CloneIn> Calls<T> {
    /// The same calls again. Fails only where allocation fails.
    pub(crate) fn clone(&self, alloc: Global) -> Result<Calls<T>, AllocError>
        ensures { IfOk result (λ copy. copy ≡ self.now) }
    {
        let columns = copied(&self.columns, alloc)?;
        let rows = copied(&self.rows, alloc)?;
        let cells = copied(&self.cells, alloc)?;
        Ok(Calls {
            columns,
            rows,
            cells,
            next: self.next,
        })
    }
}

// What the last call set that covers the cell at this place. Where all calls are of one kind, for cells, for columns
// or for rows, those alone are looked at.
#[inline]
fn newest_of<'a, T>(
    columns: &'a [Numbered<usize, T>],
    rows: &'a [Numbered<usize, T>],
    cells: &'a [Numbered<Position, T>],
    pos: Position,
) -> Option<(u128, &'a T)>
    requires columns { AreRising nat_cmp (keys_of columns.now) }
    requires rows { AreRising nat_cmp (keys_of rows.now) }
    requires cells { AreRising position_cmp (keys_of cells.now) }
    ensures { IsNewest columns.now rows.now cells.now pos (seen result) }
{
    if columns.is_empty() && rows.is_empty() {
        return found_cell(cells, pos);
    }
    if rows.is_empty() && cells.is_empty() {
        return found_line(columns, pos.col);
    }
    if columns.is_empty() && cells.is_empty() {
        return found_line(rows, pos.row);
    }
    let column = found_line(columns, pos.col);
    let row = found_line(rows, pos.row);
    let cell = found_cell(cells, pos);
    later_of(column, later_of(row, cell))
}

// Keeps the value of a call with this number, which is above all others.
fn keep_for<T: Drop>(
    entity: Entity,
    number: u128,
    value: T,
    columns: &mut Vec<Numbered<usize, T>>,
    rows: &mut Vec<Numbered<usize, T>>,
    cells: &mut Vec<Numbered<Position, T>>,
) -> Result<(), AllocError>
    requires entity { entity ≢ EveryCell }
    requires kept { AreKept number columns.old.items rows.old.items cells.old.items }
    ensures kept { OnOk result (AreKept (number + 1) columns.new.items rows.new.items cells.new.items) }
    ensures adds { OnOk result (AddsCall (in_order (calls_for columns.old.items rows.old.items cells.old.items)) (in_order (calls_for columns.new.items rows.new.items cells.new.items)) entity value) }
    ensures err { OnErr result ((columns.new.items ≡ columns.old.items) × ((rows.new.items ≡ rows.old.items) × (cells.new.items ≡ cells.old.items))) }
{
    match entity {
        // no call for all cells comes here
        Entity::Global => Ok(()),
        Entity::Column(key) => keep(columns, Numbered { key, number, value }),
        Entity::Row(key) => keep(rows, Numbered { key, number, value }),
        Entity::Cell(row, col) => {
            let key = Position { row, col };
            keep(cells, Numbered { key, number, value })
        }
    }
}
