//! Values that can be cloned into allocated memory.
ghost use Rattle.std.specs.Prelude.{◌≡◌, IfOk, OnOk};

use crate::alignment::{AlignmentHorizontal, AlignmentVertical};
use crate::borders::Borders;
use crate::sides::{Indent, Sides};
use std::alloc::{AllocError, Global};

/// Values that can be cloned into memory that is allocated for the clone.
pub trait CloneIn: Drop {
    /// The same value again. Fails only where allocation fails.
    fn clone_in(&self, alloc: Global) -> Result<Self, AllocError>
        ensures { IfOk result (λ copy. copy ≡ self.now) };
}

impl CloneIn for bool {
    fn clone_in(&self, _alloc: Global) -> Result<bool, AllocError> {
        Ok(*self)
    }
}

impl CloneIn for char {
    fn clone_in(&self, _alloc: Global) -> Result<char, AllocError> {
        Ok(*self)
    }
}

impl CloneIn for Indent {
    fn clone_in(&self, _alloc: Global) -> Result<Indent, AllocError> {
        Ok(*self)
    }
}

impl CloneIn for AlignmentHorizontal {
    fn clone_in(&self, _alloc: Global) -> Result<AlignmentHorizontal, AllocError> {
        Ok(*self)
    }
}

impl CloneIn for AlignmentVertical {
    fn clone_in(&self, _alloc: Global) -> Result<AlignmentVertical, AllocError> {
        Ok(*self)
    }
}

impl<T: CloneIn> CloneIn for Option<T> {
    fn clone_in(&self, alloc: Global) -> Result<Option<T>, AllocError> {
        match self {
            Some(value) => Ok(Some(value.clone_in(alloc)?)),
            None => Ok(None),
        }
    }
}

impl<T: CloneIn> CloneIn for Sides<T> {
    fn clone_in(&self, alloc: Global) -> Result<Sides<T>, AllocError> {
        Ok(Sides {
            left: self.left.clone_in(alloc)?,
            right: self.right.clone_in(alloc)?,
            top: self.top.clone_in(alloc)?,
            bottom: self.bottom.clone_in(alloc)?,
        })
    }
}

impl<T: CloneIn> CloneIn for Borders<T> {
    fn clone_in(&self, alloc: Global) -> Result<Borders<T>, AllocError> {
        let mut copy = Borders::empty();
        fill_borders(self, alloc, &mut copy)?;
        Ok(copy)
    }
}

// Fills the places of a copy. It is lent, so that a refusal has nothing to drop.
fn fill_borders<T: CloneIn>(
    borders: &Borders<T>,
    alloc: Global,
    copy: &mut Borders<T>,
) -> Result<(), AllocError>
    ensures { OnOk result (copy.new ≡ borders.now) }
{
    put_clone(&borders.top, alloc, &mut copy.top)?;
    put_clone(&borders.top_left, alloc, &mut copy.top_left)?;
    put_clone(&borders.top_right, alloc, &mut copy.top_right)?;
    put_clone(&borders.top_intersection, alloc, &mut copy.top_intersection)?;
    put_clone(&borders.bottom, alloc, &mut copy.bottom)?;
    put_clone(&borders.bottom_left, alloc, &mut copy.bottom_left)?;
    put_clone(&borders.bottom_right, alloc, &mut copy.bottom_right)?;
    put_clone(
        &borders.bottom_intersection,
        alloc,
        &mut copy.bottom_intersection,
    )?;
    put_clone(&borders.horizontal, alloc, &mut copy.horizontal)?;
    put_clone(
        &borders.left_intersection,
        alloc,
        &mut copy.left_intersection,
    )?;
    put_clone(
        &borders.right_intersection,
        alloc,
        &mut copy.right_intersection,
    )?;
    put_clone(&borders.intersection, alloc, &mut copy.intersection)?;
    put_clone(&borders.vertical, alloc, &mut copy.vertical)?;
    put_clone(&borders.left, alloc, &mut copy.left)?;
    put_clone(&borders.right, alloc, &mut copy.right)?;
    Ok(())
}

// Puts a clone in its place.
fn put_clone<T: CloneIn>(
    source: &Option<T>,
    alloc: Global,
    place: &mut Option<T>,
) -> Result<(), AllocError>
    ensures { OnOk result (place.new ≡ source.now) }
{
    *place = source.clone_in(alloc)?;
    Ok(())
}
