//! What is in each column of a line of a pool.
ghost use Rattle.std.specs.Prelude.{◌≡◌, ◌++◌, IfOk, OnOk, map, replicate};
ghost use Rattle.tabled_pool.specs.Boxes.Crossings.{is_flat, is_line, is_up, mark_at, mark_before, marks, part_mark, part_width};
ghost use Rattle.tabled_pool.specs.Boxes.Texts.{box_line};
ghost use Rattle.tabled_pool.specs.Boxes.Canvas.{box_part, box_parts};

use crate::boxes::part::DrawnPart;
use std::alloc::{AllocError, Global};

/// No line, one column of an upright line, or one of a horizontal line.
#[derive(Clone, Copy)]
pub(crate) enum Mark {
    Open,
    Up,
    Flat,
}

impl Mark {
    // Whether a line is there.
    pub(crate) fn is_line(self) -> bool
        ensures { result ≡ is_line self }
    {
        matches!(self, Mark::Up | Mark::Flat)
    }

    // Whether it is an upright one.
    pub(crate) fn is_up(self) -> bool
        ensures { result ≡ is_up self }
    {
        matches!(self, Mark::Up)
    }

    // Whether it is a horizontal one.
    pub(crate) fn is_flat(self) -> bool
        ensures { result ≡ is_flat self }
    {
        matches!(self, Mark::Flat)
    }
}

/// What is in column `x`, and outside no line.
pub(crate) fn mark_at(line: &[Mark], x: usize) -> Mark
    ensures { result ≡ mark_at line.now x }
{
    line.get(x).copied().unwrap_or(Mark::Open)
}

/// What is before column `x`.
pub(crate) fn mark_before(line: &[Mark], x: usize) -> Mark
    ensures { result ≡ mark_before line.now x }
{
    if x == 0 {
        Mark::Open
    } else {
        mark_at(line, x - 1)
    }
}

/// What is in the columns of line `y`, and outside nothing. Fails only where allocation fails.
pub(crate) fn marks_of(
    alloc: Global,
    lines: &[Vec<DrawnPart>],
    y: usize,
) -> Result<Vec<Mark>, AllocError>
    ensures { IfOk result (λ found. found.items ≡ marks (box_line (map box_parts lines.now) y)) }
{
    if y < lines.len() {
        marks_in(alloc, &lines[y])
    } else {
        Ok(Vec::new(alloc))
    }
}

// What is in the columns of these parts.
fn marks_in(alloc: Global, parts: &[DrawnPart]) -> Result<Vec<Mark>, AllocError>
    ensures { IfOk result (λ found. found.items ≡ marks (map box_part parts.now)) }
{
    let mut found = Vec::new(alloc);
    for part in parts {
        push_marks(&mut found, part)?;
    }
    Ok(found)
}

// Adds what is in the columns of a part.
fn push_marks(found: &mut Vec<Mark>, part: &DrawnPart) -> Result<(), AllocError>
    ensures { OnOk result (found.new.items ≡ found.old.items ++ replicate (part_width (box_part part.now)) (part_mark (box_part part.now))) }
{
    match part {
        DrawnPart::Shown(width, _) => push_repeated(found, Mark::Open, *width),
        DrawnPart::Upright(_) => push_repeated(found, Mark::Up, 1),
        DrawnPart::Horizontal(_, width) => push_repeated(found, Mark::Flat, *width),
    }
}

// Adds a mark so many times.
fn push_repeated(found: &mut Vec<Mark>, mark: Mark, count: usize) -> Result<(), AllocError>
    ensures { OnOk result (found.new.items ≡ found.old.items ++ replicate count mark) }
{
    found.reserve(count)?;
    for _ in 0..count {
        found.push(mark)?;
    }
    Ok(())
}
