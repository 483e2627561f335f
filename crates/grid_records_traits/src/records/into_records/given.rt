//! The rows of a value that holds them.

ghost use Rattle.grid_records_traits.specs.Giving.{AnswersCell, GivesCellsOf};

use std::alloc::AllocError;

/// Rows that came from an iterator over them.
#[derive(Drop)]
pub struct GivenRows<I>(pub I);

impl<I: Iterator> Iterator for GivenRows<I>
where
    I::Item: IntoIterator,
{
    type Item = GivenCells<<I::Item as IntoIterator>::IntoIter>;

    ghost can_next = { λ s. I.can_next s.0 };

    ghost next_gives = { λ s r t. GivesCellsOf I.next_gives I.Item.into_iter_gives s.0 r (λ cells. cells.0) t.0 };

    ghost remaining = { λ s. I.remaining s.0 };

    fn next(&mut self) -> Option<GivenCells<<I::Item as IntoIterator>::IntoIter>> {
        let row = self.0.next()?;
        Some(GivenCells(row.into_iter()))
    }
}

/// Cells that came from an iterator over them, none of which is refused.
#[derive(Drop)]
pub struct GivenCells<I>(pub I);

impl<I: Iterator> Iterator for GivenCells<I> {
    type Item = Result<I::Item, AllocError>;

    ghost can_next = { λ s. I.can_next s.0 };

    ghost next_gives = { λ s r t. AnswersCell I.next_gives s.0 r t.0 };

    ghost remaining = { λ s. I.remaining s.0 };

    fn next(&mut self) -> Option<Result<I::Item, AllocError>> {
        let cell = self.0.next()?;
        Some(Ok(cell))
    }
}
