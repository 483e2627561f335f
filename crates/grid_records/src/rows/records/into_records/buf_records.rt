//! A source whose first rows are kept.
ghost use Rattle.std.proofs.Common.{◌∙◌};
ghost use Rattle.std.specs.Iterator.{Drains, IsFinite, at_most, count_add};
ghost use Rattle.std.specs.Prelude.{◌≡◌, ◌++◌, Bool, IfOk, IfSome, IsOk, IsTrue, List, Ok, [], false, map, take, ℕ};
ghost use Rattle.grid_records.specs.RecordRows.Buffering.{GivesBuffered, of_rest};
ghost use Rattle.grid_records_traits.specs.Sources.{items_left, texts_of_rows};
ghost use Rattle.grid_records_traits.specs.Giving.{GivesTexts};
ghost use Rattle.grid_records.specs.RecordRows.Laws.Buffering.{buffered_rows_give, passed_buffered};
ghost use Rattle.grid_records_traits.specs.Laws.Sources.{all_items};

use crate::rows::records::RecordTexts;
use crate::rows::records::into_records::IntoRecords;
use crate::rows::records::vec_records::Cell;
use either::{Either, Left, Right};
use grid_records_traits::records::into_records::given::{GivenCells, GivenRows};
use std::alloc::{AllocError, Global};
use std::vec;

/// What contracts see of a source with some rows kept: their texts.
pub trait KeptTexts: RecordTexts {
    ghost kept: { Self → List (List (List ℕ)) };
}

/// A source whose first rows were read and are kept.
#[derive(Drop)]
pub struct BufRecords<I: IntoRecords> {
    kept: Vec<Vec<I::Cell>>,
    rest: Option<I::IterRows>,
}

impl<I: IntoRecords> BufRecords<I> {
    /// The rows of the source, whose first `count` rows are read and kept, or all where it has fewer. It
    /// fails only where allocation fails, of a cell that is read or of the memory to keep it. It never fails for a
    /// source without rows, nor at a count of 0.
    pub fn new(alloc: Global, records: I, count: usize) -> Result<BufRecords<I>, AllocError>
        ensures rows { IfOk result (λ out. ⟦<BufRecords<I> as RecordTexts>⟧.rows out ≡ I.RecordTexts.rows records) }
        ensures kept { IfOk result (λ out. ⟦<BufRecords<I> as KeptTexts>⟧.kept out ≡ take count (I.RecordTexts.rows records)) }
        ensures refuses { IfOk result (λ out. IsTrue (⟦<BufRecords<I> as RecordTexts>⟧.can_fail out) → IsTrue (I.RecordTexts.can_fail records)) }
        ensures none { I.RecordTexts.rows records ≡ [] → IsOk result }
        ensures no_count { count ≡ 0 → IsOk result }
    {
        let mut rest = records.iter_rows();
        let mut kept = Vec::new(alloc);
        for _ in 0..count {
            let Some(cells) = rest.next() else {
                return Ok(BufRecords { kept, rest: None });
            };
            kept.push(read_row(alloc, cells)?)?;
        }
        Ok(BufRecords {
            kept,
            rest: Some(rest),
        })
    }

    /// The rows that are kept. Does not allocate.
    pub fn as_slice(&self) -> &[Vec<I::Cell>]
        ensures { texts_of_rows I.Cell.text result.now ≡ ⟦<BufRecords<I> as KeptTexts>⟧.kept self.now }
    {
        self.kept.as_slice()
    }
}

impl<I: IntoRecords> RecordTexts for BufRecords<I> {
    ghost rows = { λ s. texts_of_rows I.Cell.text s.kept.items ++ of_rest I.rows_left [] s.rest };

    ghost can_fail = { λ s. of_rest I.can_fail_left false s.rest };
}

impl<I: IntoRecords> KeptTexts for BufRecords<I> {
    ghost kept = { λ s. texts_of_rows I.Cell.text s.kept.items };
}

impl<I: IntoRecords> IntoRecords for BufRecords<I> {
    type Cell = I::Cell;

    type IterColumns = Either<GivenCells<vec::IntoIter<I::Cell>>, I::IterColumns>;

    type IterRows = BufferedRows<I::Cell, I::IterRows>;

    ghost rows_left = { λ s. texts_of_rows I.Cell.text (items_left s.kept.0) ++ of_rest I.rows_left [] s.rest };

    ghost can_fail_left = { λ s. of_rest I.can_fail_left false s.rest };

    ghost gives = { λ s. buffered_rows_give I.Cell.text (λ s. s.0) (λ cells. cells.0) (λ s. s.kept) (λ s. s.rest)
        (λ row it became. all_items it _ became.0 (became.1 ∙ row.ok.0)) I.can_fail_left I.rows_left s I.gives };

    ghost passes = { λ s t cells step. passed_buffered I.Cell.text _ I.IterRows.next_gives (λ s. s.0)
        (λ cells. cells.0) I.rows_left I.can_fail_left I.passes s.kept t.kept s.rest t.rest cells step };

    fn iter_rows(self) -> BufferedRows<I::Cell, I::IterRows> {
        BufferedRows {
            kept: GivenRows(self.kept.into_iter()),
            rest: self.rest,
        }
    }
}

/// Reads the cells of a row, one after the other: all that the iterator gives before it ends. Fails only
/// where a cell is refused, or where allocation fails.
pub fn read_row<C: Cell, I: Iterator<Item = Result<C, AllocError>>>(
    alloc: Global,
    cells: I,
) -> Result<Vec<C>, AllocError>
    requires can { I.can_next cells }
    requires ends { IsFinite (I.remaining cells) }
    ensures cells { IfOk result (λ row. Drains I.next_gives cells (map (λ cell. Ok cell) row.items)) }
    ensures texts { IfOk result (λ row. (texts : List (List ℕ)) (can_fail : Bool) → GivesTexts I.can_next I.remaining I.next_gives C.text can_fail cells texts → map C.text row.items ≡ texts) }
{
    let mut row = Vec::new(alloc);
    for cell in cells {
        row.push(cell?)?;
    }
    Ok(row)
}

/// The kept rows, and then the rest of the source.
#[derive(Drop)]
pub struct BufferedRows<C, I> {
    kept: GivenRows<vec::IntoIter<Vec<C>>>,
    rest: Option<I>,
}

impl<C: Drop, I: Iterator> Iterator for BufferedRows<C, I> {
    type Item = Either<GivenCells<vec::IntoIter<C>>, I::Item>;

    ghost can_next = { λ s. IfSome s.rest I.can_next };

    ghost next_gives = { λ s r t. GivesBuffered ⟦<GivenRows<vec::IntoIter<Vec<C>>> as Iterator>⟧.next_gives I.next_gives
        (record { kept = s.kept; rest = s.rest }) r (record { kept = t.kept; rest = t.rest }) };

    ghost remaining = { λ s. count_add (⟦<GivenRows<vec::IntoIter<Vec<C>>> as Iterator>⟧.remaining s.kept) (of_rest I.remaining (at_most 0) s.rest) };

    fn next(&mut self) -> Option<Self::Item> {
        if let Some(cells) = self.kept.next() {
            return Some(Left(cells));
        }
        let Some(rest) = &mut self.rest else {
            return None;
        };
        Some(Right(rest.next()?))
    }
}
