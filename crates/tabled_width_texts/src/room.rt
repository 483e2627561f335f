//! Texts that change in a given number of columns.
ghost use Rattle.std.specs.Prelude.{◌≡◌, ℕ, IfOk, List, Option};
ghost use Rattle.grid_records_traits.specs.Rows.{text_at};

use grid_config::Position;
use grid_records::Text;
use grid_records_traits::records::PeekableRecords;
use std::alloc::{AllocError, Global};

/// What becomes of a text that gets a number of columns.
pub trait RoomChange {
    /// What a text becomes; nothing where it stays.
    ghost fitted: { Self → ℕ → List ℕ → Option (List ℕ) };

    /// What the text at this place becomes in a width of `room` columns, and `None` where it stays. What the
    /// records keep of the text needs no second reading. Fails only where allocation fails.
    fn fit<R: PeekableRecords>(
        &self,
        alloc: Global,
        records: &R,
        pos: Position,
        room: usize,
    ) -> Result<Option<Text>, AllocError>
        ensures { IfOk result (λ out. out ≡ fitted self.now room (text_at (R.rows records.now) pos)) };
}
