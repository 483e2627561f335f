//! Texts of a table that change.
ghost use Rattle.std.specs.Prelude.{◌≡◌, ℕ, List, Option, IfOk, OnErr, OnOk, length};
ghost use Rattle.grid_config_values.specs.Entities.{covered_positions};
ghost use Rattle.grid_config_values.specs.declared.position.Position.{Position as CellPosition};
ghost use Rattle.grid_records_traits.specs.Rows.{text_at};
ghost use Rattle.tabled_steps.specs.Changes.{AreInside, changed_rows, changes, with_all};
ghost use Rattle.tabled_steps.specs.States.{column_count};

use grid_config::{Entity, Position};
use grid_records::{FromText, RecordsMut, Text, VecRecords};
use grid_records_traits::records::{ExactRecords, PeekableRecords, RecordColumns, RecordTexts};
use std::alloc::{AllocError, Global};

/// What becomes of a text of a table.
pub trait TextChange {
    /// What a text at a place becomes; nothing where it stays.
    ghost changed: { Self → CellPosition → List ℕ → Option (List ℕ) };

    /// What the text at this place becomes, and `None` where it stays. What the records keep of the text
    /// needs no second reading. Fails only where allocation fails.
    fn change<R: PeekableRecords>(
        &self,
        alloc: Global,
        records: &R,
        pos: Position,
    ) -> Result<Option<Text>, AllocError>
        ensures { IfOk result (λ out. out ≡ changed self.now pos (text_at (R.rows records.now) pos)) };
}

/// Changes the texts of the cells that the entity covers. All are worked out before the first is set:
/// failing only where allocation fails, and then none has changed.
pub fn change_texts<T: FromText, X: TextChange>(
    alloc: Global,
    records: &mut VecRecords<T>,
    entity: Entity,
    change: &X,
) -> Result<(), AllocError>
    ensures changed { let rows = ⟦<VecRecords<T> as RecordTexts>⟧.rows records.old in
        OnOk result (⟦<VecRecords<T> as RecordTexts>⟧.rows records.new ≡ changed_rows (X.changed change.now) entity (column_count rows) rows) }
    ensures kept { OnErr result (⟦<VecRecords<T> as RecordTexts>⟧.rows records.new ≡ ⟦<VecRecords<T> as RecordTexts>⟧.rows records.old) }
{
    let found = find_changes(alloc, records, entity, change)?;
    set_all(records, found);
    Ok(())
}

// The texts of these cells that change, and what they become.
fn find_changes<T: FromText, X: TextChange>(
    alloc: Global,
    records: &VecRecords<T>,
    entity: Entity,
    change: &X,
) -> Result<Vec<(Position, Text)>, AllocError>
    ensures { let rows = ⟦<VecRecords<T> as RecordTexts>⟧.rows records.now in
        IfOk result (λ found. found.items ≡ changes (X.changed change.now) rows (covered_positions entity (length rows) (column_count rows))) }
{
    let mut found = Vec::new(alloc);
    for pos in entity.iter(records.count_rows(), records.count_columns()) {
        if let Some(text) = change.change(alloc, records, pos)? {
            found.push((pos, text))?;
        }
    }
    Ok(found)
}

// Sets these texts, from the last on.
fn set_all<T: FromText>(records: &mut VecRecords<T>, found: Vec<(Position, Text)>)
    requires { AreInside (⟦<VecRecords<T> as RecordTexts>⟧.rows records.old) found.items }
    ensures { ⟦<VecRecords<T> as RecordTexts>⟧.rows records.new ≡ with_all found.items (⟦<VecRecords<T> as RecordTexts>⟧.rows records.old) }
{
    let mut found = found;
    while let Some((pos, text)) = found.pop() {
        records.set(pos, text);
    }
}
