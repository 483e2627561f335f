//! Cells whose texts change at a width.
ghost use Rattle.std.specs.Prelude.{Option};
ghost use Rattle.grid_config.specs.Colors.{Color};
ghost use Rattle.grid_config_values.specs.declared.position.Position.{Position as CellPosition};
ghost use Rattle.grid_config.specs.Looks.{Look};
ghost use Rattle.tabled_size.specs.Dimension.Stored.{Stored};
ghost use Rattle.tabled_steps.specs.Changes.{changing};
ghost use Rattle.tabled_steps.specs.States.{StepsTo, state_with};

use grid_config::{Entity, Fault, Position};
use grid_records::{FromText, Text, VecRecords};
use grid_records_traits::records::{PeekableRecords, RecordTexts};
use std::alloc::{AllocError, Global};
use tabled_steps::{TextChange, change_texts};
use tabled_width_texts::RoomChange;

/// Changes the texts of the cells that the entity covers, as they change in `width` columns. Fails only
/// where allocation fails, and then none has changed.
pub fn change_cells<T: FromText, X: RoomChange>(
    alloc: Global,
    records: &mut VecRecords<T>,
    entity: Entity,
    width: usize,
    change: &X,
) -> Result<(), Fault>
    ensures { (look : Look) (colors : CellPosition → Option Color) (sizes : Stored) → StepsTo (changing (λ _. X.fitted change.now width) entity) result
        (state_with (⟦<VecRecords<T> as RecordTexts>⟧.rows records.old) look colors sizes) (state_with (⟦<VecRecords<T> as RecordTexts>⟧.rows records.new) look colors sizes) }
{
    change_texts(alloc, records, entity, &ToWidth { width, change })?;
    Ok(())
}

// The same change of each text, to one width.
#[derive(Drop)]
struct ToWidth<'a, X> {
    width: usize,
    change: &'a X,
}

impl<'a, X: RoomChange> TextChange for ToWidth<'a, X> {
    ghost changed = { λ it _ text. X.fitted it.change.now it.width text };

    fn change<R: PeekableRecords>(
        &self,
        alloc: Global,
        records: &R,
        pos: Position,
    ) -> Result<Option<Text>, AllocError> {
        self.change.fit(alloc, records, pos, self.width)
    }
}
