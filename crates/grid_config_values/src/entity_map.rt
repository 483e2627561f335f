//! The values that were set for sets of cells.
ghost use Rattle.std.specs.Prelude.{◌≡◌, IfOk, IfSome, IsOk, IsTrue, OnOk, OnErr};
ghost use Rattle.grid_config_values.specs.declared.entity.Entity.TheVariants.{Global as EveryCell};
ghost use Rattle.grid_config_values.specs.declared.position.Position.{Position as CellPosition};
ghost use Rattle.grid_config_values.specs.Settings.{IsUniform, IsUnchanged, SetsCovered, value_at};

use crate::calls::Calls;
use crate::clone_in::CloneIn;
use crate::entity::Entity;
use crate::position::Position;
use std::alloc::{AllocError, Global};

/// A value for each cell: that of the last call of `insert` whose entity covers the cell, and before
/// any the one given to `new`.
#[derive(Debug)]
pub struct EntityMap<T> {
    global: T,
    calls: Calls<T>,
}

impl<T: Drop> Drop for EntityMap<T> {
    fn drop(self) {
        let EntityMap { global, calls } = self;
        drop(global);
        drop(calls);
    }
}

impl<T: Drop> EntityMap<T> {
    /// The map that has this value at every cell. Does not allocate.
    #[tactic(auto, unfolding(crate::specs::Settings::value_at))]
    pub fn new(alloc: Global, global: T) -> EntityMap<T>
        ensures { (p : CellPosition) → value_at result p ≡ global }
    {
        EntityMap {
            global,
            calls: Calls::new(alloc),
        }
    }

    /// The value of the cell at this place. Does not allocate.
    #[inline]
    #[tactic(auto, unfolding(crate::specs::Settings::value_at))]
    pub fn get(&self, pos: Position) -> &T
        ensures { result.now ≡ value_at self.now pos }
    {
        self.calls.get(pos, &self.global)
    }

    /// Whether the map is known to have one value for all cells: no call named fewer since one named all.
    /// Does not allocate.
    #[tactic(auto, unfolding(crate::specs::Settings::value_at))]
    pub fn is_uniform(&self) -> bool
        ensures { IsTrue result → IsUniform self.now }
    {
        self.calls.is_empty()
    }

    /// The one value that all cells of this column are known to have: no call named a row or a cell since one named
    /// all. `None` says nothing. Does not allocate.
    #[tactic(auto, unfolding(crate::specs::Settings::value_at))]
    pub fn column_value(&self, column: usize) -> Option<&T>
        ensures { IfSome result (λ one. (p : CellPosition) → p.col ≡ column → value_at self.now p ≡ one.now) }
    {
        self.calls.column_value(column, &self.global)
    }

    /// Sets the value of each cell that the entity covers, and leaves every other cell as it is.
    /// Fails only where the entity has no value of its own yet and allocation fails; then nothing has changed. A call
    /// for all cells does not allocate.
    #[tactic(auto, unfolding(crate::specs::Settings::value_at))]
    pub fn insert(&mut self, entity: Entity, value: T) -> Result<(), AllocError>
        ensures ok { OnOk result (SetsCovered self.old self.new entity value) }
        ensures err { OnErr result (IsUnchanged self.old self.new) }
        ensures global { entity ≡ EveryCell → IsOk result }
    {
        match entity {
            // what was set before counts for no cell any more
            Entity::Global => {
                self.calls.clear();
                self.global = value;
            }
            _ => self.calls.push(entity, value)?,
        }
        Ok(())
    }
}

impl<T: CloneIn> EntityMap<T> {
    /// The same value at every cell again. Fails only where allocation fails.
    #[tactic(auto, unfolding(crate::specs::Settings::value_at))]
    pub fn clone(&self, alloc: Global) -> Result<EntityMap<T>, AllocError>
        ensures { IfOk result (IsUnchanged self.now) }
    {
        let global = self.global.clone_in(alloc)?;
        let calls = self.calls.clone(alloc)?;
        Ok(EntityMap { global, calls })
    }
}

#[cfg(test)]
mod tests {
    use super::*;
    use std::test::Fail;

    // What nine cells have after each of some calls, of which the first one gets this number.
    fn shown(alloc: Global, first: u128) -> Result<String, AllocError> {
        let calls = [
            (Entity::Row(0), 'a'),
            (Entity::Column(1), 'b'),
            (Entity::Cell(1, 1), 'c'),
            (Entity::Row(1), 'd'),
            (Entity::Cell(2, 2), 'e'),
            (Entity::Row(0), 'f'),
        ];
        let mut map = EntityMap {
            global: '-',
            calls: Calls::numbered_from(alloc, first),
        };
        let mut text = String::new(alloc);
        for (entity, value) in calls {
            map.insert(entity, value)?;
            push_values(&map, &mut text)?;
        }
        Ok(text)
    }

    fn push_values(map: &EntityMap<char>, text: &mut String) -> Result<(), AllocError> {
        for row in 0..3 {
            for col in 0..3 {
                text.push(*map.get(Position::new(row, col)))?;
            }
        }
        text.push(' ')?;
        Ok(())
    }

    // No program comes to the last number.
    #[test]
    fn calls_go_on_after_the_last_number(rt: HostRuntime) -> Result<(), Fail> {
        let last: Calls<char> = Calls::numbered_from(rt.alloc(), u128::MAX);
        assert!(rt; !last.is_empty(), "numbers count as given");
        for first in [0, u128::MAX - 5, u128::MAX - 3, u128::MAX - 1, u128::MAX] {
            let text = shown(rt.alloc(), first)?;
            assert_eq!(rt;
                text.as_str(),
                "aaa------ aba-b--b- aba-c--b- abaddd-b- abaddd-be fffddd-be ",
                "from {first} on"
            );
        }
        Ok(())
    }
}
