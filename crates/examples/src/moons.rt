//! A table of values of a type of its own.
ghost use Rattle.std.specs.Prelude.{[], ◌∷◌, codes, decimal};

use std::alloc::{AllocError, Global};
use std::borrow::CowStr;
use tabled::{CellText, Fault, Table, Tabled};

/// A planet, and how many moons it has.
#[derive(Drop)]
pub struct Planet {
    pub name: &'static str,
    pub moons: u32,
}

impl Tabled for Planet {
    ghost texts = { λ planet. planet.name.now ∷ decimal planet.moons ∷ [] };

    ghost names = { codes "planet" ∷ codes "moons" ∷ [] };

    fn length() -> usize {
        2
    }

    fn fields(&self, alloc: Global) -> Result<Vec<CowStr<'_>>, AllocError> {
        let fields = [self.name.cell_text(alloc)?, self.moons.cell_text(alloc)?];
        Ok(Vec::from_array(alloc, fields)?)
    }

    fn headers(alloc: Global) -> Result<Vec<CowStr<'static>>, AllocError> {
        let names = [CowStr::Borrowed("planet"), CowStr::Borrowed("moons")];
        Ok(Vec::from_array(alloc, names)?)
    }
}

/// A row for each planet, below the names of its fields.
pub fn planets(alloc: Global) -> Result<Table, Fault> {
    let mars = Planet {
        name: "Mars",
        moons: 2,
    };
    let jupiter = Planet {
        name: "Jupiter",
        moons: 95,
    };
    Table::new(alloc, [mars, jupiter])
}
