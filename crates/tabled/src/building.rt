//! Builders of rows, and the tables that are made of them.
ghost use Rattle.std.specs.Prelude.{◌≡◌, ℕ, List, IfErr, IfOk};
ghost use Rattle.grid_config_values.specs.declared.fault.Fault.TheVariants.{Memory};
ghost use Rattle.tabled.specs.Tables.{new_state, state_of};
ghost use Rattle.tabled_text.specs.Rows.{filled};

use crate::cells::texts_of;
use crate::table::Table;
use grid_config::Fault;
use std::alloc::{AllocError, Global};
use tabled_text::Builder;

/// Rows that a table can be built of, and that one can be taken apart into.
pub trait BuildTable: Sized {
    ghost rows: { Self → List (List (List ℕ)) };

    /// The table of the rows, the short ones filled with empty texts. Fails only where allocation fails.
    fn build(self) -> Result<Table, Fault>
        ensures table { IfOk result (λ table. state_of (λ text. text) table ≡ new_state (filled (rows self))) }
        ensures refused { IfErr result (λ fault. fault ≡ Memory) };

    /// The texts of a table, by rows. Fails only where allocation fails.
    fn from_table(alloc: Global, table: Table) -> Result<Self, AllocError>
        ensures { IfOk result (λ made. rows made ≡ (state_of (λ text. text) table).rows) };
}

impl BuildTable for Builder {
    ghost rows = { λ builder. builder };

    fn build(self) -> Result<Table, Fault> {
        Table::from_builder(self)
    }

    fn from_table(alloc: Global, table: Table) -> Result<Builder, AllocError> {
        let rows = texts_of(alloc, table.into_cells())?;
        Ok(Builder::from_vec(rows))
    }
}
