//! A run of the program `basinmug`: from the bytes of a text to those of its table.
#![tactic(auto)]

mod columns;
mod fault;
mod kept;
pub mod laws;
mod messages;
mod options;
pub mod picture;
mod records;
mod running;
mod table_columns;

pub use basinmug_input::InputFault;
pub use fault::RunFault;
pub use grid_config::ANSIBuf;
pub use grid_config_values::{AlignmentHorizontal, Fault};
pub use messages::with_visible_controls;
pub use options::{ColumnsShown, Options};
pub use picture::{PrintFault, Printed};
pub use program_options::basinmug::{ColumnChoice, ColumnName, Escapes, LineStyle, Rules};
pub use running::{print_rows, run};
pub use tabled_output::{BuildFault, Counted};
pub use tabled_size_priority::Choice;
