//! Sources of rows.
pub mod buf_records;
pub mod evened;
mod limit_columns;
mod limit_rows;
mod skip_rows;
pub mod truncate_content;

pub use buf_records::{BufRecords, BufferedRows, KeptTexts, read_row};
pub use evened::{Evened, EvenedCells, EvenedRows};
pub use grid_records_traits::records::into_records::{GivenCells, GivenRows, IntoRecords, given};
pub use limit_columns::{LimitColumns, LimitedRows};
pub use limit_rows::LimitRows;
pub use skip_rows::SkipRows;
pub use truncate_content::TruncateContent;
