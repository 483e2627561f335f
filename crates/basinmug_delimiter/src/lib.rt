//! The byte between the fields of a delimited text, found in its first line or by its file's name.
#![tactic(auto)]

ghost use Rattle.std.specs.Prelude.{◌≡◌, ◌≤◌, length, option_copied};
ghost use Rattle.basinmug_delimiter.specs.Finding.{found_in, unnamed_delimiter};

mod counts;
mod first_line;
pub mod laws;
mod line;
mod names;
mod places;
mod preamble;
mod sequences;
mod state;

use counts::TAB;
pub use first_line::FirstLine;
use line::delimiter_in;
use names::means_tab;
pub use preamble::tells_mark;
use preamble::{named_delimiter, without_mark};

// How many bytes a line has that names the delimiter.
const NAMING_LINE: usize = 5;

/// What separates the fields of a text, and where its records begin.
#[derive(Clone, Copy, Debug, PartialEq, Eq)]
pub struct Found {
    /// The byte between fields.
    pub delimiter: u8,
    /// The byte at which the records begin: after a line that names the delimiter; without one at the start of the
    /// text, where a byte order mark may be.
    pub start: usize,
}

/// What separates the fields of a text, which need not be UTF-8, and where its records begin. A first line `sep=C`
/// says it; else a file's name that ends in `.tsv` or `.tab` says a tab; else the tab, comma, semicolon or bar that
/// is in the first line decides. Linear in the text, nothing of which is copied.
pub fn find_delimiter(bytes: &[u8], file: Option<&str>) -> Found
    ensures found { result ≡ found_in bytes.now (option_copied file.entry) }
    ensures within { result.start ≤ length bytes.now }
{
    let text = without_mark(bytes);
    match named_delimiter(text) {
        Some(delimiter) => Found {
            delimiter,
            start: bytes.len() - text.len() + NAMING_LINE,
        },
        None => Found {
            delimiter: unnamed_delimiter(text, file),
            start: 0,
        },
    }
}

// What separates the fields of a text in which no line says it.
fn unnamed_delimiter(text: &[u8], file: Option<&str>) -> u8
    ensures { result ≡ unnamed_delimiter text.now (option_copied file.entry) }
{
    if means_tab(file) {
        TAB
    } else {
        delimiter_in(text)
    }
}
