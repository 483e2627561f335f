//! Texts that are cut line by line.
ghost use Rattle.std.specs.Prelude.{◌≡◌, IfOk, string_bytes};
ghost use Rattle.basinmug_columns.specs.Fitting.Fitting.{cut_line, cut_lines, shortened};

use crate::fitting::changing::{LineChange, change_lines, is_plain_line};
use grid_records_measure::get_line_width;
use std::alloc::{AllocError, Global};
use tabled_size_wrap::cut_styled;

/// The text, cut line by line to so many columns: a line that fits stays, and a wider one is cut, with an ellipsis as its last
/// column. In no columns nothing of a wider line is left. Fails only where allocation fails.
pub fn cut_lines(alloc: Global, text: &str, room: usize) -> Result<String, AllocError>
    ensures { IfOk result (λ out. string_bytes out ≡ cut_lines room text.now) }
{
    if is_plain_line(text) {
        return cut_line(alloc, text, room);
    }
    change_lines(alloc, text, &Cutting { room })
}

// Each line is cut to so many columns where it is wider.
#[derive(Drop)]
struct Cutting {
    room: usize,
}

impl LineChange for Cutting {
    ghost becomes = { λ cutting. cut_line cutting.room };

    fn changed(&self, alloc: Global, line: &str) -> Result<String, AllocError> {
        cut_line(alloc, line, self.room)
    }
}

// A line, cut to so many columns where it is wider.
fn cut_line(alloc: Global, line: &str, room: usize) -> Result<String, AllocError>
    ensures { IfOk result (λ out. string_bytes out ≡ cut_line room line.now) }
{
    if get_line_width(line) <= room {
        return String::from_str(alloc, line);
    }
    shortened(alloc, line, room)
}

// A line that is wider than so many columns, cut to them.
fn shortened(alloc: Global, line: &str, room: usize) -> Result<String, AllocError>
    ensures { IfOk result (λ out. string_bytes out ≡ shortened room line.now) }
{
    if room == 0 {
        return Ok(String::new(alloc));
    }
    let cut = cut_styled(alloc, line, room - 1)?;
    let mut out = String::from_str(alloc, &cut)?;
    out.push_str("…")?;
    Ok(out)
}
