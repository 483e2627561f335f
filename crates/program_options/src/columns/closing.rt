//! Whether the colours of options clear what they set.
ghost use Rattle.std.specs.Prelude.{◌↔◌, IsTrue};
ghost use Rattle.program_options.specs.Columns.ColumnColors.{AllClose};
ghost use Rattle.papergrid_picture.specs.Colors.ClosingColors.{IsClosing};

use crate::columns::options::Options;
use grid_config::{ANSIBuf, ANSIStr};

/// Whether each colour of the options closes: its texts are whole sequences, and its suffix clears what its
/// prefix sets. `run` takes no other options. Does not allocate.
pub fn colors_close(options: &Options) -> bool
    ensures { IsTrue result ↔ AllClose options.now.colors.items }
{
    for given in &options.colors {
        if !is_closing(&given.1) {
            return false;
        }
    }
    true
}

// Whether the colour closes. Its texts are in UTF-8, as all are.
fn is_closing(color: &ANSIBuf) -> bool
    ensures { IsTrue result ↔ IsClosing color.now }
{
    let prefix = color.get_prefix();
    let suffix = color.get_suffix();
    ANSIStr::new(prefix, suffix).closes()
}
