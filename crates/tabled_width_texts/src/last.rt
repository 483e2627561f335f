//! The style of the last character that a cut keeps.
ghost use Rattle.std.specs.Prelude.{◌≡◌, ◌≤◌, ◌++◌, ℕ, List, chars, if◌then◌else◌, map};
ghost use Rattle.ansi_scan.specs.Attributes.{Attributes, plain_attributes};
ghost use Rattle.tabled_width_texts.specs.Cutting.{kept_characters, last_style as style_of_last};
ghost use Rattle.tabled_width_texts.specs.Keeping.{last_kept};

use ansi_scan::Style;
use ansi_str::get_blocks;
use grid_records_measure::columns_with;

/// The style of the last character of a text that its cut at the width keeps, and where it keeps none the
/// plain one. Does not allocate.
pub(crate) fn last_style(text: &str, width: usize) -> Style
    ensures { result ≡ style_of_last plain_attributes (kept_characters width text.now) }
{
    let mut used = 0;
    let mut last = Style::plain();
    for block in get_blocks(text) {
        let (columns, style, whole) = past_piece(block.text(), *block.style(), width, used, last);
        used = columns;
        last = style;
        if !whole {
            return last;
        }
    }
    last
}

// The columns of a line that are used after a piece of text, the style of the last character that fits, and
// whether the whole piece fits.
fn past_piece(
    text: &str,
    style: Style,
    width: usize,
    before: usize,
    known: Style,
) -> (usize, Style, bool)
    requires { before ≤ width }
    ensures last { (rest : List (ℕ × Attributes)) → last_kept width before known (map (λ c. (c, style)) (chars text.now) ++ rest)
        ≡ (if result.2 then last_kept width result.0 result.1 rest else result.1) }
    ensures fits { result.0 ≤ width }
{
    let mut used = before;
    let mut last = known;
    for c in text.chars() {
        let Some(columns) = columns_with(c, used, width) else {
            return (used, last, false);
        };
        used = columns;
        last = style;
    }
    (used, last, true)
}
