//! The lines of a table by the name of their style.
ghost use Rattle.std.specs.Prelude.{◌≡◌};
ghost use Rattle.basinmug_run.specs.Picture.Settings.{glyphs_of, markdown, rounded};

use program_options::basinmug::LineStyle;
use tabled::{Borders, Style};

/// The glyphs of a style of lines.
pub(crate) fn glyphs_of(line_style: LineStyle) -> Borders<char>
    ensures { result ≡ glyphs_of line_style }
{
    match line_style {
        LineStyle::Ascii => Style::ascii().get_borders(),
        LineStyle::Modern => Style::modern().get_borders(),
        LineStyle::Rounded => rounded(),
        LineStyle::Extended => Style::extended().get_borders(),
        LineStyle::Markdown => markdown(),
        LineStyle::Empty => Borders::empty(),
    }
}

// Light lines with round corners.
fn rounded() -> Borders<char>
    ensures { result ≡ rounded }
{
    let mut borders = Style::modern().get_borders();
    borders.top_left = Some('╭');
    borders.top_right = Some('╮');
    borders.bottom_left = Some('╰');
    borders.bottom_right = Some('╯');
    borders
}

// Bars; the delimiter row below the header is none of these lines.
fn markdown() -> Borders<char>
    ensures { result ≡ markdown }
{
    let mut borders = Borders::empty();
    borders.vertical = Some('|');
    borders.left = Some('|');
    borders.right = Some('|');
    borders
}
