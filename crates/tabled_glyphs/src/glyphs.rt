//! The glyphs of three styles. The fourth, without glyphs, is `Borders::empty`.
ghost use Rattle.std.specs.Prelude.{◌≡◌};
ghost use Rattle.tabled_glyphs.specs.Glyphs.{ascii, extended, modern};
ghost use Rattle.tabled_glyphs.specs.Lines.{crossings, lines};

use grid_config_values::Borders;

// What meets a boundary of rows: at its left end, between two columns, at its right end.
#[derive(Clone, Copy)]
struct Crossings {
    left: char,
    between: char,
    right: char,
}

impl Crossings {
    // These three.
    const fn new(left: char, between: char, right: char) -> Crossings
        ensures { result ≡ crossings left between right }
    {
        Crossings {
            left,
            between,
            right,
        }
    }
}

/// Lines of `-` and `|` that meet in `+`.
pub const fn ascii() -> Borders<char>
    ensures { result ≡ ascii }
{
    let plus = Crossings::new('+', '+', '+');
    lines('-', '|', plus, plus, plus)
}

/// Light lines, of the Unicode block Box Drawing.
pub const fn modern() -> Borders<char>
    ensures { result ≡ modern }
{
    let first = Crossings::new('┌', '┬', '┐');
    let inner = Crossings::new('├', '┼', '┤');
    let last = Crossings::new('└', '┴', '┘');
    lines('─', '│', first, inner, last)
}

/// Double lines, of the same block.
pub const fn extended() -> Borders<char>
    ensures { result ≡ extended }
{
    let first = Crossings::new('╔', '╦', '╗');
    let inner = Crossings::new('╠', '╬', '╣');
    let last = Crossings::new('╚', '╩', '╝');
    lines('═', '║', first, inner, last)
}

// One glyph along all columns, one in all rows, and where they meet those of the first, the inner and the
// last boundary of rows.
const fn lines(
    along: char,
    upright: char,
    first: Crossings,
    inner: Crossings,
    last: Crossings,
) -> Borders<char>
    ensures { result ≡ lines along upright first inner last }
{
    Borders {
        top: Some(along),
        top_left: Some(first.left),
        top_right: Some(first.right),
        top_intersection: Some(first.between),
        bottom: Some(along),
        bottom_left: Some(last.left),
        bottom_right: Some(last.right),
        bottom_intersection: Some(last.between),
        horizontal: Some(along),
        left_intersection: Some(inner.left),
        right_intersection: Some(inner.right),
        intersection: Some(inner.between),
        vertical: Some(upright),
        left: Some(upright),
        right: Some(upright),
    }
}
