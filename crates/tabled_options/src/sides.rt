//! The four indents of a margin or of a padding.
ghost use Rattle.std.specs.Prelude.{◌≡◌};
ghost use Rattle.tabled_options.specs.Options.{filled_sides, spaced_sides};

use grid_config::{Indent, Sides};

/// These sizes, filled with spaces.
pub(crate) const fn spaced(left: usize, right: usize, top: usize, bottom: usize) -> Sides<Indent>
    ensures { result ≡ spaced_sides left right top bottom }
{
    Sides::new(
        Indent::spaced(left),
        Indent::spaced(right),
        Indent::spaced(top),
        Indent::spaced(bottom),
    )
}

/// The same sizes, filled with these characters.
pub(crate) const fn filled(
    sides: Sides<Indent>,
    left: char,
    right: char,
    top: char,
    bottom: char,
) -> Sides<Indent>
    ensures { result ≡ filled_sides left right top bottom sides }
{
    Sides::new(
        Indent::new(sides.left.size, left),
        Indent::new(sides.right.size, right),
        Indent::new(sides.top.size, top),
        Indent::new(sides.bottom.size, bottom),
    )
}
