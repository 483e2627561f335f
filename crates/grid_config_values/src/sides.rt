//! Paddings and margins.
ghost use Rattle.std.specs.Prelude.{◌≡◌};

/// A padding or a margin at one side.
#[derive(Clone, Copy, Debug, PartialEq, Eq, PartialOrd, Ord, Hash)]
pub struct Indent {
    /// How many columns at the left or right, how many lines at the top or bottom.
    pub size: usize,
    /// What is there.
    pub fill: char,
}

impl Indent {
    /// This size, filled with this character.
    pub const fn new(size: usize, fill: char) -> Indent
        ensures { result ≡ record { size = size; fill = fill } }
    {
        Indent { size, fill }
    }

    /// This size, filled with spaces.
    pub const fn spaced(size: usize) -> Indent
        ensures { result ≡ record { size = size; fill = 32 } }
    {
        Indent { size, fill: ' ' }
    }

    /// Size 0; its fill is a space.
    pub const fn zero() -> Indent
        ensures { result ≡ record { size = 0; fill = 32 } }
    {
        Indent { size: 0, fill: ' ' }
    }
}

/// Size 0; its fill is a space.
impl Default for Indent {
    ghost is_default = { λ indent. indent ≡ record { size = 0; fill = 32 } };

    fn default() -> Indent {
        Indent::zero()
    }
}

/// A value for each of the four sides.
#[derive(Clone, Copy, Debug, PartialEq, Eq, PartialOrd, Ord, Hash, Drop)]
pub struct Sides<T> {
    /// At the left.
    pub left: T,
    /// At the right.
    pub right: T,
    /// At the top.
    pub top: T,
    /// At the bottom.
    pub bottom: T,
}

impl<T> Sides<T> {
    /// These four, in this order.
    pub const fn new(left: T, right: T, top: T, bottom: T) -> Sides<T>
        ensures { result ≡ record { left = left; right = right; top = top; bottom = bottom } }
    {
        Sides {
            left,
            right,
            top,
            bottom,
        }
    }

    /// One value at all four sides.
    pub fn filled(value: T) -> Sides<T>
    where
        T: Copy,
        ensures { result ≡ record { left = value; right = value; top = value; bottom = value } }
    {
        Sides::new(value, value, value, value)
    }
}
