//! Sizes of a list, by their numbers.
ghost use Rattle.std.specs.Prelude.{◌≡◌, ◌↔◌, IsTrue};
ghost use Rattle.tabled_size.specs.Dimension.Sizes.{CoversFirst, Listed, ListedBefore, given_size};

// The size of this number, and past the list this one.
pub(crate) fn size_or(sizes: &[usize], number: usize, other: usize) -> usize
    ensures { result ≡ given_size (ListedBefore sizes.now other) number }
{
    sizes.get(number).copied().unwrap_or(other)
}

// Whether no number below this one is past the list.
pub(crate) fn covers_first(sizes: &[usize], count: usize) -> bool
    ensures { IsTrue result ↔ CoversFirst count (Listed sizes.now) }
{
    count <= sizes.len()
}
