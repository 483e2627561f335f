//! What the calls require of widths.
ghost use Rattle.std.specs.Prelude.{◌+◌, ◌^◌, ◌<◌, sum, IsTrue};

/// Whether the widths and so much more sum to no more than the greatest `usize`.
pub(crate) fn fits(widths: &[usize], more: usize) -> bool
    ensures { IsTrue result → sum widths.now + more < 2 ^ 64 }
{
    let mut total = more;
    for width in widths {
        match total.checked_add(*width) {
            Some(next) => total = next,
            None => return false,
        }
    }
    true
}
