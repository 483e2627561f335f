//! What is left over, and who takes it.
ghost use Rattle.std.specs.Prelude.{◌≡◌, ◌<◌};
ghost use Rattle.tabled_pool.specs.Boxes.Shares.{share};

use tabled_size::DimensionPriority;

/// How much of `beyond` member `i` of `n` takes.
pub(crate) fn share(taker: DimensionPriority, beyond: usize, n: usize, i: usize) -> usize
    requires { i < n }
    ensures { result ≡ share taker beyond n i }
{
    match taker {
        DimensionPriority::First => { if i == 0 { beyond } else { 0 } }
        DimensionPriority::Last => { if i + 1 == n { beyond } else { 0 } }
        DimensionPriority::List => {
            if i < beyond % n {
                beyond / n + 1
            } else {
                beyond / n
            }
        }
    }
}
