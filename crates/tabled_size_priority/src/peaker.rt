//! What a priority of columns is.
ghost use Rattle.std.specs.Prelude.{◌≡◌, ℕ, ◌+◌, ◌-◌, ◌^◌, ◌<◌, ◌≤◌, List, Option, length, sum};
ghost use Rattle.tabled_size_priority.specs.LevelRules.Moving.{NoneFalls};
ghost use Rattle.tabled_size_priority.specs.Running.{IsGrownBy, IsShrunkBy};
ghost use Rattle.tabled_size_priority.specs.Shrinking.{StaysBetween, gap_sum};

use crate::levels::least_at;

/// A priority of columns: it is called for one column after another, from which a column of width is
/// taken, or to which one is given. The five of this crate come to the same, and are called at most once.
pub trait Peaker {
    /// Which columns it may name for these leasts and widths, and what it is then.
    ghost peaks: { Self → List ℕ → List ℕ → Option ℕ → Self → Type 0 };

    /// What it makes of widths that are to be shrunk: the leasts, by how much, the widths, what it is
    /// then, and the widths that are left.
    ghost shrinks: { Self → List ℕ → ℕ → List ℕ → Self → List ℕ → Type 0 };

    /// What it makes of widths that are to be grown: by how much, the widths, what it is then, and the
    /// widths that come of them.
    ghost grows: { Self → ℕ → List ℕ → Self → List ℕ → Type 0 };

    /// Names a column, or none. With an empty list of leasts it names the column that is to grow, else
    /// the one that is to shrink; a missing least counts as 0.
    fn peak(&mut self, mins: &[usize], values: &[usize]) -> Option<usize>
        ensures { peaks self.old mins.now values.now result self.new };

    /// Takes `by` columns from the widths, one at a time from the column that is named, until all is taken
    /// or no width is above its least. A priority that names a column which has nothing to give as often
    /// in a row as there are columns is called no more; nor is one that names none, or no column of these.
    /// The widths must sum to at most `usize::MAX`, and have as many leasts.
    fn shrink(&mut self, widths: &mut [usize], least: &[usize], by: usize)
        requires range { sum widths.old < 2 ^ 64 }
        requires leasts { length least.now ≡ length widths.old }
        ensures shrunk { shrinks self.old least.now by widths.old self.new widths.new }
        ensures between { StaysBetween least.now widths.old widths.new }
        ensures at_most { sum widths.old ≤ sum widths.new + by }
    {
        let mut left = by.min(room(least, widths));
        let mut fruitless = 0;
        while left > 0 && fruitless < widths.len() {
            let Some(column) = self.peak(least, widths) else {
                return;
            };
            if column >= widths.len() {
                return;
            }
            if widths[column] > least[column] {
                widths[column] -= 1;
                left -= 1;
                fruitless = 0;
            } else {
                fruitless += 1;
            }
        }
    }

    /// Gives `by` columns to the widths, one at a time to the column that is named, until all is given. A
    /// priority that names none, or no column of these, is called no more. The widths and `by` must sum to
    /// at most `usize::MAX`.
    fn grow(&mut self, widths: &mut [usize], by: usize)
        requires { sum widths.old + by < 2 ^ 64 }
        ensures grown { grows self.old by widths.old self.new widths.new }
        ensures never_falls { NoneFalls widths.old widths.new }
        ensures at_most { sum widths.new ≤ sum widths.old + by }
    {
        for _ in 0..by {
            let Some(column) = self.peak(&[], widths) else {
                return;
            };
            if column >= widths.len() {
                return;
            }
            widths[column] += 1;
        }
    }

    /// What its answers make of widths is what it is to make of them.
    ghost answers_shrink: { (before : Self) (least : List ℕ) (by : ℕ) (widths : List ℕ) (after : Self) (sizes : List ℕ) →
        length least ≡ length widths → IsShrunkBy peaks before least by widths after sizes → shrinks before least by widths after sizes };

    ghost answers_grow: { (before : Self) (by : ℕ) (widths : List ℕ) (after : Self) (sizes : List ℕ) →
        IsGrownBy peaks before by widths after sizes → grows before by widths after sizes };
}

// What can be taken from the widths.
fn room(least: &[usize], widths: &[usize]) -> usize
    requires { sum widths.now < 2 ^ 64 }
    ensures { result ≡ gap_sum least.now widths.now }
{
    let mut room = 0;
    for (column, width) in widths.iter().enumerate() {
        room += width.saturating_sub(least_at(least, column));
    }
    room
}
