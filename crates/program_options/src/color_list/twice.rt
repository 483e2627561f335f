//! Whether a column is there twice.
ghost use Rattle.std.specs.Prelude.{◌≡◌, IfOk, map};
ghost use Rattle.program_options.specs.ColorList.Listed.{has_twice};

use std::alloc::{AllocError, Global};
use std::collections::HashSet;

/// Whether a column is there twice. Looks at each column once. Fails only where allocation fails.
pub(crate) fn has_twice<T>(alloc: Global, given: &[(usize, T)]) -> Result<bool, AllocError>
    ensures { IfOk result (λ twice. twice ≡ has_twice (map (λ one. one.0) given.now)) }
{
    let mut columns = HashSet::new(alloc);
    let mut twice = false;
    for one in given {
        if !columns.insert(one.0)? {
            twice = true;
        }
    }
    Ok(twice)
}
