//! What a name in a list means.
ghost use Rattle.std.specs.Prelude.{◌≡◌, ℕ, List, IfOk, Option};
ghost use Rattle.basinmug_values.specs.Names.{alignment_named};
ghost use Rattle.program_options.specs.ColorList.Listed.{color_of_name};

use grid_config::ANSIBuf;
use grid_config_values::AlignmentHorizontal;
use program_options::color_list::color_named;
use std::alloc::{AllocError, Global};

/// What a name in a list means.
pub trait Named: Sized {
    /// The value of a name, where it has one.
    ghost value_of: { List ℕ → Option Self };

    /// The value of this name; none where it means none. Fails only where allocation fails.
    fn named(alloc: Global, name: &str) -> Result<Option<Self>, AllocError>
        ensures { IfOk result (λ found. found ≡ value_of name.now) };
}

impl Named for AlignmentHorizontal {
    ghost value_of = { alignment_named };

    fn named(_alloc: Global, name: &str) -> Result<Option<AlignmentHorizontal>, AllocError> {
        Ok(match name {
            "left" => Some(AlignmentHorizontal::Left),
            "center" => Some(AlignmentHorizontal::Center),
            "right" => Some(AlignmentHorizontal::Right),
            _ => None,
        })
    }
}

impl Named for ANSIBuf {
    ghost value_of = { color_of_name };

    fn named(alloc: Global, name: &str) -> Result<Option<ANSIBuf>, AllocError> {
        match color_named(name) {
            Some(color) => Ok(Some(ANSIBuf::from_ansi_str(alloc, color)?)),
            None => Ok(None),
        }
    }
}
