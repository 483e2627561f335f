//! Functions that give the heads of records.
ghost use Rattle.std.specs.Prelude.{◌≡◌};

use crate::template::Template;
use grid_config_values::Fault;
use std::alloc::{AllocError, Global};
use std::marker::Model;

/// A function that gives the text in the head of each record. In a contract it is that function.
#[derive(Drop)]
pub struct Given<F> {
    function: F,
}

impl<F> Model for Given<F> {
    ghost Value = { F };

    ghost view = { λ given. given.function };
}

impl<F> Given<F> {
    pub(crate) fn new(function: F) -> Given<F>
        ensures { result ≡ function }
    {
        Given { function }
    }
}

/// What the function returns for the number of the record, provided that it may be called for each.
impl<F: Fn(Global, usize) -> Result<String, Fault>> Template for Given<F> {
    ghost use Rattle.std.specs.declared.alloc.Global.{Global as Heap};

    ghost can_give = { λ function. F.IsAlwaysCallable function };

    ghost gives = { λ function number answer. (alloc : Heap) × F.post function alloc number answer };

    fn head(&self, alloc: Global, number: usize) -> Result<String, Fault> {
        (self.function)(alloc, number)
    }
}

/// A clone of the function.
impl<F: Clone> Clone for Given<F> {
    ghost is_clone = { λ source clone. F.is_clone source clone };

    ghost is_infallible = { λ source. F.is_infallible source };

    fn clone(&self) -> Result<Given<F>, AllocError> {
        Ok(Given::new(self.function.clone()?))
    }
}
