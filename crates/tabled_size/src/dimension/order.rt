//! How sizes that a table keeps compare.
ghost use Rattle.std.specs.Prelude.{◌≡◌, nat_eq};
ghost use Rattle.std.proofs.Common.{rules};
ghost use Rattle.std.specs.Cmp.{partial_equiv_from_equiv, po};
ghost use Rattle.std.specs.Cmp.Lexicographic.{pointwise, slice_cmp};
ghost use Rattle.std.specs.Cmp.Rules.{comparing};
ghost use Rattle.std.specs.Option.{option_cmp, option_copied, option_eq};
ghost use Rattle.std.specs.Ordering.{as_partial_cmp, nat_cmp};
ghost use Rattle.tabled_size.specs.Dimension.Order.{stored_cmp, stored_eq};
ghost use Rattle.tabled_size.specs.Dimension.Ties.{stored_ties, stored_total};

use crate::dimension::complete::CompleteDimension;
use std::cmp::Ordering;

// Whether both are none, or both the same list.
fn is_same(sizes: Option<&[usize]>, others: Option<&[usize]>) -> bool
    ensures { result ≡ option_eq (pointwise nat_eq) (option_copied sizes.entry) (option_copied others.entry) }
{
    sizes == others
}

// None comes before a list; lists are compared number by number.
fn compared(sizes: Option<&[usize]>, others: Option<&[usize]>) -> Ordering
    ensures { result ≡ option_cmp (slice_cmp nat_cmp) (option_copied sizes.entry) (option_copied others.entry) }
{
    sizes.cmp(&others)
}

impl PartialEq for CompleteDimension {
    ghost eq = { stored_eq };

    ghost laws = { partial_equiv_from_equiv (Prim.search (comparing, rules)) };

    fn eq(&self, other: &CompleteDimension) -> bool {
        is_same(self.get_widths(), other.get_widths())
            && is_same(self.get_heights(), other.get_heights())
    }
}

impl Eq for CompleteDimension {
    ghost laws = { Prim.search (comparing, rules) };
}

impl PartialOrd for CompleteDimension {
    ghost partial_cmp = { as_partial_cmp stored_cmp };

    ghost laws = { po stored_total stored_ties };

    fn partial_cmp(&self, other: &CompleteDimension) -> Option<Ordering> {
        Some(self.cmp(other))
    }
}

/// By the widths and then by the heights: none comes before a list.
impl Ord for CompleteDimension {
    ghost cmp = { stored_cmp };

    ghost total = { stored_total };

    ghost matches_partial_cmp = { Prim.search (comparing, rules) };

    ghost matches_eq = { stored_ties };

    fn cmp(&self, other: &CompleteDimension) -> Ordering {
        compared(self.get_widths(), other.get_widths()).then(compared(
            self.get_heights(),
            other.get_heights(),
        ))
    }
}
