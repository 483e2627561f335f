//! Laws: when tables are equal, and which comes first.
ghost use Rattle.std.specs.Prelude.{◌≡◌, ◌↔◌, Some, true};
ghost use Rattle.std.specs.Cmp.{IsTotalOrder};
ghost use Rattle.std.specs.Ordering.{ordering_then};
ghost use Rattle.std.specs.declared.cmp.Ordering.TheVariants.{Equal};
ghost use Rattle.tabled_pool.specs.Pools.{config_of, pool_of};
ghost use Rattle.tabled_pool.specs.declared.table.PoolTable.{PoolTable as OneTable};
ghost use Rattle.tabled_pool.specs.Boxes.Order.{compared};

use crate::table::PoolTable;
use tabled_options::multiline::CompactMultilineConfig;
use tabled_size::PoolTableDimension;

/// `==` of tables is equality of what they show, of their settings and of who takes what is left over. `cmp` finds
/// the same ones equal.
pub fn equal_tables_are_the_same()
    ensures equality { (a b : OneTable) → (⟦<PoolTable as PartialEq>⟧.eq a b ≡ true) ↔ (pool_of a ≡ pool_of b) }
    ensures order { (a b : OneTable) → (⟦<PoolTable as Ord>⟧.cmp a b ≡ Equal) ↔ (pool_of a ≡ pool_of b) }
{}

/// Tables are ordered by what they show, those that show the same by their settings, and then by who takes what
/// is left over. It is a total order, and `partial_cmp` returns it too.
pub fn tables_are_ordered()
    ensures order { (a b : OneTable) → ⟦<PoolTable as Ord>⟧.cmp a b ≡ ordering_then (compared (pool_of a).nesting (pool_of b).nesting)
        (ordering_then (⟦<CompactMultilineConfig as Ord>⟧.cmp (config_of a) (config_of b)) (⟦<PoolTableDimension as Ord>⟧.cmp (pool_of a).takers (pool_of b).takers)) }
    ensures partial { (a b : OneTable) → ⟦<PoolTable as PartialOrd>⟧.partial_cmp a b ≡ Some (⟦<PoolTable as Ord>⟧.cmp a b) }
    ensures total { IsTotalOrder ⟦<PoolTable as Ord>⟧.cmp }
{}
