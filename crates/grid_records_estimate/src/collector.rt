//! What the cells of a table need, collected cell by cell, and the sizes that hold them.
ghost use Rattle.std.specs.Prelude.{◌≡◌, ℕ, ◌+◌, ◌^◌, ◌<◌, ◌≤◌, ◌==◌, [], ◌∷◌, ◌++◌, IfErr, IfOk, List, OnErr, OnOk, None, Some, if◌then◌else◌, map, max, slice_index, vec_len};
ghost use Rattle.std.specs.List.Sorted.{IsPermutation, IsSorted};
ghost use Rattle.grid_records_estimate.specs.Estimates.{TrackNeeds, track_sizes};
ghost use Rattle.grid_records_estimate.specs.Collecting.{AreFirstBelow, Describes, HasCollected, PassesMax, clipped, is_of_one_track};
ghost use Rattle.grid_records_estimate.specs.Sizes.{IsRefusal};

use crate::need::Need;
use crate::shares::meet_all;
use grid_config_values::Fault;
use std::alloc::{AllocError, Global};
use std::marker::Model;

/// What the visible cells of a table need along one axis. For each column it keeps the greatest need of the cells
/// that take this column alone. The needs of cells that span several columns are kept as they came.
#[derive(Debug, Drop)]
pub(crate) struct Collector {
    sizes: Vec<usize>,
    others: Vec<Need>,
}

impl Model for Collector {
    ghost use Rattle.grid_records_estimate.specs.Collecting.{Collected, AreSound};

    ghost Value = { Collected };

    ghost view = { λ collector. record { sizes = collector.sizes.items; others = collector.others.items } };

    ghost invariant = { λ collector. AreSound collector.others.items };
}

impl Collector {
    ghost use Rattle.grid_records_estimate.specs.declared.need.Need.{Need as OneNeed};

    /// Nothing is needed yet. Does not allocate.
    pub(crate) fn new(alloc: Global) -> Collector
        ensures { HasCollected result [] }
    {
        Collector {
            sizes: Vec::new(alloc),
            others: Vec::new(alloc),
        }
    }

    /// Adds what one cell needs. Fails only where allocation fails, and then changes nothing.
    #[inline(always)]
    pub(crate) fn add(&mut self, need: Need) -> Result<(), AllocError>
        requires some { 0 < need.length }
        requires below_max { need.first < usize.MAX }
        requires small { need.size < 2 ^ 66 }
        ensures ok { (needs : List OneNeed) → HasCollected self.old needs → OnOk result (HasCollected self.new (needs ++ need ∷ [])) }
        ensures err { OnErr result (self.new ≡ self.old) }
    {
        match size_alone(need) {
            Some(size) => raise(&mut self.sizes, need.first, size),
            None => Ok(self.others.push(need)?),
        }
    }

    /// The least sizes of `tracks` columns that hold what was added; none where no row crosses them. The cells that
    /// take one column come first, then the shorter spans before the longer ones. Refused as `Range` where a size
    /// passes `usize::MAX`, and as `Memory` where allocation fails.
    pub(crate) fn finish(
        self,
        tracks: usize,
        cross_tracks: usize,
        between: bool,
    ) -> Result<Vec<usize>, Fault>
        requires { AreFirstBelow tracks self.others }
        ensures ok { (table : TrackNeeds) → Describes table tracks cross_tracks between self → IfOk result (λ sizes. sizes.items ≡ track_sizes table) }
        ensures refused { (table : TrackNeeds) → Describes table tracks cross_tracks between self → IfErr result (λ fault. IsRefusal fault (PassesMax (track_sizes table))) }
    {
        let Collector { mut sizes, others } = self;
        if cross_tracks == 0 {
            sizes.clear();
            return Ok(sizes);
        }
        sizes.resize(tracks, 0)?;
        meet_all(&mut sizes, &in_order(others, tracks), between)?;
        Ok(sizes)
    }
}

// The size that the need requires of one column, where it is of one alone and a `usize` holds it.
fn size_alone(need: Need) -> Option<usize>
    ensures { result ≡ (if is_of_one_track need then Some need.size else None) }
{
    if need.length != 1 {
        return None;
    }
    usize::try_from(need.size).ok()
}

// Appends zeroes until there are `count` columns.
fn lengthen(sizes: &mut Vec<usize>, count: usize) -> Result<(), AllocError>
    requires { vec_len sizes.old ≤ count }
    ensures long { OnOk result (vec_len sizes.new ≡ count) }
    ensures ok { OnOk result ((k : ℕ) → slice_index sizes.new.items k ≡ slice_index sizes.old.items k) }
    ensures err { OnErr result (sizes.new.items ≡ sizes.old.items) }
{
    sizes.resize(count, 0)?;
    Ok(())
}

// Raises the size of a column to this one, where it is less. That of the next one, as each row is for its first cell, is
// appended.
#[inline(always)]
fn raise(sizes: &mut Vec<usize>, track: usize, size: usize) -> Result<(), AllocError>
    requires { track < usize.MAX }
    ensures ok { OnOk result ((k : ℕ) → slice_index sizes.new.items k ≡
        (if k == track then max (slice_index sizes.old.items k) size else slice_index sizes.old.items k)) }
    ensures err { OnErr result (sizes.new.items ≡ sizes.old.items) }
{
    if track < sizes.len() {
        sizes[track] = sizes[track].max(size);
        return Ok(());
    }
    if sizes.len() == track {
        sizes.push(size)?;
        return Ok(());
    }
    raise_behind(sizes, track, size)
}

// The same of a column behind those that have a size.
#[cold]
#[inline(never)]
fn raise_behind(sizes: &mut Vec<usize>, track: usize, size: usize) -> Result<(), AllocError>
    requires behind { vec_len sizes.old ≤ track }
    requires below_max { track < usize.MAX }
    ensures ok { OnOk result ((k : ℕ) → slice_index sizes.new.items k ≡
        (if k == track then max (slice_index sizes.old.items k) size else slice_index sizes.old.items k)) }
    ensures err { OnErr result (sizes.new.items ≡ sizes.old.items) }
{
    lengthen(sizes, track + 1)?;
    let held = sizes[track];
    sizes[track] = held.max(size);
    Ok(())
}

// The needs in the order in which they are met, with their spans clipped to the table.
fn in_order(mut needs: Vec<Need>, tracks: usize) -> Vec<Need>
    requires { AreFirstBelow tracks needs.items }
    ensures moved { IsPermutation (map (clipped tracks) needs.items) result.items }
    ensures sorted { IsSorted ⟦<Need as Ord>⟧.cmp result.items }
{
    clip(&mut needs, tracks);
    needs.sort_unstable();
    needs
}

// Spans count only inside the table.
fn clip(needs: &mut [Need], tracks: usize)
    requires { AreFirstBelow tracks needs.old }
    ensures { needs.new ≡ map (clipped tracks) needs.old }
{
    for need in needs.iter_mut() {
        need.length = need.length.min(tracks - need.first);
    }
}
