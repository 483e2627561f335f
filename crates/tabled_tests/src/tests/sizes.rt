//! Sizes that a table keeps: their estimates and their clones. `tests/memory` runs these tests with each request for
//! memory refused, and a refusal is passed on.
use super::kept_sizes::{Lists, estimate, expect_kept, kept, table};
use super::{expect, let_go};
use fakes::borders::ASCII;
use grid_config::{ColoredConfig, Fault, Position, SpannedConfig};
use std::alloc::Global;
use std::process::Abort;

// What is set, and what is there after an estimate.
const FILLED: &[(Lists, Lists)] = &[
    ((None, None), (Some(&[4, 3]), Some(&[1, 2]))),
    ((Some(&[9]), None), (Some(&[9]), Some(&[1, 2]))),
    ((None, Some(&[7, 7, 7])), (Some(&[4, 3]), Some(&[7, 7, 7]))),
    ((Some(&[]), Some(&[0])), (Some(&[]), Some(&[0]))),
];

fn expect_filled(rt: &impl Abort, alloc: Global, cfg: &SpannedConfig) -> Result<(), Fault> {
    let records = table(rt, alloc)?;
    for (set, wanted) in FILLED {
        let mut sizes = kept(alloc, *set)?;
        let outcome = estimate(alloc, &mut sizes, &records, cfg);
        expect_kept(
            rt,
            &sizes,
            if outcome.is_ok() { *wanted } else { *set },
            "behind an estimate",
        );
        outcome?;
    }
    Ok(())
}

fn fill(rt: &impl Abort, alloc: Global, cfg: &mut SpannedConfig) -> Result<(), Fault> {
    cfg.set_borders(ASCII);
    cfg.set_column_span(Position::new(0, 0), 2)?;
    expect_filled(rt, alloc, cfg)
}

#[test]
fn fills_what_is_not_set(rt: HostRuntime) -> Result<(), Fault> {
    let mut cfg = SpannedConfig::new(rt.alloc());
    let outcome = fill(&rt, rt.alloc(), &mut cfg);
    let_go(cfg);
    outcome
}

fn fill_colored(rt: &impl Abort, alloc: Global, cfg: &ColoredConfig) -> Result<(), Fault> {
    let mut sizes = kept(alloc, (None, Some(&[7])))?;
    estimate(alloc, &mut sizes, &table(rt, alloc)?, cfg)?;
    expect_kept(
        rt,
        &sizes,
        (Some(&[8, 6]), Some(&[7])),
        "behind an estimate",
    );
    Ok(())
}

#[test]
fn fills_under_colored_settings(rt: HostRuntime) -> Result<(), Fault> {
    let cfg = ColoredConfig::new(SpannedConfig::new(rt.alloc()));
    let outcome = fill_colored(&rt, rt.alloc(), &cfg);
    let_go(cfg);
    outcome
}

const WIDTHS: Option<&[usize]> = Some(&[4, 3]);

const HEIGHTS: Option<&[usize]> = Some(&[1, 2, 5]);

const SIZES: Lists = (WIDTHS, HEIGHTS);

#[test]
fn clones_are_the_same(rt: HostRuntime) -> Result<(), Fault> {
    for lists in [SIZES, (WIDTHS, None), (None, HEIGHTS), (None, None)] {
        let sizes = kept(rt.alloc(), lists)?;
        let mut copy = sizes.clone(rt.alloc())?;
        expect_kept(&rt, &copy, lists, "of a clone");
        expect(&rt, copy == sizes, "a clone is the same");
        copy.set_widths(Vec::from_slice(rt.alloc(), &[9])?);
        expect_kept(&rt, &sizes, lists, "of what was cloned");
        expect(&rt, copy != sizes, "a clone that was changed");
    }
    Ok(())
}
