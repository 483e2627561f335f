//! Refusals, which change nothing: what was set before a refused call is kept, what the call was to set is
//! not there, and the refusal is returned. `tests/memory` runs this test with each allocation failing.
use super::{expect, let_go};
use Kept::*;
use grid_config::{
    ANSIBuf, ColoredConfig, Entity, EntityMap, Fault, Indent, Position, Sides, SpannedConfig,
};
use std::alloc::{AllocError, Global};
use std::process::Abort;

const INDENTS: Sides<Indent> = Sides {
    left: Indent { size: 1, fill: '<' },
    right: Indent { size: 2, fill: '>' },
    top: Indent { size: 3, fill: '^' },
    bottom: Indent { size: 4, fill: 'v' },
};

// What is set for one row or column after another.
#[derive(Clone, Copy)]
enum Kept {
    Value,
    Padding,
    Span,
    Color,
}

// For how many it is set, what is read where it is set, and what is read where it is not.
type Row = (Kept, usize, [usize; 2], [usize; 2]);

const ALL: &[Row] = &[
    (Value, 9, ['b' as usize, 0], ['a' as usize, 0]),
    (Padding, 9, [1, 0], [0, 0]),
    (Span, 40, [2, 1], [0, 0]),
    (Color, 9, [1, 0], [0, 0]),
];

// What it is set in.
#[derive(Drop)]
struct Settings {
    map: EntityMap<char>,
    config: ColoredConfig,
}

fn set_color(config: &mut ColoredConfig, alloc: Global, col: usize) -> Result<(), Fault> {
    let bold = ANSIBuf::new(alloc, "\x1b[1m", "\x1b[22m")?;
    config.set_color(Entity::Column(col), bold)
}

fn set(settings: &mut Settings, alloc: Global, kept: Kept, place: usize) -> Result<(), Fault> {
    match kept {
        Value => Ok(settings.map.insert(Entity::Column(place), 'b')?),
        Padding => {
            let config = settings.config.spanned_mut();
            config.set_padding(Entity::Row(place), INDENTS)
        }
        Span => {
            let config = settings.config.spanned_mut();
            config.set_column_span(Position::new(place, 0), 2)
        }
        Color => set_color(&mut settings.config, alloc, place),
    }
}

// What is read of one place, as numbers: a value; the padding at the left, and the margin there, which is
// never set; a span, or 0 for none, and whether the cell beside it is hidden; whether there is a colour.
fn read(settings: &Settings, kept: Kept, place: usize) -> [usize; 2] {
    let config = settings.config.spanned();
    match kept {
        Value => [*settings.map.get(Position::new(1, place)) as usize, 0],
        Padding => [
            config.get_padding(Position::new(place, 1)).left.size,
            config.get_margin().left.size,
        ],
        Span => [
            config.get_column_span(Position::new(place, 0)).unwrap_or(0),
            usize::from(!config.is_cell_visible(Position::new(place, 1))),
        ],
        Color => {
            let color = settings
                .config
                .get_colors()
                .get_color(Position::new(0, place));
            [usize::from(color.is_some()), 0]
        }
    }
}

// The first `count` are set, and the next one is not.
fn expect_kept(rt: &impl Abort, settings: &Settings, row: Row, count: usize) {
    let (kept, _, set, unset) = row;
    for place in 0..count {
        expect(rt, read(settings, kept, place) == set, "what was set");
    }
    expect(rt, read(settings, kept, count) == unset, "what was not set");
}

fn expect_all(rt: &impl Abort, settings: &Settings) {
    for row in ALL {
        expect_kept(rt, settings, *row, row.1);
    }
}

fn fill(rt: &impl Abort, settings: &mut Settings, alloc: Global, row: Row) -> Result<(), Fault> {
    for place in 0..row.1 {
        if let Err(fault) = set(settings, alloc, row.0, place) {
            expect_kept(rt, settings, row, place);
            return Err(fault);
        }
    }
    Ok(())
}

fn fill_all(rt: &impl Abort, settings: &mut Settings, alloc: Global) -> Result<(), Fault> {
    for row in ALL {
        fill(rt, settings, alloc, *row)?;
    }
    Ok(())
}

fn copied(settings: &Settings, alloc: Global) -> Result<Settings, AllocError> {
    let map = settings.map.clone(alloc)?;
    let config = settings.config.clone(alloc)?;
    Ok(Settings { map, config })
}

// A clone has all that was set, and the original still has it.
fn keep_all(rt: &impl Abort, settings: &mut Settings, alloc: Global) -> Result<(), Fault> {
    fill_all(rt, settings, alloc)?;
    let copy = copied(settings, alloc)?;
    expect_all(rt, &copy);
    let_go(copy);
    expect_all(rt, settings);
    Ok(())
}

#[test]
fn keeps_what_was_set(rt: HostRuntime) -> Result<(), Fault> {
    let mut settings = Settings {
        map: EntityMap::new(rt.alloc(), 'a'),
        config: ColoredConfig::new(SpannedConfig::new(rt.alloc())),
    };
    let outcome = keep_all(&rt, &mut settings, rt.alloc());
    let_go(settings);
    outcome
}
