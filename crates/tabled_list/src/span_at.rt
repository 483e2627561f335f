//! How many columns, or rows, the cell at one place takes, which has no option of its own.
ghost use Rattle.std.specs.Prelude.{◌≡◌, ◌≢◌, ◌<◌, Err, IfErr, IsOk, OnErr, OnOk, Some};
ghost use Rattle.grid_config_values.specs.declared.fault.Fault.TheVariants.{Memory, Spans as BadSpan};
ghost use Rattle.grid_config.specs.Looks.{look_of};
ghost use Rattle.grid_config.specs.Spans.{SpansSeveral};
ghost use Rattle.grid_config_values.specs.declared.entity.Entity.TheVariants.{Global as EveryCell};
ghost use Rattle.tabled_list.specs.Looks.{with_span};
ghost use Rattle.tabled_steps.specs.States.{StepsTo, colored_state, looking, positive};

use grid_config::{ColoredConfig, Entity, Fault, Position, SpannedConfig};
use grid_records_traits::records::RecordTexts;
use std::alloc::Global;
use tabled_steps::{KeptSizes, TableOption};

/// How many columns, or rows, the cell at a place takes, in the table or not.
#[derive(Drop)]
pub(crate) struct SpanAt {
    pub(crate) pos: Position,
    pub(crate) size: usize,
    pub(crate) of: TrackKind,
}

/// What a cell takes several of.
#[derive(Clone, Copy)]
pub(crate) enum TrackKind {
    Columns,
    Rows,
}

/// Sets it. Refused as `Spans` for 0, and as `Memory` where allocation fails. Allocation never fails for a size
/// of 1, nor for a cell that has a span.
impl<R: RecordTexts, D: KeptSizes> TableOption<R, ColoredConfig, D> for SpanAt {
    ghost step = { λ option state outcome. positive option.size (looking (with_span option.of option.pos option.size)) state ≡ outcome };

    ghost hint = { λ _. Some EveryCell };

    fn change(
        self,
        _alloc: Global,
        records: &mut R,
        cfg: &mut ColoredConfig,
        dims: &mut D,
    ) -> Result<(), Fault>
        ensures zero { self.size ≡ 0 → result ≡ Err BadSpan }
        ensures one { self.size ≡ 1 → IsOk result }
        ensures again { self.size ≢ 0 → SpansSeveral cfg.old.settings.spans self.pos → IsOk result }
        ensures step { StepsTo (positive self.size (looking (with_span self.of self.pos self.size))) result
            (colored_state (R.rows records.old) cfg.old (D.sizes dims.old)) (colored_state (R.rows records.new) cfg.new (D.sizes dims.new)) }
    {
        if self.size == 0 {
            return Err(Fault::Spans);
        }
        set_span(cfg.spanned_mut(), self.of, self.pos, self.size)
    }

    fn hint_change(&self) -> Option<Entity> {
        Some(Entity::Global)
    }
}

// Sets how many columns, or rows, the cell at this place takes. Fails only where allocation fails, and then nothing has
// changed: never for a size of 1, and never for a cell that has a span.
fn set_span(cfg: &mut SpannedConfig, of: TrackKind, pos: Position, size: usize) -> Result<(), Fault>
    requires { 0 < size }
    ensures set { OnOk result (look_of cfg.new ≡ with_span of pos size (look_of cfg.old)) }
    ensures kept { OnErr result (look_of cfg.new ≡ look_of cfg.old) }
    ensures fault { IfErr result (λ fault. fault ≡ Memory) }
    ensures one { size ≡ 1 → IsOk result }
    ensures again { SpansSeveral cfg.old.spans pos → IsOk result }
{
    match of {
        TrackKind::Columns => cfg.set_column_span(pos, size),
        TrackKind::Rows => cfg.set_row_span(pos, size),
    }
}
