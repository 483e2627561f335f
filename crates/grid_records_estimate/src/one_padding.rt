//! Settings of a table whose cells have one padding.
ghost use Rattle.std.specs.Prelude.{◌≡◌, [], IfSome};
ghost use Rattle.grid_records_estimate.specs.Alike.{HasOnePadding};
ghost use Rattle.grid_records_estimate.specs.Sizing.{around_height, around_width};

use crate::sizing::{Sizing, left_and_right, top_and_bottom};
use grid_config::{Borders, Indent, Position, Sides};

/// The settings that sizes follow from, where all cells have one padding, and none spans several columns or
/// rows. What is looked up and added for each cell of other tables is known here.
#[derive(Clone, Copy)]
pub(crate) struct OnePadding<'a> {
    padding: &'a Sides<Indent>,
    across: usize,
    along: usize,
    margin: &'a Sides<Indent>,
    borders: &'a Borders<char>,
    ghost across_is: { across ≡ around_width padding.now },
    ghost along_is: { along ≡ around_height padding.now },
}

impl<'a> OnePadding<'a> {
    /// These settings, where all cells are known to have one padding, and a `usize` holds what it takes across and along;
    /// `None` says nothing about the cells.
    pub(crate) fn of<S: Sizing>(cfg: &'a S) -> Option<OnePadding<'a>>
        ensures { IfSome result (λ settings. ⟦<OnePadding<'a> as Sizing>⟧.sizing settings ≡ S.sizing cfg.now) }
    {
        OnePadding::new(cfg, cfg.one_padding()?)
    }

    // The same, where all cells have this padding.
    fn new<S: Sizing>(cfg: &'a S, padding: &'a Sides<Indent>) -> Option<OnePadding<'a>>
        requires { HasOnePadding (S.sizing cfg.now) padding.now }
        ensures { IfSome result (λ settings. ⟦<OnePadding<'a> as Sizing>⟧.sizing settings ≡ S.sizing cfg.now) }
    {
        Some(OnePadding {
            padding,
            across: usize::try_from(left_and_right(padding)).ok()?,
            along: usize::try_from(top_and_bottom(padding)).ok()?,
            margin: cfg.margin(),
            borders: cfg.borders(),
        })
    }
}

impl<'a> Sizing for OnePadding<'a> {
    ghost sizing = { λ settings. record { margin = settings.margin.now; borders = settings.borders.now; padding = λ _. settings.padding.now; spans = [] } };

    fn is_visible(&self, _pos: Position) -> bool {
        true
    }

    fn across(&self, _pos: Position) -> u128 {
        self.across as u128
    }

    fn along(&self, _pos: Position) -> u128 {
        self.along as u128
    }

    fn columns(&self, _pos: Position) -> usize {
        1
    }

    fn rows(&self, _pos: Position) -> usize {
        1
    }

    fn margin(&self) -> &Sides<Indent> {
        self.margin
    }

    fn borders(&self) -> &Borders<char> {
        self.borders
    }
}
