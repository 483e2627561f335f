//! The settings that each cell of a table has.
ghost use Rattle.std.specs.Prelude.{None, false, IfOk, OnOk};
ghost use Rattle.grid_config_values.specs.declared.alignment.AlignmentVertical.TheVariants.{Top};
ghost use Rattle.grid_config.specs.Settings.{IsEverywhere};

use crate::colors::ANSIBuf;
use grid_config_values::{AlignmentHorizontal, AlignmentVertical, EntityMap, Indent, Sides};
use std::alloc::{AllocError, Global};

/// The settings that each cell of a table has, by the cells that each call named.
#[derive(Debug)]
pub(crate) struct CellSettings {
    pub(crate) padding: EntityMap<Sides<Indent>>,
    pub(crate) padding_color: EntityMap<Sides<Option<ANSIBuf>>>,
    pub(crate) alignment_horizontal: EntityMap<AlignmentHorizontal>,
    pub(crate) alignment_vertical: EntityMap<AlignmentVertical>,
    pub(crate) line_alignment: EntityMap<bool>,
    pub(crate) trim_horizontal: EntityMap<bool>,
    pub(crate) trim_vertical: EntityMap<bool>,
    pub(crate) justification: EntityMap<char>,
    pub(crate) justification_color: EntityMap<Option<ANSIBuf>>,
}

impl Drop for CellSettings {
    fn drop(self) {
        let CellSettings {
            padding,
            padding_color,
            alignment_horizontal,
            alignment_vertical,
            line_alignment,
            trim_horizontal,
            trim_vertical,
            justification,
            justification_color,
        } = self;
        drop(padding);
        drop(padding_color);
        drop(alignment_horizontal);
        drop(alignment_vertical);
        drop(line_alignment);
        drop(trim_horizontal);
        drop(trim_vertical);
        drop(justification);
        drop(justification_color);
    }
}

impl CellSettings {
    ghost use Rattle.grid_config.specs.Copies.{HasSameCells};

    /// These settings for every cell; texts at the top, each as a block and untrimmed, spaces for
    /// justification. Does not allocate.
    pub(crate) fn new(
        alloc: Global,
        padding: Sides<Indent>,
        padding_color: Sides<Option<ANSIBuf>>,
        alignment: AlignmentHorizontal,
    ) -> CellSettings
        ensures padding { IsEverywhere result.padding padding }
        ensures padding_color { IsEverywhere result.padding_color padding_color }
        ensures alignment_horizontal { IsEverywhere result.alignment_horizontal alignment }
        ensures alignment_vertical { IsEverywhere result.alignment_vertical Top }
        ensures line_alignment { IsEverywhere result.line_alignment false }
        ensures trim_horizontal { IsEverywhere result.trim_horizontal false }
        ensures trim_vertical { IsEverywhere result.trim_vertical false }
        ensures justification { IsEverywhere result.justification 32 }
        ensures justification_color { IsEverywhere result.justification_color None }
    {
        CellSettings {
            padding: EntityMap::new(alloc, padding),
            padding_color: EntityMap::new(alloc, padding_color),
            alignment_horizontal: EntityMap::new(alloc, alignment),
            alignment_vertical: EntityMap::new(alloc, AlignmentVertical::Top),
            line_alignment: EntityMap::new(alloc, false),
            trim_horizontal: EntityMap::new(alloc, false),
            trim_vertical: EntityMap::new(alloc, false),
            justification: EntityMap::new(alloc, ' '),
            justification_color: EntityMap::new(alloc, None),
        }
    }

    /// The same settings again. Fails only where allocation fails.
    pub(crate) fn clone(&self, alloc: Global) -> Result<CellSettings, AllocError>
        ensures { IfOk result (HasSameCells self.now) }
    {
        let none = Sides::new(None, None, None, None);
        let padding = Sides::filled(Indent::zero());
        let mut copy = CellSettings::new(alloc, padding, none, AlignmentHorizontal::Left);
        self.fill(alloc, &mut copy)?;
        Ok(copy)
    }

    // Fills a copy. It is lent, so that a refusal has nothing to drop.
    fn fill(&self, alloc: Global, copy: &mut CellSettings) -> Result<(), AllocError>
        ensures { OnOk result (HasSameCells self.now copy.new) }
    {
        copy.padding = self.padding.clone(alloc)?;
        copy.padding_color = self.padding_color.clone(alloc)?;
        copy.alignment_horizontal = self.alignment_horizontal.clone(alloc)?;
        copy.alignment_vertical = self.alignment_vertical.clone(alloc)?;
        copy.line_alignment = self.line_alignment.clone(alloc)?;
        copy.trim_horizontal = self.trim_horizontal.clone(alloc)?;
        copy.trim_vertical = self.trim_vertical.clone(alloc)?;
        copy.justification = self.justification.clone(alloc)?;
        copy.justification_color = self.justification_color.clone(alloc)?;
        Ok(())
    }
}
