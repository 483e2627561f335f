//! What options of a whole table set, whichever settings it has.
ghost use Rattle.std.specs.Prelude.{◌≡◌, IsOk};
ghost use Rattle.grid_config_values.specs.declared.entity.Entity.TheVariants.{Global as EveryCell};
ghost use Rattle.tabled_steps.specs.Looks.{with_borders, with_margin, with_padding};

use grid_config::{Borders, ColoredConfig, CompactConfig, Entity, Fault, Indent, Sides};
use tabled_steps::Configuration;

/// Settings whose margin, padding and borders are set for a whole table. No setter allocates, and the colours
/// of cells stay.
pub trait FrameSettings: Configuration {
    /// Sets the margin.
    fn put_margin(&mut self, margin: Sides<Indent>)
        ensures look { Self.look self.new ≡ with_margin margin (Self.look self.old) }
        ensures colors { Self.colors self.new ≡ Self.colors self.old };

    /// Sets the padding of all cells. It is never refused.
    fn put_padding(&mut self, padding: Sides<Indent>) -> Result<(), Fault>
        ensures answers { IsOk result }
        ensures look { Self.look self.new ≡ with_padding EveryCell padding (Self.look self.old) }
        ensures colors { Self.colors self.new ≡ Self.colors self.old };

    /// Sets the glyphs of the boundaries.
    fn put_borders(&mut self, borders: Borders<char>)
        ensures look { Self.look self.new ≡ with_borders borders (Self.look self.old) }
        ensures colors { Self.colors self.new ≡ Self.colors self.old };
}

impl FrameSettings for ColoredConfig {
    fn put_margin(&mut self, margin: Sides<Indent>) {
        self.spanned_mut().set_margin(margin);
    }

    fn put_padding(&mut self, padding: Sides<Indent>) -> Result<(), Fault> {
        self.spanned_mut().set_padding(Entity::Global, padding)
    }

    fn put_borders(&mut self, borders: Borders<char>) {
        self.spanned_mut().set_borders(borders);
    }
}

impl FrameSettings for CompactConfig {
    fn put_margin(&mut self, margin: Sides<Indent>) {
        *self = self.set_margin(margin);
    }

    fn put_padding(&mut self, padding: Sides<Indent>) -> Result<(), Fault> {
        *self = self.set_padding(padding);
        Ok(())
    }

    fn put_borders(&mut self, borders: Borders<char>) {
        *self = self.set_borders(borders);
    }
}
