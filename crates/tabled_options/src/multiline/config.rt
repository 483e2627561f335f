//! The settings of a table of boxes whose cells are all alike.
ghost use Rattle.std.specs.Prelude.{◌≡◌, IfErr, IfOk, IsOk};
ghost use Rattle.grid_config_values.specs.declared.fault.Fault.TheVariants.{Memory};
ghost use Rattle.grid_config.specs.Looks.{look_of};
ghost use Rattle.grid_config.specs.Settings.{IsUncolored};
ghost use Rattle.tabled_options.specs.Multiline.Multiline.{multiline_look};

use grid_config::{
    ANSIStr, AlignmentHorizontal, AlignmentVertical, Borders, CompactConfig, Entity, Fault,
    Formatting, Indent, Sides, SpannedConfig,
};
use std::alloc::Global;

/// The settings of a table whose cells are all alike. They are those of a compact table, where texts of several
/// lines are in their rectangles, and how these lines are laid out. No call allocates.
#[derive(Clone, Copy, Debug, PartialEq, Eq, PartialOrd, Ord)]
pub struct CompactMultilineConfig {
    compact: CompactConfig,
    alignment_vertical: AlignmentVertical,
    formatting: Formatting,
}

impl CompactMultilineConfig {
    ghost use Rattle.grid_config.specs.Compact.{border_colors, compact_of, new_compact, side_colors};
    ghost use Rattle.tabled_options.specs.Multiline.Multiline.{multiline_of, over, with_compact};

    /// No glyph, margin and padding 0, texts at the left and top, no colour, no trim, and each text aligned as
    /// a block.
    pub const fn new() -> CompactMultilineConfig
        ensures { multiline_of result ≡ over new_compact }
    {
        CompactMultilineConfig::from_compact(CompactConfig::new())
    }

    /// These settings of a compact table, texts at the top, no trim, and each text aligned as a block.
    pub const fn from_compact(c: CompactConfig) -> CompactMultilineConfig
        ensures { multiline_of result ≡ over (compact_of c) }
    {
        CompactMultilineConfig {
            compact: c,
            alignment_vertical: AlignmentVertical::Top,
            formatting: Formatting::new(false, false, false),
        }
    }

    /// The same settings for every cell of a table, for which it allocates. Fails only where allocation fails,
    /// and never where no colour has a text.
    pub fn into_spanned_config(self, alloc: Global) -> Result<SpannedConfig, Fault>
        ensures settings { IfOk result (λ config. look_of config ≡ multiline_look (multiline_of self)) }
        ensures answers { IsUncolored (multiline_of self).compact → IsOk result }
        ensures refused { IfErr result (λ fault. fault ≡ Memory) }
    {
        let config = SpannedConfig::from_compact_config(alloc, self.compact)?;
        Ok(laid_out(config, self.alignment_vertical, self.formatting))
    }

    /// Sets the margin round the table.
    pub fn set_margin(&mut self, value: Sides<Indent>)
        ensures { multiline_of self.new ≡ with_compact (λ c. record c { margin = value }) (multiline_of self.old) }
    {
        self.compact = self.compact.set_margin(value);
    }

    /// The margin round the table: columns at the left and right, lines at the top and bottom.
    pub const fn get_margin(&self) -> &Sides<Indent>
        ensures { result.now ≡ (multiline_of self.now).compact.margin }
    {
        self.compact.get_margin()
    }

    /// Sets the padding of every cell.
    pub fn set_padding(&mut self, value: Sides<Indent>)
        ensures { multiline_of self.new ≡ with_compact (λ c. record c { padding = value }) (multiline_of self.old) }
    {
        self.compact = self.compact.set_padding(value);
    }

    /// The padding of every cell: columns at the left and right, lines at the top and bottom.
    pub const fn get_padding(&self) -> &Sides<Indent>
        ensures { result.now ≡ (multiline_of self.now).compact.padding }
    {
        self.compact.get_padding()
    }

    /// Sets the glyphs of the boundaries.
    pub fn set_borders(&mut self, value: Borders<char>)
        ensures { multiline_of self.new ≡ with_compact (λ c. record c { borders = value }) (multiline_of self.old) }
    {
        self.compact = self.compact.set_borders(value);
    }

    /// The glyphs of the boundaries.
    pub const fn get_borders(&self) -> &Borders<char>
        ensures { result.now ≡ (multiline_of self.now).compact.borders }
    {
        self.compact.get_borders()
    }

    /// Sets the colours of the glyphs.
    pub fn set_borders_color(&mut self, value: Borders<ANSIStr<'static>>)
        ensures { multiline_of self.new ≡ with_compact (λ c. record c { borders_color = border_colors value.entry }) (multiline_of self.old) }
    {
        self.compact = self.compact.set_borders_color(value);
    }

    /// The colours of the glyphs.
    pub const fn get_borders_color(&self) -> &Borders<ANSIStr<'static>>
        ensures { border_colors result.now ≡ (multiline_of self.now).compact.borders_color }
    {
        self.compact.get_borders_color()
    }

    /// Sets the colours of the margin, none where a colour is empty.
    pub fn set_margin_color(&mut self, value: Sides<ANSIStr<'static>>)
        ensures { multiline_of self.new ≡ with_compact (λ c. record c { margin_color = side_colors value.entry }) (multiline_of self.old) }
    {
        self.compact = self.compact.set_margin_color(value);
    }

    /// The colours of the margin, none where a colour is empty.
    pub const fn get_margin_color(&self) -> &Sides<ANSIStr<'static>>
        ensures { side_colors result.now ≡ (multiline_of self.now).compact.margin_color }
    {
        self.compact.get_margin_color()
    }

    /// Sets the colours of the padding, none where a colour is empty.
    pub fn set_padding_color(&mut self, value: Sides<ANSIStr<'static>>)
        ensures { multiline_of self.new ≡ with_compact (λ c. record c { padding_color = side_colors value.entry }) (multiline_of self.old) }
    {
        self.compact = self.compact.set_padding_color(value);
    }

    /// The colours of the padding, none where a colour is empty.
    pub const fn get_padding_color(&self) -> &Sides<ANSIStr<'static>>
        ensures { side_colors result.now ≡ (multiline_of self.now).compact.padding_color }
    {
        self.compact.get_padding_color()
    }

    /// Sets where texts are between their left and right padding.
    pub fn set_alignment_horizontal(&mut self, value: AlignmentHorizontal)
        ensures { multiline_of self.new ≡ with_compact (λ c. record c { alignment_horizontal = value }) (multiline_of self.old) }
    {
        self.compact = self.compact.set_alignment_horizontal(value);
    }

    /// Where texts are between their left and right padding.
    pub const fn get_alignment_horizontal(&self) -> AlignmentHorizontal
        ensures { result ≡ (multiline_of self.now).compact.alignment_horizontal }
    {
        self.compact.get_alignment_horizontal()
    }

    /// Sets where texts are between the top and the bottom of their rectangles.
    pub fn set_alignment_vertical(&mut self, value: AlignmentVertical)
        ensures { multiline_of self.new ≡ record (multiline_of self.old) { alignment_vertical = value } }
    {
        self.alignment_vertical = value;
    }

    /// Where texts are between the top and the bottom of their rectangles.
    pub const fn get_alignment_vertical(&self) -> AlignmentVertical
        ensures { result ≡ (multiline_of self.now).alignment_vertical }
    {
        self.alignment_vertical
    }

    /// Sets how the lines of a text are laid out. A pool reads only how they are aligned, and trims nothing.
    pub fn set_formatting(&mut self, value: Formatting)
        ensures { multiline_of self.new ≡ record (multiline_of self.old) { formatting = value } }
    {
        self.formatting = value;
    }

    /// How the lines of a text are laid out.
    pub const fn get_formatting(&self) -> Formatting
        ensures { result ≡ (multiline_of self.now).formatting }
    {
        self.formatting
    }
}

// The settings with this alignment and these trims in every cell.
fn laid_out(
    config: SpannedConfig,
    vertical: AlignmentVertical,
    formatting: Formatting,
) -> SpannedConfig
    ensures { look_of result ≡ record (look_of config) {
      alignment_vertical = λ _. vertical;
      line_alignment = λ _. formatting.allow_lines_alignment;
      trim_horizontal = λ _. formatting.horizontal_trim;
      trim_vertical = λ _. formatting.vertical_trim;
    } }
{
    let mut config = config;
    // for all cells none is refused
    let _aligned = config.set_alignment_vertical(Entity::Global, vertical);
    let _lines = config.set_line_alignment(Entity::Global, formatting.allow_lines_alignment);
    let _sides = config.set_trim_horizontal(Entity::Global, formatting.horizontal_trim);
    let _ends = config.set_trim_vertical(Entity::Global, formatting.vertical_trim);
    config
}

/// The settings of `new`.
impl Default for CompactMultilineConfig {
    ghost use Rattle.grid_config.specs.Compact.{new_compact};
    ghost use Rattle.tabled_options.specs.Multiline.Multiline.{multiline_of, over};

    ghost is_default = { λ config. multiline_of config ≡ over new_compact };

    fn default() -> CompactMultilineConfig {
        CompactMultilineConfig::new()
    }
}

/// The settings of `from_compact`.
impl From<CompactConfig> for CompactMultilineConfig {
    ghost use Rattle.grid_config.specs.Compact.{compact_of};
    ghost use Rattle.tabled_options.specs.Multiline.Multiline.{multiline_of, over};

    ghost from_gives = { λ c config. multiline_of config ≡ over (compact_of c) };

    fn from(c: CompactConfig) -> CompactMultilineConfig {
        CompactMultilineConfig::from_compact(c)
    }
}

/// The settings of a compact table, without where texts are between top and bottom and how their lines are laid out.
impl From<CompactMultilineConfig> for CompactConfig {
    ghost use Rattle.grid_config.specs.Compact.{compact_of};
    ghost use Rattle.tabled_options.specs.Multiline.Multiline.{multiline_of};

    ghost from_gives = { λ config c. compact_of c ≡ (multiline_of config).compact };

    fn from(config: CompactMultilineConfig) -> CompactConfig {
        config.compact
    }
}
