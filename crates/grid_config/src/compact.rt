//! The settings of a table whose cells are all alike.
use crate::colors::ANSIStr;
use grid_config_values::{AlignmentHorizontal, Borders, Indent, Sides};

/// The settings of a table whose cells are all alike. They are a value: a call that sets one gives
/// the settings with it. No call allocates.
#[derive(Clone, Copy, Debug, PartialEq, Eq, PartialOrd, Ord, Hash)]
pub struct CompactConfig {
    margin: Sides<Indent>,
    borders: Borders<char>,
    padding: Sides<Indent>,
    alignment_horizontal: AlignmentHorizontal,
    margin_color: Sides<ANSIStr<'static>>,
    borders_color: Borders<ANSIStr<'static>>,
    padding_color: Sides<ANSIStr<'static>>,
}

impl CompactConfig {
    ghost use Rattle.std.specs.Prelude.{◌≡◌};
    ghost use Rattle.grid_config.specs.Compact.{border_colors, compact_of, new_compact, side_colors};

    /// No glyph, margin and padding 0, texts at the left, no colour.
    pub const fn new() -> CompactConfig
        ensures { compact_of result ≡ new_compact }
    {
        let indent = Indent::zero();
        let color = ANSIStr::empty();
        CompactConfig {
            margin: Sides::new(indent, indent, indent, indent),
            borders: Borders::empty(),
            padding: Sides::new(indent, indent, indent, indent),
            alignment_horizontal: AlignmentHorizontal::Left,
            margin_color: Sides::new(color, color, color, color),
            borders_color: Borders::empty(),
            padding_color: Sides::new(color, color, color, color),
        }
    }

    /// These settings with another value for the margin around the table.
    pub const fn set_margin(self, value: Sides<Indent>) -> CompactConfig
        ensures { compact_of result ≡ record (compact_of self) { margin = value } }
    {
        CompactConfig {
            margin: value,
            ..self
        }
    }

    /// The margin around the table: columns at the left and right, lines at the top and bottom.
    pub const fn get_margin(&self) -> &Sides<Indent>
        ensures { result.now ≡ (compact_of self.now).margin }
    {
        &self.margin
    }

    /// These settings with another value for the glyphs of the table's boundaries.
    pub const fn set_borders(self, value: Borders<char>) -> CompactConfig
        ensures { compact_of result ≡ record (compact_of self) { borders = value } }
    {
        CompactConfig {
            borders: value,
            ..self
        }
    }

    /// The glyphs of the table's boundaries.
    pub const fn get_borders(&self) -> &Borders<char>
        ensures { result.now ≡ (compact_of self.now).borders }
    {
        &self.borders
    }

    /// These settings with another value for the padding of every cell.
    pub const fn set_padding(self, value: Sides<Indent>) -> CompactConfig
        ensures { compact_of result ≡ record (compact_of self) { padding = value } }
    {
        CompactConfig {
            padding: value,
            ..self
        }
    }

    /// The padding of every cell: columns at the left and right, lines at the top and bottom.
    pub const fn get_padding(&self) -> &Sides<Indent>
        ensures { result.now ≡ (compact_of self.now).padding }
    {
        &self.padding
    }

    /// These settings with another alignment: where texts are between their left and right padding.
    pub const fn set_alignment_horizontal(self, value: AlignmentHorizontal) -> CompactConfig
        ensures { compact_of result ≡ record (compact_of self) { alignment_horizontal = value } }
    {
        CompactConfig {
            alignment_horizontal: value,
            ..self
        }
    }

    /// Where texts are between their left and right padding.
    pub const fn get_alignment_horizontal(&self) -> AlignmentHorizontal
        ensures { result ≡ (compact_of self.now).alignment_horizontal }
    {
        self.alignment_horizontal
    }

    /// These settings with another value for the colours of the margin, none where a colour is empty.
    pub const fn set_margin_color(self, value: Sides<ANSIStr<'static>>) -> CompactConfig
        ensures { compact_of result ≡ record (compact_of self) { margin_color = side_colors value.entry } }
    {
        CompactConfig {
            margin_color: value,
            ..self
        }
    }

    /// The colours of the margin, none where a colour is empty.
    pub const fn get_margin_color(&self) -> &Sides<ANSIStr<'static>>
        ensures { side_colors result.now ≡ (compact_of self.now).margin_color }
    {
        &self.margin_color
    }

    /// These settings with another value for the colours of the glyphs.
    pub const fn set_borders_color(self, value: Borders<ANSIStr<'static>>) -> CompactConfig
        ensures { compact_of result ≡ record (compact_of self) { borders_color = border_colors value.entry } }
    {
        CompactConfig {
            borders_color: value,
            ..self
        }
    }

    /// The colours of the glyphs of the table's boundaries.
    pub const fn get_borders_color(&self) -> &Borders<ANSIStr<'static>>
        ensures { border_colors result.now ≡ (compact_of self.now).borders_color }
    {
        &self.borders_color
    }

    /// These settings with another value for the colours of the padding, none where a colour is empty.
    pub const fn set_padding_color(self, value: Sides<ANSIStr<'static>>) -> CompactConfig
        ensures { compact_of result ≡ record (compact_of self) { padding_color = side_colors value.entry } }
    {
        CompactConfig {
            padding_color: value,
            ..self
        }
    }

    /// The colours of the padding, none where a colour is empty.
    pub const fn get_padding_color(&self) -> &Sides<ANSIStr<'static>>
        ensures { side_colors result.now ≡ (compact_of self.now).padding_color }
    {
        &self.padding_color
    }
}
