//! A table as it is shown in a width.
ghost use Rattle.std.specs.Prelude.{◌≡◌, ◌-◌, IfErr, IfOk, string_bytes};
ghost use Rattle.grid_config_values.specs.declared.fault.Fault.TheVariants.{Memory};
ghost use Rattle.grid_config.specs.Looks.{look_of};
ghost use Rattle.tabled.specs.Printing.{FitsOrFails, printed};
ghost use Rattle.tabled.specs.Shown.{aligned_look, fill_or_space as fill_of, lacking_columns as lacks, left_part as left_share, margin_in as margins_in, shown_in, widened as made_wider};
ghost use Rattle.tabled.specs.Tables.{table_state};
ghost use Rattle.tabled.specs.Totals.{drawn_width};

use crate::table_of::TableOf;
use crate::table_records::TableRecords;
use grid_config::{AlignmentHorizontal, Entity, Fault, Indent, Sides, SpannedConfig};

impl<R: TableRecords> TableOf<R> {
    /// The text of the table with this alignment for all cells, and as wide as is requested. What its total lacks
    /// becomes margins of this fill, where `'\0'` counts as a space. These are at its left, with `Right` at its
    /// right, and with `Center` the smaller half is at its left and the rest at its right. The table stays as it
    /// is. Refused as `Spans`, `Range` or `Room`, in this order, as `fits` reports them for the table so shown,
    /// and as `Memory` where allocation fails.
    pub fn to_string_in(
        &self,
        width: Option<usize>,
        align: Option<AlignmentHorizontal>,
        fill: char,
    ) -> Result<String, Fault>
        ensures text { IfOk result (λ text. string_bytes text ≡ printed (shown_in width align fill (table_state R.rows self.now))) }
        ensures table { FitsOrFails (shown_in width align fill (table_state R.rows self.now)) result }
    {
        let config = self.config_in(width, align, fill)?;
        self.text_under(&config)
    }

    // The settings under which it is shown so.
    fn config_in(
        &self,
        width: Option<usize>,
        align: Option<AlignmentHorizontal>,
        fill: char,
    ) -> Result<SpannedConfig, Fault>
        ensures look { IfOk result (λ config. look_of config ≡ (shown_in width align fill (table_state R.rows self.now)).look) }
        ensures refused { IfErr result (λ fault. fault ≡ Memory) }
    {
        let lacking = self.lacking(width)?;
        let mut config = self.config.spanned().clone(self.alloc)?;
        let margin = margin_in(*config.get_margin(), lacking, align, fill);
        config.set_margin(margin);
        align_all(&mut config, align);
        Ok(config)
    }

    // The columns that it lacks of the width.
    fn lacking(&self, width: Option<usize>) -> Result<usize, Fault>
        ensures lacks { IfOk result (λ columns. columns ≡ lacks width (table_state R.rows self.now)) }
        ensures refused { IfErr result (λ fault. fault ≡ Memory) }
    {
        match width {
            Some(width) => self.lacking_of(width),
            None => Ok(0),
        }
    }

    // The columns that it lacks of this width; none where its total passes all widths.
    fn lacking_of(&self, width: usize) -> Result<usize, Fault>
        ensures lacks { IfOk result (λ columns. columns ≡ width - drawn_width (table_state R.rows self.now)) }
        ensures refused { IfErr result (λ fault. fault ≡ Memory) }
    {
        match self.total_width() {
            Ok(total) => Ok(width.saturating_sub(total)),
            Err(Fault::Range) => Ok(0),
            Err(_) => Err(Fault::Memory),
        }
    }
}

// The margins with the columns that are lacking.
fn margin_in(
    margin: Sides<Indent>,
    lacking: usize,
    align: Option<AlignmentHorizontal>,
    fill: char,
) -> Sides<Indent>
    ensures { result ≡ margins_in lacking align fill margin }
{
    if lacking == 0 {
        return margin;
    }
    let fill = fill_or_space(fill);
    let left = left_part(lacking, align);
    let right = lacking.saturating_sub(left);
    Sides::new(
        widened(margin.left, left, fill),
        widened(margin.right, right, fill),
        margin.top,
        margin.bottom,
    )
}

// A fill of no character is a space.
fn fill_or_space(fill: char) -> char
    ensures { result ≡ fill_of fill }
{
    if fill == '\0' { ' ' } else { fill }
}

// How many of the columns are at the left.
fn left_part(columns: usize, align: Option<AlignmentHorizontal>) -> usize
    ensures { result ≡ left_share align columns }
{
    match align {
        None | Some(AlignmentHorizontal::Left) => columns,
        Some(AlignmentHorizontal::Center) => columns / 2,
        Some(AlignmentHorizontal::Right) => 0,
    }
}

// A margin of `more` columns more, with this fill.
fn widened(indent: Indent, more: usize, fill: char) -> Indent
    ensures { result ≡ made_wider more fill indent }
{
    Indent::new(indent.size.saturating_add(more), fill)
}

// Sets the alignment of all cells, where there is one.
fn align_all(config: &mut SpannedConfig, align: Option<AlignmentHorizontal>)
    ensures { look_of config.new ≡ aligned_look align (look_of config.old) }
{
    if let Some(align) = align {
        // for all cells it is never refused
        let _never_refused = config.set_alignment_horizontal(Entity::Global, align);
    }
}
