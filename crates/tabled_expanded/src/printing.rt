//! The text of a table in expanded form.
ghost use Rattle.std.specs.Prelude.{◌≡◌, ◌<◌, ◌≤◌, ◌+◌, ◌^◌, ◌⊎◌, ◌++◌, ℕ, List, Err, IfErr, IfOk, IsOk, OnOk, length, map, string_bytes};
ghost use Rattle.grid_config_values.specs.declared.fault.Fault.TheVariants.{Memory, Range};
ghost use Rattle.tabled_expanded.specs.Expanded.{WidthPassesRange, all_lines, expanded_text, feed_before, joined_lines, widest_text, widest_value};
ghost use Rattle.tabled_expanded.specs.Heads.{AreHeads, IsFaultOfHead};
ghost use Rattle.tabled_expanded.specs.Tables.{expanded, template_of};
ghost use Rattle.tabled_text.specs.Rows.{text_rows};

use crate::lines::{push_record, widest_text, widest_value};
use crate::table::ExtendedTable;
use crate::template::Template;
use grid_config_values::Fault;
use std::alloc::{AllocError, Global};

impl<F: Template> ExtendedTable<F> {
    /// The table as a text, without a line feed at its end; the empty text where there is no record. Its
    /// template can give heads: a `RecordNumber` always, a `Given` if its function may be called. Refused as
    /// `Range` where a line would be wider than `usize::MAX` columns, before a head is requested. Else refused as
    /// the head of the first record whose head is refused. Refused as `Memory` where allocation fails.
    pub fn to_string(&self, alloc: Global) -> Result<String, Fault>
        requires { F.can_give (template_of self.now) }
        ensures text { IfOk result (λ text. (heads : List (List ℕ)) × AreHeads (F.gives (template_of self.now)) heads
            × (length heads ≡ length (expanded self.now).records) × (string_bytes text ≡ expanded_text (expanded self.now) heads)) }
        ensures nothing { length (expanded self.now).records ≡ 0 → IsOk result }
        ensures range { WidthPassesRange (expanded self.now) → result ≡ Err Range }
        ensures refused { IfErr result (λ fault. (fault ≡ Memory) ⊎ ((fault ≡ Range) × WidthPassesRange (expanded self.now))
            ⊎ IsFaultOfHead (F.gives (template_of self.now)) (length (expanded self.now).records) fault) }
    {
        if self.records.is_empty() {
            return Ok(String::new(alloc));
        }
        let widths = widths_of(&self.fields, &self.records)?;
        text_of(alloc, &self.template, widths, &self.fields, &self.records)
    }
}

// The columns of the widest field and of the widest value, where a line of both has no more than `usize::MAX`.
fn widths_of(fields: &[String], records: &[Vec<String>]) -> Result<(usize, usize), Fault>
    ensures widths { IfOk result (λ widths. (widths.0 ≡ widest_text (map string_bytes fields.now)) × (widths.1 ≡ widest_value (text_rows records.now)) × (widths.0 + 3 + widths.1 < 2 ^ 64)) }
    ensures refused { IfErr result (λ fault. (fault ≡ Range) × (2 ^ 64 ≤ widest_text (map string_bytes fields.now) + 3 + widest_value (text_rows records.now))) }
{
    let field_width = widest_text(fields);
    let value_width = widest_value(records);
    match field_width.checked_add(3) {
        Some(bar) if bar.checked_add(value_width).is_some() => Ok((field_width, value_width)),
        _ => Err(Fault::Range),
    }
}

// The text of these records, where the widest field and the widest value take so many columns.
fn text_of<F: Template>(
    alloc: Global,
    template: &F,
    widths: (usize, usize),
    fields: &[String],
    records: &[Vec<String>],
) -> Result<String, Fault>
    requires widths { widths.0 + 3 + widths.1 < 2 ^ 64 }
    requires can { F.can_give template.now }
    ensures text { IfOk result (λ text. (heads : List (List ℕ)) × AreHeads (F.gives template.now) heads
        × (length heads ≡ length records.now)
        × (string_bytes text ≡ joined_lines (all_lines widths.0 widths.1 (map string_bytes fields.now) heads (text_rows records.now)))) }
    ensures refused { IfErr result (λ fault. (fault ≡ Memory) ⊎ IsFaultOfHead (F.gives template.now) (length records.now) fault) }
{
    let mut text = String::new(alloc);
    for (number, values) in records.iter().enumerate() {
        let head = template.head(alloc, number)?;
        push_feed(&mut text, number)?;
        push_record(&mut text, widths, fields, &head, values)?;
    }
    Ok(text)
}

// Appends the line feed before a record, where it is not the first.
fn push_feed(text: &mut String, number: usize) -> Result<(), AllocError>
    ensures { OnOk result (string_bytes text.new ≡ string_bytes text.old ++ feed_before number) }
{
    if number > 0 {
        text.push('\n')?;
    }
    Ok(())
}
