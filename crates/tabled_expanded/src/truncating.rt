//! Tables in expanded form that are cut to a width.
ghost use Rattle.std.specs.Prelude.{◌≡◌, IfErr, IfOk, OnErr, OnOk, map, string_bytes};
ghost use Rattle.grid_config_values.specs.declared.fault.Fault.TheVariants.{Memory};
ghost use Rattle.tabled_expanded.specs.Cutting.{can_be_truncated, cut_of, cut_text, cut_view, truncated};
ghost use Rattle.tabled_expanded.specs.Tables.{expanded, template_of};
ghost use Rattle.tabled_text.specs.Rows.{text_rows};

use crate::lines::widest_text;
use crate::table::ExtendedTable;
use grid_config_values::Fault;
use grid_records_measure::{cut_width, get_line_width};
use std::alloc::{AllocError, Global};

// To how many columns fields, or else values, are cut.
#[derive(Clone, Copy)]
enum FieldsOrValues {
    NoRoom,
    Fields(usize),
    Values(usize),
}

impl<F> ExtendedTable<F> {
    /// Cuts the values to what is left of `max` columns of the terminal beside the widest field, the three columns
    /// of the bar and twice the suffix. Where the fields leave nothing of them, it cuts the fields so, and the values
    /// to nothing. After each text that lost bytes follows `suffix`. Returns false, and changes nothing, where the
    /// suffix does not fit, or not a head with as many digits as the number of all records has: of ten records, whose
    /// heads take 14 columns, none fits 14. Fails only where allocation fails, and then nothing has changed.
    pub fn truncate(&mut self, alloc: Global, max: usize, suffix: &str) -> Result<bool, Fault>
        ensures answer { IfOk result (λ done. done ≡ can_be_truncated max suffix.now (expanded self.old)) }
        ensures cut { OnOk result (expanded self.new ≡ truncated max suffix.now (expanded self.old)) }
        ensures refused { IfErr result (λ fault. fault ≡ Memory) }
        ensures kept { OnErr result (expanded self.new ≡ expanded self.old) }
        ensures template { template_of self.new ≡ template_of self.old }
    {
        let digits = digits_of(alloc, self.records.len())?;
        let width = widest_text(&self.fields);
        match cut_of(width, digits, get_line_width(suffix), max) {
            FieldsOrValues::NoRoom => Ok(false),
            FieldsOrValues::Fields(width) => {
                let records = cut_records(alloc, &self.records, 0, suffix)?;
                self.fields = cut_texts(alloc, &self.fields, width, suffix)?;
                self.records = records;
                Ok(true)
            }
            FieldsOrValues::Values(width) => {
                self.records = cut_records(alloc, &self.records, width, suffix)?;
                Ok(true)
            }
        }
    }
}

ghost use Rattle.std.specs.Prelude.{decimal, length};

// How many digits a number has.
fn digits_of(alloc: Global, number: usize) -> Result<usize, AllocError>
    ensures { IfOk result (λ digits. digits ≡ length (decimal number)) }
{
    Ok(number.to_string(alloc)?.len())
}

// How texts are cut, where the widest field takes `fields` columns, the number of records `digits` digits and
// the suffix `suffix` columns.
fn cut_of(fields: usize, digits: usize, suffix: usize, limit: usize) -> FieldsOrValues
    ensures { cut_view result ≡ cut_of fields digits suffix limit }
{
    if limit < 13 || limit - 13 < digits || limit < suffix {
        return FieldsOrValues::NoRoom;
    }
    let room = limit - suffix;
    if room < 3 {
        return FieldsOrValues::NoRoom;
    }
    let room = room - 3;
    if room < suffix {
        return FieldsOrValues::NoRoom;
    }
    if room < fields {
        return FieldsOrValues::Fields(room - suffix);
    }
    if room - fields < suffix {
        FieldsOrValues::NoRoom
    } else {
        FieldsOrValues::Values(room - fields - suffix)
    }
}

// A text cut to so many columns, with the suffix after it where that took bytes away.
fn cut_text(alloc: Global, text: &str, width: usize, suffix: &str) -> Result<String, AllocError>
    ensures { IfOk result (λ cut. string_bytes cut ≡ cut_text width suffix.now text.now) }
{
    let mut cut = if width == 0 {
        String::new(alloc)
    } else {
        cut_width(alloc, text, width)?.into_owned(alloc)?
    };
    if cut.len() < text.len() {
        cut.push_str(suffix)?;
    }
    Ok(cut)
}

// Several texts cut.
fn cut_texts(
    alloc: Global,
    texts: &Vec<String>,
    width: usize,
    suffix: &str,
) -> Result<Vec<String>, AllocError>
    ensures { IfOk result (λ cut. map string_bytes cut.items ≡ map (cut_text width suffix.now) (map string_bytes texts.now.items)) }
{
    let mut cut = Vec::with_capacity(alloc, texts.len())?;
    for text in texts {
        cut.push(cut_text(alloc, text, width, suffix)?)?;
    }
    Ok(cut)
}

// The texts of several records cut.
fn cut_records(
    alloc: Global,
    records: &Vec<Vec<String>>,
    width: usize,
    suffix: &str,
) -> Result<Vec<Vec<String>>, AllocError>
    ensures { IfOk result (λ cut. text_rows cut.items ≡ map (map (cut_text width suffix.now)) (text_rows records.now.items)) }
{
    let mut cut = Vec::with_capacity(alloc, records.len())?;
    for texts in records {
        cut.push(cut_texts(alloc, texts, width, suffix)?)?;
    }
    Ok(cut)
}
