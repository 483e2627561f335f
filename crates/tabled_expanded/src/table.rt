//! Tables in expanded form.
ghost use Rattle.std.specs.Iterator.{Drains, IsFinite};
ghost use Rattle.std.specs.Prelude.{◌≡◌, IfErr, IfOk, List, map, string_bytes};
ghost use Rattle.grid_config_values.specs.declared.fault.Fault.TheVariants.{Memory};
ghost use Rattle.tabled_expanded.specs.Escapes.{escaped};
ghost use Rattle.tabled_expanded.specs.Expanded.{escaped_table, table_of_rows};
ghost use Rattle.tabled_expanded.specs.Tables.{expanded, template_of};
ghost use Rattle.tabled_text.specs.Rows.{text_rows};

use crate::escaping::escaped_texts;
use crate::given::Given;
use crate::template::RecordNumber;
use grid_config_values::Fault;
use std::alloc::{AllocError, Global};
use tabled_text::Tabled;

/// Records in expanded form: the names of the fields, the values of each record, and what gives the heads.
#[derive(Drop)]
pub struct ExtendedTable<F = RecordNumber> {
    pub(crate) fields: Vec<String>,
    pub(crate) records: Vec<Vec<String>>,
    pub(crate) template: F,
}

impl ExtendedTable<RecordNumber> {
    /// A record for each value, of its fields under their names, provided that the values end. Controls,
    /// quotes and backslashes are escaped. Fails only where allocation fails.
    pub fn new<T: Tabled + Drop, I: IntoIterator<Item = T> + Drop>(
        alloc: Global,
        items: I,
    ) -> Result<ExtendedTable<RecordNumber>, Fault>
    where
        I::IntoIter: Drop,
        requires { (s : I.IntoIter) → I.into_iter_gives items s → I.IntoIter.can_next s × IsFinite (I.IntoIter.remaining s) }
        ensures table { IfOk result (λ table. (s : I.IntoIter) × (taken : List T) × I.into_iter_gives items s
            × Drains I.IntoIter.next_gives s taken × (expanded table ≡ escaped_table T.names (map T.texts taken))) }
        ensures refused { IfErr result (λ fault. fault ≡ Memory) }
    {
        let fields = escaped_texts(alloc, T::headers(alloc)?)?;
        let records = records_of::<T, I>(alloc, items)?;
        Ok(ExtendedTable {
            fields,
            records,
            template: RecordNumber,
        })
    }
}

// The fields of each value, escaped.
fn records_of<T: Tabled + Drop, I: IntoIterator<Item = T> + Drop>(
    alloc: Global,
    items: I,
) -> Result<Vec<Vec<String>>, AllocError>
where
    I::IntoIter: Drop,
    requires { (s : I.IntoIter) → I.into_iter_gives items s → I.IntoIter.can_next s × IsFinite (I.IntoIter.remaining s) }
    ensures { IfOk result (λ out. (s : I.IntoIter) × (taken : List T) × I.into_iter_gives items s × Drains I.IntoIter.next_gives s taken
        × (text_rows out.items ≡ map (map escaped) (map T.texts taken))) }
{
    let mut records = Vec::new(alloc);
    for item in items {
        records.push(values_of(alloc, &item)?)?;
    }
    Ok(records)
}

// The fields of a value, escaped.
fn values_of<T: Tabled>(alloc: Global, item: &T) -> Result<Vec<String>, AllocError>
    ensures { IfOk result (λ out. map string_bytes out.items ≡ map escaped (T.texts item.now)) }
{
    escaped_texts(alloc, item.fields(alloc)?)
}

/// The first row names the fields, and each other is a record of its values. Nothing is escaped, and nothing is
/// allocated.
impl From<Vec<Vec<String>>> for ExtendedTable<RecordNumber> {
    ghost from_gives = { λ rows table. expanded table ≡ table_of_rows (text_rows rows.items) };

    fn from(rows: Vec<Vec<String>>) -> ExtendedTable<RecordNumber> {
        let mut records = rows;
        let fields = take_first(&mut records);
        ExtendedTable {
            fields,
            records,
            template: RecordNumber,
        }
    }
}

// Takes the first row out, where there is one, and else gives a row without texts.
fn take_first(rows: &mut Vec<Vec<String>>) -> Vec<String>
    ensures { table_of_rows (text_rows rows.old.items) ≡ record { fields = map string_bytes result.items; records = text_rows rows.new.items } }
{
    if rows.is_empty() {
        Vec::new(*rows.allocator())
    } else {
        rows.remove(0)
    }
}

impl<F> ExtendedTable<F> {
    /// The same records, whose heads this function gives, provided that it may be called for each. It takes
    /// the number of the record, which counts from 0. Does not allocate.
    pub fn template<G: Fn(Global, usize) -> Result<String, Fault>>(
        self,
        f: G,
    ) -> ExtendedTable<Given<G>>
    where
        F: Drop,
        requires { G.IsAlwaysCallable f }
        ensures texts { expanded result ≡ expanded self }
        ensures template { template_of result ≡ f }
        ensures callable { G.IsAlwaysCallable (template_of result) }
    {
        ExtendedTable {
            fields: self.fields,
            records: self.records,
            template: Given::new(f),
        }
    }
}

impl<F: Clone> ExtendedTable<F> {
    /// The same table again, in memory of its own, with a clone of what gives the heads. Fails only where
    /// allocation fails, or where that clone does.
    pub fn clone(&self, alloc: Global) -> Result<ExtendedTable<F>, AllocError>
        ensures texts { IfOk result (λ copy. expanded copy ≡ expanded self.now) }
        ensures template { IfOk result (λ copy. F.is_clone (template_of self.now) (template_of copy)) }
    {
        let template = self.template.clone()?;
        Ok(ExtendedTable {
            fields: copied_texts(alloc, &self.fields)?,
            records: copied_rows(alloc, &self.records)?,
            template,
        })
    }
}

// These texts again.
fn copied_texts(alloc: Global, texts: &Vec<String>) -> Result<Vec<String>, AllocError>
    ensures { IfOk result (λ out. map string_bytes out.items ≡ map string_bytes texts.now.items) }
{
    let mut out = Vec::with_capacity(alloc, texts.len())?;
    for text in texts {
        out.push(text.as_str().to_string(alloc)?)?;
    }
    Ok(out)
}

// These rows again.
fn copied_rows(alloc: Global, rows: &Vec<Vec<String>>) -> Result<Vec<Vec<String>>, AllocError>
    ensures { IfOk result (λ out. text_rows out.items ≡ text_rows rows.now.items) }
{
    let mut out = Vec::with_capacity(alloc, rows.len())?;
    for row in rows {
        out.push(copied_texts(alloc, row)?)?;
    }
    Ok(out)
}
