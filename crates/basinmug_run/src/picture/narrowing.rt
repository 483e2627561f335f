//! A table that is made narrower.
ghost use Rattle.std.specs.Prelude.{◌≡◌, ◌++◌, ◌⊎◌, false, nat_lt, IfErr, IfOk, MatchOption, OnOk};
ghost use Rattle.grid_config_values.specs.declared.fault.Fault.TheVariants.{Memory};
ghost use Rattle.basinmug_run.specs.Picture.TableRows.{state_of};
ghost use Rattle.tabled.specs.Totals.{drawn_width};
ghost use Rattle.tabled_list.specs.Lists.{AreSetters, LeadsThrough};
ghost use Rattle.basinmug_run.specs.Picture.Fitting.{trimmed_if, trims, with_fitted_texts};
ghost use Rattle.basinmug_run.specs.Picture.Narrowing.{IsNotNarrowed, IsRefusedIn, FitsTexts};
ghost use Rattle.basinmug_run.specs.Picture.Pictures.{is_wider, narrowed_to};

use crate::options::Options;
use crate::picture::fitting::{Fitting, fit_texts, size_at};
use crate::picture::rows::is_markdown;
use crate::picture::table_rows::TableRows;
use basinmug_columns::{Need, shrink_columns};
use std::alloc::{AllocError, Global};
use tabled::{Choice, Entity, Fault, Setting, TableOf};

/// Makes a table narrower where a width is requested; a document keeps its own. Returns whether it is wider than
/// requested.
pub(crate) fn narrow_if_asked(
    alloc: Global,
    table: &mut TableOf<TableRows<'_>>,
    needs: &[Need],
    options: &Options,
) -> Result<bool, Fault>
    ensures narrowed { OnOk result (MatchOption (narrowed_to options.now) (state_of table.new ≡ state_of table.old)
        (λ width. FitsTexts options.now.truncate options.now.priority needs.now width (state_of table.old)
        (state_of table.new))) }
    ensures wider { IfOk result (λ wider. wider ≡ is_wider options.now.width (state_of table.new)) }
    ensures refused { IfErr result (λ fault. (fault ≡ Memory)
        ⊎ MatchOption (narrowed_to options.now) ⊥
        (λ width. IsNotNarrowed options.now.truncate options.now.priority needs.now width (state_of table.old) fault)) }
{
    match narrowed_to(options) {
        None => is_wider(table, options.width),
        Some(width) => narrow(
            alloc,
            table,
            needs,
            Narrowing {
                width,
                truncate: options.truncate,
                priority: options.priority,
            },
        ),
    }
}

/// How wide a table may be: a document is never wrapped.
pub(crate) fn narrowed_to(options: &Options) -> Option<usize>
    ensures { result ≡ narrowed_to options.now }
{
    if is_markdown(options.line_style) {
        None
    } else {
        options.width
    }
}

// How a table is made narrower: to this width, in columns, by cutting texts or by wrapping them.
#[derive(Clone, Copy)]
struct Narrowing {
    width: usize,
    truncate: bool,
    priority: Choice,
}

// Makes a table as narrow as is requested, or as far as its columns give. Returns whether it is wider than requested.
fn narrow(
    alloc: Global,
    table: &mut TableOf<TableRows<'_>>,
    needs: &[Need],
    asked: Narrowing,
) -> Result<bool, Fault>
    ensures narrowed { OnOk result (FitsTexts asked.truncate asked.priority needs.now asked.width (state_of table.old) (state_of table.new)) }
    ensures wider { IfOk result (λ wider. wider ≡ nat_lt asked.width (drawn_width (state_of table.new))) }
    ensures refused { IfErr result (λ fault. (fault ≡ Memory) ⊎ IsNotNarrowed asked.truncate asked.priority needs.now asked.width (state_of table.old) fault) }
{
    let total = table.total_width()?;
    if total <= asked.width {
        return Ok(false);
    }
    let widths = table.widths()?;
    let before = widths.as_slice();
    let mut rooms = Vec::from_slice(alloc, before)?;
    shrink_columns(
        alloc,
        &mut rooms,
        needs,
        total - asked.width,
        asked.priority,
    )?;
    let fitting = Fitting {
        widths: before,
        rooms: rooms.as_slice(),
        truncate: asked.truncate,
    };
    fit_columns(alloc, table, &fitting)?;
    is_wider_than(table, asked.width)
}

// Fits the texts of a table to the widths that its columns get, and trims their lines.
fn fit_columns(
    alloc: Global,
    table: &mut TableOf<TableRows<'_>>,
    fitting: &Fitting<'_>,
) -> Result<(), Fault>
    ensures fitted { OnOk result (LeadsThrough (trims fitting.now.truncate fitting.now.widths.now fitting.now.rooms.now)
        (with_fitted_texts fitting.now.truncate fitting.now.widths.now fitting.now.rooms.now (state_of table.old)) (state_of table.new)) }
    ensures refused { IfErr result (λ fault. (fault ≡ Memory) ⊎ IsRefusedIn (trims fitting.now.truncate fitting.now.widths.now fitting.now.rooms.now)
        (with_fitted_texts fitting.now.truncate fitting.now.widths.now fitting.now.rooms.now (state_of table.old)) fault) }
{
    let settings = trims(alloc, fitting)?;
    fit_texts(alloc, table, fitting)?;
    let list = settings.as_slice();
    run_settings(table, list)
}

/// Runs settings on a table. Refused as the first of them that is.
pub(crate) fn run_settings(
    table: &mut TableOf<TableRows<'_>>,
    settings: &[Setting],
) -> Result<(), Fault>
    requires { AreSetters settings.now }
    ensures run { OnOk result (LeadsThrough settings.now (state_of table.old) (state_of table.new)) }
    ensures refused { IfErr result (IsRefusedIn settings.now (state_of table.old)) }
{
    match table.with_setters(settings) {
        Ok(()) => Ok(()),
        Err((_, fault)) => Err(fault),
    }
}

// Whether a table is wider than is requested.
fn is_wider(table: &TableOf<TableRows<'_>>, asked: Option<usize>) -> Result<bool, Fault>
    ensures wider { IfOk result (λ wider. wider ≡ is_wider asked (state_of table.now)) }
    ensures refused { IfErr result (λ fault. fault ≡ Memory) }
{
    match asked {
        None => Ok(false),
        Some(width) => is_wider_than(table, width),
    }
}

// Whether a table is wider than this.
fn is_wider_than(table: &TableOf<TableRows<'_>>, width: usize) -> Result<bool, Fault>
    ensures wider { IfOk result (λ wider. wider ≡ nat_lt width (drawn_width (state_of table.now))) }
    ensures refused { IfErr result (λ fault. fault ≡ Memory) }
{
    match table.total_width() {
        Ok(total) => Ok(width < total),
        Err(Fault::Memory) => Err(Fault::Memory),
        Err(_) => Ok(true),
    }
}

// The settings that trim the lines of the columns whose texts were wrapped.
fn trims(alloc: Global, fitting: &Fitting<'_>) -> Result<Vec<Setting>, AllocError>
    ensures { IfOk result (λ settings. settings.items ≡ trims fitting.now.truncate fitting.now.widths.now fitting.now.rooms.now) }
{
    if fitting.truncate {
        return Ok(Vec::new(alloc));
    }
    wrapped_trims(alloc, fitting.widths, fitting.rooms)
}

// The same where texts are wrapped.
fn wrapped_trims(
    alloc: Global,
    widths: &[usize],
    rooms: &[usize],
) -> Result<Vec<Setting>, AllocError>
    ensures { IfOk result (λ settings. settings.items ≡ trims false widths.now rooms.now) }
{
    let mut settings = Vec::new(alloc);
    for column in 0..widths.len() {
        let is_wrapped = size_at(rooms, column) < size_at(widths, column);
        push_trims_if(&mut settings, is_wrapped, column)?;
    }
    Ok(settings)
}

// The settings that trim the lines of a column, if its texts were wrapped.
fn push_trims_if(
    settings: &mut Vec<Setting>,
    is_wrapped: bool,
    column: usize,
) -> Result<(), AllocError>
    ensures { OnOk result (settings.new.items ≡ settings.old.items ++ trimmed_if is_wrapped column) }
{
    if is_wrapped {
        let at = Entity::Column(column);
        settings.push(Setting::TrimHorizontal(at, true))?;
        settings.push(Setting::LineAlignment(at, true))?;
    }
    Ok(())
}
