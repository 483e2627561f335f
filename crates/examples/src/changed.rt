//! Tables that options change.
use grid_config::Fault;
use tabled::object::{Cell, Columns, Rows};
use tabled::{Alignment, Height, Margin, Padding, Span, Style, Table, Width};

/// In double lines.
pub(crate) fn doubled(table: &mut Table) -> Result<(), Fault> {
    table.set(Style::extended())
}

/// Numbers are aligned to the right, and the names of the columns in the middle.
pub(crate) fn aligned(table: &mut Table) -> Result<(), Fault> {
    table.set_cells(Columns::one(1), &Alignment::right())?;
    table.set_cells(Rows::first(), &Alignment::center())
}

/// Thin lines, and a margin of dots.
pub(crate) fn bordered(table: &mut Table) -> Result<(), Fault> {
    table.set(Style::modern())?;
    table.set(Margin::new(2, 2, 1, 0).fill('.', '.', '.', '.'))
}

/// The title is over both columns, with space below it.
pub(crate) fn spanned(table: &mut Table) -> Result<(), Fault> {
    table.set_cells(Cell::new(0, 0), &Span::column(2))?;
    table.set_cells(Cell::new(0, 0), &Padding::new(1, 1, 0, 1))
}

/// The second column is wrapped between words at 17 columns.
pub(crate) fn wrapped(table: &mut Table) -> Result<(), Fault> {
    table.set_cells(Columns::one(1), &Width::wrap(17).keep_words(true))
}

/// Made wider and higher.
pub(crate) fn spread(table: &mut Table) -> Result<(), Fault> {
    table.set(Width::increase(22))?;
    table.set(Height::increase(9))
}
