//! Comma-separated text as a table, in pages of 20 lines with a form feed between each two, as printers
//! accept them: `run` of `columns_run`, between a reader and a writer of this program's own.
use crate::commas::Commas;
use crate::pages::Pages;
use columns_run::{Counted, Options, RunFault, run};

/// Standard input to standard output.
pub(crate) fn paged(rt: &HostRuntime) -> Result<(), RunFault> {
    let options = Options::new(rt.alloc());
    let mut reader = Counted::new(Commas::new(rt.stdin()));
    let mut writer = Counted::new(Pages::new(rt.stdout(), 20));
    run(rt.alloc(), &options, &mut reader, &mut writer)
}
