//! What a file's name says of its text.
ghost use Rattle.std.specs.Prelude.{◌≡◌, option_copied};
ghost use Rattle.basinmug_delimiter.specs.Names.{is_name_of_tabs, means_tab};

// The endings of files of tab-separated values.
const TSV: &[u8] = b".tsv";

const TAB: &[u8] = b".tab";

/// Whether there is a name that says that tabs separate fields.
pub(crate) fn means_tab(file: Option<&str>) -> bool
    ensures { result ≡ means_tab (option_copied file.entry) }
{
    match file {
        Some(name) => is_name_of_tabs(name.as_bytes()),
        None => false,
    }
}

// Whether a name ends in `.tsv` or `.tab`, in letters of either case.
fn is_name_of_tabs(name: &[u8]) -> bool
    ensures { result ≡ is_name_of_tabs name.now }
{
    let ending = &name[name.len().saturating_sub(4)..];
    ending.eq_ignore_ascii_case(TSV) || ending.eq_ignore_ascii_case(TAB)
}
