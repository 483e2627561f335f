//! What the table of records shows: no line that is printed ends with a style open. Laws, and the call that they
//! speak of.
//!
//! Laws of what the table of records shows, each the contract of a function that does nothing. `run_of` alone does
//! something: it is `run`, with what the laws need of a run as its contract.
ghost use Rattle.std.specs.Io.KnownBytes.{Appends};
ghost use Rattle.std.specs.Prelude.{◌≡◌, ◌∷◌, ℕ, Bool, IfOk, List, Option, Result, false, true};
ghost use Rattle.papergrid_picture.specs.Shown.{AreWholeTexts, IsWholeText};
ghost use Rattle.tables_laws.specs.Shown.PlainEnds.{EndsLinesPlain};
ghost use Rattle.basinmug_columns.specs.Fitting.Fitting.{cut_lines, wrap_words};
ghost use Rattle.basinmug_input.specs.Cleaning.{cleaned};
ghost use Rattle.basinmug_input.specs.Faults.{IsReadable};
ghost use Rattle.basinmug_input.specs.Flaws.{IsReadableField};
ghost use Rattle.basinmug_input.specs.Reading.{settings};
ghost use Rattle.basinmug_input.specs.Rows.{rows_in, text_of_bytes};
ghost use Rattle.basinmug_columns.specs.Markdown.Escapes.{in_markdown};
ghost use Rattle.program_options.specs.declared.basinmug.Escapes.{Escapes as Chosen};
ghost use Rattle.basinmug_run.specs.declared.options.Options.{Options as Asked};
ghost use Rattle.basinmug_columns.specs.declared.rows.RowsShown.{RowsShown as Which};
ghost use Rattle.basinmug_run.specs.Columns.{missing_in};
ghost use Rattle.basinmug_run.specs.Kept.{kept_of};
ghost use Rattle.basinmug_run.specs.Picture.Printed.{Prints};
ghost use Rattle.basinmug_run.specs.declared.picture.printing.Printed.{Printed as Answered};
ghost use Rattle.basinmug_run.specs.Runs.{PrintsRows, kept_text, shown_text};
ghost use Rattle.basinmug_run.specs.declared.fault.RunFault.{RunFault as Fault};
ghost use Rattle.basinmug_laws.specs.Shown.ClosingOptions.{HaveClosingColors};
ghost use Rattle.basinmug_laws.specs.Shown.Records.{records_cleaned, records_shown, table_in};
ghost use Rattle.basinmug_laws.specs.Shown.RunsShown.{IsOfText, IsOfTextOrName, IsRefusedBy, IsRunOf, ShowsColumns};
ghost use Rattle.tabled_output.specs.Counts.{inner_of};

use basinmug_run::{Counted, Options, Printed, RunFault, run};
use std::alloc::Global;
use std::io::Write;

/// A run, as the laws have it: each call of `run` is such a run, with its own result and what its writer had
/// before and after it. `run`: the records of a text in which the byte `delimiter` separates fields, printed as the
/// options request; whether their table is wider than requested. Refused as `Input` where the text is not readable;
/// as `Print` with the first name that the header lacks, where the table has no text, or where the writer fails; and
/// as `Memory` where allocation fails.
pub fn run_of<W: Write>(
    alloc: Global,
    bytes: &[u8],
    delimiter: u8,
    options: &Options,
    writer: &mut Counted<W>,
) -> Result<Printed, RunFault>
    ensures { IsRunOf delimiter bytes.now options.now result (W.contents (inner_of writer.old)) (W.contents (inner_of writer.new)) }
{
    run(alloc, bytes, delimiter, options, writer)
}

/// One run of a text of records, by what it prints. A text that is not readable is refused by an error
/// of the text; one that lacks columns that are named, by the first of these, or by an error of the text. What is
/// written of any other text shows the picture of its records: as they are read, cleaned, and shown in the widths of
/// their columns, of all of these or of those that are chosen, in a box or as a document. No line ends with a style
/// open; without its styles it is what is printed of the stripped texts; and the lines of the table are even where
/// its texts add up. Records one below the other end their lines plain too, each line of a name or a value its own
/// styles.
pub fn runs_show_their_records()
    ensures unreadable { (delimiter : ℕ) (bytes : List ℕ) (options : Asked) (result : Result Answered Fault) (before after : Option (List ℕ)) → IsRunOf delimiter bytes options result before after →
        ¬ (IsReadable options.escapes (settings delimiter) (text_of_bytes bytes)) → IsRefusedBy IsOfText result }
    ensures unnamed { (delimiter : ℕ) (bytes : List ℕ) (options : Asked) (result : Result Answered Fault) (before after : Option (List ℕ)) → IsRunOf delimiter bytes options result before after →
        (name : List ℕ) (others : List (List ℕ)) → missing_in options (records_cleaned options.escapes delimiter bytes) ≡ name ∷ others →
        IsRefusedBy (IsOfTextOrName name) result }
    ensures shows { (delimiter : ℕ) (bytes : List ℕ) (options : Asked) (result : Result Answered Fault) (before after : Option (List ℕ)) → IsRunOf delimiter bytes options result before after →
        options.expanded ≡ false → HaveClosingColors options →
        IfOk result (λ printed. (output : List ℕ) × Appends before after output × ShowsColumns options (records_cleaned options.escapes delimiter bytes) output) }
    ensures records { (delimiter : ℕ) (bytes : List ℕ) (options : Asked) (result : Result Answered Fault) (before after : Option (List ℕ)) → IsRunOf delimiter bytes options result before after →
        options.expanded ≡ true →
        IfOk result (λ printed. (output : List ℕ) × Appends before after output × (output ≡ kept_text options (kept_of options (records_cleaned options.escapes delimiter bytes))) × EndsLinesPlain output) }
    ensures cells { (options : Asked) (shown : Which) (rows : List (List (List ℕ))) (rooms : Option (List ℕ)) → HaveClosingColors options → (table_in options shown rows rooms).rows ≡ records_shown options shown rows rooms }
{}

/// Whole texts stay whole: a field that is cleaned, a text in Markdown, and one that is cut line by line or wrapped
/// between words. So the rows of a readable text are whole.
pub fn texts_stay_whole()
    ensures cleaned { (escapes : Chosen) (field : List ℕ) → IsReadableField escapes field → IsWholeText (cleaned escapes field) }
    ensures markdown { (text : List ℕ) → IsWholeText text → IsWholeText (in_markdown text) }
    ensures cut { (room : ℕ) (text : List ℕ) → IsWholeText text → IsWholeText (cut_lines room text) }
    ensures wrapped { (room : ℕ) (text : List ℕ) → IsWholeText text → IsWholeText (wrap_words room text) }
    ensures rows { (escapes : Chosen) (delimiter : ℕ) (bytes : List ℕ) → IsReadable escapes (settings delimiter) (text_of_bytes bytes) → AreWholeTexts (rows_in escapes delimiter bytes) }
{}

/// What is printed of whole texts ends no line with a style open: neither a line of the table, nor the delimiter row
/// of a document, nor a line of records one below the other, nor what is below, nor all of it. The colours of the
/// columns close.
pub fn printed_lines_end_plain()
    ensures print { (options : Asked) (rows : List (List (List ℕ))) (wider : Bool) (old new : Option (List ℕ)) → HaveClosingColors options → AreWholeTexts rows →
        Prints options rows wider old new → (text : List ℕ) × Appends old new text × EndsLinesPlain text }
    ensures records { (options : Asked) (shown : Which) (rows : List (List (List ℕ))) → AreWholeTexts rows → EndsLinesPlain (shown_text options shown rows) }
    ensures run { (delimiter : ℕ) (bytes : List ℕ) (options : Asked) (wider : Bool) (old new : Option (List ℕ)) → HaveClosingColors options →
        IsReadable options.escapes (settings delimiter) (text_of_bytes bytes) → PrintsRows options (rows_in options.escapes delimiter bytes) wider old new →
        (text : List ℕ) × Appends old new text × EndsLinesPlain text }
{}
