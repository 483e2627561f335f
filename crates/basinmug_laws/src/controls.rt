//! What is written of a text shows no control character, and its sequences are those of colours: a text from a
//! stranger can colour its cells, and nothing else. Laws alone.
ghost use Rattle.std.specs.Io.KnownBytes.{Appends};
ghost use Rattle.std.specs.Prelude.{◌≡◌, ◌≢◌, ◌⊎◌, ◌∷◌, [], ℕ, IfOk, List, OnErr, Option, Result, codes, false, true};
ghost use Rattle.tables_laws.specs.Shown.PlainEnds.{EndsLinesPlain};
ghost use Rattle.program_options.specs.ColorList.Names.{color_of_texts};
ghost use Rattle.basinmug_input.specs.Cleaning.{HasOnly, cleaned, may_stand};
ghost use Rattle.basinmug_input.specs.Flaws.{IsReadableField};
ghost use Rattle.basinmug_input.specs.Renditions.{is_kept_rendition};
ghost use Rattle.program_options.specs.declared.basinmug.ColumnName.TheVariants.{Number};
ghost use Rattle.program_options.specs.declared.basinmug.Escapes.{Escapes as Chosen};
ghost use Rattle.program_options.specs.declared.basinmug.Escapes.TheVariants.{All as AllEscapes, Colors, None as NoEscapes};
ghost use Rattle.basinmug_run.specs.declared.options.Options.{Options as Asked};
ghost use Rattle.basinmug_run.specs.declared.picture.printing.Printed.{Printed as Answered};
ghost use Rattle.basinmug_run.specs.declared.fault.RunFault.{RunFault as Fault};
ghost use Rattle.basinmug_laws.specs.Controls.ControlTexts.{ShowsNoControls};
ghost use Rattle.basinmug_laws.specs.Controls.Written.{BeginsOnly, HaveNamedColors, WritesOnly, is_put_in, may_be_written};
ghost use Rattle.basinmug_laws.specs.Shown.ClosingOptions.{HaveClosingColors};
ghost use Rattle.basinmug_laws.specs.Shown.RunsShown.{IsRunOf};

/// Where not all escapes take effect, what a run writes in a box or as a document shows no control character but line
/// feeds: each ESC of it begins a whole sequence, and no line ends with a style open. So is each field that is
/// cleaned.
pub fn what_is_written_shows_no_controls()
    ensures fields { (escapes : Chosen) (field : List ℕ) → escapes ≢ AllEscapes → IsReadableField escapes field → ShowsNoControls (cleaned escapes field) }
    ensures runs { (delimiter : ℕ) (bytes : List ℕ) (options : Asked) (result : Result Answered Fault) (before after : Option (List ℕ)) → IsRunOf delimiter bytes options result before after →
        options.expanded ≡ false → options.escapes ≢ AllEscapes → HaveClosingColors options →
        IfOk result (λ printed. (output : List ℕ) × Appends before after output × EndsLinesPlain output × ShowsNoControls output) }
{}

/// Where not all escapes take effect, an ESC of what a run writes is nowhere but where a sequence begins that is
/// allowed, and no control character but line feeds is written; no line ends with a style open. A run that fails has
/// written nothing, or a prefix of such a text. Under `Colors` the sequences are those of SELECT GRAPHIC RENDITION
/// that do nothing but set and clear what the table of codes has, and conceal nothing. Under `None` they are those
/// that the colours of the columns put in. Records one below the other have no sequence that their texts do not have,
/// or that opens or ends one of their styles: under `None` they have none. The colours are those that have names.
pub fn what_is_written_has_allowed_sequences()
    ensures colors { (delimiter : ℕ) (bytes : List ℕ) (options : Asked) (result : Result Answered Fault) (before after : Option (List ℕ)) → IsRunOf delimiter bytes options result before after →
        options.escapes ≡ Colors → HaveNamedColors options → IfOk result (λ printed. WritesOnly is_kept_rendition before after) }
    ensures none { (delimiter : ℕ) (bytes : List ℕ) (options : Asked) (result : Result Answered Fault) (before after : Option (List ℕ)) → IsRunOf delimiter bytes options result before after →
        options.escapes ≡ NoEscapes → HaveNamedColors options → IfOk result (λ printed. WritesOnly (is_put_in options.colors.items) before after) }
    ensures records { (delimiter : ℕ) (bytes : List ℕ) (options : Asked) (result : Result Answered Fault) (before after : Option (List ℕ)) → IsRunOf delimiter bytes options result before after →
        options.expanded ≡ true → options.escapes ≢ AllEscapes → IfOk result (λ printed. WritesOnly (may_stand options.escapes) before after) }
    ensures begun { (delimiter : ℕ) (bytes : List ℕ) (options : Asked) (result : Result Answered Fault) (before after : Option (List ℕ)) → IsRunOf delimiter bytes options result before after →
        options.escapes ≢ AllEscapes → HaveNamedColors options → OnErr result ((after ≡ before) ⊎ BeginsOnly (may_be_written options.escapes options.colors.items) before after) }
{}

/// Texts of allowed sequences and of others, and what the colour of a column puts in.
pub fn allowed_sequences_by_hand()
    ensures red { is_put_in ((Number 1, color_of_texts (codes "\u{1b}[31m") (codes "\u{1b}[39m")) ∷ []) (codes "\u{1b}[31m") ≡ true }
    ensures red_ends { is_put_in ((Number 1, color_of_texts (codes "\u{1b}[31m") (codes "\u{1b}[39m")) ∷ []) (codes "\u{1b}[39m") ≡ true }
    ensures green { is_put_in ((Number 1, color_of_texts (codes "\u{1b}[31m") (codes "\u{1b}[39m")) ∷ []) (codes "\u{1b}[32m") ≡ false }
    ensures colored { HasOnly is_kept_rendition (codes "\u{1b}[31ma\u{1b}[39m\n") }
    ensures title { ¬ (HasOnly is_kept_rendition (codes "\u{1b}]0;a\u{7}")) }
    ensures cleared { ¬ (HasOnly is_kept_rendition (codes "a\u{1b}[2J")) }
    ensures concealed { ¬ (HasOnly is_kept_rendition (codes "\u{1b}[8ma\u{1b}[0m")) }
    ensures uncolored { ¬ (HasOnly (is_put_in []) (codes "\u{1b}[31ma")) }
{}
