//! Tables of nested boxes: no line of them ends with a style open. Laws, and the calls that they are about.
ghost use Rattle.std.specs.Prelude.{◌≡◌, ◌<◌, ℕ, All, IfOk, List, codes, length, string_bytes};
ghost use Rattle.ansi_str.specs.Lines.{IsClosedLine};
ghost use Rattle.grid_records_measure.specs.TextLines.{text_lines};
ghost use Rattle.papergrid_picture.specs.Shown.{AreWholeTexts};
ghost use Rattle.tabled_pool.specs.Boxes.Values.{Nesting, Text, Beside, Stacked, NoMore, Member};
ghost use Rattle.tabled_pool.specs.Pools.{Pool, begun, look_of_pool, pool_of, rows_nesting, text_of};
ghost use Rattle.tables_laws.specs.Pools.PoolLines.{pool_lines};
ghost use Rattle.tables_laws.specs.Pools.WholeNestings.{IsWholeNesting};
ghost use Rattle.tables_laws.specs.Shown.ClosingLooks.{IsClosingLook};
ghost use Rattle.tables_laws.specs.Shown.PlainEnds.{EndsLinesPlain};

use grid_config::Fault;
use grid_records_traits::IntoRecords;
use std::alloc::Global;
use tabled_pool::PoolTable;

/// No style is open where a line of the text of nested boxes ends, and the last one ends the text. All texts of the
/// nesting are whole, no glyph or fill is a control character, and each colour closes. The lines of such a text,
/// separated at the line feeds that it shows, are those of the pool with its margin, from the first to the last. Each
/// of them is closed.
pub fn pools_end_their_lines_plain()
    ensures plain { (pool : Pool) → IsClosingLook (look_of_pool pool) → IsWholeNesting pool.nesting → EndsLinesPlain (text_of pool) }
    ensures closed { (pool : Pool) → IsClosingLook (look_of_pool pool) → IsWholeNesting pool.nesting → All IsClosedLine (pool_lines pool) }
    ensures lines { (pool : Pool) → IsClosingLook (look_of_pool pool) → IsWholeNesting pool.nesting → 0 < length (text_of pool) →
        text_lines (text_of pool) ≡ pool_lines pool }
{}

/// The look of a pool that no call has changed yet is closing, and the nesting of rows of whole texts is whole.
pub fn new_pools_are_closing()
    ensures look { (nesting : Nesting) → IsClosingLook (look_of_pool (begun nesting)) }
    ensures nesting { (rows : List (List (List ℕ))) → AreWholeTexts rows → IsWholeNesting (rows_nesting rows) }
{}

/// A nesting that is whole, and one that isn't, worked out by hand: a broken ESC in a cell of a row in a column.
pub fn whole_nestings_by_hand()
    ensures whole { IsWholeNesting (Stacked (Member (Beside (Member (Text (codes "a")) (Member (Beside NoMore) NoMore))) NoMore)) }
    ensures broken { ¬ (IsWholeNesting (Stacked (Member (Beside (Member (Text (codes "a")) (Member (Text (codes "\u{1b}")) NoMore))) NoMore))) }
{}

/// The text of a table of nested boxes, as `PoolTable::to_string` gives it: no line of it ends with a style open.
pub fn plain_text(alloc: Global, table: &PoolTable) -> Result<String, Fault>
    ensures { IsClosingLook (look_of_pool (pool_of table.now)) → IsWholeNesting (pool_of table.now).nesting → IfOk result (λ text. EndsLinesPlain (string_bytes text)) }
{
    table.to_string(alloc)
}

/// The text of a new table of rows whose texts are whole: no line of it ends with a style open, whatever styles the
/// texts have.
pub fn plain_text_of_rows<I: IntoRecords>(alloc: Global, rows: I) -> Result<String, Fault>
    ensures { AreWholeTexts (I.RecordTexts.rows rows) → IfOk result (λ text. EndsLinesPlain (string_bytes text)) }
{
    let table = PoolTable::new(alloc, rows)?;
    let text = table.to_string(alloc);
    drop(table);
    text
}
