//! Records whose texts can be set.
ghost use Rattle.std.specs.Prelude.{◌≡◌};
ghost use Rattle.grid_records_traits.specs.Rows.{HasCell, with_text};

use crate::rows::records::RecordColumns;
use crate::rows::records::vec_records::Text;
use grid_config_values::Position;

/// Records whose texts can be set.
pub trait RecordsMut: RecordColumns {
    /// Sets the text of the cell at this place, and no other. The column count stays the same. Does not allocate.
    fn set(&mut self, pos: Position, text: Text)
        requires { HasCell (Self.rows self.old) pos }
        ensures text { Self.rows self.new ≡ with_text (Self.rows self.old) pos text }
        ensures columns { Self.columns self.new ≡ Self.columns self.old };
}
