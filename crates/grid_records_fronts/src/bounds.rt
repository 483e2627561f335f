//! Laws of what texts measure, each the contract of a function that does nothing.
ghost use Rattle.std.specs.Prelude.{◌≡◌, ◌≤◌, ◌+◌, ◌++◌, ◌∷◌, ℕ, List, replicate};
ghost use Rattle.grid_records_measure.specs.Cutting.{replacement};
ghost use Rattle.grid_records_measure.specs.Measures.{line_cost, measure};
ghost use Rattle.grid_records_measure.specs.Tabs.{space};

/// No text measures more than its characters cost one by one.
pub fn no_text_measures_above_its_columns()
    ensures { (characters : List ℕ) → measure characters ≤ line_cost characters }
{}

/// A space takes one column, and the texts before and after it measure what each does alone.
pub fn spaces_part_measures()
    ensures { (before behind : List ℕ) → measure (before ++ space ∷ behind) ≡ measure before + 1 + measure behind }
{}

/// Each U+FFFD at the end of a text takes one column, and the text before them measures what it does alone.
pub fn marks_add_their_columns()
    ensures { (before : List ℕ) (count : ℕ) → measure (before ++ replicate count replacement) ≡ measure before + count }
{}
