//! Texts escaped and rows made by hand. The functions do nothing.
ghost use Rattle.std.specs.Prelude.{◌≡◌, ◌∷◌, ◌++◌, [], codes};
ghost use Rattle.std.specs.Prelude.{false, true};
ghost use Rattle.grid_config_values.specs.declared.alignment.AlignmentHorizontal.TheVariants.{Left, Center, Right};
ghost use Rattle.basinmug_columns.specs.Markdown.Documents.{delimiter_row, with_header};
ghost use Rattle.basinmug_columns.specs.Markdown.Escapes.{in_markdown};

/// Each kind of escape, and what stays: a bar in a sequence, as that of a link's address, does.
pub fn escapes_by_hand()
    ensures nothing { in_markdown [] ≡ [] }
    ensures plain { in_markdown (codes "a b<c") ≡ codes "a b<c" }
    ensures bar { in_markdown (codes "a|b") ≡ codes "a\\|b" }
    ensures backslash { in_markdown (codes "c\\d") ≡ codes "c\\\\d" }
    ensures both { in_markdown (codes "\\|") ≡ codes "\\\\\\|" }
    ensures lines { in_markdown (codes "two\nlines\n") ≡ codes "two<br>lines<br>" }
    ensures sequence { in_markdown (0x1b ∷ codes "]8;;a|b" ++ 0x07 ∷ codes "c|d") ≡ 0x1b ∷ codes "]8;;a|b" ++ 0x07 ∷ codes "c\\|d" }
    ensures past_ascii { in_markdown (0xe6 ∷ 0xbc ∷ 0xa2 ∷ codes "|") ≡ 0xe6 ∷ 0xbc ∷ 0xa2 ∷ codes "\\|" }
{}

/// A header of its own or an empty one, and the delimiters of columns of these widths.
pub fn documents_by_hand()
    ensures own_header { with_header true ((codes "a" ∷ []) ∷ (codes "1" ∷ []) ∷ []) ≡ (codes "a" ∷ []) ∷ (codes "1" ∷ []) ∷ [] }
    ensures empty_header { with_header false ((codes "1" ∷ []) ∷ []) ≡ [] ∷ (codes "1" ∷ []) ∷ [] }
    ensures no_rows { with_header false [] ≡ [] }
    ensures left { delimiter_row (Left ∷ []) (6 ∷ []) ≡ codes "|:-----|\n" }
    ensures center { delimiter_row (Center ∷ []) (6 ∷ []) ≡ codes "|:----:|\n" }
    ensures right { delimiter_row (Right ∷ []) (6 ∷ []) ≡ codes "|-----:|\n" }
    ensures columns { delimiter_row (Left ∷ Right ∷ Center ∷ []) (6 ∷ 4 ∷ 5 ∷ []) ≡ codes "|:-----|---:|:---:|\n" }
    ensures narrow { delimiter_row (Left ∷ Center ∷ Right ∷ []) (2 ∷ 2 ∷ 0 ∷ []) ≡ codes "|:-|:-:|-:|\n" }
    ensures unnamed { delimiter_row (Right ∷ []) (4 ∷ 4 ∷ []) ≡ codes "|---:|:---|\n" }
    ensures no_columns { delimiter_row (Right ∷ []) [] ≡ [] }
{}
