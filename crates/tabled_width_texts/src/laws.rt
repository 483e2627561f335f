//! Laws of the definitions that the contracts cite.
ghost use Rattle.std.specs.Prelude.{◌≡◌, ◌++◌, ℕ, List, map, replicate};
ghost use Rattle.std.specs.Str.{IsUtf8};
ghost use Rattle.ansi_scan.specs.Attributes.{Attributes, plain_attributes};
ghost use Rattle.ansi_scan.specs.Sequences.{Piece, ArePiecesOf, AreWholePiecesOf};
ghost use Rattle.ansi_str.specs.StyledText.{styled};
ghost use Rattle.grid_records_measure.specs.Cutting.{lacking, replacement};
ghost use Rattle.tabled_size_wrap.specs.Bytes.{cut_at};
ghost use Rattle.tabled_size_wrap.specs.Fronts.{IsFrontOf};
ghost use Rattle.tabled_width_texts.specs.Cutting.{kept_characters};

/// What a cut keeps of a text is the longest prefix that fits of the characters that the text shows, whatever walk
/// finds it. No other prefix is. (A suffix has the style of the last character that is kept.) The cut of a whole
/// text shows this prefix, each character in its style. Then comes U+FFFD in the plain style in the columns that
/// are lacking.
pub fn what_is_kept_is_the_longest_front()
    ensures meets { (width : ℕ) (text : List ℕ) (pieces : List Piece) → ArePiecesOf text pieces →
        (left : List (ℕ × Attributes)) × IsFrontOf (λ (x : ℕ × Attributes). x.0) width (styled pieces) (kept_characters width text) left }
    ensures one { (width : ℕ) (text : List ℕ) (pieces : List Piece) (front left : List (ℕ × Attributes)) → ArePiecesOf text pieces →
        IsFrontOf (λ (x : ℕ × Attributes). x.0) width (styled pieces) front left → front ≡ kept_characters width text }
    ensures shown { (width : ℕ) (text : List ℕ) (pieces of_cut : List Piece) (left : List (ℕ × Attributes)) → IsUtf8 text → AreWholePiecesOf text pieces →
        ArePiecesOf (cut_at width text) of_cut → IsFrontOf (λ (x : ℕ × Attributes). x.0) width (styled pieces) (kept_characters width text) left →
        styled of_cut ≡ kept_characters width text
        ++ map (λ c. (c, plain_attributes)) (replicate (lacking width (map (λ x. x.0) (kept_characters width text)) (map (λ x. x.0) left)) replacement) }
{}
