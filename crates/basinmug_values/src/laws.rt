//! Lists and delimiters worked by hand. The functions do nothing.
ghost use Rattle.std.specs.Prelude.{◌≡◌, ◌∷◌, [], None, Some, codes, false, true};
ghost use Rattle.program_options.specs.declared.basinmug.ColumnChoice.TheVariants.{One, Range};
ghost use Rattle.program_options.specs.declared.basinmug.ColumnName.TheVariants.{Number};
ghost use Rattle.basinmug_values.specs.Choices.{Single, Through, chosen_listed, chosen_of};
ghost use Rattle.basinmug_values.specs.Delimiters.{can_delimit};
ghost use Rattle.basinmug_values.specs.Lists.{Numbered, Titled, column_of_name, listed, seen_items};
ghost use Rattle.basinmug_values.specs.Names.{alignment_named};
ghost use Rattle.grid_config_values.specs.declared.alignment.AlignmentHorizontal.TheVariants.{Left, Center, Right};

/// Lists of alignments: what they say of columns, and texts that have not the form.
pub fn lists_by_hand()
    ensures one { listed alignment_named (codes "0=left") ≡ Some ((Numbered 0, Left) ∷ []) }
    ensures two { listed alignment_named (codes "007=right,price=center") ≡ Some ((Numbered 7, Right) ∷ (Titled (codes "price"), Center) ∷ []) }
    ensures no_column { listed alignment_named (codes "=left") ≡ None }
    ensures nothing { listed alignment_named [] ≡ None }
    ensures no_name { listed alignment_named (codes "0=middle") ≡ None }
    ensures no_form { listed alignment_named (codes "0") ≡ None }
    ensures twice { listed alignment_named (codes "1=left,01=right") ≡ None }
    ensures comma { listed alignment_named (codes "0=left,") ≡ None }
    ensures too_great { listed alignment_named (codes "4294967296=left") ≡ None }
    ensures first_sign { listed alignment_named (codes "a=b=left") ≡ None }
    ensures greatest { listed alignment_named (codes "4294967295=left") ≡ Some ((Numbered 4294967295, Left) ∷ []) }
{}

/// Lists of chosen columns, and texts that have not the form.
pub fn choices_by_hand()
    ensures numbers { chosen_listed (codes "2,0,4-6") ≡ Some (Single (Numbered 2) ∷ Single (Numbered 0) ∷ Through 4 6 ∷ []) }
    ensures titles { chosen_listed (codes "price,2020-") ≡ Some (Single (Titled (codes "price")) ∷ Single (Titled (codes "2020-")) ∷ []) }
    ensures twice { chosen_listed (codes "1,1") ≡ Some (Single (Numbered 1) ∷ Single (Numbered 1) ∷ []) }
    ensures falling { chosen_listed (codes "3-1") ≡ None }
    ensures nothing { chosen_listed [] ≡ None }
    ensures comma { chosen_listed (codes "1,") ≡ None }
{}

/// Bytes that separate fields, and bytes that can't.
pub fn delimiters_by_hand()
    ensures comma { can_delimit 0x2c ≡ true }
    ensures tab { can_delimit 0x09 ≡ true }
    ensures zero { can_delimit 0 ≡ true }
    ensures greatest { can_delimit 0x7f ≡ true }
    ensures past_ascii { can_delimit 0x80 ≡ false }
    ensures quote { can_delimit 0x22 ≡ false }
    ensures line_feed { can_delimit 0x0a ≡ false }
    ensures carriage_return { can_delimit 0x0d ≡ false }
{}

/// Columns, choices and a list in memory, and what they say.
pub fn columns_in_memory_by_hand()
    ensures number { column_of_name (Number 7) ≡ Numbered 7 }
    ensures one { chosen_of (One (Number 2)) ≡ Single (Numbered 2) }
    ensures range { chosen_of (Range 3 5) ≡ Through 3 5 }
    ensures list { seen_items ((Number 0, Left) ∷ (Number 1, Right) ∷ []) ≡ (Numbered 0, Left) ∷ (Numbered 1, Right) ∷ [] }
{}
