//! Laws of lists of colours, and lists worked by hand. The functions do nothing.
ghost use Rattle.std.specs.Prelude.{◌≡◌, ◌∷◌, ℕ, List, [], None, Some, IfSome, codes};
ghost use Rattle.std.specs.List.{AllByRecursion};
ghost use Rattle.papergrid_picture.specs.Colors.ClosingColors.{IsClosing};
ghost use Rattle.program_options.specs.ColorList.Listed.{color_of_name, listed_colors};
ghost use Rattle.program_options.specs.ColorList.Names.{named_colors, color_of_texts};

/// The colours that have names close what they set, and so does each colour of a list.
pub fn named_colors_close()
    ensures names { AllByRecursion (λ row. IsClosing row.1) named_colors }
    ensures listed { (list : List ℕ) → IfSome (listed_colors list) (AllByRecursion (λ given. IsClosing given.1)) }
{}

/// Each name: what its colour writes before a text and after it. The codes are those of SELECT GRAPHIC RENDITION
/// (ECMA-48, 8.3.117) that set and clear what the name says.
pub fn colors_by_name()
    ensures black { color_of_name (codes "black") ≡ Some (color_of_texts (codes "\u{1b}[30m") (codes "\u{1b}[39m")) }
    ensures red { color_of_name (codes "red") ≡ Some (color_of_texts (codes "\u{1b}[31m") (codes "\u{1b}[39m")) }
    ensures green { color_of_name (codes "green") ≡ Some (color_of_texts (codes "\u{1b}[32m") (codes "\u{1b}[39m")) }
    ensures yellow { color_of_name (codes "yellow") ≡ Some (color_of_texts (codes "\u{1b}[33m") (codes "\u{1b}[39m")) }
    ensures blue { color_of_name (codes "blue") ≡ Some (color_of_texts (codes "\u{1b}[34m") (codes "\u{1b}[39m")) }
    ensures magenta { color_of_name (codes "magenta") ≡ Some (color_of_texts (codes "\u{1b}[35m") (codes "\u{1b}[39m")) }
    ensures cyan { color_of_name (codes "cyan") ≡ Some (color_of_texts (codes "\u{1b}[36m") (codes "\u{1b}[39m")) }
    ensures white { color_of_name (codes "white") ≡ Some (color_of_texts (codes "\u{1b}[37m") (codes "\u{1b}[39m")) }
    ensures bold { color_of_name (codes "bold") ≡ Some (color_of_texts (codes "\u{1b}[1m") (codes "\u{1b}[22m")) }
    ensures underline { color_of_name (codes "underline") ≡ Some (color_of_texts (codes "\u{1b}[4m") (codes "\u{1b}[24m")) }
{}

/// Lists that name colours.
pub fn lists_that_name_colors()
    ensures one { listed_colors (codes "1=red") ≡ Some ((1, color_of_texts (codes "\u{1b}[31m") (codes "\u{1b}[39m")) ∷ []) }
    ensures two { listed_colors (codes "0=bold,007=underline") ≡
        Some ((0, color_of_texts (codes "\u{1b}[1m") (codes "\u{1b}[22m")) ∷ (7, color_of_texts (codes "\u{1b}[4m") (codes "\u{1b}[24m")) ∷ []) }
    ensures greatest { listed_colors (codes "4294967295=white") ≡ Some ((4294967295, color_of_texts (codes "\u{1b}[37m") (codes "\u{1b}[39m")) ∷ []) }
{}

/// Texts that are no list of colours.
pub fn lists_that_are_none()
    ensures no_name { listed_colors (codes "0=pink") ≡ None }
    ensures twice { listed_colors (codes "0=red,0=bold") ≡ None }
    ensures again { listed_colors (codes "0=red,00=red") ≡ None }
    ensures no_form { listed_colors (codes "0") ≡ None }
    ensures nothing { listed_colors [] ≡ None }
    ensures comma { listed_colors (codes ",") ≡ None }
    ensures at_end { listed_colors (codes "0=red,") ≡ None }
    ensures at_front { listed_colors (codes ",0=red") ≡ None }
    ensures too_great { listed_colors (codes "4294967296=red") ≡ None }
    ensures plus { listed_colors (codes "+1=red") ≡ None }
    ensures minus { listed_colors (codes "-1=red") ≡ None }
    ensures space { listed_colors (codes "0= red") ≡ None }
    ensures blank { listed_colors (codes " 0=red") ≡ None }
    ensures no_column { listed_colors (codes "=red") ≡ None }
    ensures nameless { listed_colors (codes "0=") ≡ None }
    ensures capital { listed_colors (codes "0=Red") ≡ None }
{}
