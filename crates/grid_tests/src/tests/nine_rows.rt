//! A table of nine rows. From eight on the printer makes the line of a row of empty cells once, and writes the texts
//! of plain rows over it.
use super::Table;
use super::single_lines::Pair;

// Cells as wide as their columns, narrower ones and empty ones, and some with a width other than their byte count.
pub(super) const CELLS: &[&[&str]] = &[
    &["abc", "de"],
    &["a", "b"],
    &["", ""],
    &["", "cd"],
    &["ab", ""],
    &["é", "ü"],
    &["漢", "x"],
    &["12", "34"],
    &["z", "yy"],
];

// The same, as texts with a slash between two cells. Places where cells begin are counted in bytes.
pub(super) const PAIRS: &[Pair] = &[
    ("abc/de", &[0, 4, 7], &[]),
    ("a/b", &[0, 2, 4], &[1, 1]),
    ("/", &[0, 1, 2], &[]),
    ("/cd", &[0, 1, 4], &[]),
    ("ab/", &[0, 3, 4], &[2, 0]),
    ("é/ü", &[0, 3, 6], &[1, 1]),
    ("漢/x", &[0, 4, 6], &[2]),
    ("12/34", &[0, 3, 6], &[]),
    ("z/yy", &[0, 2, 5], &[]),
];

// Each text has a column of space at both sides.
pub(super) const WIDTHS: &[usize] = &[5, 4];

pub(super) const TABLE: Table = Table(CELLS, WIDTHS, &[1; 9]);

pub(super) const BOXED: &str = "\
+-----+----+
| abc | de |
+-----+----+
| a   | b  |
+-----+----+
|     |    |
+-----+----+
|     | cd |
+-----+----+
| ab  |    |
+-----+----+
| é   | ü  |
+-----+----+
| 漢  | x  |
+-----+----+
| 12  | 34 |
+-----+----+
| z   | yy |
+-----+----+";
