//! Rows of texts being made.
use std::alloc::{AllocError, Global};
use std::convert::AsStr;
use std::marker::Model;

/// Rows of texts being made, of any lengths. In a contract it is the list of them.
#[derive(Debug, Drop)]
pub struct Builder {
    rows: Vec<Vec<String>>,
    // The capacity that a new row begins with.
    columns: usize,
}

impl Model for Builder {
    ghost use Rattle.std.specs.Prelude.{ℕ, List};
    ghost use Rattle.tabled_text.specs.Rows.{text_rows};

    ghost Value = { List (List (List ℕ)) };

    ghost view = { λ builder. text_rows builder.rows.items };
}

impl Builder {
    ghost use Rattle.std.specs.Prelude.{◌≡◌, List, [], ◌∷◌, ◌++◌, IfOk, OnErr, length, map};
    ghost use Rattle.std.specs.Iterator.{Drains, IsFinite};
    ghost use Rattle.tabled_text.specs.Rows.{filled, longest, text_rows};

    /// No rows. Does not allocate.
    pub fn new(alloc: Global) -> Builder
        ensures { result ≡ [] }
    {
        Builder::from_vec(Vec::new(alloc))
    }

    /// No rows, with capacity for `rows` of them of `columns` texts each. That for rows is allocated
    /// now. It fails only where that allocation fails; the sizes decide nothing else.
    pub fn with_capacity(alloc: Global, rows: usize, columns: usize) -> Result<Builder, AllocError>
        ensures { IfOk result (λ builder. builder ≡ []) }
    {
        let rows = Vec::with_capacity(alloc, rows)?;
        Ok(Builder { rows, columns })
    }

    /// These rows. Does not allocate.
    pub fn from_vec(rows: Vec<Vec<String>>) -> Builder
        ensures { result ≡ text_rows rows.items }
    {
        Builder { rows, columns: 0 }
    }

    /// One more row, of these texts, on condition that they end. It fails only where allocation fails, and then
    /// the rows are what they were.
    pub fn push_record<I: IntoIterator>(&mut self, texts: I) -> Result<(), AllocError>
    where
        I::Item: AsStr + Drop,
        I::IntoIter: Drop,
        requires { (s : I.IntoIter) → I.into_iter_gives texts s → I.IntoIter.can_next s × IsFinite (I.IntoIter.remaining s) }
        ensures pushed { IfOk result (λ _. (s : I.IntoIter) × (taken : List I.Item) × I.into_iter_gives texts s
            × Drains I.IntoIter.next_gives s taken × (self.new ≡ self.old ++ map I.Item.text taken ∷ [])) }
        ensures kept { OnErr result (self.new ≡ self.old) }
    {
        let row = row_of(*self.rows.allocator(), self.columns, texts)?;
        self.rows.push(row)?;
        Ok(())
    }

    /// How many rows there are.
    pub fn count_rows(&self) -> usize
        ensures { result ≡ length self.now }
    {
        self.rows.len()
    }

    /// How many texts the longest row has, counted row by row; 0 where there is no row.
    pub fn count_columns(&self) -> usize
        ensures { result ≡ longest self.now }
    {
        longest_row(&self.rows)
    }

    /// The rows, each with as many texts as the longest: after a short one come empty texts. Fails
    /// only where allocation fails.
    pub fn into_rows(self) -> Result<Vec<Vec<String>>, AllocError>
        ensures { IfOk result (λ rows. text_rows rows.items ≡ filled self) }
    {
        let columns = self.count_columns();
        let mut rows = Vec::with_capacity(*self.rows.allocator(), self.rows.len())?;
        for row in self.rows {
            rows.push(filled_row(row, columns)?)?;
        }
        Ok(rows)
    }
}

ghost use Rattle.std.specs.Prelude.{◌≡◌, List, [], IfOk, map, string_bytes};
ghost use Rattle.std.specs.Iterator.{Drains, IsFinite};
ghost use Rattle.tabled_text.specs.Rows.{filled_row as filled_texts, longest, row_items};

/// How many items the longest of these rows has; 0 where there is no row.
pub fn longest_row<T>(rows: &[Vec<T>]) -> usize
    ensures { result ≡ longest (row_items rows.now) }
{
    let mut most: usize = 0;
    for row in rows {
        most = most.max(row.len());
    }
    most
}

// A row of these texts.
fn row_of<I: IntoIterator>(
    alloc: Global,
    columns: usize,
    texts: I,
) -> Result<Vec<String>, AllocError>
where
    I::Item: AsStr + Drop,
    I::IntoIter: Drop,
    requires { (s : I.IntoIter) → I.into_iter_gives texts s → I.IntoIter.can_next s × IsFinite (I.IntoIter.remaining s) }
    ensures { IfOk result (λ row. (s : I.IntoIter) × (taken : List I.Item) × I.into_iter_gives texts s × Drains I.IntoIter.next_gives s taken × (map string_bytes row.items ≡ map I.Item.text taken)) }
{
    let mut row = empty_row(alloc, columns);
    for text in texts {
        row.push(text.as_str().to_string(alloc)?)?;
    }
    Ok(row)
}

// A row without texts, with capacity for `columns` texts where there is memory for it.
fn empty_row(alloc: Global, columns: usize) -> Vec<String>
    ensures { result.items ≡ [] }
{
    match Vec::with_capacity(alloc, columns) {
        Ok(row) => row,
        Err(_) => Vec::new(alloc),
    }
}

// The row, and after it an empty text for each that it lacks of `columns` texts.
fn filled_row(row: Vec<String>, columns: usize) -> Result<Vec<String>, AllocError>
    ensures { IfOk result (λ filled. map string_bytes filled.items ≡ filled_texts columns (map string_bytes row.items)) }
{
    let alloc = *row.allocator();
    let mut filled = row;
    for _ in 0..columns.saturating_sub(filled.len()) {
        filled.push(String::new(alloc))?;
    }
    Ok(filled)
}
