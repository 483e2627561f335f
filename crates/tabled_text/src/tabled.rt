//! Values of fields with names.
ghost use Rattle.std.specs.Prelude.{◌≡◌, ℕ, List, [], IfOk, length, replicate, vec_len};
ghost use Rattle.tabled_text.specs.Fields.{fields_or_empty, saturated, texts_of};

mod arrays;
mod single;
mod tuples;

use std::alloc::{AllocError, Global};
use std::borrow::CowStr;

/// A value of fields with names, a row of a table.
pub trait Tabled {
    ghost texts: { Self → List (List ℕ) };

    ghost names: { List (List ℕ) };

    /// How many fields there are, and `usize::MAX` where there are more.
    fn length() -> usize
        ensures { result ≡ saturated (length names) };

    /// The texts of the fields, `length()` of them. It fails only where allocation fails.
    fn fields(&self, alloc: Global) -> Result<Vec<CowStr<'_>>, AllocError>
        ensures texts { IfOk result (λ out. texts_of out.items ≡ texts self.now) }
        ensures count { IfOk result (λ out. vec_len out ≡ length names) };

    /// The names of the fields, `length()` of them. It fails only where allocation fails.
    fn headers(alloc: Global) -> Result<Vec<CowStr<'static>>, AllocError>
        ensures names { IfOk result (λ out. texts_of out.items ≡ names) }
        ensures count { IfOk result (λ out. vec_len out ≡ length names) };
}

/// The fields and names of the value that it refers to.
impl<'a, T: Tabled> Tabled for &'a T {
    ghost texts = { λ value. T.texts value.now };

    ghost names = { T.names };

    fn length() -> usize {
        T::length()
    }

    fn fields(&self, alloc: Global) -> Result<Vec<CowStr<'_>>, AllocError> {
        T::fields(self, alloc)
    }

    fn headers(alloc: Global) -> Result<Vec<CowStr<'static>>, AllocError> {
        T::headers(alloc)
    }
}

/// The fields and names of the value within.
impl<T: Tabled> Tabled for Box<T> {
    ghost texts = { λ value. T.texts value.value };

    ghost names = { T.names };

    fn length() -> usize {
        T::length()
    }

    fn fields(&self, alloc: Global) -> Result<Vec<CowStr<'_>>, AllocError> {
        T::fields(self, alloc)
    }

    fn headers(alloc: Global) -> Result<Vec<CowStr<'static>>, AllocError> {
        T::headers(alloc)
    }
}

/// The names of the value, and where it is missing as many empty texts.
impl<T: Tabled> Tabled for Option<T> {
    ghost texts = { fields_or_empty T.texts (length T.names) };

    ghost names = { T.names };

    fn length() -> usize {
        T::length()
    }

    fn fields(&self, alloc: Global) -> Result<Vec<CowStr<'_>>, AllocError> {
        match self {
            Some(value) => value.fields(alloc),
            None => empty_texts(alloc, T::length()),
        }
    }

    fn headers(alloc: Global) -> Result<Vec<CowStr<'static>>, AllocError> {
        T::headers(alloc)
    }
}

// `count` empty texts. Room for all is allocated at once.
fn empty_texts<'a>(alloc: Global, count: usize) -> Result<Vec<CowStr<'a>>, AllocError>
    ensures texts { IfOk result (λ out. texts_of out.items ≡ replicate count []) }
    ensures count { IfOk result (λ out. vec_len out ≡ count) }
{
    let mut texts = Vec::with_capacity(alloc, count)?;
    for _ in 0..count {
        texts.push(CowStr::Borrowed(""))?;
    }
    Ok(texts)
}
