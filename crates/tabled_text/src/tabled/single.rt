//! Values of one field, which bears the name of their type.
ghost use Rattle.std.specs.Prelude.{All, true, ◌≡◌, [], ◌∷◌, IfOk, codes, decimal, encode_utf8, string_bytes, vec_len};
ghost use Rattle.std.specs.Fmt.{signed_decimal};
ghost use Rattle.std.specs.Cow.{IsBorrowedStr};
ghost use Rattle.tabled_text.specs.Fields.{bool_text, texts_of};

use crate::cell_text::CellText;
use crate::tabled::Tabled;
use std::alloc::{AllocError, Global};
use std::borrow::CowStr;

// The text of the value alone.
fn one_field<'a, T: CellText>(alloc: Global, value: &'a T) -> Result<Vec<CowStr<'a>>, AllocError>
    ensures texts { IfOk result (λ out. texts_of out.items ≡ T.text value.now ∷ []) }
    ensures count { IfOk result (λ out. vec_len out ≡ 1) }
    ensures borrows { IfOk result (λ out. T.is_there ≡ true → All IsBorrowedStr out.items) }
{
    one_text(alloc, value.cell_text(alloc)?)
}

// This name alone.
fn one_name(alloc: Global, name: &'static str) -> Result<Vec<CowStr<'static>>, AllocError>
    ensures names { IfOk result (λ out. texts_of out.items ≡ name.now ∷ []) }
    ensures count { IfOk result (λ out. vec_len out ≡ 1) }
{
    one_text(alloc, CowStr::Borrowed(name))
}

// This text alone.
fn one_text<'a>(alloc: Global, text: CowStr<'a>) -> Result<Vec<CowStr<'a>>, AllocError>
    ensures texts { IfOk result (λ out. out.items ≡ text.entry ∷ []) }
    ensures count { IfOk result (λ out. vec_len out ≡ 1) }
{
    let mut texts = Vec::with_capacity(alloc, 1)?;
    texts.push(text)?;
    Ok(texts)
}

impl<'a> Tabled for &'a str {
    ghost texts = { λ value. value.now ∷ [] };

    ghost names = { codes "&str" ∷ [] };

    fn length() -> usize
        ensures { result ≡ 1 }
    {
        1
    }

    /// A borrow of the text.
    fn fields(&self, alloc: Global) -> Result<Vec<CowStr<'_>>, AllocError>
        ensures texts { IfOk result (λ out. texts_of out.items ≡ self.now.now ∷ []) }
        ensures count { IfOk result (λ out. vec_len out ≡ 1) }
        ensures borrows { IfOk result (λ out. All IsBorrowedStr out.items) }
    {
        one_field(alloc, self)
    }

    fn headers(alloc: Global) -> Result<Vec<CowStr<'static>>, AllocError>
        ensures names { IfOk result (λ out. texts_of out.items ≡ codes "&str" ∷ []) }
        ensures count { IfOk result (λ out. vec_len out ≡ 1) }
    {
        one_name(alloc, "&str")
    }
}

impl Tabled for String {
    ghost texts = { λ value. string_bytes value ∷ [] };

    ghost names = { codes "String" ∷ [] };

    fn length() -> usize {
        1
    }

    /// A borrow of the text.
    fn fields(&self, alloc: Global) -> Result<Vec<CowStr<'_>>, AllocError>
        ensures texts { IfOk result (λ out. texts_of out.items ≡ string_bytes self.now ∷ []) }
        ensures count { IfOk result (λ out. vec_len out ≡ 1) }
        ensures borrows { IfOk result (λ out. All IsBorrowedStr out.items) }
    {
        one_field(alloc, self)
    }

    fn headers(alloc: Global) -> Result<Vec<CowStr<'static>>, AllocError> {
        one_name(alloc, "String")
    }
}

impl Tabled for char {
    ghost texts = { λ value. encode_utf8 value ∷ [] };

    ghost names = { codes "char" ∷ [] };

    fn length() -> usize {
        1
    }

    fn fields(&self, alloc: Global) -> Result<Vec<CowStr<'_>>, AllocError> {
        one_field(alloc, self)
    }

    fn headers(alloc: Global) -> Result<Vec<CowStr<'static>>, AllocError> {
        one_name(alloc, "char")
    }
}

impl Tabled for bool {
    ghost texts = { λ value. bool_text value ∷ [] };

    ghost names = { codes "bool" ∷ [] };

    fn length() -> usize {
        1
    }

    fn fields(&self, alloc: Global) -> Result<Vec<CowStr<'_>>, AllocError> {
        one_field(alloc, self)
    }

    fn headers(alloc: Global) -> Result<Vec<CowStr<'static>>, AllocError> {
        one_name(alloc, "bool")
    }
}

impl Tabled for u8 {
    ghost texts = { λ value. decimal value ∷ [] };

    ghost names = { codes "u8" ∷ [] };

    fn length() -> usize {
        1
    }

    fn fields(&self, alloc: Global) -> Result<Vec<CowStr<'_>>, AllocError> {
        one_field(alloc, self)
    }

    fn headers(alloc: Global) -> Result<Vec<CowStr<'static>>, AllocError> {
        one_name(alloc, "u8")
    }
}

impl Tabled for u16 {
    ghost texts = { λ value. decimal value ∷ [] };

    ghost names = { codes "u16" ∷ [] };

    fn length() -> usize {
        1
    }

    fn fields(&self, alloc: Global) -> Result<Vec<CowStr<'_>>, AllocError> {
        one_field(alloc, self)
    }

    fn headers(alloc: Global) -> Result<Vec<CowStr<'static>>, AllocError> {
        one_name(alloc, "u16")
    }
}

impl Tabled for u32 {
    ghost texts = { λ value. decimal value ∷ [] };

    ghost names = { codes "u32" ∷ [] };

    fn length() -> usize {
        1
    }

    fn fields(&self, alloc: Global) -> Result<Vec<CowStr<'_>>, AllocError> {
        one_field(alloc, self)
    }

    fn headers(alloc: Global) -> Result<Vec<CowStr<'static>>, AllocError> {
        one_name(alloc, "u32")
    }
}

impl Tabled for u64 {
    ghost texts = { λ value. decimal value ∷ [] };

    ghost names = { codes "u64" ∷ [] };

    fn length() -> usize {
        1
    }

    fn fields(&self, alloc: Global) -> Result<Vec<CowStr<'_>>, AllocError> {
        one_field(alloc, self)
    }

    fn headers(alloc: Global) -> Result<Vec<CowStr<'static>>, AllocError> {
        one_name(alloc, "u64")
    }
}

impl Tabled for u128 {
    ghost texts = { λ value. decimal value ∷ [] };

    ghost names = { codes "u128" ∷ [] };

    fn length() -> usize {
        1
    }

    fn fields(&self, alloc: Global) -> Result<Vec<CowStr<'_>>, AllocError> {
        one_field(alloc, self)
    }

    fn headers(alloc: Global) -> Result<Vec<CowStr<'static>>, AllocError> {
        one_name(alloc, "u128")
    }
}

impl Tabled for usize {
    ghost texts = { λ value. decimal value ∷ [] };

    ghost names = { codes "usize" ∷ [] };

    fn length() -> usize {
        1
    }

    fn fields(&self, alloc: Global) -> Result<Vec<CowStr<'_>>, AllocError> {
        one_field(alloc, self)
    }

    fn headers(alloc: Global) -> Result<Vec<CowStr<'static>>, AllocError> {
        one_name(alloc, "usize")
    }
}

impl Tabled for i8 {
    ghost texts = { λ value. signed_decimal value ∷ [] };

    ghost names = { codes "i8" ∷ [] };

    fn length() -> usize {
        1
    }

    fn fields(&self, alloc: Global) -> Result<Vec<CowStr<'_>>, AllocError> {
        one_field(alloc, self)
    }

    fn headers(alloc: Global) -> Result<Vec<CowStr<'static>>, AllocError> {
        one_name(alloc, "i8")
    }
}

impl Tabled for i16 {
    ghost texts = { λ value. signed_decimal value ∷ [] };

    ghost names = { codes "i16" ∷ [] };

    fn length() -> usize {
        1
    }

    fn fields(&self, alloc: Global) -> Result<Vec<CowStr<'_>>, AllocError> {
        one_field(alloc, self)
    }

    fn headers(alloc: Global) -> Result<Vec<CowStr<'static>>, AllocError> {
        one_name(alloc, "i16")
    }
}

impl Tabled for i32 {
    ghost texts = { λ value. signed_decimal value ∷ [] };

    ghost names = { codes "i32" ∷ [] };

    fn length() -> usize {
        1
    }

    fn fields(&self, alloc: Global) -> Result<Vec<CowStr<'_>>, AllocError> {
        one_field(alloc, self)
    }

    fn headers(alloc: Global) -> Result<Vec<CowStr<'static>>, AllocError> {
        one_name(alloc, "i32")
    }
}

impl Tabled for i64 {
    ghost texts = { λ value. signed_decimal value ∷ [] };

    ghost names = { codes "i64" ∷ [] };

    fn length() -> usize {
        1
    }

    fn fields(&self, alloc: Global) -> Result<Vec<CowStr<'_>>, AllocError> {
        one_field(alloc, self)
    }

    fn headers(alloc: Global) -> Result<Vec<CowStr<'static>>, AllocError> {
        one_name(alloc, "i64")
    }
}

impl Tabled for i128 {
    ghost texts = { λ value. signed_decimal value ∷ [] };

    ghost names = { codes "i128" ∷ [] };

    fn length() -> usize {
        1
    }

    fn fields(&self, alloc: Global) -> Result<Vec<CowStr<'_>>, AllocError> {
        one_field(alloc, self)
    }

    fn headers(alloc: Global) -> Result<Vec<CowStr<'static>>, AllocError> {
        one_name(alloc, "i128")
    }
}

impl Tabled for isize {
    ghost texts = { λ value. signed_decimal value ∷ [] };

    ghost names = { codes "isize" ∷ [] };

    fn length() -> usize {
        1
    }

    fn fields(&self, alloc: Global) -> Result<Vec<CowStr<'_>>, AllocError> {
        one_field(alloc, self)
    }

    fn headers(alloc: Global) -> Result<Vec<CowStr<'static>>, AllocError> {
        one_name(alloc, "isize")
    }
}
