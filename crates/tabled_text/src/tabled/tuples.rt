//! Values of several members: the fields and the names of all, in their order.
ghost use Rattle.std.specs.Prelude.{◌≡◌, ◌+◌, ◌++◌, IfOk, length, vec_len};
ghost use Rattle.tabled_text.specs.Fields.{texts_of};

use crate::tabled::Tabled;
use std::alloc::{AllocError, Global};
use std::borrow::CowStr;

// These fields, and after them those of this member.
fn with_fields<'a, T: Tabled>(
    alloc: Global,
    fields: Vec<CowStr<'a>>,
    member: &'a T,
) -> Result<Vec<CowStr<'a>>, AllocError>
    ensures texts { IfOk result (λ all. texts_of all.items ≡ texts_of fields.entry.items ++ T.texts member.now) }
    ensures count { IfOk result (λ all. vec_len all ≡ vec_len fields.entry + length T.names) }
{
    let mut fields = fields;
    let mut own = member.fields(alloc)?;
    fields.append(&mut own)?;
    Ok(fields)
}

// These names, and after them those of this member.
fn with_headers<T: Tabled>(
    alloc: Global,
    headers: Vec<CowStr<'static>>,
) -> Result<Vec<CowStr<'static>>, AllocError>
    ensures names { IfOk result (λ all. texts_of all.items ≡ texts_of headers.entry.items ++ T.names) }
    ensures count { IfOk result (λ all. vec_len all ≡ vec_len headers.entry + length T.names) }
{
    let mut headers = headers;
    let mut own = T::headers(alloc)?;
    headers.append(&mut own)?;
    Ok(headers)
}

impl<A: Tabled> Tabled for (A,) {
    ghost texts = { λ value. A.texts value.0 };

    ghost names = { A.names };

    fn length() -> usize {
        A::length()
    }

    fn fields(&self, alloc: Global) -> Result<Vec<CowStr<'_>>, AllocError> {
        self.0.fields(alloc)
    }

    fn headers(alloc: Global) -> Result<Vec<CowStr<'static>>, AllocError> {
        A::headers(alloc)
    }
}

impl<A: Tabled, B: Tabled> Tabled for (A, B) {
    ghost texts = { λ value. A.texts value.0 ++ B.texts value.1 };

    ghost names = { A.names ++ B.names };

    fn length() -> usize {
        A::length().saturating_add(B::length())
    }

    fn fields(&self, alloc: Global) -> Result<Vec<CowStr<'_>>, AllocError> {
        let fields = self.0.fields(alloc)?;
        with_fields(alloc, fields, &self.1)
    }

    fn headers(alloc: Global) -> Result<Vec<CowStr<'static>>, AllocError> {
        let headers = A::headers(alloc)?;
        with_headers::<B>(alloc, headers)
    }
}

impl<A: Tabled, B: Tabled, C: Tabled> Tabled for (A, B, C) {
    ghost texts = { λ value. A.texts value.0 ++ B.texts value.1 ++ C.texts value.2 };

    ghost names = { A.names ++ B.names ++ C.names };

    fn length() -> usize {
        <(A, B) as Tabled>::length().saturating_add(C::length())
    }

    fn fields(&self, alloc: Global) -> Result<Vec<CowStr<'_>>, AllocError> {
        let fields = self.0.fields(alloc)?;
        let fields = with_fields(alloc, fields, &self.1)?;
        with_fields(alloc, fields, &self.2)
    }

    fn headers(alloc: Global) -> Result<Vec<CowStr<'static>>, AllocError> {
        let headers = <(A, B) as Tabled>::headers(alloc)?;
        with_headers::<C>(alloc, headers)
    }
}

impl<A: Tabled, B: Tabled, C: Tabled, D: Tabled> Tabled for (A, B, C, D) {
    ghost texts = { λ value. A.texts value.0 ++ B.texts value.1 ++ C.texts value.2 ++ D.texts value.3 };

    ghost names = { A.names ++ B.names ++ C.names ++ D.names };

    fn length() -> usize {
        <(A, B, C) as Tabled>::length().saturating_add(D::length())
    }

    fn fields(&self, alloc: Global) -> Result<Vec<CowStr<'_>>, AllocError> {
        let fields = self.0.fields(alloc)?;
        let fields = with_fields(alloc, fields, &self.1)?;
        let fields = with_fields(alloc, fields, &self.2)?;
        with_fields(alloc, fields, &self.3)
    }

    fn headers(alloc: Global) -> Result<Vec<CowStr<'static>>, AllocError> {
        let headers = <(A, B, C) as Tabled>::headers(alloc)?;
        with_headers::<D>(alloc, headers)
    }
}

impl<A: Tabled, B: Tabled, C: Tabled, D: Tabled, E: Tabled> Tabled for (A, B, C, D, E) {
    ghost texts = { λ value. A.texts value.0 ++ B.texts value.1 ++ C.texts value.2 ++ D.texts value.3 ++ E.texts value.4 };

    ghost names = { A.names ++ B.names ++ C.names ++ D.names ++ E.names };

    fn length() -> usize {
        <(A, B, C, D) as Tabled>::length().saturating_add(E::length())
    }

    fn fields(&self, alloc: Global) -> Result<Vec<CowStr<'_>>, AllocError> {
        let fields = self.0.fields(alloc)?;
        let fields = with_fields(alloc, fields, &self.1)?;
        let fields = with_fields(alloc, fields, &self.2)?;
        let fields = with_fields(alloc, fields, &self.3)?;
        with_fields(alloc, fields, &self.4)
    }

    fn headers(alloc: Global) -> Result<Vec<CowStr<'static>>, AllocError> {
        let headers = <(A, B, C, D) as Tabled>::headers(alloc)?;
        with_headers::<E>(alloc, headers)
    }
}

impl<A: Tabled, B: Tabled, C: Tabled, D: Tabled, E: Tabled, F: Tabled> Tabled
    for (A, B, C, D, E, F) {
    ghost texts = { λ value. A.texts value.0 ++ B.texts value.1 ++ C.texts value.2 ++ D.texts value.3 ++ E.texts value.4 ++ F.texts value.5 };

    ghost names = { A.names ++ B.names ++ C.names ++ D.names ++ E.names ++ F.names };

    fn length() -> usize {
        <(A, B, C, D, E) as Tabled>::length().saturating_add(F::length())
    }

    fn fields(&self, alloc: Global) -> Result<Vec<CowStr<'_>>, AllocError> {
        let fields = self.0.fields(alloc)?;
        let fields = with_fields(alloc, fields, &self.1)?;
        let fields = with_fields(alloc, fields, &self.2)?;
        let fields = with_fields(alloc, fields, &self.3)?;
        let fields = with_fields(alloc, fields, &self.4)?;
        with_fields(alloc, fields, &self.5)
    }

    fn headers(alloc: Global) -> Result<Vec<CowStr<'static>>, AllocError> {
        let headers = <(A, B, C, D, E) as Tabled>::headers(alloc)?;
        with_headers::<F>(alloc, headers)
    }
}
