//! A styled text, read by what it shows (`ansi_str`).
use ansi_str::AnsiStr;
use std::alloc::{AllocError, Global};

/// The fields of a line, separated by colons, without the white space around them, each in its own style.
pub fn fields(alloc: Global, line: &str) -> Result<Vec<String>, AllocError> {
    let mut fields = Vec::new(alloc);
    for field in line.ansi_split(alloc, ":") {
        let field = field?;
        let text: &str = &field;
        fields.push(text.ansi_trim(alloc)?.into_owned(alloc)?)?;
    }
    Ok(fields)
}
