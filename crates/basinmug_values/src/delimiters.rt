//! The byte between fields.
ghost use Rattle.std.specs.Prelude.{◌≡◌};
ghost use Rattle.basinmug_values.specs.Delimiters.{can_delimit};

/// Whether a byte can separate fields: it is ASCII, and neither a quote nor one that ends a record.
pub fn can_delimit(byte: u8) -> bool
    ensures { result ≡ can_delimit byte }
{
    byte.is_ascii() && byte != b'"' && byte != b'\n' && byte != b'\r'
}
