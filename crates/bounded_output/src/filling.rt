//! Bytes that are written into memory, as many as fit.
ghost use Rattle.std.specs.Prelude.{◌≡◌};
ghost use Rattle.bounded_output.specs.Filled.{filled, filled_from};

/// Writes bytes into memory from its start, as many as fit.
pub fn fill(out: &mut [u8], bytes: &[u8])
    ensures { out.new ≡ filled out.old bytes.now }
{
    let count = bytes.len().min(out.len());
    out[..count].copy_from_slice(&bytes[..count]);
}

/// Writes bytes into memory from a place on, as many as fit; none if the place is past its end.
pub(crate) fn fill_from(out: &mut [u8], at: usize, bytes: &[u8])
    ensures { out.new ≡ filled_from at out.old bytes.now }
{
    if at < out.len() {
        fill(&mut out[at..], bytes);
    }
}
