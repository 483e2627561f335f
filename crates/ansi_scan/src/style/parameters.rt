//! The parameters of a sequence, as numbers.
ghost use Rattle.std.specs.Prelude.{◌≡◌, IfSome, IsTrue};
ghost use Rattle.std.specs.List.{list_all};
ghost use Rattle.std.specs.Option.{option_copied};
ghost use Rattle.ansi_scan.specs.Styles.Attributes.{Attributes, after_code, plain_attributes};
ghost use Rattle.ansi_scan.specs.Styles.Rendition.{applied, is_numeric, sgr_parameters};
ghost use Rattle.ansi_scan.specs.Styles.Digits.{number_after};

use crate::sequences::ESC;

/// Whether the bytes are one of the two shortest sequences that clear everything, without or with
/// the parameter 0.
pub fn is_reset(sequence: &[u8]) -> bool
    ensures { IsTrue result → (a : Attributes) → applied a sequence.now ≡ plain_attributes }
{
    matches!(sequence, [ESC, b'[', b'm'] | [ESC, b'[', b'0', b'm'])
}

/// The code of a sequence that is `ESC [`, one or two digits, and `m`; `None` of any other.
pub fn single_code(sequence: &[u8]) -> Option<u8>
    ensures { IfSome result (λ code. (a : Attributes) → applied a sequence.now ≡ after_code a code) }
{
    match sequence {
        [ESC, b'[', ones @ b'0'..=b'9', b'm'] => Some(*ones - b'0'),
        [ESC, b'[', tens @ b'0'..=b'9', ones @ b'0'..=b'9', b'm'] => {
            Some(10 * (*tens - b'0') + (*ones - b'0'))
        }
        _ => None,
    }
}

/// The parameter bytes of a sequence: those between `ESC [` and the `m` at its end.
/// `None` where the bytes are no such sequence.
pub fn sgr_parameters(sequence: &[u8]) -> Option<&[u8]>
    ensures { option_copied result ≡ sgr_parameters sequence.now }
{
    if sequence.len() < 3 {
        return None;
    }
    let last = sequence.len() - 1;
    if sequence[0] != ESC || sequence[1] != b'[' || sequence[last] != b'm' {
        return None;
    }
    let parameters = &sequence[2..last];
    if !are_numeric(parameters) {
        return None;
    }
    Some(parameters)
}

fn are_numeric(bytes: &[u8]) -> bool
    ensures { result ≡ list_all is_numeric bytes.now }
{
    bytes.iter().all(|byte| is_numeric(*byte))
}

// A digit, `:` or `;`.
fn is_numeric(byte: u8) -> bool
    ensures { result ≡ is_numeric byte }
{
    0x30 <= byte && byte <= 0x3b
}

/// The number so far with one byte more: none past 255, and none where one is no digit.
pub fn number_after(number: Option<u8>, byte: u8) -> Option<u8>
    ensures { result ≡ number_after number byte }
{
    match number {
        None => None,
        Some(number) => {
            if byte < b'0' || byte > b'9' {
                return None;
            }
            let longer = 10 * u16::from(number) + u16::from(byte - b'0');
            if longer > 255 {
                return None;
            }
            Some(longer as u8)
        }
    }
}
