//! Which sequences of SELECT GRAPHIC RENDITION set colours and other styles, and do nothing else.
ghost use Rattle.std.specs.Prelude.{◌≡◌, option_copied};
ghost use Rattle.std.specs.List.{list_all};
ghost use Rattle.ansi_scan.specs.Styles.Digits.{number_after};
ghost use Rattle.ansi_scan.specs.Styles.Rendition.{is_numeric, sgr_parameters};
ghost use Rattle.basinmug_input.specs.Renditions.{are_settings, behind, behind_code, behind_form, is_code, is_in_kept_ranges, is_kept_code, is_kept_rendition, numbers_of};

use ansi_scan::ESC;

/// Whether the bytes are a sequence whose every number is a code that sets or clears something, none of which is 8, or
/// a colour after 38, 48 or 58. Does not allocate.
pub fn is_kept_rendition(bytes: &[u8]) -> bool
    ensures { result ≡ is_kept_rendition bytes.now }
{
    match sgr_parameters(bytes) {
        Some(parameters) => are_settings(parameters),
        None => false,
    }
}

// The bytes between `ESC [` and the `m` at the end, where these are digits, `:` and `;`.
fn sgr_parameters(bytes: &[u8]) -> Option<&[u8]>
    ensures { option_copied result ≡ sgr_parameters bytes.now }
{
    if bytes.len() < 3 {
        return None;
    }
    let last = bytes.len() - 1;
    if bytes[0] != ESC || bytes[1] != b'[' || bytes[last] != b'm' {
        return None;
    }
    let parameters = &bytes[2..last];
    if !are_numeric(parameters) {
        return None;
    }
    Some(parameters)
}

fn are_numeric(bytes: &[u8]) -> bool
    ensures { result ≡ list_all is_numeric bytes.now }
{
    bytes.iter().all(|byte| is_numeric(*byte))
}

// A digit, `:` or `;`.
fn is_numeric(byte: u8) -> bool
    ensures { result ≡ is_numeric byte }
{
    0x30 <= byte && byte <= 0x3b
}

// Whether parameters are codes that are kept and whole colours.
fn are_settings(parameters: &[u8]) -> bool
    ensures { result ≡ are_settings (numbers_of parameters.now) }
{
    let mut awaited = Awaited::Code;
    let mut number = Some(0);
    for byte in parameters {
        if *byte == b';' {
            awaited = awaited.after(number);
            number = Some(0);
        } else {
            number = number_after(number, *byte);
        }
    }
    awaited.after(number).is_code()
}

// The number so far with one byte more: none past 255, and none where one is no digit.
fn number_after(number: Option<u8>, byte: u8) -> Option<u8>
    ensures { result ≡ number_after number byte }
{
    match number {
        None => None,
        Some(number) => {
            if byte < b'0' || byte > b'9' {
                return None;
            }
            let longer = 10 * u16::from(number) + u16::from(byte - b'0');
            if longer > 255 {
                return None;
            }
            Some(longer as u8)
        }
    }
}

/// What the next parameter has to be.
#[derive(Clone, Copy)]
enum Awaited {
    /// A code.
    Code,
    /// Behind 38, 48 or 58: 5 or 2.
    Form,
    /// The last number of a colour.
    OneNumber,
    TwoNumbers,
    ThreeNumbers,
    /// Nothing that could be kept.
    Nothing,
}

impl Awaited {
    // What is awaited after this parameter, which is none where it is no number.
    fn after(self, parameter: Option<u8>) -> Awaited
        ensures { result ≡ behind self parameter }
    {
        match (self, parameter) {
            (Awaited::Code, Some(code)) => behind_code(code),
            (Awaited::Form, Some(form)) => behind_form(form),
            (Awaited::ThreeNumbers, Some(_)) => Awaited::TwoNumbers,
            (Awaited::TwoNumbers, Some(_)) => Awaited::OneNumber,
            (Awaited::OneNumber, Some(_)) => Awaited::Code,
            (_, _) => Awaited::Nothing,
        }
    }

    // Whether a code is awaited, so that no colour is left open.
    fn is_code(self) -> bool
        ensures { result ≡ is_code self }
    {
        match self {
            Awaited::Code => true,
            _ => false,
        }
    }
}

// What is awaited after a code.
fn behind_code(code: u8) -> Awaited
    ensures { result ≡ behind_code code }
{
    if code == 38 || code == 48 || code == 58 {
        return Awaited::Form;
    }
    if is_kept_code(code) {
        return Awaited::Code;
    }
    Awaited::Nothing
}

// What is awaited after the form of a colour.
fn behind_form(form: u8) -> Awaited
    ensures { result ≡ behind_form form }
{
    match form {
        5 => Awaited::OneNumber,
        2 => Awaited::ThreeNumbers,
        _ => Awaited::Nothing,
    }
}

// Whether a code takes effect alone.
fn is_kept_code(code: u8) -> bool
    ensures { result ≡ is_kept_code code }
{
    is_in_kept_ranges(code)
}

// Whether a code is of the ranges of these.
fn is_in_kept_ranges(code: u8) -> bool
    ensures { result ≡ is_in_kept_ranges code }
{
    matches!(code, 0..=7 | 9..=37 | 39..=47 | 49..=55 | 59..=65 | 73..=75 | 90..=97 | 100..=107)
}
