//! Which texts are numbers.
ghost use Rattle.std.specs.Prelude.{◌≡◌, ◌≤◌, length};
ghost use Rattle.std.specs.Char.{is_ascii_digit};
ghost use Rattle.std.specs.List.{list_all, prefix_len};
ghost use Rattle.basinmug_columns.specs.Numbers.Numbers.{is_exponent_mark, is_number, is_percent, is_point, is_sign};
ghost use Rattle.basinmug_columns.specs.Numbers.Scans.{
  are_in_groups,
  first_byte_passes,
  behind,
  is_digit_or_comma,
  is_percent_or_none,
  is_fraction,
  is_in_groups,
  is_tail,
  is_unsigned,
  is_whole_part,
  without_one,
};

/// Whether a text, of these bytes, is a number: a sign or none; digits, with commas between groups of three or
/// without; a point and digits or none; an exponent or none; a percent sign or none.
pub fn is_number(text: &[u8]) -> bool
    ensures { result ≡ is_number text.now }
{
    is_unsigned(without_sign(text))
}

// The same of what is after a sign. Digits alone are looked at once.
fn is_unsigned(bytes: &[u8]) -> bool
    ensures { result ≡ is_unsigned bytes.now }
{
    if are_digits(bytes) {
        return !bytes.is_empty();
    }
    is_in_parts(bytes)
}

// The same of any bytes.
#[inline(never)]
fn is_in_parts(bytes: &[u8]) -> bool
    ensures { result ≡ is_unsigned bytes.now }
{
    let (whole, rest) = bytes.split_at(whole_len(bytes));
    is_whole_part(whole) && is_fraction(!whole.is_empty(), rest)
}

// The length of the prefix of digits and commas.
fn whole_len(bytes: &[u8]) -> usize
    ensures count { result ≡ prefix_len is_digit_or_comma bytes.now }
    ensures bound { result ≤ length bytes.now }
{
    bytes
        .iter()
        .take_while(|byte| byte.is_ascii_digit() || **byte == b',')
        .count()
}

// The length of the prefix of digits.
fn digits_len(bytes: &[u8]) -> usize
    ensures count { result ≡ prefix_len is_ascii_digit bytes.now }
    ensures bound { result ≤ length bytes.now }
{
    bytes
        .iter()
        .take_while(|byte| byte.is_ascii_digit())
        .count()
}

// Digits alone, or in groups.
fn is_whole_part(bytes: &[u8]) -> bool
    ensures { result ≡ is_whole_part bytes.now }
{
    are_digits(bytes) || is_in_groups(bytes)
}

fn are_digits(bytes: &[u8]) -> bool
    ensures { result ≡ list_all is_ascii_digit bytes.now }
{
    bytes.iter().all(|byte| byte.is_ascii_digit())
}

// Commas are just where groups of three digits end, counted from the end, and none is first.
fn is_in_groups(bytes: &[u8]) -> bool
    ensures { result ≡ is_in_groups bytes.now }
{
    bytes.len() % 4 != 0 && are_in_groups(bytes)
}

fn are_in_groups(bytes: &[u8]) -> bool
    ensures { result ≡ are_in_groups bytes.now }
{
    let count = bytes.len();
    bytes.iter().enumerate().all(|(place, byte)| {
        if count.saturating_sub(place) % 4 == 0 {
            *byte == b','
        } else {
            byte.is_ascii_digit()
        }
    })
}

// What is after the whole part, which has digits or not.
fn is_fraction(has_digits: bool, bytes: &[u8]) -> bool
    ensures { result ≡ is_fraction has_digits bytes.now }
{
    match bytes.first() {
        Some(b'.') => {
            let digits = &bytes[1..];
            (has_digits || begins_with_digit(digits)) && is_tail(behind_digits(digits))
        }
        _ => has_digits && is_tail(bytes),
    }
}

// What is after the fraction.
fn is_tail(bytes: &[u8]) -> bool
    ensures { result ≡ is_tail bytes.now }
{
    match bytes.first() {
        Some(b'e' | b'E') => {
            let power = without_sign(&bytes[1..]);
            begins_with_digit(power) && is_percent_or_none(behind_digits(power))
        }
        _ => is_percent_or_none(bytes),
    }
}

// A percent sign, or nothing.
fn is_percent_or_none(bytes: &[u8]) -> bool
    ensures { result ≡ is_percent_or_none bytes.now }
{
    match bytes.first() {
        Some(b'%') => bytes.len() == 1,
        _ => bytes.is_empty(),
    }
}

fn begins_with_digit(bytes: &[u8]) -> bool
    ensures { result ≡ first_byte_passes is_ascii_digit bytes.now }
{
    match bytes.first() {
        Some(byte) => byte.is_ascii_digit(),
        None => false,
    }
}

// What is after the prefix of digits.
fn behind_digits(bytes: &[u8]) -> &[u8]
    ensures { result.now ≡ behind is_ascii_digit bytes.now }
{
    &bytes[digits_len(bytes)..]
}

// What is left where a sign, if one is first, is taken.
fn without_sign(bytes: &[u8]) -> &[u8]
    ensures { result.now ≡ without_one is_sign bytes.now }
{
    match bytes.first() {
        Some(b'+' | b'-') => &bytes[1..],
        _ => bytes,
    }
}
