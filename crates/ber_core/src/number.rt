//! Integers and truth values.

ghost use Rattle.std.specs.Prelude.{◌≡◌, ◌<◌, ◌≤◌, ◌-◌, ◌++◌, ◌↔◌, length, take, replicate, IsSome};
ghost use Rattle.ber_core.specs.Number.{least_number, sign_byte, integer, integer_of, boolean_of};

/// Eight bytes: `pad`, but for `count` of them at the end, of which `bytes` are the first.
fn padded(pad: u8, count: usize, bytes: &[u8]) -> [u8; 8]
    requires fits { length bytes.now ≤ count }
    requires count { count ≤ 8 }
    ensures { result ≡ replicate (8 - count) pad ++ bytes.now
        ++ replicate (count - length bytes.now) pad }
{
    let mut out = [pad; 8];
    for (i, b) in bytes.iter().enumerate() {
        out[8 - count + i] = *b;
    }
    out
}

/// The first bytes, `most` of them if there are so many.
fn up_to(bytes: &[u8], most: usize) -> &[u8]
    ensures { result.now ≡ take most bytes.now }
{
    if most < bytes.len() {
        &bytes[..most]
    } else {
        bytes
    }
}

/// The least number that `count` digits in base 256 spell, of which these are the first.
pub(crate) fn least_number(count: usize, digits: &[u8]) -> u64
    requires { count ≤ 8 }
    ensures { result ≡ least_number count (take count digits.now) }
{
    u64::from_be_bytes(padded(0, count, up_to(digits, count)))
}

/// The byte that may stand in front of an integer's bytes without changing it.
pub(crate) fn sign_byte(bytes: &[u8]) -> u8
    ensures { result ≡ sign_byte bytes.now }
{
    match bytes {
        [0x80..=0xff, ..] => 0xff,
        _ => 0,
    }
}

fn integer(bytes: &[u8]) -> i64
    requires some { 0 < length bytes.now }
    requires up_to_eight { length bytes.now ≤ 8 }
    ensures { result ≡ integer bytes.now }
{
    i64::from_be_bytes(padded(sign_byte(bytes), bytes.len(), bytes))
}

/// The integer whose two's complement the content of an INTEGER or ENUMERATED is (X.690, sections
/// 8.3 and 8.4), and `None` where there is no byte or more than eight.
///
/// Needless bytes in front, which X.690 forbids (section 8.3.2), are accepted.
pub fn read_int(body: &[u8]) -> Option<i64>
    ensures value { result ≡ integer_of body.now }
    ensures some { IsSome result ↔ ((0 < length body.now) × (length body.now ≤ 8)) }
{
    if body.is_empty() || body.len() > 8 {
        None
    } else {
        Some(integer(body))
    }
}

/// The truth value that the content of a BOOLEAN is, and `None` where there isn't exactly one byte.
///
/// Each byte but 0 is true (X.690, section 8.2). RFC 4511 has ff for it alone (section 5.1).
pub fn read_bool(body: &[u8]) -> Option<bool>
    ensures value { result ≡ boolean_of body.now }
    ensures some { IsSome result ↔ (length body.now ≡ 1) }
{
    match body {
        [b] => Some(*b != 0),
        _ => None,
    }
}
