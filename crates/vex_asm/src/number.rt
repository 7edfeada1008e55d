//! Numbers in decimal: no sign but a `-` before a signed one, no leading zero, no `-0`.

ghost use Rattle.std.specs.Prelude.{◌≡◌, ◌<◌, IfSome};
ghost use Rattle.vex_asm.specs.Parsed.{number_of, digits_on, byte_of, signed_of, signed_byte_of, displacement_of};

/// What numbers in a text are below: 10^10, more than each number that has a place in a meaning.
const LIMIT: u64 = 10_000_000_000;

/// The number of digits, where it is below 10^10.
fn digits(bytes: &[u8]) -> Option<u64>
    ensures value { result ≡ digits_on 0 bytes.now }
    ensures below { IfSome result (λ number. number < LIMIT) }
{
    let mut number: u64 = 0;
    for byte in bytes {
        if !byte.is_ascii_digit() || number >= LIMIT / 10 {
            return None;
        }
        number = number * 10 + u64::from(*byte - b'0');
    }
    Some(number)
}

/// The number of a text, where it is below 10^10.
#[tactic(auto, unfolding(crate::specs::Parsed::number_of))]
pub fn number(bytes: &[u8]) -> Option<u64>
    ensures value { result ≡ number_of bytes.now }
    ensures below { IfSome result (λ number. number < LIMIT) }
{
    match bytes {
        [] | [b'0', _, ..] => None,
        _ => digits(bytes),
    }
}

/// The number of a text, where it is below 256.
#[tactic(auto, unfolding(crate::specs::Parsed::byte_of))]
pub fn byte(bytes: &[u8]) -> Option<u8>
    ensures { result ≡ byte_of bytes.now }
{
    u8::try_from(number(bytes)?).ok()
}

/// The signed number of a text, where it is between -10^10 and 10^10.
#[tactic(auto, unfolding(crate::specs::Parsed::signed_of))]
fn signed(bytes: &[u8]) -> Option<i64>
    ensures { result ≡ signed_of bytes.now }
{
    match bytes {
        [] => None,
        [first, digits @ ..] => {
            if *first == b'-' {
                match number(digits) {
                    None | Some(0) => None,
                    Some(number) => Some(-(number as i64)),
                }
            } else {
                Some(number(bytes)? as i64)
            }
        }
    }
}

/// The signed number of a text, where it is -128 to 127.
#[tactic(auto, unfolding(crate::specs::Parsed::signed_byte_of))]
pub fn signed_byte(bytes: &[u8]) -> Option<i8>
    ensures { result ≡ signed_byte_of bytes.now }
{
    i8::try_from(signed(bytes)?).ok()
}

/// The signed number of a text, where it has 32 bits.
#[tactic(auto, unfolding(crate::specs::Parsed::displacement_of))]
pub fn displacement(bytes: &[u8]) -> Option<i32>
    ensures { result ≡ displacement_of bytes.now }
{
    i32::try_from(signed(bytes)?).ok()
}
