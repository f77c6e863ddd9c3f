//! The values of whole numbers.
ghost use Rattle.std.specs.Prelude.{◌≡◌, ◌<◌, ◌^◌, ◌*◌, ◌+◌, ◌-◌, SomeIff, take_while, IsTrue};
ghost use Rattle.ops_tokens.specs.Bytes.{is_digit};
ghost use Rattle.ops_tokens.specs.Numbers.{decimal, unsigned, is_negative, whole_value, is_in_range};

use crate::bytes::{is_digit, is_sign};

/// The value of the spelling of a whole number, or `None` where an `i128` cannot hold it.
pub fn whole_of(spelling: &[u8]) -> Option<i128>
    ensures { SomeIff result (IsTrue (is_in_range (whole_value spelling.now))) (whole_value spelling.now) }
{
    let magnitude = decimal(unsigned(spelling))?;
    if is_negative(spelling) {
        0i128.checked_sub_unsigned(magnitude)
    } else {
        0i128.checked_add_unsigned(magnitude)
    }
}

fn unsigned(spelling: &[u8]) -> &[u8]
    ensures { result.now ≡ unsigned spelling.now }
{
    if !spelling.is_empty() && is_sign(spelling[0]) {
        &spelling[1..]
    } else {
        spelling
    }
}

fn is_negative(spelling: &[u8]) -> bool
    ensures { result ≡ is_negative spelling.now }
{
    !spelling.is_empty() && spelling[0] == b'-'
}

// the number that the digits at the front spell
fn decimal(bytes: &[u8]) -> Option<u128>
    ensures { SomeIff result (decimal (take_while is_digit bytes.now) < 2 ^ 128) (decimal (take_while is_digit bytes.now)) }
{
    let mut value: u128 = 0;
    for byte in bytes {
        if !is_digit(*byte) {
            return Some(value);
        }
        value = shifted(value, *byte)?;
    }
    Some(value)
}

// the number with one digit more
fn shifted(value: u128, digit: u8) -> Option<u128>
    requires { IsTrue (is_digit digit) }
    ensures { SomeIff result (10 * value + (digit - 48) < 2 ^ 128) (10 * value + (digit - 48)) }
{
    value.checked_mul(10)?.checked_add(u128::from(digit - b'0'))
}
