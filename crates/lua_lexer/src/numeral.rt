ghost use Rattle.std.specs.Prelude.{◌≡◌, ◌<◌, unwrap_or};
ghost use Rattle.std.specs.Option.{option_map};
ghost use Rattle.lua_lexer.specs.Alphabet.{value, digit_of};
ghost use Rattle.lua_lexer.specs.Reading.{within, hexadecimal_digits, integer_of, numeral_at};
ghost use Rattle.lua_lexer.specs.Reading.{Gives};

use crate::class::{Class, digit_of};
use crate::stop::{Cause, Stop};

/// The greatest integer that a text may spell.
const GREATEST: u64 = 9_223_372_036_854_775_807;

/// What a digit counts for.
fn weight(digit: u8) -> u8
    ensures { result ≡ unwrap_or (digit_of digit) 0 }
{
    digit_of(digit).unwrap_or(0)
}

/// The number that the digits spell in a base, unless it is above the limit.
pub fn value_within(limit: u64, base: u64, digits: &[u8]) -> Option<u64>
    requires { 0 < base }
    ensures { result ≡ within limit (value base digits.now) }
{
    let mut value: u64 = 0;
    for digit in digits {
        let digit = u64::from(weight(*digit));
        if digit > limit || value > (limit - digit) / base {
            return None;
        }
        value = value * base + digit;
    }
    Some(value)
}

/// The digits of a hexadecimal integer.
fn hexadecimal_digits(numeral: &[u8]) -> Option<&[u8]>
    ensures { option_map (λ digits. digits.now) result ≡ hexadecimal_digits numeral.now }
{
    let [zero, mark, digits @ ..] = numeral else {
        return None;
    };
    if *zero == b'0'
        && (*mark == b'x' || *mark == b'X')
        && !digits.is_empty()
        && Class::Hexadecimal.holds_all(digits)
    {
        Some(digits)
    } else {
        None
    }
}

/// The value of a numeral at which so many bytes are left.
fn integer_of(numeral: &[u8], left: usize) -> Result<u64, Stop>
    ensures { Gives (λ n. n) result (integer_of numeral.now left) }
{
    let value = if let Some(digits) = hexadecimal_digits(numeral) {
        value_within(GREATEST, 16, digits)
    } else if Class::Digit.holds_all(numeral) {
        value_within(GREATEST, 10, numeral)
    } else {
        return Err(Stop::At(Cause::BadNumeral, left));
    };
    value.ok_or(Stop::At(Cause::NumberTooLarge, left))
}

/// The integer at the front of the bytes, and the bytes after it.
#[tactic(auto, unfolding(crate::specs::Reading::numeral_at))]
pub fn numeral(bytes: &[u8]) -> Result<(u64, &[u8]), Stop>
    ensures { Gives (λ read. (read.0, read.1.now)) result (numeral_at bytes.now) }
{
    let (numeral, rest) = Class::Numeral.split(bytes);
    let value = integer_of(numeral, bytes.len())?;
    Ok((value, rest))
}
