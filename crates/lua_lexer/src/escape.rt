ghost use Rattle.std.specs.Prelude.{◌≡◌, ◌<◌, ◌^◌, ◌++◌, OnOk, IsTrue};
ghost use Rattle.lua_names.specs.Names.{is_digit};
ghost use Rattle.lua_lexer.specs.Alphabet.{begins_with};
ghost use Rattle.lua_lexer.specs.QuotedText.{letter_value, continuation, utf8};
ghost use Rattle.lua_lexer.specs.Reading.{Meets, IsMeaning, meaning_bytes, hexadecimal_at};
ghost use Rattle.lua_lexer.specs.Reading.{decimal_at, code_end, code_at, unicode_at, escape_at};

use crate::bracket::without_break;
use crate::class::{Class, digit_of};
use crate::numeral::value_within;
use std::alloc::AllocError;

/// Above each number that `\u{..}` may name.
const CODES: u64 = 1 << 31;

/// What an escape stands for.
#[derive(Clone, Copy, Debug, PartialEq, Eq)]
pub enum Meaning {
    Nothing,
    Byte(u8),
    /// A number below 2 to the 31st, in UTF-8.
    Code(u32),
}

fn letter(byte: u8) -> Option<u8>
    ensures { result ≡ letter_value byte }
{
    match byte {
        b'a' => Some(7),
        b'b' => Some(8),
        b't' => Some(9),
        b'n' => Some(10),
        b'v' => Some(11),
        b'f' => Some(12),
        b'r' => Some(13),
        b'\\' => Some(b'\\'),
        b'"' => Some(b'"'),
        b'\'' => Some(b'\''),
        _ => None,
    }
}

/// Two hexadecimal digits. An error holds the bytes from that one on at which reading fails, here and below.
#[tactic(auto, unfolding(crate::specs::Reading::hexadecimal_at))]
fn hexadecimal(bytes: &[u8]) -> Result<(Meaning, &[u8]), &[u8]>
    ensures { Meets (λ read. (read.0, read.1.now)) (λ failed. failed.now) result
        (hexadecimal_at bytes.now) }
{
    let Some((high, rest)) = bytes.split_first() else {
        return Err(bytes);
    };
    let Some(high) = digit_of(*high) else {
        return Err(bytes);
    };
    let Some((low, after)) = rest.split_first() else {
        return Err(rest);
    };
    let Some(low) = digit_of(*low) else {
        return Err(rest);
    };
    Ok((Meaning::Byte(high * 16 + low), after))
}

/// One to three decimal digits, as many as follow.
#[tactic(auto, unfolding(crate::specs::Reading::decimal_at))]
fn decimal(bytes: &[u8]) -> Result<(Meaning, &[u8]), &[u8]>
    requires { IsTrue (begins_with is_digit bytes.now) }
    ensures { Meets (λ read. (read.0, read.1.now)) (λ failed. failed.now) result
        (decimal_at bytes.now) }
{
    let (front, _) = bytes.split_at(bytes.len().min(3));
    let (digits, _) = Class::Digit.split(front);
    match value_within(255, 10, digits) {
        Some(value) => Ok((Meaning::Byte(value as u8), &bytes[digits.len()..])),
        None => Err(&bytes[2..]),
    }
}

/// The close of `\u{..}`, whose digits spell this number.
fn code_end(value: u32, bytes: &[u8]) -> Result<(Meaning, &[u8]), &[u8]>
    ensures { Meets (λ read. (read.0, read.1.now)) (λ failed. failed.now) result
        (code_end value bytes.now) }
{
    match bytes {
        [b'}', rest @ ..] => Ok((Meaning::Code(value), rest)),
        _ => Err(bytes),
    }
}

/// The digits of `\u{..}` that are left, and its close.
#[tactic(auto, unfolding(crate::specs::Reading::code_at))]
fn code(first: u32, bytes: &[u8]) -> Result<(Meaning, &[u8]), &[u8]>
    requires { first < 2 ^ 31 }
    ensures { Meets (λ read. (read.0, read.1.now)) (λ failed. failed.now) result
        (code_at first bytes.now) }
{
    let mut value = first;
    let mut rest = bytes;
    while let Some((digit, after)) = rest.split_first() {
        let Some(digit) = digit_of(*digit) else {
            return code_end(value, rest);
        };
        let next = u64::from(value) * 16 + u64::from(digit);
        if next >= CODES {
            return Err(rest);
        }
        value = next as u32;
        rest = after;
    }
    Err(rest)
}

#[tactic(auto, unfolding(crate::specs::Reading::unicode_at))]
fn unicode(bytes: &[u8]) -> Result<(Meaning, &[u8]), &[u8]>
    ensures { Meets (λ read. (read.0, read.1.now)) (λ failed. failed.now) result
        (unicode_at bytes.now) }
{
    let [b'{', rest @ ..] = bytes else {
        return Err(bytes);
    };
    match rest {
        [first, after @ ..] => match digit_of(*first) {
            Some(digit) => code(u32::from(digit), after),
            None => Err(rest),
        },
        [] => Err(rest),
    }
}

/// What the escape stands for whose `\` stands before the bytes, and the bytes after it.
#[tactic(auto, unfolding(crate::specs::Reading::escape_at))]
pub fn escape(bytes: &[u8]) -> Result<(Meaning, &[u8]), &[u8]>
    ensures { Meets (λ read. (read.0, read.1.now)) (λ failed. failed.now) result
        (escape_at bytes.now) }
{
    let Some((first, rest)) = bytes.split_first() else {
        return Err(bytes);
    };
    match *first {
        b'\n' | b'\r' => Ok((Meaning::Byte(b'\n'), without_break(bytes))),
        b'0'..=b'9' => decimal(bytes),
        b'x' => hexadecimal(rest),
        b'u' => unicode(rest),
        b'z' => {
            let (_, rest) = Class::Space.split(rest);
            Ok((Meaning::Nothing, rest))
        }
        other => match letter(other) {
            Some(value) => Ok((Meaning::Byte(value), rest)),
            None => Err(bytes),
        },
    }
}

/// A continuation byte of UTF-8, with the low six bits.
fn continuation(code: u32) -> u8
    ensures { result ≡ continuation code }
{
    (128 + code % 64) as u8
}

/// Writes a number in UTF-8 in its original form of up to six bytes (RFC 2279).
#[tactic(auto, unfolding(crate::specs::QuotedText::utf8))]
fn push_code(text: &mut Vec<u8>, code: u32) -> Result<(), AllocError>
    requires { code < 2 ^ 31 }
    ensures { OnOk result (text.new.items ≡ text.old.items ++ utf8 code) }
{
    let last = continuation(code);
    if code < 0x80 {
        return Ok(text.push(code as u8)?);
    }
    if code < 0x800 {
        return text.extend_from_slice(&[(0xC0 + code / 0x40) as u8, last]);
    }
    let fifth = continuation(code / 0x40);
    if code < 0x1_0000 {
        return text.extend_from_slice(&[(0xE0 + code / 0x1000) as u8, fifth, last]);
    }
    let fourth = continuation(code / 0x1000);
    if code < 0x20_0000 {
        return text.extend_from_slice(&[(0xF0 + code / 0x4_0000) as u8, fourth, fifth, last]);
    }
    let third = continuation(code / 0x4_0000);
    if code < 0x400_0000 {
        let first = (0xF8 + code / 0x100_0000) as u8;
        return text.extend_from_slice(&[first, third, fourth, fifth, last]);
    }
    let second = continuation(code / 0x100_0000);
    let first = (0xFC + code / 0x4000_0000) as u8;
    text.extend_from_slice(&[first, second, third, fourth, fifth, last])
}

/// Writes what an escape stands for.
pub fn push_meaning(text: &mut Vec<u8>, meaning: Meaning) -> Result<(), AllocError>
    requires { IsMeaning meaning }
    ensures { OnOk result (text.new.items ≡ text.old.items ++ meaning_bytes meaning) }
{
    match meaning {
        Meaning::Nothing => Ok(()),
        Meaning::Byte(byte) => Ok(text.push(byte)?),
        Meaning::Code(code) => push_code(text, code),
    }
}
