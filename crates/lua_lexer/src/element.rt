ghost use Rattle.std.specs.Prelude.{◌≡◌};
ghost use Rattle.lua_lexer.specs.Reading.{Gives, lexeme_of, element_at};

use crate::bracket::{bracket, comment};
use crate::class::{is_digit, is_quote, is_space};
use crate::numeral::numeral;
use crate::quoted::quoted;
use crate::stop::{Cause, Stop};
use crate::token::TokenKind;
use crate::word::{symbol, word};
use lua_names::is_name_start;
use rocks_bytes::Bytes;
use std::alloc::Global;

/// What the first two bytes announce.
#[derive(Clone, Copy, Debug, PartialEq, Eq)]
enum Lexeme {
    Space,
    Comment,
    /// A name or a keyword.
    Word,
    Numeral,
    Quoted,
    /// A long bracket, or a `[` that is a bad byte.
    Bracket,
    /// A symbol, or a byte that begins nothing.
    Symbol,
}

#[tactic(auto, unfolding(crate::specs::Reading::lexeme_of))]
fn lexeme_of(first: u8, rest: &[u8]) -> Lexeme
    ensures { result ≡ lexeme_of first rest.now }
{
    if is_space(first) {
        return Lexeme::Space;
    }
    if is_name_start(first) {
        return Lexeme::Word;
    }
    if is_digit(first) {
        return Lexeme::Numeral;
    }
    if is_quote(first) {
        return Lexeme::Quoted;
    }
    match (first, rest) {
        (b'.', [second, ..]) if is_digit(*second) => Lexeme::Numeral,
        (b'-', [b'-', ..]) => Lexeme::Comment,
        (b'[', [b'[' | b'=', ..]) => Lexeme::Bracket,
        _ => Lexeme::Symbol,
    }
}

/// The token at the front of the bytes, or nothing for a white space byte or a comment, and the bytes after it.
#[tactic(auto, unfolding(crate::specs::Reading::element_at))]
pub fn element(alloc: Global, bytes: &[u8]) -> Result<(Option<TokenKind>, &[u8]), Stop>
    ensures { Gives (λ read. (read.0, read.1.now)) result (element_at bytes.now) }
{
    let Some((first, rest)) = bytes.split_first() else {
        return Ok((None, bytes));
    };
    match lexeme_of(*first, rest) {
        Lexeme::Space => Ok((None, rest)),
        Lexeme::Comment => Ok((None, comment(bytes)?)),
        Lexeme::Word => {
            let (kind, rest) = word(alloc, bytes)?;
            Ok((Some(kind), rest))
        }
        Lexeme::Numeral => {
            let (number, rest) = numeral(bytes)?;
            Ok((Some(TokenKind::Int(number)), rest))
        }
        Lexeme::Quoted => {
            let (text, rest) = quoted(alloc, bytes)?;
            Ok((Some(TokenKind::Text(Bytes::from(text))), rest))
        }
        Lexeme::Bracket => {
            let (text, rest) = bracket(alloc, bytes)?;
            Ok((Some(TokenKind::Text(Bytes::from(text))), rest))
        }
        Lexeme::Symbol => match symbol(bytes) {
            Some((symbol, rest)) => Ok((Some(TokenKind::Symbol(symbol)), rest)),
            None => Err(Stop::At(Cause::BadByte, bytes.len())),
        },
    }
}
