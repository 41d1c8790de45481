ghost use Rattle.std.specs.Prelude.{◌≡◌, IfOk};
ghost use Rattle.lua_lexer.specs.Reading.{word_at, symbol_at, dots_at, pair_of, pair_at, single_of};
ghost use Rattle.lua_lexer.specs.Reading.{single_at};
ghost use Rattle.std.specs.Option.{option_map};

use crate::class::Class;
use crate::token::TokenKind;
use crate::vocabulary::Symbol;
use lua_names::keyword_of;
use rocks_bytes::Bytes;
use std::alloc::{AllocError, Global};

/// The name or keyword at the front of the bytes, and the bytes after it.
#[tactic(auto, unfolding(crate::specs::Reading::word_at))]
pub fn word(alloc: Global, bytes: &[u8]) -> Result<(TokenKind, &[u8]), AllocError>
    ensures { IfOk result (λ read. (read.0, read.1.now) ≡ word_at bytes.now) }
{
    let (word, rest) = Class::Name.split(bytes);
    match keyword_of(word) {
        Some(keyword) => Ok((TokenKind::Keyword(keyword), rest)),
        None => {
            let name = Vec::from_slice(alloc, word)?;
            Ok((TokenKind::Name(Bytes::from(name)), rest))
        }
    }
}

#[tactic(auto, unfolding(crate::specs::Reading::pair_of))]
fn pair_of(first: u8, second: u8) -> Option<Symbol>
    ensures { result ≡ pair_of first second }
{
    match (first, second) {
        (b'<', b'<') => Some(Symbol::ShiftLeft),
        (b'>', b'>') => Some(Symbol::ShiftRight),
        (b'/', b'/') => Some(Symbol::DoubleSlash),
        (b'=', b'=') => Some(Symbol::Equal),
        (b'~', b'=') => Some(Symbol::NotEqual),
        (b'<', b'=') => Some(Symbol::LessEqual),
        (b'>', b'=') => Some(Symbol::GreaterEqual),
        (b':', b':') => Some(Symbol::DoubleColon),
        (b'.', b'.') => Some(Symbol::Concat),
        _ => None,
    }
}

#[tactic(auto, unfolding(crate::specs::Reading::single_of))]
fn single_of(byte: u8) -> Option<Symbol>
    ensures { result ≡ single_of byte }
{
    match byte {
        b'+' => Some(Symbol::Plus),
        b'-' => Some(Symbol::Minus),
        b'*' => Some(Symbol::Star),
        b'/' => Some(Symbol::Slash),
        b'%' => Some(Symbol::Percent),
        b'^' => Some(Symbol::Caret),
        b'#' => Some(Symbol::Hash),
        b'&' => Some(Symbol::Amp),
        b'~' => Some(Symbol::Tilde),
        b'|' => Some(Symbol::Bar),
        b'<' => Some(Symbol::Less),
        b'>' => Some(Symbol::Greater),
        b'=' => Some(Symbol::Assign),
        b'(' => Some(Symbol::OpenParen),
        b')' => Some(Symbol::CloseParen),
        b'{' => Some(Symbol::OpenBrace),
        b'}' => Some(Symbol::CloseBrace),
        b'[' => Some(Symbol::OpenBracket),
        b']' => Some(Symbol::CloseBracket),
        b';' => Some(Symbol::Semicolon),
        b':' => Some(Symbol::Colon),
        b',' => Some(Symbol::Comma),
        b'.' => Some(Symbol::Dot),
        _ => None,
    }
}

/// The longest symbol at the front of the bytes, and the bytes after it.
#[tactic(auto, unfolding(crate::specs::Reading::symbol_at))]
pub fn symbol(bytes: &[u8]) -> Option<(Symbol, &[u8])>
    ensures { option_map (λ read. (read.0, read.1.now)) result ≡ symbol_at bytes.now }
{
    match bytes {
        [b'.', b'.', b'.', rest @ ..] => Some((Symbol::Dots, rest)),
        [first, second, rest @ ..] => match pair_of(*first, *second) {
            Some(symbol) => Some((symbol, rest)),
            None => single(bytes),
        },
        _ => single(bytes),
    }
}

fn single(bytes: &[u8]) -> Option<(Symbol, &[u8])>
    ensures { option_map (λ read. (read.0, read.1.now)) result ≡ single_at bytes.now }
{
    let (first, rest) = bytes.split_first()?;
    let symbol = single_of(*first)?;
    Some((symbol, rest))
}
