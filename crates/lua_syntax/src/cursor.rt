ghost use Rattle.std.specs.Prelude.{◌≡◌, ◌+◌, ◌<◌, ◌≤◌, ◌⊎◌, ◌∷◌, ℕ, List, IfOk, IfErr, MatchOption, MatchResult};
ghost use Rattle.lua_lexer.specs.TokenLists.{EndsOnce};
ghost use Rattle.lua_syntax.specs.Failing.{IsOther, IsNameless};
ghost use Rattle.lua_syntax.specs.Grammar.{IsName};
ghost use Rattle.lua_syntax.specs.Reading.{Heads, HeadsName, NotAhead};

use crate::fault::SyntaxFault;
use crate::position::{Position, refused};
use crate::tree::Named;
use lua_lexer::{Symbol, Token, TokenKind};
use rocks_bytes::Bytes;
use std::alloc::Global;

/// How many brackets may be open at once.
const DEEPEST: u32 = 100;

/// The first token and those behind it.
pub fn first<'a>(tokens: &'a [Token]) -> (&'a Token, &'a [Token])
    requires { EndsOnce tokens.now }
    ensures { tokens.now ≡ result.0.now ∷ result.1.now }
{
    (&tokens[0], &tokens[1..])
}

/// The place of the symbol and the tokens behind it, if they begin with it.
pub fn after_symbol<'a>(symbol: Symbol, tokens: &'a [Token]) -> Option<(u32, &'a [Token])>
    ensures { MatchOption result (NotAhead symbol tokens.now)
        (λ found. Heads symbol tokens.now found.0 found.1.now) }
{
    let (token, rest) = tokens.split_first()?;
    match &token.kind {
        TokenKind::Symbol(found) if *found == symbol => Some((token.place, rest)),
        _ => None,
    }
}

/// The tokens behind the symbol with which they must begin; what else stands there stands at these places.
pub fn behind<'a>(
    symbol: Symbol,
    positions: &[Position],
    tokens: &'a [Token],
) -> Result<&'a [Token], SyntaxFault>
    requires { EndsOnce tokens.now }
    ensures { MatchResult result (λ rest. (place : ℕ) × Heads symbol tokens.now place rest.now)
        (λ fault. IsOther symbol positions.now tokens.now fault) }
{
    match after_symbol(symbol, tokens) {
        Some((_, rest)) => Ok(rest),
        None => Err(refused(positions, &tokens[0])),
    }
}

/// How many brackets are open behind an opening bracket at this place, where so many are before it.
pub fn opened(depth: u32, place: u32) -> Result<u32, SyntaxFault>
    ensures { MatchResult result (λ inner. (inner ≡ depth + 1) × (depth < 100))
        (λ fault. (100 ≤ depth) × (fault ≡ SyntaxFault.TooDeep place)) }
{
    if depth >= DEEPEST {
        Err(SyntaxFault::TooDeep { place })
    } else {
        Ok(depth + 1)
    }
}

/// The name that the token is, if it is one; `_ENV` is none.
pub fn name_of(token: &Token) -> Option<&Bytes>
    ensures { MatchOption result ((name : List ℕ) → IsName token.now name → ⊥)
        (λ name. IsName token.now name.now) }
{
    match &token.kind {
        TokenKind::Name(name) if name.as_slice() != b"_ENV".as_slice() => Some(name),
        _ => None,
    }
}

/// The name with which the tokens must begin, and those behind it; what else stands there stands at these places.
pub fn name<'a>(
    alloc: Global,
    positions: &[Position],
    tokens: &'a [Token],
) -> Result<(Named, &'a [Token]), SyntaxFault>
    requires { EndsOnce tokens.now }
    ensures ok { IfOk result (λ r. HeadsName tokens.now r.0 r.1.now) }
    ensures fails { IfErr result
        (λ fault. (fault ≡ SyntaxFault.NoMemory) ⊎ IsNameless positions.now tokens.now fault) }
{
    let (token, rest) = first(tokens);
    match name_of(token) {
        Some(name) => {
            let name = name.copy(alloc)?;
            Ok((
                Named {
                    place: token.place,
                    name,
                },
                rest,
            ))
        }
        None => Err(refused(positions, token)),
    }
}
