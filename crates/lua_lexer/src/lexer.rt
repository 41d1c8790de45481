ghost use Rattle.std.specs.Prelude.{◌≡◌, ◌≢◌, ◌≤◌, List, length, IfOk, IfErr, MatchResult, ◌⊎◌};
ghost use Rattle.lua_lexer.specs.declared.fault.LexFault.{LexFault};
ghost use Rattle.lua_lexer.specs.declared.token.Token.{Token};
ghost use Rattle.lua_lexer.specs.Faults.{HasFault};
ghost use Rattle.lua_lexer.specs.Reading.{Gives, tokens_at, fault_of, LiesWithin};
ghost use Rattle.lua_lexer.specs.Spelling.{Spells};
ghost use Rattle.lua_lexer.specs.TokenLists.{IsTokenList};

use crate::element::element;
use crate::fault::LexFault;
use crate::stop::{Cause, Stop};
use crate::token::{Token, TokenKind, TokenList};
use std::alloc::Global;

/// The greatest length of a text, in bytes.
const LONGEST: usize = 8_388_608;

/// All tokens of a text, or why there are none.
fn all(alloc: Global, text: &[u8]) -> Result<Vec<Token>, Stop>
    requires { length text.now ≤ LONGEST }
    ensures { Gives (λ v. v.items) result (tokens_at text.now) }
{
    let mut tokens = Vec::new(alloc);
    let mut rest = text;
    while !rest.is_empty() {
        let place = (text.len() - rest.len()) as u32;
        let (kind, after) = element(alloc, rest)?;
        if let Some(kind) = kind {
            tokens.push(Token { place, kind })?;
        }
        rest = after;
    }
    tokens.push(Token {
        place: text.len() as u32,
        kind: TokenKind::End,
    })?;
    Ok(tokens)
}

/// The fault of a text of this length at which reading stopped so.
fn fault(length: usize, stop: Stop) -> LexFault
    requires limited { length ≤ LONGEST }
    requires within { LiesWithin length stop }
    ensures { result ≡ fault_of length stop }
{
    match stop {
        Stop::NoMemory => LexFault::NoMemory,
        Stop::At(cause, left) => {
            let place = (length - left) as u32;
            match cause {
                Cause::BadByte => LexFault::BadByte { place },
                Cause::OpenString => LexFault::OpenString { place },
                Cause::OpenBracket => LexFault::OpenBracket { place },
                Cause::BadEscape => LexFault::BadEscape { place },
                Cause::BadNumeral => LexFault::BadNumeral { place },
                Cause::NumberTooLarge => LexFault::NumberTooLarge { place },
            }
        }
    }
}

/// The tokens of a Lua text in order, each with the offset of its first byte, the last of them `End` at the
/// text's end (Lua 5.4 manual, section 3.1). The error is the first fault with its place, as `LexFault` says, or
/// `NoMemory`. That numerals with a point or an exponent are faults, and so are integers above
/// 9,223,372,036,854,775,807 and texts longer than 8,388,608 bytes, is this project's own. The length is tested
/// first.
pub fn tokens(alloc: Global, text: &[u8]) -> Result<TokenList, LexFault>
    // What is answered, the text spells.
    ensures ok { IfOk result (λ found. Spells text.now found) }
    // Names are no keywords, and texts, integers and places are in range.
    ensures promised { IfOk result (λ found. IsTokenList found) }
    // What the text spells, is answered, unless memory runs out.
    ensures only { (tokens : List Token) → Spells text.now tokens
        → MatchResult result (λ found. found ≡ tokens) (λ fault. fault ≡ LexFault.NoMemory) }

    // What is wrong with the text, and nothing else but want of memory, is the error.
    ensures fault { IfErr result (λ fault. (fault ≡ LexFault.NoMemory) ⊎ HasFault text.now fault) }
    ensures only_fault { (fault : LexFault) → HasFault text.now fault
        → MatchResult result (λ _. ⊥) (λ found. (found ≡ LexFault.NoMemory) ⊎ (found ≡ fault)) }
{
    if text.len() > LONGEST {
        return Err(LexFault::TooLong {
            length: text.len() as u64,
        });
    }
    match all(alloc, text) {
        Ok(tokens) => Ok(TokenList::from_vec(tokens)),
        Err(stop) => Err(fault(text.len(), stop)),
    }
}
