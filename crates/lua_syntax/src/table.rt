ghost use Rattle.std.specs.Prelude.{◌≡◌, ◌≤◌, ◌∷◌, ◌⊎◌, [], IfOk, IfErr, MatchOption};
ghost use Rattle.lua_lexer.specs.TokenLists.{EndsOnce};
ghost use Rattle.lua_syntax.specs.declared.position.Ending.TheVariants.{Whole};
ghost use Rattle.lua_syntax.specs.Brackets.{Keeps};
ghost use Rattle.lua_syntax.specs.Failing.{KeepsBehind, IsUnseparated, IsNoName};
ghost use Rattle.lua_syntax.specs.Failing.{FailsAtField, FailsInTable, StopsBehind};
ghost use Rattle.lua_syntax.specs.Fields.{IsNamedKey, NoNamedField, HeadsNamedField, LeadsToValue};
ghost use Rattle.lua_syntax.specs.Grammar.{IsField};
ghost use Rattle.lua_syntax.specs.Reading.{NotAhead, Takes, TakesPart, TakesKey, IsTableFrom, Separated};
ghost use Rattle.lua_syntax.specs.Refusals.{refusal};

use crate::cursor::{after_symbol, behind, first, name_of, opened};
use crate::expression::{bracketed, expression};
use crate::fault::SyntaxFault;
use crate::position::{Ending, Position, refused};
use crate::tree::{Expr, ExprKind, Field, FieldKey};
use lua_lexer::{Symbol, Token, TokenKind};
use sqlite_items::Items;
use std::alloc::Global;

/// The table that begins with a `{` at this place and goes on with these tokens, and the tokens behind it.
#[cycle(expression)]
pub fn table<'a>(
    alloc: Global,
    depth: u32,
    place: u32,
    tokens: &'a [Token],
) -> Result<(Expr, &'a [Token]), SyntaxFault>
    requires ended { EndsOnce tokens.now }
    requires low { depth ≤ 100 }
    ensures ok { IfOk result (λ r. TakesPart (IsTableFrom place) tokens.now r.0 Whole r.1.now) }
    ensures keeps { IfOk result (λ r. KeepsBehind depth tokens.now r.1.now) }
    ensures fails { IfErr result (λ fault. FailsInTable depth place tokens.now fault) }
{
    let depth = opened(depth, place)?;
    let mut fields = Vec::new(alloc);
    let mut rest = tokens;
    loop {
        if let Some((_, behind)) = after_symbol(Symbol::CloseBrace, rest) {
            let kind = ExprKind::Table(Items::from_vec(fields));
            return Ok((Expr { place, kind }, behind));
        }
        let (field, ending, after) = field(alloc, depth, rest)?;
        fields.push(field)?;
        rest = separated(ending, after)?;
    }
}

/// The tokens behind a separator, or those from the `}` on; the field before them ends so.
fn separated<'a>(ending: Ending, tokens: &'a [Token]) -> Result<&'a [Token], SyntaxFault>
    requires { EndsOnce tokens.now }
    ensures ok { IfOk result (λ r. Separated tokens.now r.now) }
    ensures fails { IfErr result (λ fault. IsUnseparated ending tokens.now fault) }
{
    let (token, rest) = first(tokens);
    match &token.kind {
        TokenKind::Symbol(Symbol::Comma | Symbol::Semicolon) => Ok(rest),
        TokenKind::Symbol(Symbol::CloseBrace) => Ok(tokens),
        _ => Err(refused(ending.positions(), token)),
    }
}

/// The field at the front of the tokens, what it ends with, and the tokens behind it.
#[cycle(expression)]
fn field<'a>(
    alloc: Global,
    depth: u32,
    tokens: &'a [Token],
) -> Result<(Field, Ending, &'a [Token]), SyntaxFault>
    requires ended { EndsOnce tokens.now }
    requires low { depth ≤ 100 }
    requires some { NotAhead Symbol.CloseBrace tokens.now }
    ensures ok { IfOk result (λ r. Takes IsField tokens.now r.0 r.1 r.2.now) }
    ensures ends { IfOk result (λ r. NotAhead Symbol.Concat r.2.now) }
    ensures keeps { IfOk result (λ r. Keeps depth tokens.now r.2.now) }
    ensures stops { IfOk result (λ r. StopsBehind depth tokens.now r.1 r.2.now) }
    ensures fails { IfErr result (λ fault. FailsAtField depth tokens.now fault) }
{
    let (token, _) = first(tokens);
    let place = token.place;
    let (key, tokens) = field_key(alloc, depth, tokens)?;
    let (value, ending, rest) = expression(alloc, depth, tokens)?;
    Ok((Field { place, key, value }, ending, rest))
}

/// The key with which a field begins, and the tokens from its value on.
#[cycle(expression)]
fn field_key<'a>(
    alloc: Global,
    depth: u32,
    tokens: &'a [Token],
) -> Result<(FieldKey, &'a [Token]), SyntaxFault>
    requires ended { EndsOnce tokens.now }
    requires low { depth ≤ 100 }
    ensures ok { IfOk result (λ r. TakesKey tokens.now r.0 r.1.now) }
    ensures leads { IfOk result (λ r. LeadsToValue tokens.now r.0 r.1.now) }
    ensures keeps { IfOk result (λ r. Keeps depth tokens.now r.1.now) }
    ensures fails { IfErr result (λ fault. FailsAtField depth tokens.now fault) }
{
    if let Some((place, rest)) = after_symbol(Symbol::OpenBracket, tokens) {
        let (key, rest) = bracketed(alloc, depth, place, rest)?;
        let rest = behind(Symbol::Assign, &[], rest)?;
        return Ok((FieldKey::Given(key), rest));
    }
    match name_ahead(tokens) {
        Some((token, rest)) => {
            let key = named_key(alloc, token)?;
            Ok((FieldKey::Given(key), rest))
        }
        None => Ok((FieldKey::Position, tokens)),
    }
}

/// The key of a field that begins with this name; `_ENV` is none.
fn named_key(alloc: Global, token: &Token) -> Result<Expr, SyntaxFault>
    ensures ok { IfOk result (λ key. IsNamedKey token.now key) }
    ensures fails { IfErr result (λ fault. (fault ≡ SyntaxFault.NoMemory)
        ⊎ (IsNoName token.now × (fault ≡ refusal (Position.NameStart ∷ []) token.now))) }
{
    match name_of(token) {
        Some(name) => {
            let kind = ExprKind::Text(name.copy(alloc)?);
            let place = token.place;
            Ok(Expr { place, kind })
        }
        None => Err(refused(&[Position::NameStart], token)),
    }
}

/// The name with which the tokens begin, if `=` stands behind it, and the tokens behind that. The name may be `_ENV`.
fn name_ahead(tokens: &[Token]) -> Option<(&Token, &[Token])>
    requires { EndsOnce tokens.now }
    ensures { MatchOption result (NoNamedField tokens.now)
        (λ found. HeadsNamedField tokens.now found.0.now found.1.now) }
{
    let (token, rest) = first(tokens);
    match &token.kind {
        TokenKind::Name(_) => {
            let (_, rest) = after_symbol(Symbol::Assign, rest)?;
            Some((token, rest))
        }
        _ => None,
    }
}
