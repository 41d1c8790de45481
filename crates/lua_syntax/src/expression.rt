ghost use Rattle.std.specs.Prelude.{◌≡◌, ◌≤◌, IfOk, IfErr, IfSome, MatchOption};
ghost use Rattle.lua_lexer.specs.TokenLists.{EndsOnce};
ghost use Rattle.lua_syntax.specs.declared.position.Ending.TheVariants.{Prefix};
ghost use Rattle.lua_syntax.specs.Brackets.{Keeps};
ghost use Rattle.lua_syntax.specs.Failing.{BeginsNoOther, KeepsBehind};
ghost use Rattle.lua_syntax.specs.Failing.{FailsAtExpression, FailsAtOperand, FailsBehindPrefix, FailsInSquare};
ghost use Rattle.lua_syntax.specs.Grammar.{IsExp, IsSimple, IsPrefix, IsBase, joined, indexed};
ghost use Rattle.lua_syntax.specs.Reading.{BeginsWith, NotAhead, NoSuffix, Takes, TakesPart, IsSuffix, IsBracketed, IsLiteral};

use crate::cursor::{after_symbol, behind, first, name, name_of, opened};
use crate::fault::SyntaxFault;
use crate::position::{Ending, Position, refused};
use crate::table::table;
use crate::tree::{Expr, ExprKind, Suffix};
use lua_lexer::{Keyword, Symbol, Token, TokenKind};
use sqlite_items::{Boxed, Items};
use std::alloc::Global;

/// Where a token stands with which an expression might begin.
const START: [Position; 2] = [Position::ExpressionStart, Position::NameStart];

/// The expression at the front of the tokens, what it ends with, and the tokens behind it. So many brackets are
/// open before it, here and below.
#[cycle(expression)]
pub fn expression<'a>(
    alloc: Global,
    depth: u32,
    tokens: &'a [Token],
) -> Result<(Expr, Ending, &'a [Token]), SyntaxFault>
    requires ended { EndsOnce tokens.now }
    requires low { depth ≤ 100 }
    ensures ok { IfOk result (λ r. Takes IsExp tokens.now r.0 r.1 r.2.now) }
    ensures ends { IfOk result (λ r. NotAhead Symbol.Concat r.2.now) }
    ensures keeps { IfOk result (λ r. Keeps depth tokens.now r.2.now) }
    ensures fails { IfErr result (λ fault. FailsAtExpression depth tokens.now fault) }
{
    let (operand, mut ending, mut rest) = simple(alloc, depth, tokens)?;
    let mut others = Vec::new(alloc);
    let mut operators = Vec::new(alloc);
    while let Some((place, after)) = after_symbol(Symbol::Concat, rest) {
        let (other, ends, after) = simple(alloc, depth, after)?;
        others.push(other)?;
        operators.push(place)?;
        ending = ends;
        rest = after;
    }
    let (token, _) = first(tokens);
    let expression = joined(alloc, token.place, operand, others, operators)?;
    Ok((expression, ending, rest))
}

/// The operands in one node, if there is more than one.
fn joined(
    alloc: Global,
    place: u32,
    operand: Expr,
    others: Vec<Expr>,
    operators: Vec<u32>,
) -> Result<Expr, SyntaxFault>
    ensures ok { IfOk result (λ r. r ≡ joined place operand others.items operators.items) }
    ensures fails { IfErr result (λ fault. fault ≡ SyntaxFault.NoMemory) }
{
    if others.is_empty() {
        return Ok(operand);
    }
    let mut operands = Items::new(alloc);
    operands.push(operand)?;
    operands.append(Items::from_vec(others))?;
    Ok(Expr {
        place,
        kind: ExprKind::Concat(operands, Items::from_vec(operators)),
    })
}

/// An expression without `..`.
#[cycle(expression)]
fn simple<'a>(
    alloc: Global,
    depth: u32,
    tokens: &'a [Token],
) -> Result<(Expr, Ending, &'a [Token]), SyntaxFault>
    requires ended { EndsOnce tokens.now }
    requires low { depth ≤ 100 }
    ensures ok { IfOk result (λ r. Takes IsSimple tokens.now r.0 r.1 r.2.now) }
    ensures keeps { IfOk result (λ r. Keeps depth tokens.now r.2.now) }
    ensures fails { IfErr result (λ fault. FailsAtOperand depth tokens.now fault) }
{
    let (token, rest) = first(tokens);
    if let Some(kind) = literal(alloc, token)? {
        let place = token.place;
        return Ok((Expr { place, kind }, Ending::Whole, rest));
    }
    match after_symbol(Symbol::OpenBrace, tokens) {
        Some((place, rest)) => {
            let (table, rest) = table(alloc, depth, place, rest)?;
            Ok((table, Ending::Whole, rest))
        }
        None => {
            let (prefix, rest) = prefix(alloc, depth, tokens)?;
            Ok((prefix, Ending::Prefix, rest))
        }
    }
}

/// What the token alone is as an expression, if it is one and no name.
fn literal(alloc: Global, token: &Token) -> Result<Option<ExprKind>, SyntaxFault>
    ensures ok { IfOk result
        (λ found. MatchOption found (BeginsNoOther token.now) (IsLiteral token.now)) }
    ensures fails { IfErr result (λ fault. fault ≡ SyntaxFault.NoMemory) }
{
    match &token.kind {
        TokenKind::Keyword(Keyword::Nil) => Ok(Some(ExprKind::Nil)),
        TokenKind::Keyword(Keyword::True) => Ok(Some(ExprKind::Bool(true))),
        TokenKind::Keyword(Keyword::False) => Ok(Some(ExprKind::Bool(false))),
        TokenKind::Int(number) => Ok(Some(ExprKind::Int(*number))),
        TokenKind::Text(text) => Ok(Some(ExprKind::Text(text.copy(alloc)?))),
        _ => Ok(None),
    }
}

/// A base with its suffixes.
#[cycle(expression)]
fn prefix<'a>(
    alloc: Global,
    depth: u32,
    tokens: &'a [Token],
) -> Result<(Expr, &'a [Token]), SyntaxFault>
    requires ended { EndsOnce tokens.now }
    requires low { depth ≤ 100 }
    requires other { BeginsWith BeginsNoOther tokens.now }
    requires no_table { NotAhead Symbol.OpenBrace tokens.now }
    ensures ok { IfOk result (λ r. Takes IsPrefix tokens.now r.0 Prefix r.1.now) }
    ensures keeps { IfOk result (λ r. Keeps depth tokens.now r.1.now) }
    ensures fails { IfErr result (λ fault. FailsAtOperand depth tokens.now fault) }
{
    let (base, mut rest) = base(alloc, depth, tokens)?;
    let mut suffixes = Vec::new(alloc);
    while let Some((suffix, after)) = suffix(alloc, depth, rest)? {
        suffixes.push(suffix)?;
        rest = after;
    }
    let (token, _) = first(tokens);
    let prefix = indexed(alloc, token.place, base, suffixes)?;
    Ok((prefix, rest))
}

/// The base and its suffixes in one node, if there is one.
fn indexed(
    alloc: Global,
    place: u32,
    base: Expr,
    suffixes: Vec<Suffix>,
) -> Result<Expr, SyntaxFault>
    ensures ok { IfOk result (λ r. r ≡ indexed place base suffixes.items) }
    ensures fails { IfErr result (λ fault. fault ≡ SyntaxFault.NoMemory) }
{
    if suffixes.is_empty() {
        return Ok(base);
    }
    let base = Boxed::new(alloc, base)?;
    Ok(Expr {
        place,
        kind: ExprKind::Index(base, Items::from_vec(suffixes)),
    })
}

/// A name, or an expression in parentheses.
#[cycle(expression)]
fn base<'a>(
    alloc: Global,
    depth: u32,
    tokens: &'a [Token],
) -> Result<(Expr, &'a [Token]), SyntaxFault>
    requires ended { EndsOnce tokens.now }
    requires low { depth ≤ 100 }
    requires other { BeginsWith BeginsNoOther tokens.now }
    requires no_table { NotAhead Symbol.OpenBrace tokens.now }
    ensures ok { IfOk result (λ r. TakesPart IsBase tokens.now r.0 Prefix r.1.now) }
    ensures keeps { IfOk result (λ r. Keeps depth tokens.now r.1.now) }
    ensures fails { IfErr result (λ fault. FailsAtOperand depth tokens.now fault) }
{
    let (token, rest) = first(tokens);
    if let Some(name) = name_of(token) {
        let kind = ExprKind::Name(name.copy(alloc)?);
        let place = token.place;
        return Ok((Expr { place, kind }, rest));
    }
    match after_symbol(Symbol::OpenParen, tokens) {
        Some((place, rest)) => {
            let depth = opened(depth, place)?;
            let (inner, ending, rest) = expression(alloc, depth, rest)?;
            let rest = behind(Symbol::CloseParen, ending.positions(), rest)?;
            Ok((inner, rest))
        }
        None => Err(refused(&START, token)),
    }
}

/// The suffix at the front of the tokens, if they begin with one.
#[cycle(expression)]
fn suffix<'a>(
    alloc: Global,
    depth: u32,
    tokens: &'a [Token],
) -> Result<Option<(Suffix, &'a [Token])>, SyntaxFault>
    requires ended { EndsOnce tokens.now }
    requires low { depth ≤ 100 }
    ensures ok { IfOk result (λ r. MatchOption r (NoSuffix Prefix tokens.now)
        (λ found. TakesPart IsSuffix tokens.now found.0 Prefix found.1.now)) }
    ensures keeps { IfOk result (λ r. IfSome r (λ found. Keeps depth tokens.now found.1.now)) }
    ensures fails { IfErr result (λ fault. FailsBehindPrefix depth tokens.now fault) }
{
    if let Some((place, rest)) = after_symbol(Symbol::Dot, tokens) {
        let (named, rest) = name(alloc, &[Position::NameStart], rest)?;
        let key = Expr {
            place: named.place,
            kind: ExprKind::Text(named.name),
        };
        return Ok(Some((Suffix { place, key }, rest)));
    }
    match after_symbol(Symbol::OpenBracket, tokens) {
        Some((place, rest)) => {
            let (key, rest) = bracketed(alloc, depth, place, rest)?;
            Ok(Some((Suffix { place, key }, rest)))
        }
        None => Ok(None),
    }
}

/// The expression behind a `[` at this place, and the tokens behind its `]`.
#[cycle(expression)]
pub fn bracketed<'a>(
    alloc: Global,
    depth: u32,
    place: u32,
    tokens: &'a [Token],
) -> Result<(Expr, &'a [Token]), SyntaxFault>
    requires ended { EndsOnce tokens.now }
    requires low { depth ≤ 100 }
    ensures ok { IfOk result (λ r. TakesPart IsBracketed tokens.now r.0 Prefix r.1.now) }
    ensures keeps { IfOk result (λ r. KeepsBehind depth tokens.now r.1.now) }
    ensures fails { IfErr result (λ fault. FailsInSquare depth place tokens.now fault) }
{
    let depth = opened(depth, place)?;
    let (key, ending, rest) = expression(alloc, depth, tokens)?;
    let rest = behind(Symbol::CloseBracket, ending.positions(), rest)?;
    Ok((key, rest))
}
