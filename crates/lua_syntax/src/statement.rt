ghost use Rattle.std.specs.Prelude.{◌≡◌, ◌⊎◌, ◌↔◌, [], ◌∷◌, ◌++◌, ℕ, List, IsTrue, IfOk, IfErr, MatchResult};
ghost use Rattle.lua_lexer.specs.TokenLists.{EndsOnce};
ghost use Rattle.lua_syntax.specs.declared.fault.SyntaxFault.{SyntaxFault};
ghost use Rattle.lua_syntax.specs.declared.tree.LuaChunk.{LuaChunk};
ghost use Rattle.lua_syntax.specs.declared.tree.Statement.{Statement};
ghost use Rattle.lua_syntax.specs.Brackets.{Keeps, IsLow};
ghost use Rattle.lua_syntax.specs.Chunks.{IsChunk, Derives};
ghost use Rattle.lua_syntax.specs.Failing.{IsFailure, IsNameless, IsNamelessBehind, NoEnd};
ghost use Rattle.lua_syntax.specs.Failing.{AwaitsStatement, LeadsOn, positions_before, maybe};
ghost use Rattle.lua_syntax.specs.Faults.{HasFault};
ghost use Rattle.lua_syntax.specs.declared.statement.Before.{Before};
ghost use Rattle.lua_syntax.specs.Grammar.{IsName, IsNames, IsValues};
ghost use Rattle.lua_syntax.specs.Reading.{BeginsWith, NotAhead, Takes, TakesSome};
ghost use Rattle.lua_syntax.specs.Reading.{IsOneStatement, IsLocalFrom, IsMaybeStatement};
ghost use Rattle.lua_syntax.specs.States.{State, Wanting, nothing, among_values};
ghost use Rattle.lua_syntax.specs.States.{statement_start, behind_local, operand_start};

use crate::cursor::{after_symbol, behind, first, name, name_of};
use crate::expression::expression;
use crate::fault::SyntaxFault;
use crate::position::{Ending, Position, refused};
use crate::tree::{Expr, LuaChunk, Named, Statement};
use lua_lexer::{Keyword, Symbol, Token, TokenKind, TokenList};
use sqlite_items::Items;
use std::alloc::Global;

/// What stands before a statement.
#[derive(Clone, Copy, Debug, PartialEq, Eq)]
enum Before {
    /// Nothing, or a `;`.
    Start,
    /// The names of a `local` without values.
    LocalNames,
    /// A value that ends so.
    Value(Ending),
}

impl Before {
    /// Where the token behind it stands.
    fn positions(self) -> &'static [Position]
        ensures { result.now ≡ positions_before self }
    {
        match self {
            Before::Start => &[Position::StatementStart, Position::NameStart],
            Before::LocalNames => &[
                Position::StatementStart,
                Position::NameStart,
                Position::BehindLocalNames,
            ],
            Before::Value(Ending::Whole) => &[
                Position::StatementStart,
                Position::NameStart,
                Position::BehindExpression,
            ],
            Before::Value(Ending::Prefix) => &[
                Position::StatementStart,
                Position::NameStart,
                Position::BehindExpression,
                Position::BehindPrefix,
            ],
        }
    }
}

/// Names between commas, and the tokens behind them. A token in place of the first stands at these places.
fn names<'a>(
    alloc: Global,
    positions: &[Position],
    tokens: &'a [Token],
) -> Result<(Items<Named>, &'a [Token]), SyntaxFault>
    requires { EndsOnce tokens.now }
    ensures ok { IfOk result (λ r. TakesSome IsNames tokens.now r.0 r.1.now) }
    ensures ends { IfOk result (λ r. NotAhead Symbol.Comma r.1.now) }
    ensures fails { IfErr result (λ fault. (fault ≡ SyntaxFault.NoMemory)
        ⊎ (IsNameless positions.now tokens.now fault ⊎ IsNamelessBehind tokens.now fault)) }
{
    let (named, mut rest) = name(alloc, positions, tokens)?;
    let mut names = Items::new(alloc);
    names.push(named)?;
    while let Some((_, after)) = after_symbol(Symbol::Comma, rest) {
        let (named, after) = name(alloc, &[Position::NameStart], after)?;
        names.push(named)?;
        rest = after;
    }
    Ok((names, rest))
}

/// Expressions between commas, what the last ends with, and the tokens behind them.
fn values<'a>(
    alloc: Global,
    tokens: &'a [Token],
) -> Result<(Items<Expr>, Ending, &'a [Token]), SyntaxFault>
    requires { EndsOnce tokens.now }
    ensures ok { IfOk result (λ r. Takes IsValues tokens.now r.0 r.1 r.2.now) }
    ensures ends { IfOk result
        (λ r. NotAhead Symbol.Comma r.2.now × NotAhead Symbol.Concat r.2.now) }
    ensures keeps { IfOk result (λ r. Keeps 0 tokens.now r.2.now) }
    ensures fails { IfErr result (λ fault. (wanting : Wanting)
        → IsFailure 0 (operand_start nothing (among_values wanting)) tokens.now fault) }
{
    let (value, mut ending, mut rest) = expression(alloc, 0, tokens)?;
    let mut values = Items::new(alloc);
    values.push(value)?;
    while let Some((_, after)) = after_symbol(Symbol::Comma, rest) {
        let (value, ends, after) = expression(alloc, 0, after)?;
        values.push(value)?;
        ending = ends;
        rest = after;
    }
    Ok((values, ending, rest))
}

/// An assignment, which begins with the first of the tokens, a name.
fn assignment<'a>(
    alloc: Global,
    tokens: &'a [Token],
) -> Result<(Statement, Before, &'a [Token]), SyntaxFault>
    requires ended { EndsOnce tokens.now }
    requires named { BeginsWith (λ token. (name : List ℕ) × IsName token name) tokens.now }
    ensures ok { IfOk result (λ r. TakesSome IsOneStatement tokens.now r.0 r.2.now) }
    ensures keeps { IfOk result (λ r. Keeps 0 tokens.now r.2.now) }
    ensures leads { IfOk result (λ r. (before : Before) (done : List Statement) (state : State)
        → AwaitsStatement before done state tokens.now
        → LeadsOn r.1 (done ++ r.0 ∷ []) state tokens.now r.2.now) }
    ensures fails { IfErr result (λ fault. (before : Before) (done : List Statement) (state : State)
        → AwaitsStatement before done state tokens.now → IsFailure 0 state tokens.now fault) }
{
    let (names, rest) = names(alloc, &[Position::NameStart], tokens)?;
    let rest = behind(Symbol::Assign, &[Position::BehindNames], rest)?;
    let (values, ending, rest) = values(alloc, rest)?;
    let statement = Statement::Assign { names, values };
    Ok((statement, Before::Value(ending), rest))
}

/// What follows `local`.
fn local<'a>(
    alloc: Global,
    tokens: &'a [Token],
) -> Result<(Statement, Before, &'a [Token]), SyntaxFault>
    requires { EndsOnce tokens.now }
    ensures ok { IfOk result (λ r. TakesSome IsLocalFrom tokens.now r.0 r.2.now) }
    ensures keeps { IfOk result (λ r. Keeps 0 tokens.now r.2.now) }
    ensures leads { IfOk result (λ r. (done : List Statement)
        → LeadsOn r.1 (done ++ r.0 ∷ []) (behind_local done) tokens.now r.2.now) }
    ensures fails { IfErr result (λ fault. (done : List Statement)
        → IsFailure 0 (behind_local done) tokens.now fault) }
{
    let (names, rest) = names(alloc, &[Position::BehindLocal, Position::NameStart], tokens)?;
    match after_symbol(Symbol::Assign, rest) {
        Some((_, rest)) => {
            let (values, ending, rest) = values(alloc, rest)?;
            let statement = Statement::Local { names, values };
            Ok((statement, Before::Value(ending), rest))
        }
        None => {
            let values = Items::new(alloc);
            let statement = Statement::Local { names, values };
            Ok((statement, Before::LocalNames, rest))
        }
    }
}

/// The statement at the front of the tokens, none for a `;`, with what the next stands behind, and the tokens
/// behind it.
fn statement<'a>(
    alloc: Global,
    before: Before,
    tokens: &'a [Token],
) -> Result<(Option<Statement>, Before, &'a [Token]), SyntaxFault>
    requires ended { EndsOnce tokens.now }
    requires some { BeginsWith NoEnd tokens.now }
    ensures ok { IfOk result (λ r. TakesSome IsMaybeStatement tokens.now r.0 r.2.now) }
    ensures keeps { IfOk result (λ r. Keeps 0 tokens.now r.2.now) }
    ensures leads { IfOk result (λ r. (done : List Statement) (state : State)
        → AwaitsStatement before done state tokens.now
        → LeadsOn r.1 (done ++ maybe r.0) state tokens.now r.2.now) }
    ensures fails { IfErr result (λ fault. (done : List Statement) (state : State)
        → AwaitsStatement before done state tokens.now → IsFailure 0 state tokens.now fault) }
{
    if let Some((_, rest)) = after_symbol(Symbol::Semicolon, tokens) {
        return Ok((None, Before::Start, rest));
    }
    let (token, rest) = first(tokens);
    if is_local(token) {
        let (statement, before, rest) = local(alloc, rest)?;
        return Ok((Some(statement), before, rest));
    }
    match name_of(token) {
        Some(_) => {
            let (statement, before, rest) = assignment(alloc, tokens)?;
            Ok((Some(statement), before, rest))
        }
        None => Err(refused(before.positions(), token)),
    }
}

fn is_local(token: &Token) -> bool
    ensures { IsTrue result ↔ (token.now.kind ≡ TokenKind.Keyword Keyword.Local) }
{
    match &token.kind {
        TokenKind::Keyword(keyword) => *keyword == Keyword::Local,
        _ => false,
    }
}

/// The statements up to the end.
fn whole(alloc: Global, tokens: &[Token]) -> Result<LuaChunk, SyntaxFault>
    requires { EndsOnce tokens.now }
    ensures ok { IfOk result (λ found. IsChunk tokens.now found) }
    ensures low { IfOk result (λ found. IsLow 0 tokens.now) }
    ensures fails { IfErr result (λ fault. IsFailure 0 (statement_start []) tokens.now fault) }
{
    let mut statements = Items::new(alloc);
    let mut before = Before::Start;
    let mut rest = tokens;
    loop {
        let (token, _) = first(rest);
        if let TokenKind::End = &token.kind {
            return Ok(LuaChunk { statements });
        }
        let (found, next, after) = statement(alloc, before, rest)?;
        if let Some(found) = found {
            statements.push(found)?;
        }
        before = next;
        rest = after;
    }
}

/// The chunk that the tokens derive: assignments and `local` with tables, texts, integers, names, indexing, `..` and
/// parentheses (Lua 5.4 manual, section 9, as far as served), at most 100 brackets being open at once. The error is
/// the first fault, as `SyntaxFault` says, or `NoMemory`. The time is proportional to the number of tokens.
pub fn chunk(alloc: Global, tokens: &TokenList) -> Result<LuaChunk, SyntaxFault>
    // What is answered, the tokens derive.
    ensures ok { IfOk result (λ found. Derives tokens.now found) }
    // What the tokens derive, is answered, unless memory runs out.
    ensures only { (chunk : LuaChunk) → Derives tokens.now chunk
        → MatchResult result (λ found. found ≡ chunk) (λ fault. fault ≡ SyntaxFault.NoMemory) }

    // What is wrong with the tokens, and nothing else but want of memory, is the error.
    ensures fault { IfErr result
        (λ fault. (fault ≡ SyntaxFault.NoMemory) ⊎ HasFault tokens.now fault) }
    ensures only_fault { (fault : SyntaxFault) → HasFault tokens.now fault
        → MatchResult result (λ _. ⊥) (λ found. (found ≡ SyntaxFault.NoMemory) ⊎ (found ≡ fault)) }
{
    whole(alloc, tokens.as_slice())
}
