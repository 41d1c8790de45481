ghost use Rattle.std.specs.Prelude.{◌≡◌};
ghost use Rattle.lua_syntax.specs.Faults.{statement_keyword, binary_operator, unserved_at};
ghost use Rattle.lua_syntax.specs.Refusals.{refusal, positions_behind};

use crate::fault::{SyntaxFault, Unserved};
use lua_lexer::{Keyword, Symbol, Token, TokenKind};

/// Where a token stands, as far as it decides what isn't served.
#[derive(Clone, Copy, Debug, PartialEq, Eq)]
pub enum Position {
    StatementStart,
    ExpressionStart,
    BehindLocal,
    BehindExpression,
    BehindPrefix,
    /// Behind the names of an assignment.
    BehindNames,
    BehindLocalNames,
    NameStart,
}

/// What an expression ends with: with a prefix, behind which a suffix might follow, or not.
#[derive(Clone, Copy, Debug, PartialEq, Eq)]
pub enum Ending {
    Whole,
    Prefix,
}

impl Ending {
    /// Where the token behind such an expression stands.
    pub fn positions(self) -> &'static [Position]
        ensures { result.now ≡ positions_behind self }
    {
        match self {
            Ending::Whole => &[Position::BehindExpression],
            Ending::Prefix => &[Position::BehindExpression, Position::BehindPrefix],
        }
    }
}

fn statement_keyword(keyword: Keyword) -> Option<Unserved>
    ensures { result ≡ statement_keyword keyword }
{
    match keyword {
        Keyword::If
        | Keyword::While
        | Keyword::For
        | Keyword::Repeat
        | Keyword::Do
        | Keyword::Goto
        | Keyword::Break
        | Keyword::Return => Some(Unserved::Control),
        Keyword::Function => Some(Unserved::Function),
        _ => None,
    }
}

fn binary_operator(symbol: Symbol) -> Option<Unserved>
    ensures { result ≡ binary_operator symbol }
{
    match symbol {
        Symbol::Plus
        | Symbol::Minus
        | Symbol::Star
        | Symbol::Slash
        | Symbol::Percent
        | Symbol::Caret
        | Symbol::Amp
        | Symbol::Tilde
        | Symbol::Bar
        | Symbol::ShiftLeft
        | Symbol::ShiftRight
        | Symbol::DoubleSlash
        | Symbol::Equal
        | Symbol::NotEqual
        | Symbol::LessEqual
        | Symbol::GreaterEqual
        | Symbol::Less
        | Symbol::Greater => Some(Unserved::Operator),
        _ => None,
    }
}

/// What isn't served of a token of this kind that stands so.
fn unserved_at(position: Position, kind: &TokenKind) -> Option<Unserved>
    ensures { result ≡ unserved_at position kind.now }
{
    match (position, kind) {
        (Position::StatementStart, TokenKind::Keyword(keyword)) => statement_keyword(*keyword),
        (Position::StatementStart, TokenKind::Symbol(Symbol::DoubleColon)) => {
            Some(Unserved::Control)
        }
        (Position::StatementStart, TokenKind::Symbol(Symbol::OpenParen)) => Some(Unserved::Call),
        (Position::ExpressionStart, TokenKind::Keyword(Keyword::Function)) => {
            Some(Unserved::Function)
        }
        (Position::ExpressionStart, TokenKind::Symbol(Symbol::Dots)) => Some(Unserved::Vararg),
        (Position::ExpressionStart, TokenKind::Keyword(Keyword::Not)) => Some(Unserved::Operator),
        (
            Position::ExpressionStart,
            TokenKind::Symbol(Symbol::Minus | Symbol::Hash | Symbol::Tilde),
        ) => Some(Unserved::Operator),
        (Position::BehindLocal, TokenKind::Keyword(Keyword::Function)) => Some(Unserved::Function),
        (Position::BehindExpression, TokenKind::Symbol(symbol)) => binary_operator(*symbol),
        (Position::BehindExpression, TokenKind::Keyword(Keyword::And | Keyword::Or)) => {
            Some(Unserved::Operator)
        }
        (
            Position::BehindPrefix | Position::BehindNames,
            TokenKind::Symbol(Symbol::Colon | Symbol::OpenParen | Symbol::OpenBrace)
            | TokenKind::Text(_),
        ) => Some(Unserved::Call),
        (Position::BehindNames, TokenKind::Symbol(Symbol::Dot | Symbol::OpenBracket)) => {
            Some(Unserved::FieldAssign)
        }
        (Position::BehindLocalNames, TokenKind::Symbol(Symbol::Less)) => {
            Some(Unserved::Attribute)
        }
        (Position::NameStart, TokenKind::Name(name)) if name.as_slice() == b"_ENV".as_slice() => {
            Some(Unserved::Environment)
        }
        _ => None,
    }
}

/// The fault of a token that fits at none of these places, which are all at which it stands.
pub fn refused(positions: &[Position], token: &Token) -> SyntaxFault
    ensures { result ≡ refusal positions.now token.now }
{
    let place = token.place;
    for position in positions {
        if let Some(which) = unserved_at(*position, &token.kind) {
            return SyntaxFault::NotServed { place, which };
        }
    }
    SyntaxFault::Expected { place }
}
