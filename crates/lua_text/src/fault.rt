ghost use Rattle.std.specs.Prelude.{◌≡◌, ◌++◌, IfOk, codes, string_bytes};
ghost use Rattle.lua_text.specs.Texts.{numbered, lex_text, unserved_text, syntax_text, kind_text, eval_text, fault_text};

use lua_eval::{EvalFault, ValueKind};
use lua_lexer::LexFault;
use lua_syntax::{SyntaxFault, Unserved};
use std::alloc::{AllocError, Global};

/// Why a Lua text has no globals. None of the inner faults is want of memory.
#[derive(Clone, Copy, Debug, PartialEq, Eq)]
pub enum EvalFailed {
    /// The text has no tokens.
    Lex(LexFault),
    /// Its tokens are no chunk.
    Syntax(SyntaxFault),
    /// Its chunk has no globals.
    Eval(EvalFault),
}

impl EvalFailed {
    /// The fault as replies tell it: its name and its values with a blank between (this project's own).
    /// The only error is want of memory.
    pub fn text(&self, alloc: Global) -> Result<String, AllocError>
        ensures { IfOk result (λ text. string_bytes text ≡ fault_text self.now) }
    {
        match self {
            EvalFailed::Lex(fault) => lex_text(alloc, *fault),
            EvalFailed::Syntax(fault) => syntax_text(alloc, *fault),
            EvalFailed::Eval(fault) => eval_text(alloc, *fault),
        }
    }
}

/// A name, a number and a word, with a blank between.
fn worded(alloc: Global, name: &str, number: u32, word: &str) -> Result<String, AllocError>
    ensures { IfOk result (λ text. string_bytes text
        ≡ numbered name.now number ++ codes " " ++ word.now) }
{
    format!(in alloc; "{name} {number} {word}")
}

fn lex_text(alloc: Global, fault: LexFault) -> Result<String, AllocError>
    ensures { IfOk result (λ text. string_bytes text ≡ lex_text fault) }
{
    match fault {
        LexFault::TooLong { length } => format!(in alloc; "TooLong {length}"),
        LexFault::BadByte { place } => format!(in alloc; "BadByte {place}"),
        LexFault::OpenString { place } => format!(in alloc; "OpenString {place}"),
        LexFault::OpenBracket { place } => format!(in alloc; "OpenBracket {place}"),
        LexFault::BadEscape { place } => format!(in alloc; "BadEscape {place}"),
        LexFault::BadNumeral { place } => format!(in alloc; "BadNumeral {place}"),
        LexFault::NumberTooLarge { place } => format!(in alloc; "NumberTooLarge {place}"),
        LexFault::NoMemory => format!(in alloc; "NoMemory"),
    }
}

fn syntax_text(alloc: Global, fault: SyntaxFault) -> Result<String, AllocError>
    ensures { IfOk result (λ text. string_bytes text ≡ syntax_text fault) }
{
    match fault {
        SyntaxFault::Expected { place } => format!(in alloc; "Expected {place}"),
        SyntaxFault::NotServed { place, which } => {
            worded(alloc, "NotServed", place, unserved_text(which))
        }
        SyntaxFault::TooDeep { place } => format!(in alloc; "TooDeep {place}"),
        SyntaxFault::NoMemory => format!(in alloc; "NoMemory"),
    }
}

fn unserved_text(which: Unserved) -> &'static str
    ensures { result.now ≡ unserved_text which }
{
    match which {
        Unserved::Control => "Control",
        Unserved::Function => "Function",
        Unserved::Call => "Call",
        Unserved::Vararg => "Vararg",
        Unserved::Operator => "Operator",
        Unserved::FieldAssign => "FieldAssign",
        Unserved::Attribute => "Attribute",
        Unserved::Environment => "Environment",
    }
}

fn eval_text(alloc: Global, fault: EvalFault) -> Result<String, AllocError>
    ensures { IfOk result (λ text. string_bytes text ≡ eval_text fault) }
{
    match fault {
        EvalFault::ConcatOf { place, kind } => worded(alloc, "ConcatOf", place, kind_text(kind)),
        EvalFault::IndexOf { place, kind } => worded(alloc, "IndexOf", place, kind_text(kind)),
        EvalFault::NilKey { place } => format!(in alloc; "NilKey {place}"),
        EvalFault::TableKey { place } => format!(in alloc; "TableKey {place}"),
        EvalFault::TwiceKey { place } => format!(in alloc; "TwiceKey {place}"),
        EvalFault::TwiceName { place } => format!(in alloc; "TwiceName {place}"),
        EvalFault::TooLarge { place } => format!(in alloc; "TooLarge {place}"),
        EvalFault::NoMemory => format!(in alloc; "NoMemory"),
    }
}

/// The name of a type (Lua 5.4 manual, section 2.1).
fn kind_text(kind: ValueKind) -> &'static str
    ensures { result.now ≡ kind_text kind }
{
    match kind {
        ValueKind::Nil => "nil",
        ValueKind::Bool => "boolean",
        ValueKind::Int => "number",
        ValueKind::Text => "string",
        ValueKind::Table => "table",
    }
}
