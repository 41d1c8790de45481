ghost use Rattle.std.specs.Prelude.{◌≡◌, ◌≢◌, Result, IfOk};
ghost use Rattle.lua_print.specs.Printed.{HasNames};
ghost use Rattle.lua_value.specs.Ordered.{IsOrdered};
ghost use Rattle.lua_value.specs.Pairs.{Pairs};
ghost use Rattle.lua_text.specs.declared.fault.EvalFailed.{EvalFailed};
ghost use Rattle.lua_text.specs.Outcomes.{HasOutcome};

use crate::fault::EvalFailed;
use lua_eval::{EvalFault, evaluate};
use lua_lexer::{LexFault, tokens};
use lua_syntax::{SyntaxFault, chunk};
use lua_value::Table;
use std::alloc::{AllocError, Global};

/// The fault of a text with no tokens, unless memory ran out.
fn unspelled(fault: LexFault) -> Result<EvalFailed, AllocError>
    ensures { IfOk result (λ failed. (failed ≡ EvalFailed.Lex fault)
        × (fault ≢ LexFault.NoMemory)) }
{
    match fault {
        LexFault::NoMemory => Err(AllocError),
        fault => Ok(EvalFailed::Lex(fault)),
    }
}

/// The fault of tokens that derive no chunk, unless memory ran out.
fn underived(fault: SyntaxFault) -> Result<EvalFailed, AllocError>
    ensures { IfOk result (λ failed. (failed ≡ EvalFailed.Syntax fault)
        × (fault ≢ SyntaxFault.NoMemory)) }
{
    match fault {
        SyntaxFault::NoMemory => Err(AllocError),
        fault => Ok(EvalFailed::Syntax(fault)),
    }
}

/// The fault of a chunk with no globals, unless memory ran out.
fn faulty(fault: EvalFault) -> Result<EvalFailed, AllocError>
    ensures { IfOk result (λ failed. (failed ≡ EvalFailed.Eval fault)
        × (fault ≢ EvalFault.NoMemory)) }
{
    match fault {
        EvalFault::NoMemory => Err(AllocError),
        fault => Ok(EvalFailed::Eval(fault)),
    }
}

/// The globals of a Lua text, or its first fault (Lua 5.4 manual, section 3, as far as served). Each global's key is a
/// name and no keyword. The only error is want of memory.
pub fn globals(alloc: Global, text: &[u8]) -> Result<Result<Table, EvalFailed>, AllocError>
    ensures read { IfOk result (λ read. HasOutcome text.now read) }
    ensures only { (other : Result Pairs EvalFailed) → HasOutcome text.now other
        → IfOk result (λ read. read ≡ other) }
    ensures ordered { IfOk result (λ read. IfOk read IsOrdered) }
    ensures named { IfOk result (λ read. IfOk read HasNames) }
{
    let found = match tokens(alloc, text) {
        Ok(found) => found,
        Err(fault) => return Ok(Err(unspelled(fault)?)),
    };
    let tree = match chunk(alloc, &found) {
        Ok(tree) => tree,
        Err(fault) => return Ok(Err(underived(fault)?)),
    };
    match evaluate(alloc, &tree) {
        Ok(globals) => Ok(Ok(globals)),
        Err(fault) => Ok(Err(faulty(fault)?)),
    }
}
