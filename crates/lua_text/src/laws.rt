//! Laws of what Lua texts come to, as contracts of functions that do nothing.
ghost use Rattle.std.specs.Prelude.{◌≡◌, Result, Err};
ghost use Rattle.lua_value.specs.Pairs.{Pairs};
ghost use Rattle.lua_text.specs.declared.fault.EvalFailed.{EvalFailed};
ghost use Rattle.lua_text.specs.Outcomes.{HasOutcome, IsOfText};

/// A text has one outcome at most.
pub fn one_outcome(text: &[u8])
    ensures { (one other : Result Pairs EvalFailed) → HasOutcome text.now one
        → HasOutcome text.now other → one ≡ other }
{}

/// Every text has an outcome.
pub fn some_outcome(text: &[u8])
    ensures { (outcome : Result Pairs EvalFailed) × HasOutcome text.now outcome }
{}

/// A fault that a text comes to is the text's own, and never want of memory.
pub fn own_faults(text: &[u8])
    ensures { (fault : EvalFailed) → HasOutcome text.now (Err fault) → IsOfText fault }
{}
