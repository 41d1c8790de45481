//! Laws of what chunks evaluate to, as contracts of functions that do nothing.
ghost use Rattle.std.specs.Prelude.{◌≡◌, ◌≢◌, ◌≤◌, ℕ, List, ◌++◌, Ok, Err};
ghost use Rattle.lua_syntax.specs.declared.tree.Statement.{Statement};
ghost use Rattle.lua_value.specs.Depth.{depth};
ghost use Rattle.lua_value.specs.Ordered.{IsOrdered};
ghost use Rattle.lua_value.specs.Pairs.{Pairs};
ghost use Rattle.lua_eval.specs.declared.fault.EvalFault.TheVariants.{NoMemory};
ghost use Rattle.lua_eval.specs.declared.weight.TheConstants.{HEAVIEST, DEEPEST};
ghost use Rattle.lua_eval.specs.Joins.{and_then};
ghost use Rattle.lua_eval.specs.Laws.{IsServedChunk, values_weight, EachKey, IsAssigned};
ghost use Rattle.lua_eval.specs.Values.{run, start, value_of};

use lua_syntax::LuaChunk;

/// The globals of a chunk are ordered and hold no Nil at any depth. In none of them do more than 100 tables stand
/// within one another, and together their values weigh no more than the limit.
pub fn globals(chunk: &LuaChunk)
    ensures { (globals : Pairs) → IsServedChunk chunk.now → value_of chunk.now ≡ Ok globals
        → IsOrdered globals × (depth globals ≤ DEEPEST) × (values_weight globals ≤ HEAVIEST) }
{}

/// A chunk cut in two comes to what its second part comes to in the state that the first one leaves.
pub fn parts(chunk: &LuaChunk)
    ensures { (first second : List Statement) → chunk.now.statements ≡ first ++ second
        → value_of chunk.now ≡ and_then (run first start)
        (λ state. and_then (run second state) (λ last. Ok last.globals)) }
{}

/// Every global of a chunk has a name that one of its statements assigns.
pub fn keys(chunk: &LuaChunk)
    ensures { (globals : Pairs) → value_of chunk.now ≡ Ok globals
        → EachKey (IsAssigned chunk.now.statements) globals }
{}

/// What a chunk comes to is never want of memory: the definition has faults of the chunk alone.
pub fn faults(chunk: &LuaChunk)
    ensures { value_of chunk.now ≢ Err NoMemory }
{}
