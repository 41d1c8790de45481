ghost use Rattle.std.specs.Prelude.{◌≡◌, ℕ, ◌≤◌, ◌++◌, ◌∷◌, List, [], map, All, IfOk, MatchResult, OnOk, Ok, None};
ghost use Rattle.std.specs.Vec.Iter.{into_iter_items};
ghost use Rattle.lua_syntax.specs.declared.tree.Named.{Named};
ghost use Rattle.lua_value.specs.Ordered.{IsOrdered, IsServed};
ghost use Rattle.lua_value.specs.View.{datum};
ghost use Rattle.lua_syntax.specs.Trees.{trees};
ghost use Rattle.lua_eval.specs.Finding.{AreIntegersAmong, IsFaultOf};
ghost use Rattle.lua_eval.specs.Laws.{IsServedChunk, IsServedStatement};
ghost use Rattle.lua_eval.specs.Names.{paired, twice};
ghost use Rattle.lua_eval.specs.Running.{state_of, IsTwice};
ghost use Rattle.lua_eval.specs.Values.{assign_all, assign, declare, run_statement, value_of};

use crate::fault::EvalFault;
use crate::find::find_all;
use crate::scope::Scope;
use crate::weight::HEAVIEST;
use lua_scope::{Globals, Locals};
use lua_syntax::{Expr, LuaChunk, Named, Statement};
use lua_value::{Key, Table, Value};
use std::alloc::{AllocError, Global};
use std::vec::IntoIter;

/// The globals after all statements of a chunk (Lua 5.4 manual, sections 3.3 and 3.4, as far as served): locals hide
/// globals of their names, and a global that is Nil is absent. The error is the first fault with its place, as
/// `EvalFault` says, or `NoMemory`.
///
/// The integers in the chunk are at most 9,223,372,036,854,775,807.
pub fn evaluate(alloc: Global, chunk: &LuaChunk) -> Result<Table, EvalFault>
    requires integers { IsServedChunk chunk.now }
    ensures globals { MatchResult result
        (λ globals. value_of chunk.now ≡ Ok globals) (IsFaultOf (value_of chunk.now)) }
    ensures ordered { IfOk result (λ globals. IsOrdered globals) }
{
    let mut scope = Scope {
        locals: Locals::new(alloc),
        globals: Globals::new(alloc),
    };
    let mut sum = 0;
    for statement in chunk.statements.as_slice() {
        sum = run_statement(alloc, &mut scope, statement, sum)?;
    }
    Ok(scope.globals.into_table()?)
}

/// Runs a statement, and answers the sum of weights.
fn run_statement(
    alloc: Global,
    scope: &mut Scope,
    statement: &Statement,
    sum: u64,
) -> Result<u64, EvalFault>
    requires integers { IsServedStatement statement.now }
    requires low { sum ≤ HEAVIEST }
    ensures run { MatchResult result
        (λ now. run_statement statement.now (state_of scope.old sum) ≡ Ok (state_of scope.new now))
        (IsFaultOf (run_statement statement.now (state_of scope.old sum))) }
    ensures low { IfOk result (λ now. now ≤ HEAVIEST) }
{
    match statement {
        Statement::Assign { names, values } => {
            assign(alloc, scope, names.as_slice(), values.as_slice(), sum)
        }
        Statement::Local { names, values } => {
            declare(alloc, scope, names.as_slice(), values.as_slice(), sum)
        }
    }
}

/// Gives names values, all of which are found first.
fn assign(
    alloc: Global,
    scope: &mut Scope,
    names: &[Named],
    values: &[Expr],
    sum: u64,
) -> Result<u64, EvalFault>
    requires integers { AreIntegersAmong (trees values.now) }
    requires low { sum ≤ HEAVIEST }
    ensures run { MatchResult result
        (λ now. assign (twice [] names.now) names.now (trees values.now) (state_of scope.old sum)
        ≡ Ok (state_of scope.new now))
        (IsFaultOf
        (assign (twice [] names.now) names.now (trees values.now) (state_of scope.old sum))) }
    ensures low { IfOk result (λ now. now ≤ HEAVIEST) }
{
    differ(alloc, names)?;
    let (found, sum) = find_all(alloc, scope, values, sum)?;
    assign_all(scope, names, found)?;
    Ok(sum)
}

/// Fails where a name stands twice.
fn differ(alloc: Global, names: &[Named]) -> Result<(), EvalFault>
    ensures { MatchResult result (λ _. twice [] names.now ≡ None) (IsTwice (twice [] names.now)) }
{
    let mut seen = Table::new(alloc);
    for named in names {
        let key = Key::Text(named.name.copy(alloc)?);
        if seen.insert(key, Value::Bool(true))?.is_some() {
            return Err(EvalFault::TwiceName { place: named.place });
        }
    }
    Ok(())
}

/// Gives each name its value; missing ones are Nil, and surplus ones are dropped.
fn assign_all(scope: &mut Scope, names: &[Named], values: Vec<Value>) -> Result<(), AllocError>
    requires { All IsServed (map datum values.items) }
    ensures { (sum : ℕ) → OnOk result (state_of scope.new sum
        ≡ assign_all (paired names.now (map datum values.items)) (state_of scope.old sum)) }
{
    let mut left = values.into_iter();
    for named in names {
        scope.assign(&named.name, next_or_nil(&mut left))?;
    }
    Ok(())
}

/// The next of the values, or Nil.
fn next_or_nil(left: &mut IntoIter<Value>) -> Value
    ensures paired { (named : Named) (names : List Named)
        → paired (named ∷ names) (map datum (into_iter_items left.old))
        ≡ (named.name, datum result) ∷ paired names (map datum (into_iter_items left.new)) }
    ensures served { All IsServed (map datum (into_iter_items left.old))
        → IsServed (datum result) × All IsServed (map datum (into_iter_items left.new)) }
{
    left.next().unwrap_or(Value::Nil)
}

/// Declares locals, whose values are found first.
fn declare(
    alloc: Global,
    scope: &mut Scope,
    names: &[Named],
    values: &[Expr],
    sum: u64,
) -> Result<u64, EvalFault>
    requires integers { AreIntegersAmong (trees values.now) }
    requires low { sum ≤ HEAVIEST }
    ensures run { MatchResult result
        (λ now. declare names.now (trees values.now) (state_of scope.old sum)
        ≡ Ok (state_of scope.new now))
        (IsFaultOf (declare names.now (trees values.now) (state_of scope.old sum))) }
    ensures low { IfOk result (λ now. now ≤ HEAVIEST) }
{
    let (found, sum) = find_all(alloc, scope, values, sum)?;
    declare_all(&mut scope.locals, names, found)?;
    Ok(sum)
}

/// Adds a local for each name; missing values are Nil, and surplus ones are dropped.
fn declare_all(locals: &mut Locals, names: &[Named], values: Vec<Value>) -> Result<(), AllocError>
    requires { All IsServed (map datum values.items) }
    ensures { OnOk result
        (locals.new ≡ locals.old ++ paired names.now (map datum values.items)) }
{
    let mut left = values.into_iter();
    for named in names {
        locals.push(&named.name, next_or_nil(&mut left))?;
    }
    Ok(())
}
