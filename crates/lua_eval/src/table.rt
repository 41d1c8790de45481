ghost use Rattle.std.specs.Prelude.{◌≡◌, ◌≤◌, ◌+◌, ◌*◌, ◌∷◌, List, IfOk, MatchResult, OnOk, Ok, Err};
ghost use Rattle.lua_syntax.specs.Trees.{tree, no_fields, field, fields};
ghost use Rattle.lua_value.specs.declared.key.Key.{Key};
ghost use Rattle.lua_value.specs.Key.{IsKey};
ghost use Rattle.lua_value.specs.Ordered.{IsOrdered, IsServed};
ghost use Rattle.lua_value.specs.View.{datum};
ghost use Rattle.lua_eval.specs.Finding.{HasIntegers, AreIntegersOf, IsFaultOf, AreGiven, tabled};
ghost use Rattle.lua_eval.specs.Finding.{taken, LeadsTo, FailsWith};
ghost use Rattle.lua_eval.specs.Names.{given};
ghost use Rattle.lua_eval.specs.Values.{key_of, unused, with_value};

use crate::fault::EvalFault;
use crate::find::{Found, counted, find};
use crate::scope::Scope;
use crate::weight::HEAVIEST;
use lua_syntax::{Expr, Field, FieldKey};
use lua_value::{Key, Table, Value};
use std::alloc::{AllocError, Global};

/// A table that is being made.
#[derive(Debug, Drop)]
struct Making {
    /// The keys that have a value.
    made: Table,
    /// The keys whose value was Nil, each with a truth value.
    without_value: Table,
}

/// The value of a table's fields in order.
#[cycle(find)]
pub(crate) fn find_table(
    alloc: Global,
    scope: &Scope,
    place: u32,
    list: &[Field],
    sum: u64,
) -> Result<Found, EvalFault>
    requires integers { AreIntegersOf (fields list.now) }
    requires low { sum ≤ HEAVIEST }
    ensures found { MatchResult result
        (λ found. tabled (given scope.now.locals scope.now.globals) place (fields list.now) sum
        ≡ Ok (datum found.value, found.sum))
        (IsFaultOf
        (tabled (given scope.now.locals scope.now.globals) place (fields list.now) sum)) }
    ensures served { IfOk result (λ found. IsServed (datum found.value)) }
    ensures low { IfOk result (λ found. found.sum ≤ HEAVIEST) }
    ensures grows { IfOk result (λ found. sum + 16 ≤ found.sum) }
{
    let mut making = Making {
        made: Table::new(alloc),
        without_value: Table::new(alloc),
    };
    let mut next = 1;
    let mut sum = sum;
    for field in list {
        (next, sum) = fill(alloc, scope, field, next, &mut making, sum)?;
    }
    counted(place, Value::Table(making.made), sum)
}

/// Takes a field into the table, and answers the key of the next positional one and the sum of weights.
#[cycle(find)]
fn fill(
    alloc: Global,
    scope: &Scope,
    one: &Field,
    next: u64,
    making: &mut Making,
    sum: u64,
) -> Result<(u64, u64), EvalFault>
    requires integers { AreIntegersOf (field one.now no_fields) }
    requires low { sum ≤ HEAVIEST }
    requires next { 16 * next ≤ sum + 16 }
    requires made { IsOrdered making.old.made }
    requires without_value { IsOrdered making.old.without_value }
    ensures filled { (before : List Key)
        → AreGiven before making.old.made making.old.without_value → MatchResult result
        (λ after. (others : List Key) × AreGiven others making.new.made making.new.without_value
        × LeadsTo (given scope.now.locals scope.now.globals)
        one.now next before making.old.made sum after.0 others making.new.made after.1)
        (FailsWith (given scope.now.locals scope.now.globals)
        one.now next before making.old.made sum) }
    ensures ordered { IfOk result (λ _.
        IsOrdered making.new.made × IsOrdered making.new.without_value) }
    ensures low { IfOk result (λ after. after.1 ≤ HEAVIEST) }
    ensures next { IfOk result (λ after. 16 * after.0 ≤ after.1 + 16) }
    ensures grows { IfOk result (λ after. sum ≤ after.1) }
{
    match &one.key {
        FieldKey::Position => {
            let sum = take(
                alloc,
                scope,
                one.place,
                Key::Int(next),
                &one.value,
                making,
                sum,
            )?;
            Ok((next + 1, sum))
        }
        FieldKey::Given(key) => {
            let found = find(alloc, scope, key, sum)?;
            let sum = found.sum;
            let key = key_of(one.place, found.value)?;
            Ok((
                next,
                take(alloc, scope, one.place, key, &one.value, making, sum)?,
            ))
        }
    }
}

/// Takes a field with this key and value into the table, and answers the sum of weights.
#[cycle(find)]
fn take(
    alloc: Global,
    scope: &Scope,
    place: u32,
    key: Key,
    value: &Expr,
    making: &mut Making,
    sum: u64,
) -> Result<u64, EvalFault>
    requires key { IsKey key }
    requires integers { HasIntegers (tree value.now) }
    requires low { sum ≤ HEAVIEST }
    requires made { IsOrdered making.old.made }
    requires without_value { IsOrdered making.old.without_value }
    ensures taken { (before : List Key)
        → AreGiven before making.old.made making.old.without_value → MatchResult result
        (λ now. AreGiven (key ∷ before) making.new.made making.new.without_value
        × (taken (given scope.now.locals scope.now.globals)
        place key (tree value.now) before making.old.made sum ≡ Ok (making.new.made, now)))
        (IsFaultOf (taken (given scope.now.locals scope.now.globals)
        place key (tree value.now) before making.old.made sum)) }
    ensures ordered { IfOk result (λ _.
        IsOrdered making.new.made × IsOrdered making.new.without_value) }
    ensures low { IfOk result (λ now. now ≤ HEAVIEST) }
    ensures grows { IfOk result (λ now. sum + 16 ≤ now) }
{
    let key = unused(place, making, key)?;
    let found = find(alloc, scope, value, sum)?;
    put(making, key, found.value)?;
    Ok(found.sum)
}

/// The key that a value is, for the field at this place.
fn key_of(place: u32, value: Value) -> Result<Key, EvalFault>
    requires { IsServed (datum value) }
    ensures key { MatchResult result (λ key. key_of place (datum value) ≡ Ok key)
        (λ fault. key_of place (datum value) ≡ Err fault) }
    ensures served { IfOk result (λ key. IsKey key) }
{
    match value {
        Value::Nil => Err(EvalFault::NilKey { place }),
        Value::Bool(truth) => Ok(Key::Bool(truth)),
        Value::Int(number) => Ok(Key::Int(number)),
        Value::Text(bytes) => Ok(Key::Text(bytes)),
        Value::Table(_) => Err(EvalFault::TableKey { place }),
    }
}

/// The key, unless a field before gave it.
fn unused(place: u32, making: &Making, key: Key) -> Result<Key, EvalFault>
    requires made { IsOrdered making.now.made }
    requires without_value { IsOrdered making.now.without_value }
    ensures same { IfOk result (λ same. same ≡ key) }
    ensures unused { (before : List Key)
        → AreGiven before making.now.made making.now.without_value → MatchResult result
        (λ _. unused place before key ≡ Ok key)
        (λ fault. unused place before key ≡ Err fault) }
{
    if making.made.get(&key).is_some() || making.without_value.get(&key).is_some() {
        return Err(EvalFault::TwiceKey { place });
    }
    Ok(key)
}

/// Gives the key the value.
fn put(making: &mut Making, key: Key, value: Value) -> Result<(), AllocError>
    requires key { IsKey key }
    requires value { IsServed (datum value) }
    requires made { IsOrdered making.old.made }
    requires without_value { IsOrdered making.old.without_value }
    ensures made { OnOk result (making.new.made ≡ with_value key (datum value) making.old.made) }
    ensures given { (before : List Key) → AreGiven before making.old.made making.old.without_value
        → OnOk result (AreGiven (key ∷ before) making.new.made making.new.without_value) }
    ensures ordered { OnOk result (IsOrdered making.new.made × IsOrdered making.new.without_value) }
{
    match value {
        Value::Nil => {
            making.without_value.insert(key, Value::Bool(true))?;
        }
        value => {
            making.made.insert(key, value)?;
        }
    }
    Ok(())
}
