ghost use Rattle.std.specs.Prelude.{◌≡◌, ◌≤◌, ◌+◌, map, All, IfOk, IfSome, MatchResult, Ok, Err};
ghost use Rattle.lua_syntax.specs.Trees.{tree, trees, suffixes};
ghost use Rattle.lua_value.specs.Ordered.{IsOrdered, IsServed};
ghost use Rattle.lua_value.specs.View.{datum};
ghost use Rattle.lua_eval.specs.Finding.{HasIntegers, AreIntegersIn, AreIntegersAmong};
ghost use Rattle.lua_eval.specs.Finding.{IsFaultOf, indexed_value, concatenated};
ghost use Rattle.lua_eval.specs.Names.{given, shown};
ghost use Rattle.lua_eval.specs.Values.{find, walk, find_all, indexed, entry};
ghost use Rattle.lua_eval.specs.Weights.{weighed};

use crate::fault::EvalFault;
use crate::join::{join, kind_of};
use crate::scope::Scope;
use crate::table::find_table;
use crate::weight::{HEAVIEST, weighed};
use lua_syntax::{Expr, ExprKind, Suffix};
use lua_value::{Key, Table, Value};
use rocks_bytes::Bytes;
use std::alloc::{AllocError, Global};

/// A value, and the sum of weights with its own.
#[derive(Debug, Drop)]
pub(crate) struct Found {
    pub value: Value,
    pub sum: u64,
}

/// The value of the expression at this place, if it isn't too much.
pub(crate) fn counted(place: u32, value: Value, sum: u64) -> Result<Found, EvalFault>
    requires served { IsServed (datum value) }
    requires low { sum ≤ HEAVIEST }
    ensures found { MatchResult result
        (λ found. weighed place (datum value) sum ≡ Ok (datum found.value, found.sum))
        (λ fault. weighed place (datum value) sum ≡ Err fault) }
    ensures served { IfOk result (λ found. IsServed (datum found.value)) }
    ensures low { IfOk result (λ found. found.sum ≤ HEAVIEST) }
    ensures grows { IfOk result (λ found. sum + 16 ≤ found.sum) }
{
    let sum = weighed(place, &value, sum)?;
    Ok(Found { value, sum })
}

/// The value of an expression. Its parts are found from left to right.
#[cycle(find)]
pub(crate) fn find(alloc: Global, scope: &Scope, expr: &Expr, sum: u64) -> Result<Found, EvalFault>
    requires integers { HasIntegers (tree expr.now) }
    requires low { sum ≤ HEAVIEST }
    ensures found { MatchResult result
        (λ found. find (given scope.now.locals scope.now.globals) (tree expr.now) sum
        ≡ Ok (datum found.value, found.sum))
        (IsFaultOf (find (given scope.now.locals scope.now.globals) (tree expr.now) sum)) }
    ensures served { IfOk result (λ found. IsServed (datum found.value)) }
    ensures low { IfOk result (λ found. found.sum ≤ HEAVIEST) }
    ensures grows { IfOk result (λ found. sum + 16 ≤ found.sum) }
{
    let place = expr.place;
    match &expr.kind {
        ExprKind::Nil => counted(place, Value::Nil, sum),
        ExprKind::Bool(truth) => counted(place, Value::Bool(*truth), sum),
        ExprKind::Int(number) => counted(place, Value::Int(*number), sum),
        ExprKind::Text(bytes) => counted(place, Value::Text(bytes.copy(alloc)?), sum),
        ExprKind::Name(name) => counted(place, named(alloc, scope, name)?, sum),
        ExprKind::Index(base, suffixes) => {
            find_index(alloc, scope, place, base.get(), suffixes.as_slice(), sum)
        }
        ExprKind::Concat(operands, operators) => {
            find_concat(
                alloc,
                scope,
                place,
                operands.as_slice(),
                operators.as_slice(),
                sum,
            )
        }
        ExprKind::Table(fields) => find_table(alloc, scope, place, fields.as_slice(), sum),
    }
}

fn named(alloc: Global, scope: &Scope, name: &Bytes) -> Result<Value, AllocError>
    ensures value { IfOk result (λ value. datum value
        ≡ given scope.now.locals scope.now.globals name.now) }
    ensures served { IfOk result (λ value. IsServed (datum value)) }
{
    copied(alloc, scope.value_of(name))
}

/// An equal value; Nil for none.
fn copied(alloc: Global, value: Option<&Value>) -> Result<Value, AllocError>
    requires { IfSome value (λ value. IsServed (datum value.now)) }
    ensures value { IfOk result (λ copied. datum copied
        ≡ shown value.entry) }
    ensures served { IfOk result (λ copied. IsServed (datum copied)) }
{
    match value {
        Some(value) => value.copy(alloc),
        None => Ok(Value::Nil),
    }
}

/// The value of an expression with suffixes.
#[cycle(find)]
fn find_index(
    alloc: Global,
    scope: &Scope,
    place: u32,
    base: &Expr,
    behind: &[Suffix],
    sum: u64,
) -> Result<Found, EvalFault>
    requires base { HasIntegers (tree base.now) }
    requires integers { AreIntegersIn (suffixes behind.now) }
    requires low { sum ≤ HEAVIEST }
    ensures found { MatchResult result
        (λ found. indexed_value (given scope.now.locals scope.now.globals)
        place (tree base.now) (suffixes behind.now) sum ≡ Ok (datum found.value, found.sum))
        (IsFaultOf (indexed_value (given scope.now.locals scope.now.globals)
        place (tree base.now) (suffixes behind.now) sum)) }
    ensures served { IfOk result (λ found. IsServed (datum found.value)) }
    ensures low { IfOk result (λ found. found.sum ≤ HEAVIEST) }
    ensures grows { IfOk result (λ found. sum + 16 ≤ found.sum) }
{
    let base = find(alloc, scope, base, sum)?;
    let (end, sum) = walk(alloc, scope, behind, &base.value, base.sum)?;
    counted(place, copied(alloc, end)?, sum)
}

/// The value to which suffixes lead from this one, and the sum of weights; None for Nil.
#[cycle(find)]
fn walk<'a>(
    alloc: Global,
    scope: &Scope,
    behind: &[Suffix],
    value: &'a Value,
    sum: u64,
) -> Result<(Option<&'a Value>, u64), EvalFault>
    requires integers { AreIntegersIn (suffixes behind.now) }
    requires served { IsServed (datum value.now) }
    requires low { sum ≤ HEAVIEST }
    ensures walked { MatchResult result
        (λ end. walk (given scope.now.locals scope.now.globals)
        (suffixes behind.now) (datum value.now) sum
        ≡ Ok (shown end.0, end.1))
        (IsFaultOf (walk (given scope.now.locals scope.now.globals)
        (suffixes behind.now) (datum value.now) sum)) }
    ensures served { IfOk result (λ end. IfSome end.0 (λ value. IsServed (datum value.now))) }
    ensures low { IfOk result (λ end. end.1 ≤ HEAVIEST) }
    ensures grows { IfOk result (λ end. sum ≤ end.1) }
{
    let mut current = Some(value);
    let mut sum = sum;
    for suffix in behind {
        let key = find(alloc, scope, &suffix.key, sum)?;
        current = indexed(suffix.place, current, key.value)?;
        sum = key.sum;
    }
    Ok((current, sum))
}

/// What a value has at a key, for the suffix at this place. None stands for Nil.
fn indexed<'a>(
    place: u32,
    value: Option<&'a Value>,
    key: Value,
) -> Result<Option<&'a Value>, EvalFault>
    requires { IfSome value (λ value. IsServed (datum value.now)) }
    ensures found { MatchResult result
        (λ inner. indexed place (shown value.entry) (datum key)
        ≡ Ok (shown inner))
        (λ fault. indexed place (shown value.entry) (datum key)
        ≡ Err fault) }
    ensures served { IfOk result (λ inner. IfSome inner (λ value. IsServed (datum value.now))) }
{
    match value {
        Some(Value::Table(table)) => Ok(entry(table, key)),
        _ => Err(EvalFault::IndexOf {
            place,
            kind: kind_of(value),
        }),
    }
}

fn entry(table: &Table, key: Value) -> Option<&Value>
    requires { IsOrdered table.now }
    ensures found { shown result
        ≡ entry table.now (datum key) }
    ensures served { IfSome result (λ value. IsServed (datum value.now)) }
{
    match key {
        Value::Nil | Value::Table(_) => None,
        Value::Bool(truth) => table.get(&Key::Bool(truth)),
        Value::Int(number) => table.get(&Key::Int(number)),
        Value::Text(bytes) => table.get(&Key::Text(bytes)),
    }
}

/// The value of a concatenation: all operands come first.
#[cycle(find)]
fn find_concat(
    alloc: Global,
    scope: &Scope,
    place: u32,
    operands: &[Expr],
    operators: &[u32],
    sum: u64,
) -> Result<Found, EvalFault>
    requires integers { AreIntegersAmong (trees operands.now) }
    requires low { sum ≤ HEAVIEST }
    ensures found { MatchResult result
        (λ found. concatenated (given scope.now.locals scope.now.globals)
        place (trees operands.now) operators.now sum ≡ Ok (datum found.value, found.sum))
        (IsFaultOf (concatenated (given scope.now.locals scope.now.globals)
        place (trees operands.now) operators.now sum)) }
    ensures served { IfOk result (λ found. IsServed (datum found.value)) }
    ensures low { IfOk result (λ found. found.sum ≤ HEAVIEST) }
    ensures grows { IfOk result (λ found. sum + 16 ≤ found.sum) }
{
    let (values, sum) = find_all(alloc, scope, operands, sum)?;
    counted(place, join(alloc, values, operators)?, sum)
}

/// The values of expressions from left to right, and the sum of weights.
#[cycle(find)]
pub(crate) fn find_all(
    alloc: Global,
    scope: &Scope,
    exprs: &[Expr],
    sum: u64,
) -> Result<(Vec<Value>, u64), EvalFault>
    requires integers { AreIntegersAmong (trees exprs.now) }
    requires low { sum ≤ HEAVIEST }
    ensures found { MatchResult result
        (λ found. find_all (given scope.now.locals scope.now.globals) (trees exprs.now) sum
        ≡ Ok (map datum found.0.items, found.1))
        (IsFaultOf (find_all (given scope.now.locals scope.now.globals) (trees exprs.now) sum)) }
    ensures served { IfOk result (λ found. All IsServed (map datum found.0.items)) }
    ensures low { IfOk result (λ found. found.1 ≤ HEAVIEST) }
    ensures grows { IfOk result (λ found. sum ≤ found.1) }
{
    let mut values = Vec::new(alloc);
    let mut sum = sum;
    for expr in exprs {
        let found = find(alloc, scope, expr, sum)?;
        values.push(found.value)?;
        sum = found.sum;
    }
    Ok((values, sum))
}
