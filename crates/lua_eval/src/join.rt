ghost use Rattle.std.specs.Prelude.{◌≡◌, ◌+◌, ◌<◌, ◌++◌, length, map, All, IsTrue};
ghost use Rattle.std.specs.Prelude.{IfOk, OnOk, MatchResult, None, Ok, Err};
ghost use Rattle.lua_value.specs.Ordered.{IsServed};
ghost use Rattle.lua_value.specs.View.{datum};
ghost use Rattle.lua_eval.specs.declared.fault.EvalFault.TheVariants.{ConcatOf};
ghost use Rattle.lua_eval.specs.Joins.{kind_of, text_of, join_two, join};
ghost use Rattle.lua_eval.specs.Texts.{has_text, own_text, first_of, all_texts, IsJoined};
ghost use Rattle.lua_eval.specs.Finding.{IsFaultOf};
ghost use Rattle.lua_eval.specs.Names.{shown};

use crate::fault::{EvalFault, ValueKind};
use lua_value::Value;
use rocks_bytes::Bytes;
use std::alloc::{AllocError, Global};

/// What kind of value it is; None is Nil.
pub(crate) fn kind_of(value: Option<&Value>) -> ValueKind
    ensures { result ≡ kind_of (shown value.entry) }
{
    match value {
        None | Some(Value::Nil) => ValueKind::Nil,
        Some(Value::Bool(_)) => ValueKind::Bool,
        Some(Value::Int(_)) => ValueKind::Int,
        Some(Value::Text(_)) => ValueKind::Text,
        Some(Value::Table(_)) => ValueKind::Table,
    }
}

/// The values joined from the right by the operators at these places. With too few operators the values behind are
/// dropped.
pub(crate) fn join(alloc: Global, values: Vec<Value>, operators: &[u32]) -> Result<Value, EvalFault>
    requires { All IsServed (map datum values.items) }
    ensures joined { MatchResult result
        (λ whole. join (map datum values.items) operators.now ≡ Ok (datum whole))
        (IsFaultOf (join (map datum values.items) operators.now)) }
    ensures served { IfOk result (λ whole. IsServed (datum whole)) }
{
    if operators.is_empty() || values.len() < 2 {
        return Ok(first(values));
    }
    let count = operators.len().min(values.len() - 1);
    join_all(alloc, &values[..count + 1], &operators[..count])
}

/// The first value, or Nil where there is none.
fn first(values: Vec<Value>) -> Value
    requires { All IsServed (map datum values.items) }
    ensures first { datum result ≡ first_of (map datum values.items) }
    ensures served { IsServed (datum result) }
{
    match values.into_iter().next() {
        Some(value) => value,
        None => Value::Nil,
    }
}

/// The values joined by as many operators as stand between them.
fn join_all(alloc: Global, values: &[Value], operators: &[u32]) -> Result<Value, EvalFault>
    requires between { length values.now ≡ length operators.now + 1 }
    requires some { 0 < length operators.now }
    ensures joined { MatchResult result
        (λ whole. join (map datum values.now) operators.now ≡ Ok (datum whole))
        (IsFaultOf (join (map datum values.now) operators.now)) }
    ensures served { IfOk result (λ whole. IsServed (datum whole)) }
{
    test_all(values, operators)?;
    Ok(Value::Text(Bytes::from(all_texts(alloc, values)?)))
}

/// Tests from the right that each operator can join what stands on its two sides.
fn test_all(values: &[Value], operators: &[u32]) -> Result<(), EvalFault>
    requires { length values.now ≡ length operators.now + 1 }
    ensures { MatchResult result
        (λ _. IsJoined (map datum values.now) operators.now)
        (λ fault. join (map datum values.now) operators.now ≡ Err fault) }
{
    let mut at = operators.len();
    while at > 0 {
        at -= 1;
        test_two(operators[at], &values[at], &values[at + 1])?;
    }
    Ok(())
}

/// Tests that the operator at this place can join the two values.
fn test_two(place: u32, left: &Value, right: &Value) -> Result<(), EvalFault>
    ensures { MatchResult result
        (λ _. IsTrue (has_text (datum left.now)) × IsTrue (has_text (datum right.now)))
        (λ fault. join_two place (datum left.now) (datum right.now) ≡ Err fault) }
{
    test_one(place, left)?;
    test_one(place, right)
}

/// Tests that the operator at this place can join the value.
fn test_one(place: u32, value: &Value) -> Result<(), EvalFault>
    ensures { MatchResult result
        (λ _. IsTrue (has_text (datum value.now)))
        (λ fault. (text_of (datum value.now) ≡ None)
        × (fault ≡ ConcatOf place (kind_of (datum value.now)))) }
{
    match value {
        Value::Int(_) | Value::Text(_) => Ok(()),
        _ => Err(EvalFault::ConcatOf {
            place,
            kind: kind_of(Some(value)),
        }),
    }
}

/// The texts of all values, one behind the other.
fn all_texts(alloc: Global, values: &[Value]) -> Result<Vec<u8>, AllocError>
    ensures { IfOk result (λ made. made.items ≡ all_texts (map datum values.now)) }
{
    let mut made = Vec::new(alloc);
    for value in values {
        append(alloc, value, &mut made)?;
    }
    Ok(made)
}

/// Appends the text that is joined, and none of a value that can't be.
fn append(alloc: Global, value: &Value, made: &mut Vec<u8>) -> Result<(), AllocError>
    ensures { OnOk result (made.new.items ≡ made.old.items ++ own_text (datum value.now)) }
{
    match value {
        Value::Int(number) => made.extend_from_slice(number.to_string(alloc)?.as_bytes()),
        Value::Text(bytes) => made.extend_from_slice(bytes.as_slice()),
        _ => Ok(()),
    }
}
