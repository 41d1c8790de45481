ghost use Rattle.std.specs.Prelude.{◌≡◌, ◌+◌, ◌<◌, ◌≤◌, ◌⊎◌, length, slice_get};
ghost use Rattle.std.specs.Prelude.{IfOk, MatchOption, MatchResult, Some, Ok, Err};
ghost use Rattle.lua_value.specs.Depth.{value_depth, depth};
ghost use Rattle.lua_value.specs.Ordered.{IsOrdered, IsServed};
ghost use Rattle.lua_value.specs.Pairs.{count, listed};
ghost use Rattle.lua_value.specs.View.{datum};
ghost use Rattle.lua_eval.specs.Weights.{key_weight, weight, pairs_weight, weighed};

use crate::fault::EvalFault;
use lua_value::{Key, Table, Value};

/// The most that the values of a chunk's expressions may weigh together.
pub(crate) const HEAVIEST: u64 = 268_435_456;

/// The most tables that may stand within one another, the outermost included.
const DEEPEST: u32 = 100;

/// The least that a value or a key weighs.
const LEAST: u64 = 16;

/// The sum of weights with that of the value of the expression at this place.
pub(crate) fn weighed(place: u32, value: &Value, sum: u64) -> Result<u64, EvalFault>
    requires served { IsServed (datum value.now) }
    requires low { sum ≤ HEAVIEST }
    ensures sum { MatchResult result
        (λ now. weighed place (datum value.now) sum ≡ Ok (datum value.now, now))
        (λ fault. weighed place (datum value.now) sum ≡ Err fault) }
    ensures low { IfOk result (λ now. now ≤ HEAVIEST) }
    ensures grows { IfOk result (λ now. sum + 16 ≤ now) }
{
    match left_after(value, HEAVIEST - sum, DEEPEST) {
        Some(left) => Ok(HEAVIEST - left),
        None => Err(EvalFault::TooLarge { place }),
    }
}

/// What is left of an allowance of weight when the value's is taken from it. None where it weighs more, or where more
/// than so many tables stand within one another in it.
#[cycle(weight)]
fn left_after(value: &Value, left: u64, levels: u32) -> Option<u64>
    requires { IsServed (datum value.now) }
    ensures { MatchOption result
        ((left < weight (datum value.now)) ⊎ (levels < value_depth (datum value.now)))
        (λ rest. (rest + weight (datum value.now) ≡ left)
        × (value_depth (datum value.now) ≤ levels)) }
{
    match value {
        Value::Nil | Value::Bool(_) | Value::Int(_) => left.checked_sub(LEAST),
        Value::Text(bytes) => left_after_text(bytes.as_slice(), left),
        Value::Table(table) => left_after_table(table, left, levels),
    }
}

fn left_after_text(bytes: &[u8], left: u64) -> Option<u64>
    ensures { MatchOption result (left < 16 + length bytes.now)
        (λ rest. rest + (16 + length bytes.now) ≡ left) }
{
    left.checked_sub(LEAST)?.checked_sub(bytes.len() as u64)
}

#[cycle(weight)]
fn left_after_table(table: &Table, left: u64, levels: u32) -> Option<u64>
    requires { IsOrdered table.now }
    ensures { MatchOption result
        ((left < 16 + pairs_weight table.now) ⊎ (levels < depth table.now + 1))
        (λ rest. (rest + (16 + pairs_weight table.now) ≡ left) × (depth table.now + 1 ≤ levels)) }
{
    if levels == 0 {
        return None;
    }
    left_after_entries(table, left.checked_sub(LEAST)?, levels - 1)
}

#[cycle(weight)]
fn left_after_entries(table: &Table, left: u64, levels: u32) -> Option<u64>
    requires { IsOrdered table.now }
    ensures { MatchOption result
        ((left < pairs_weight table.now) ⊎ (levels < depth table.now))
        (λ rest. (rest + pairs_weight table.now ≡ left) × (depth table.now ≤ levels)) }
{
    let mut rest = left;
    for at in 0..table.len() {
        let (key, value) = entry_at(table, at);
        rest = left_after_entry(key, value, rest, levels)?;
    }
    Some(rest)
}

fn entry_at(table: &Table, at: usize) -> (&Key, &Value)
    requires ordered { IsOrdered table.now }
    requires within { at < count table.now }
    ensures entry { slice_get (listed table.now) at
        ≡ Some (result.0.now, datum result.1.now) }
    ensures served { IsServed (datum result.1.now) }
{
    table.entry(at).unwrap()
}

#[cycle(weight)]
fn left_after_entry(key: &Key, value: &Value, left: u64, levels: u32) -> Option<u64>
    requires { IsServed (datum value.now) }
    ensures { MatchOption result
        ((left < key_weight key.now + weight (datum value.now))
        ⊎ (levels < value_depth (datum value.now)))
        (λ rest. (rest + (key_weight key.now + weight (datum value.now)) ≡ left)
        × (value_depth (datum value.now) ≤ levels)) }
{
    left_after(value, left_after_key(key, left)?, levels)
}

fn left_after_key(key: &Key, left: u64) -> Option<u64>
    ensures { MatchOption result (left < key_weight key.now)
        (λ rest. rest + key_weight key.now ≡ left) }
{
    match key {
        Key::Int(_) | Key::Bool(_) => left.checked_sub(LEAST),
        Key::Text(bytes) => left_after_text(bytes.as_slice(), left),
    }
}
