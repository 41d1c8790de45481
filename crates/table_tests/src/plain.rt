//! Runs of calls on a table and on a plain sorted list, which answer the same.
ghost use Rattle.lua_value.specs.Ordered.{IsOrdered};

use lua_value::{Key, Table, Value};
use std::alloc::{AllocError, Global};
use std::mem;
use std::process::Abort;
use std::test::Fail;

// Keys with their values in a vector in key order.
#[derive(Drop)]
struct Plain {
    pairs: Vec<(u64, u64)>,
}

impl Plain {
    fn put(&mut self, key: u64, value: u64) -> Result<Option<u64>, AllocError> {
        match self.pairs.binary_search_by(|pair| pair.0.cmp(&key)) {
            Ok(at) => Ok(Some(mem::replace(&mut self.pairs[at].1, value))),
            Err(at) => {
                self.pairs.insert(at, (key, value))?;
                Ok(None)
            }
        }
    }
}

fn number_of(value: Option<&Value>) -> Option<u64> {
    match value {
        Some(Value::Int(number)) => Some(*number),
        _ => None,
    }
}

// Puts one key in on both sides, and compares the answers.
fn step(
    rt: &impl Abort,
    table: &mut Table,
    plain: &mut Plain,
    key: u32,
    value: u32,
) -> Result<(), Fail>
    requires { IsOrdered table.old }
    ensures { IsOrdered table.new }
{
    let (key, value) = (u64::from(key), u64::from(value));
    let old = table.insert(Key::Int(key), Value::Int(value))?;
    let expected = plain.put(key, value)?;
    assert!(rt; number_of(old.as_ref()) == expected);
    Ok(())
}

fn compare_entry(rt: &impl Abort, table: &Table, at: usize, pair: &(u64, u64)) -> Result<(), Fail>
    requires { IsOrdered table.now }
{
    let (key, value) = table.entry(at).ok_or("no entry")?;
    assert!(rt; *key == Key::Int(pair.0));
    assert!(rt; number_of(Some(value)) == Some(pair.1));
    assert!(rt; number_of(table.get(key)) == Some(pair.1));
    Ok(())
}

fn compare(rt: &impl Abort, table: &Table, plain: &Plain) -> Result<(), Fail>
    requires { IsOrdered table.now }
{
    assert_eq!(rt; table.len(), plain.pairs.len());
    for (at, pair) in plain.pairs.iter().enumerate() {
        compare_entry(rt, table, at, pair)?;
    }
    assert!(rt; table.entry(plain.pairs.len()).is_none());
    Ok(())
}

// Puts so many keys below KEYS in, and compares what stands at the end.
fn compare_run(
    rt: &impl Abort,
    alloc: Global,
    seed: u32,
    calls: u32,
    keys: u32,
) -> Result<(), Fail> {
    let mut table = Table::new(alloc);
    let mut plain = Plain {
        pairs: Vec::new(alloc),
    };
    let mut state = seed;
    for call in 0..calls {
        state = state.wrapping_mul(1_664_525).wrapping_add(1_013_904_223);
        let key = (state / 65_536) % keys.max(1);
        step(rt, &mut table, &mut plain, key, call)?;
    }
    compare(rt, &table, &plain)
}

#[test]
fn short_runs_answer_alike(rt: HostRuntime) -> Result<(), Fail> {
    let alloc = rt.alloc();
    for seed in 0..3_000 {
        compare_run(&rt, alloc, seed, 12, 9)?;
    }
    Ok(())
}

#[test]
fn long_runs_answer_alike(rt: HostRuntime) -> Result<(), Fail> {
    let alloc = rt.alloc();
    for seed in 0..3 {
        compare_run(&rt, alloc, seed, 12_000, 60_000)?;
    }
    Ok(())
}

#[test]
fn keys_that_rise_and_then_fall_answer_alike(rt: HostRuntime) -> Result<(), Fail> {
    let mut table = Table::new(rt.alloc());
    let mut plain = Plain {
        pairs: Vec::new(rt.alloc()),
    };
    for rise in 0..9_000u32 {
        step(&rt, &mut table, &mut plain, rise + 9_000, rise)?;
    }
    for fall in 0..9_000u32 {
        step(&rt, &mut table, &mut plain, 9_500 - fall, fall)?;
    }
    compare(&rt, &table, &plain)
}
