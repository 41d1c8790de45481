//! Measures tables: `table_speed up COUNT`, `table_speed down COUNT` and `table_speed mixed COUNT` put that many
//! keys in, in rising, in falling and in mixed order, and say how many the table has. With a last word `walk` they also
//! walk the table by `entry` and look each key up, and say how many pairs were met. The time is taken from outside.
#![tactic(auto)]

ghost use Rattle.std.specs.Prelude.{◌^◌, ◌<◌, IfOk};
ghost use Rattle.lua_value.specs.Ordered.{IsOrdered};

use lua_value::{Key, Table, Value};
use std::alloc::{AllocError, Global};
use std::process::ExitCode;
use std::{env, io};

/// In which order keys are put in.
#[derive(Debug, Drop, Clone, Copy)]
enum Order {
    Up,
    Down,
    Mixed,
}

fn main(rt: HostRuntime) -> ExitCode {
    match measured(&rt) {
        Ok(Some(met)) => {
            let _ = println!(rt; "{met}");
            ExitCode::SUCCESS
        }
        Ok(None) => ExitCode::from(2),
        Err(_) => ExitCode::FAILURE,
    }
}

// How many keys there are, or were met; None for words that name no order or count.
fn measured(rt: &HostRuntime) -> io::Result<Option<usize>> {
    let mut words = env::args(rt)?.skip(1);
    let Some(order) = words.next() else {
        return Ok(None);
    };
    let Some(count) = words.next() else {
        return Ok(None);
    };
    let order = match order.as_str() {
        "up" => Order::Up,
        "down" => Order::Down,
        "mixed" => Order::Mixed,
        _ => return Ok(None),
    };
    let Ok(count) = count.parse::<u32>() else {
        return Ok(None);
    };
    let table = filled(rt.alloc(), order, count)?;
    match words.next() {
        None => Ok(Some(table.len())),
        Some(word) if word.as_str() == "walk" => Ok(Some(met(&table))),
        Some(_) => Ok(None),
    }
}

// How many pairs a walk meets whose keys are found.
fn met(table: &Table) -> usize
    requires { IsOrdered table.now }
{
    let mut met = 0;
    for at in 0..table.len() {
        if let Some((key, _)) = table.entry(at) {
            if table.get(key).is_some() {
                met = at + 1;
            }
        }
    }
    met
}

// A table with COUNT keys or fewer.
fn filled(alloc: Global, order: Order, count: u32) -> Result<Table, AllocError>
    ensures { IfOk result (λ table. IsOrdered table) }
{
    let mut table = Table::new(alloc);
    for number in 0..count {
        let key = match order {
            Order::Up => number,
            Order::Down => u32::MAX - number,
            Order::Mixed => number.wrapping_mul(2_654_435_761),
        };
        table.insert(Key::Int(u64::from(key)), Value::Bool(true))?;
    }
    Ok(table)
}
