//! Many calls in a made order, beside a plain table of who has what.

use crate::calls::{Rock, has, item, key};
use providers::Providers;
use rocks_text::{Item, Kind};
use std::alloc::Global;

/// The rocks in their order.
const ROCKS: [Rock; 6] = [
    ("a", "scm-1"),
    ("a", "10.0-1"),
    ("a", "9.0-2"),
    ("a", "9.0-1"),
    ("b", "1.0-1"),
    ("c-d", "1.0-1"),
];

const PATHS: [&str; 5] = ["a", "b.lua", "a/b.lua", "z", "m/init.lua"];

/// Which rock has which item.
type Held = [[bool; 6]; 5];

fn next(state: u32) -> u32 {
    state.wrapping_mul(1_664_525).wrapping_add(1_013_904_223)
}

fn rocks_of(alloc: Global, held: &[bool; 6]) -> Option<Vec<Rock>> {
    let mut rocks = Vec::new(alloc);
    for (at, has) in held.iter().enumerate() {
        if *has {
            rocks.push(ROCKS[at]).ok()?;
        }
    }
    Some(rocks)
}

fn agrees(alloc: Global, providers: &Providers, items: &[Item], held: &Held) -> Option<bool> {
    for (item, rocks) in items.iter().zip(held) {
        if !has(providers, item, &rocks_of(alloc, rocks)?) {
            return Some(false);
        }
    }
    Some(true)
}

// Puts the rock in if it wasn't there, and else leaves it out.
fn turn(
    alloc: Global,
    providers: &mut Providers,
    item: &Item,
    rock: Rock,
    there: bool,
) -> Option<bool> {
    let key = key(alloc, rock)?;
    if providers.remove(item, &key) {
        return Some(there);
    }
    providers.insert(item, &key).ok()?;
    Some(!there)
}

fn run(alloc: Global, calls: u32) -> Option<bool> {
    let mut items = Vec::new(alloc);
    for path in PATHS {
        items.push(item(alloc, Kind::Lua, path)?).ok()?;
    }
    let mut providers = Providers::new(alloc);
    let mut held: Held = [[false; 6]; 5];
    let mut state = 1;
    for _ in 0..calls {
        state = next(state);
        let at = (state >> 16) as usize % 5;
        let rock = (state >> 20) as usize % 6;
        let there = held[at][rock];
        let item = items.get(at)?;
        if !turn(alloc, &mut providers, item, ROCKS[rock], there)? {
            return Some(false);
        }
        held[at][rock] = !there;
        if !agrees(alloc, &providers, &items, &held)? {
            return Some(false);
        }
    }
    Some(true)
}

#[test]
fn four_hundred_calls_agree_with_a_plain_table(rt: HostRuntime) {
    assert_eq!(rt; run(rt.alloc(), 400), Some(true));
}
