//! Who has an item, and who is first, after each call.

use providers::Providers;
use rocks_text::{FilePath, Item, Kind, Name};
use rocks_version::{RockKey, Version};
use std::alloc::Global;

/// A rock as its name and version.
pub type Rock = (&'static str, &'static str);

const A1: Rock = ("a", "1.0-1");

const A2: Rock = ("a", "2.0-1");

const B1: Rock = ("b", "1.0-1");

const B2: Rock = ("b", "1.0.0-1");

/// What is put in and then taken out, and the rocks that are left, all for one item.
struct Case {
    put_in: &'static [Rock],
    taken_out: &'static [Rock],
    left: &'static [Rock],
}

const CASES: &[Case] = &[
    Case {
        put_in: &[B1, A1, A2],
        taken_out: &[],
        left: &[A2, A1, B1],
    },
    Case {
        put_in: &[A2, A1, B1],
        taken_out: &[],
        left: &[A2, A1, B1],
    },
    Case {
        put_in: &[B1, B2],
        taken_out: &[],
        left: &[B2, B1],
    },
    Case {
        put_in: &[B1, A1, A2],
        taken_out: &[A2],
        left: &[A1, B1],
    },
    Case {
        put_in: &[B1, A1, A2],
        taken_out: &[A1],
        left: &[A2, B1],
    },
    Case {
        put_in: &[B1, A1, A2],
        taken_out: &[B1],
        left: &[A2, A1],
    },
    Case {
        put_in: &[B1, A1],
        taken_out: &[A1, B1],
        left: &[],
    },
    Case {
        put_in: &[B1],
        taken_out: &[B1],
        left: &[],
    },
];

pub fn item(alloc: Global, kind: Kind, path: &str) -> Option<Item> {
    Some(Item {
        kind,
        path: FilePath::from_text(alloc, path).ok()?,
    })
}

pub fn key(alloc: Global, rock: Rock) -> Option<RockKey> {
    Some(RockKey {
        name: Name::from_text(alloc, rock.0).ok()?,
        version: Version::read(alloc, rock.1).ok()?,
    })
}

/// Puts a rock in that isn't there: the call asks for that, so one that is there is refused here.
pub fn put(alloc: Global, providers: &mut Providers, item: &Item, rock: Rock) -> Option<()> {
    let key = key(alloc, rock)?;
    if providers.remove(item, &key) {
        return None;
    }
    providers.insert(item, &key).ok()
}

fn filled(alloc: Global, item: &Item, rocks: &[Rock]) -> Option<Providers> {
    let mut providers = Providers::new(alloc);
    for rock in rocks {
        put(alloc, &mut providers, item, *rock)?;
    }
    Some(providers)
}

fn are_taken(
    alloc: Global,
    providers: &mut Providers,
    item: &Item,
    rocks: &[Rock],
) -> Option<bool> {
    for rock in rocks {
        if !providers.remove(item, &key(alloc, *rock)?) {
            return Some(false);
        }
    }
    Some(true)
}

fn is(key: &RockKey, rock: Rock) -> bool {
    key.name.as_str() == rock.0 && key.version.as_str() == rock.1
}

fn are(keys: &[RockKey], rocks: &[Rock]) -> bool {
    if keys.len() != rocks.len() {
        return false;
    }
    keys.iter().zip(rocks).all(|pair| is(pair.0, *pair.1))
}

/// Whether these are the rocks that have the item, in this order.
pub fn has(providers: &Providers, item: &Item, rocks: &[Rock]) -> bool {
    match rocks {
        [] => providers.first(item).is_none() && providers.rest(item).is_empty(),
        [first, rest @ ..] => match providers.first(item) {
            Some(key) => is(key, *first) && are(providers.rest(item), rest),
            None => false,
        },
    }
}

fn holds(alloc: Global, case: &Case) -> Option<bool> {
    let item = item(alloc, Kind::Lua, "x.lua")?;
    let mut providers = filled(alloc, &item, case.put_in)?;
    let taken = are_taken(alloc, &mut providers, &item, case.taken_out)?;
    Some(taken && has(&providers, &item, case.left))
}

#[test]
fn rocks_stand_in_their_order(rt: HostRuntime) {
    for (row, case) in CASES.iter().enumerate() {
        assert_eq!(rt; holds(rt.alloc(), case), Some(true), "in row {row}");
    }
}

fn items_are_apart(alloc: Global) -> Option<bool> {
    let lua = item(alloc, Kind::Lua, "x")?;
    let lib = item(alloc, Kind::Lib, "x")?;
    let bin = item(alloc, Kind::Bin, "x")?;
    let mut providers = Providers::new(alloc);
    put(alloc, &mut providers, &bin, A1)?;
    put(alloc, &mut providers, &lua, B1)?;
    put(alloc, &mut providers, &lua, A2)?;
    let apart = has(&providers, &lua, &[A2, B1])
        && has(&providers, &lib, &[])
        && has(&providers, &bin, &[A1]);
    // A rock that doesn't have the item is no provider of it, and taking it out changes nothing.
    let absent = !providers.remove(&lib, &key(alloc, A1)?)
        && !providers.remove(&bin, &key(alloc, A2)?)
        && has(&providers, &bin, &[A1]);
    Some(apart && absent)
}

#[test]
fn kinds_are_apart(rt: HostRuntime) {
    assert_eq!(rt; items_are_apart(rt.alloc()), Some(true));
}
