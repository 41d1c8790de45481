//! Rocks that are dropped, and copies.

use crate::rocks::{claims, rock};
use std::alloc::Global;
use tree_claims::Claims;

/// Two rocks, and one that clashes with the first of them.
const HELD: &str = "a_1 0-1 lua:x.lua; b 1.0-1 lua:x.lua";

const LATER: &str = "a 1.0-1 lua:x.lua";

// Whether the later rock clashes.
fn clashes(alloc: Global, claims: &Claims) -> Option<bool> {
    let (key, items) = rock(alloc, LATER)?;
    Some(claims.clash(&key, &items).ok()?.is_some())
}

// Drops the first rock twice, and tells what was answered.
fn drop_twice(alloc: Global, claims: &mut Claims) -> Option<(bool, bool)> {
    let (key, _) = rock(alloc, "a_1 0-1 lua:x.lua")?;
    let first = claims.drop_rock(&key);
    let second = claims.drop_rock(&key);
    Some((first, second))
}

fn before_and_after(alloc: Global) -> Option<(bool, bool)> {
    let mut claims = claims(alloc, HELD)?;
    let before = clashes(alloc, &claims)?;
    if drop_twice(alloc, &mut claims)? != (true, false) {
        return None;
    }
    Some((before, clashes(alloc, &claims)?))
}

#[test]
fn dropped_rocks_claim_nothing(rt: HostRuntime) {
    assert_eq!(rt; before_and_after(rt.alloc()), Some((true, false)));
}

fn copied_claims(alloc: Global) -> Option<(bool, bool)> {
    let mut claims = claims(alloc, HELD)?;
    let copied = claims.copy(alloc).ok()?;
    drop_twice(alloc, &mut claims)?;
    Some((clashes(alloc, &copied)?, clashes(alloc, &claims)?))
}

fn copied_clash(alloc: Global) -> Option<bool> {
    let claims = claims(alloc, HELD)?;
    let (key, items) = rock(alloc, LATER)?;
    let clash = claims.clash(&key, &items).ok()??;
    Some(clash.copy(alloc).ok()? == clash)
}

#[test]
fn copies_are_equal(rt: HostRuntime) {
    assert_eq!(rt; copied_claims(rt.alloc()), Some((true, false)));
    assert_eq!(rt; copied_clash(rt.alloc()), Some(true));
}
