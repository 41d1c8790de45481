//! How versions and keys are ordered.

mod pairs;

use rocks_text::Name;
use rocks_version::{
    RockKey, Version, VersionFault, before, compare, listing, rank, rockspec_name,
};
use std::alloc::Global;
use std::cmp::Ordering;
use std::test::Fail;

/// Versions that rise, both as they are compared and by rank: each listed word against each other one, and against
/// numbers and other words.
const RISING: &[&str] = &[
    "alpha-1", "beta-1", "pre-1", "rc-1", "0-1", "Z-1", "a-1", "x-1", "1-1", "2-1", "10-1",
    "cvs-1", "scm-1", "dev-1",
];

/// Versions that rise as releases of one package do.
const RELEASES: &[&str] = &[
    "2.0alpha-1",
    "2.0beta-1",
    "2.0pre-1",
    "2.0rc1-1",
    "2.0rc2-1",
    "2.0-1",
    "2.0-2",
    "2.0.a-1",
    "2.0.1-1",
    "2.10-1",
    "99.0-1",
    "scm-1",
];

fn read(alloc: Global, text: &str) -> Result<Version, VersionFault> {
    Version::read(alloc, text)
}

fn orders(alloc: Global, left: &str, right: &str) -> Result<(Ordering, Ordering), VersionFault> {
    let left = read(alloc, left)?;
    let right = read(alloc, right)?;
    Ok((compare(&left, &right), rank(&left, &right)))
}

fn have_orders(
    alloc: Global,
    left: &str,
    right: &str,
    compared: Ordering,
    ranked: Ordering,
) -> bool {
    match orders(alloc, left, right) {
        Ok(found) => found.0 == compared && found.1 == ranked,
        Err(_) => false,
    }
}

/// Whether two versions are compared and ranked so, and the other way round in reverse.
pub fn are_ordered(
    alloc: Global,
    left: &str,
    right: &str,
    compared: Ordering,
    ranked: Ordering,
) -> bool {
    have_orders(alloc, left, right, compared, ranked)
        && have_orders(alloc, right, left, compared.reverse(), ranked.reverse())
}

fn first_not_above(alloc: Global, low: &str, above: &[&str]) -> Option<usize> {
    for (at, high) in above.iter().enumerate() {
        if !are_ordered(alloc, low, high, Ordering::Less, Ordering::Less) {
            return Some(at);
        }
    }
    None
}

#[test]
fn versions_rise(rt: HostRuntime) {
    for (at, low) in RISING.iter().enumerate() {
        assert_eq!(rt;
            first_not_above(rt.alloc(), low, &RISING[at + 1..]),
            None,
            "above {low}"
        );
    }
    for (at, low) in RELEASES.iter().enumerate() {
        assert_eq!(rt;
            first_not_above(rt.alloc(), low, &RELEASES[at + 1..]),
            None,
            "above {low}"
        );
    }
}

#[test]
fn pairs_are_ordered(rt: HostRuntime) {
    let wrong = [
        pairs::words_misordered(rt.alloc()),
        pairs::paddings_misordered(rt.alloc()),
        pairs::revisions_misordered(rt.alloc()),
        pairs::separators_misordered(rt.alloc()),
        pairs::numbers_misordered(rt.alloc()),
    ];
    for (table, row) in wrong.iter().enumerate() {
        assert_eq!(rt; *row, None, "in table {table}");
    }
}

fn key(alloc: Global, name: &str, version: &str) -> Option<RockKey> {
    Some(RockKey {
        name: Name::from_text(alloc, name).ok()?,
        version: read(alloc, version).ok()?,
    })
}

// Whether the first is listed before the second, and not the other way round.
fn is_before(alloc: Global, first: (&str, &str), second: (&str, &str)) -> bool {
    match (key(alloc, first.0, first.1), key(alloc, second.0, second.1)) {
        (Some(left), Some(right)) => {
            before(&left, &right)
                && !before(&right, &left)
                && listing(&left, &right) == Ordering::Less
                && listing(&right, &left) == Ordering::Greater
        }
        _ => false,
    }
}

#[test]
fn keys_are_listed_by_name_and_then_from_the_newest(rt: HostRuntime) {
    for (first, second) in [
        (("a", "1.0-1"), ("b", "2.0-1")),
        (("a", "2.0-1"), ("a", "1.0-1")),
        (("a", "scm-1"), ("a", "99.0-1")),
        (("a", "1.0.0-1"), ("a", "1.0-1")),
        (("a", "1.0-2"), ("a", "1.0-1")),
        (("a", "1"), ("a-b", "9")),
        (("a-b", "1"), ("ab", "9")),
    ] {
        assert!(rt;
            is_before(rt.alloc(), first, second),
            "{first:?} {second:?}"
        );
    }
}

fn same_key(alloc: Global) -> Option<bool> {
    let first = key(alloc, "a", "1.0-1")?;
    let copied = first.copy(alloc).ok()?;
    Some(copied == first && !before(&first, &copied))
}

#[test]
fn keys_are_copied(rt: HostRuntime) {
    assert_eq!(rt; same_key(rt.alloc()), Some(true));
}

#[test]
fn copies_are_equal(rt: HostRuntime) -> Result<(), Fail> {
    let version = read(rt.alloc(), "1.0-1")?;
    let copied = version.copy(rt.alloc())?;
    assert_eq!(rt; copied, version);
    assert_eq!(rt; copied.as_str(), "1.0-1");
    Ok(())
}

#[test]
fn a_rockspec_has_the_name_of_its_rock(rt: HostRuntime) {
    let hello = key(rt.alloc(), "hello", "1.0-1").expect(&rt, "a key");
    let name = rockspec_name(rt.alloc(), &hello).expect(&rt, "memory");
    assert!(rt; name.as_str() == "hello-1.0-1.rockspec");
}
