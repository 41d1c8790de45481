//! Which texts are versions, and which of a rock.

use rocks_version::{Version, VersionFault, laws};
use std::alloc::Global;

const VERSIONS: &[&str] = &[
    "0",
    "a",
    "Z",
    "1.0-1",
    "1-",
    "1.",
    "1_",
    "1-a_B.9",
    "1---2",
    "999999999999999999",
    "1-999999999999999999",
    "123456789012345678a123456789012345678b12",
    "1234567890.234567890.234567890.234567890",
];

const BAD: &[(&str, u32)] = &[
    ("", 0),
    ("-", 0),
    ("-1", 0),
    (".1", 0),
    ("_a", 0),
    (".-1", 0),
    (" 1", 0),
    ("1 0", 1),
    ("1.0+1", 3),
    ("1/0", 1),
    ("1:0", 1),
    ("1@0", 1),
    ("1[0", 1),
    ("1`0", 1),
    ("1{0", 1),
    ("1,0", 1),
    ("1^0", 1),
    ("1.0\n", 3),
    ("1.\u{e9}", 2),
    ("-+", 1),
    ("1\0", 1),
    ("1234567890.234567890.234567890.2345678901", 40),
    ("1234567890.234567890.234567890.2345678901234", 40),
    ("1234567890.234567890.234567890.2345678901+", 41),
    ("1234567890.234567890.234567890.234567890+", 40),
    ("1+34567890.234567890.234567890.2345678901+", 1),
    ("-234567890.234567890.234567890.2345678901", 40),
    ("12345678901234567890123456789012345678901", 40),
];

const TOO_LONG: &[(&str, u32)] = &[
    ("1234567890123456789", 0),
    ("0000000000000000001", 0),
    ("1.1234567890123456789", 2),
    ("1-1234567890123456789", 2),
    ("a1234567890123456789b", 1),
    ("1.123456789012345678901234567890", 2),
    ("1234567890123456789.1234567890123456789", 0),
    ("123456789012345678.1234567890123456789-1", 19),
    ("1234567890123456789012345678901234567890", 0),
];

const OF_ROCKS: &[&str] = &[
    "1.0-1",
    "scm-1",
    "0-0",
    "A..b.-12",
    "2.0rc1-1",
    "1-999999999999999999",
];

const OF_NO_ROCKS: &[&str] = &[
    "1.0", "1-2-3", "1_0-1", "1-0-1", "1.0-a", "1.0-", "1--1", "a",
];

fn is_kept(alloc: Global, text: &str) -> bool {
    match Version::read(alloc, text) {
        Ok(version) => version.as_str() == text,
        Err(_) => false,
    }
}

fn has_fault(alloc: Global, text: &str, wanted: VersionFault) -> bool {
    match Version::read(alloc, text) {
        Ok(_) => false,
        Err(fault) => fault == wanted,
    }
}

fn is_of_rock(alloc: Global, text: &str) -> Option<bool> {
    Some(Version::read(alloc, text).ok()?.is_rock_version())
}

#[test]
fn versions_are_read(rt: HostRuntime) {
    for text in VERSIONS {
        assert!(rt; is_kept(rt.alloc(), text), "{text}");
    }
}

#[test]
fn other_texts_have_their_fault(rt: HostRuntime) {
    for (text, place) in BAD {
        let fault = VersionFault::BadVersion { place: *place };
        assert!(rt; has_fault(rt.alloc(), text, fault), "{text:?}");
    }
    for (text, place) in TOO_LONG {
        let fault = VersionFault::NumberTooLong { place: *place };
        assert!(rt; has_fault(rt.alloc(), text, fault), "{text}");
    }
}

#[test]
fn versions_of_rocks_are_told(rt: HostRuntime) {
    for text in OF_ROCKS {
        assert_eq!(rt; is_of_rock(rt.alloc(), text), Some(true), "{text}");
    }
    for text in OF_NO_ROCKS {
        assert_eq!(rt; is_of_rock(rt.alloc(), text), Some(false), "{text}");
    }
}

#[test]
fn laws_are_called() {
    laws::rank_is_total();
    laws::comparison_is_a_preorder();
    laws::listing_is_strict();
    laws::versions_have_short_numbers();
    laws::revisions_end_texts();
}
