//! Pairs of versions, and how each pair is compared and ranked.

use crate::orders::are_ordered;
use std::alloc::Global;
use std::cmp::Ordering::{self, Equal, Greater, Less};

type Row = (&'static str, &'static str, Ordering, Ordering);

fn first_misordered(alloc: Global, rows: &[Row]) -> Option<usize> {
    for (at, (left, right, compared, ranked)) in rows.iter().enumerate() {
        if !are_ordered(alloc, left, right, *compared, *ranked) {
            return Some(at);
        }
    }
    None
}

const WORDS: &[Row] = &[
    ("1alpha", "1beta", Less, Less),
    ("1.alpha", "1.pre", Less, Less),
    ("1pre", "1rc", Less, Less),
    ("1rc", "1", Less, Less),
    ("1rc", "1a", Less, Less),
    ("1a", "1", Greater, Greater),
    ("1a", "1.1", Less, Less),
    ("1b", "1a", Greater, Greater),
    ("1ab", "1ac", Equal, Less),
    ("1abc", "1a", Equal, Greater),
    ("1cvs", "1.999999999999999999", Greater, Greater),
    ("1dev", "1scm", Greater, Greater),
    ("1devs", "1dev", Less, Less),
    ("1alphas", "1alpha", Greater, Greater),
    ("1Alpha", "1alpha", Greater, Greater),
    ("1Alpha", "1a", Less, Less),
    ("1ALPHA", "1Alpha", Equal, Less),
    ("1SCM", "1.1", Less, Less),
    ("1Dev", "1dev", Less, Less),
];

pub fn words_misordered(alloc: Global) -> Option<usize> {
    first_misordered(alloc, WORDS)
}

const PADDINGS: &[Row] = &[
    ("1.0", "1.0.0", Equal, Less),
    ("1", "1.0.0.0", Equal, Less),
    ("0", "0.0", Equal, Less),
    ("1", "1.0.1", Less, Less),
    ("1", "1.0.0alpha", Greater, Greater),
    ("1", "1.rc1", Greater, Greater),
    ("1", "1.x", Less, Less),
    ("1", "1.dev", Less, Less),
    ("1.0.0-1", "1.0-1", Equal, Greater),
    ("1.0.beta", "1.0", Less, Less),
];

pub fn paddings_misordered(alloc: Global) -> Option<usize> {
    first_misordered(alloc, PADDINGS)
}

const REVISIONS: &[Row] = &[
    ("1.0-1", "1.0-2", Less, Less),
    ("1.0-2", "1.0-10", Less, Less),
    ("1.0-1", "1.0", Equal, Greater),
    ("1.0", "1.0-2", Equal, Less),
    ("1.0-0", "1.0", Equal, Greater),
    ("1.0-0", "1.0.0", Equal, Less),
    ("1.0-01", "1.0-1", Equal, Less),
    ("1.0.0-1", "1.0-2", Less, Less),
    ("1.1", "1.0-9", Greater, Greater),
    ("1.1-1", "1.0-9", Greater, Greater),
    ("1-2-3", "1.2-3", Equal, Less),
    ("1-2-3", "1-2", Greater, Greater),
    ("1-a", "1.a", Equal, Less),
    ("1-1a", "1-1", Greater, Greater),
    ("1-", "1", Equal, Greater),
    ("1--2", "1-2", Equal, Less),
    (
        "1-999999999999999999",
        "1-999999999999999998",
        Greater,
        Greater,
    ),
];

pub fn revisions_misordered(alloc: Global) -> Option<usize> {
    first_misordered(alloc, REVISIONS)
}

const SEPARATORS: &[Row] = &[
    ("1.2", "1_2", Equal, Less),
    ("1..2", "1.2", Equal, Less),
    ("1._.2", "1.2", Equal, Greater),
    ("1.2.", "1.2", Equal, Greater),
    ("1.2_", "1.2.", Equal, Greater),
    ("1.a", "1a", Equal, Less),
    ("1.a.2", "1a2", Equal, Less),
    ("a1", "a.1", Equal, Greater),
    ("1.2.-1", "1.2-1", Equal, Greater),
    ("12", "1.2", Greater, Greater),
    ("ab", "a.b", Less, Less),
];

pub fn separators_misordered(alloc: Global) -> Option<usize> {
    first_misordered(alloc, SEPARATORS)
}

const NUMBERS: &[Row] = &[
    ("01", "1", Equal, Less),
    ("1.00", "1", Equal, Greater),
    ("1.010", "1.10", Equal, Less),
    ("1.9", "1.10", Less, Less),
    ("9", "10", Less, Less),
    ("999999999999999999", "999999999999999998", Greater, Greater),
    ("000000000000000001", "1", Equal, Less),
    (
        "1.2.3.4.5.6.7.8.9.10.11.12.13.14.15.16.1",
        "1.2.3.4.5.6.7.8.9.10.11.12.13.14.15.16.2",
        Less,
        Less,
    ),
    (
        "1.0.0.0.0.0.0.0.0.0.0.0.0.0.0.0.0.0.0000",
        "1",
        Equal,
        Greater,
    ),
];

pub fn numbers_misordered(alloc: Global) -> Option<usize> {
    first_misordered(alloc, NUMBERS)
}
