//! Deep tables, heavy values and long texts.
use crate::read::{fault_of, has_globals, printed};
use lua_eval::{EvalFault, ValueKind};
use std::alloc::{AllocError, Global};
use std::process::Abort;
use std::test::Fail;

// A front, so many times a part, and a back.
fn repeated(
    alloc: Global,
    front: &[u8],
    part: &[u8],
    times: u32,
    back: &[u8],
) -> Result<Vec<u8>, AllocError> {
    let mut text = Vec::from_slice(alloc, front)?;
    for _ in 0..times {
        text.extend_from_slice(part)?;
    }
    text.extend_from_slice(back)?;
    Ok(text)
}

/// How often a table is put into another, and what stands behind.
type Nest = (u32, &'static [u8]);

// A text with these tables, of which the innermost is empty.
fn nested(alloc: Global, times: u32, back: &[u8]) -> Result<Vec<u8>, AllocError> {
    repeated(alloc, b"local t = {}", b" t = {t}", times, back)
}

fn check_globals(rt: &impl Abort, alloc: Global, text: &[u8]) -> Result<(), Fail> {
    assert_eq!(rt; fault_of(alloc, text)?, None);
    assert!(rt; has_globals(alloc, text)?);
    Ok(())
}

fn check_shallow(rt: &impl Abort, alloc: Global, nest: &Nest) -> Result<(), Fail> {
    check_globals(rt, alloc, &nested(alloc, nest.0, nest.1)?)
}

const SHALLOW: &[Nest] = &[
    (0, b" a = t"),
    (99, b" a = t"),
    (99, b" a = {t[1]}"),
    (98, b" a = {1, t, x = t}"),
    (99, b" t = t[1] t = {t}"),
];

#[test]
fn a_hundred_tables_may_stand_within_one_another(rt: HostRuntime) -> Result<(), Fail> {
    let alloc = rt.alloc();
    for nest in SHALLOW {
        check_shallow(&rt, alloc, nest)?;
    }
    Ok(())
}

fn check_deep(rt: &impl Abort, alloc: Global, nest: &Nest, place: u32) -> Result<(), Fail> {
    let text = nested(alloc, nest.0, nest.1)?;
    assert_eq!(rt;
        fault_of(alloc, &text)?,
        Some(EvalFault::TooLarge { place })
    );
    Ok(())
}

const DEEP: &[(Nest, u32)] = &[
    ((100, b""), 809),
    ((1000, b""), 809),
    ((99, b" a = {t}"), 809),
    ((99, b" a = {1, x = t}"), 809),
    ((99, b" a = {{t[1]}}"), 809),
    ((99, b" a = ({t})[1]"), 810),
    ((99, b" a = {{t}}"), 810),
];

#[test]
fn the_next_table_is_too_deep(rt: HostRuntime) -> Result<(), Fail> {
    let alloc = rt.alloc();
    for (nest, place) in DEEP {
        check_deep(&rt, alloc, nest, *place)?;
    }
    Ok(())
}

// A text whose values weigh so much less than the limit, and a back. The doubled text has 40960 bytes, each assignment of
// it weighs 40976, and before the last text 1182 is left.
fn heavy(alloc: Global, left: u32, back: &[u8]) -> Result<Vec<u8>, AllocError> {
    let text = repeated(alloc, b"local t = 'xxxxxxxxxx'", b" t = t .. t", 12, b"")?;
    let text = repeated(alloc, &text, b" a = t", 6547, b" a = '")?;
    let text = repeated(alloc, &text, b"y", 1166u32.saturating_sub(left), b"'")?;
    repeated(alloc, &text, b"", 0, back)
}

// Checks that where so much is left, the value at this place in what stands behind is too much.
fn check_heavy(
    rt: &impl Abort,
    alloc: Global,
    left: u32,
    back: &[u8],
    within: u32,
) -> Result<(), Fail> {
    let text = heavy(alloc, left, back)?;
    let front = text.len().saturating_sub(back.len());
    let place = u32::try_from(front).unwrap_or(0).wrapping_add(within);
    assert_eq!(rt;
        fault_of(alloc, &text)?,
        Some(EvalFault::TooLarge { place })
    );
    Ok(())
}

/// A statement, and what its values weigh.
const WEIGHED: &[(&[u8], u32)] = &[
    (b" b = nil", 16),
    (b" b = true", 16),
    (b" b = 1", 16),
    (b" b = ''", 16),
    (b" b = 'abc'", 19),
    (b" b = c", 16),
    (b" b = {}", 16),
    (b" b = {1}", 64),
    (b" b = {nil}", 32),
    (b" b = {x = 1}", 82),
    (b" b = {[1] = 1}", 80),
    (b" b = {[true] = {}}", 80),
    (b" b = 'a' .. 1", 51),
    (b" b = 1 .. 23 .. 4", 68),
    (b" b = (1)", 16),
    (b" b = ((('a')))", 17),
    (b" b = ({}).x", 49),
    (b" b = ({{}})[1].x", 113),
    (b" b, c = 1, 2", 32),
    (b" b = 1, 'x'", 33),
    (b" local b = 1", 16),
    (b" local b, c = 1", 16),
];

// All the statements, and what their values weigh together.
fn weighed(alloc: Global) -> Result<(Vec<u8>, u32), AllocError> {
    let mut text = Vec::new(alloc);
    let mut sum: u32 = 0;
    for (statement, weight) in WEIGHED {
        text.extend_from_slice(statement)?;
        sum = sum.wrapping_add(*weight);
    }
    Ok((text, sum))
}

#[test]
fn values_may_weigh_as_much_as_the_limit(rt: HostRuntime) -> Result<(), Fail> {
    let alloc = rt.alloc();
    let (statements, sum) = weighed(alloc)?;
    check_globals(&rt, alloc, &heavy(alloc, sum, &statements)?)
}

#[test]
fn values_that_weigh_one_more_are_too_large(rt: HostRuntime) -> Result<(), Fail> {
    let alloc = rt.alloc();
    let (statements, sum) = weighed(alloc)?;
    let last = u32::try_from(statements.len()).unwrap_or(0).wrapping_sub(1);
    check_heavy(&rt, alloc, sum.saturating_sub(1), &statements, last)
}

/// A statement, how much is left for its values, and where the first stands for which it isn't enough.
const PARTS: &[(&[u8], u32, u32)] = &[
    (b" local b, c d = nil", 15, 16),
    (b" b = {1}", 63, 5),
    (b" b = 'a' .. 1", 32, 12),
    (b" b = {x = 1}", 16, 6),
    (b" b = {x = 1}", 32, 10),
    (b" b = ({}).x", 15, 6),
    (b" b = ({}).x", 32, 10),
    (b" b, c = 1, 2", 15, 8),
    (b" b = 1 c = 2", 16, 11),
];

#[test]
fn the_first_value_that_is_too_much_is_blamed(rt: HostRuntime) -> Result<(), Fail> {
    let alloc = rt.alloc();
    for (statement, left, within) in PARTS {
        check_heavy(&rt, alloc, *left, statement, *within)?;
    }
    Ok(())
}

#[test]
fn long_runs_of_operands_are_joined(rt: HostRuntime) -> Result<(), Fail> {
    let alloc = rt.alloc();
    let text = repeated(alloc, b"local b = 1 a = b", b" ..b", 199_999, b"")?;
    let out = printed(alloc, &text)?.ok_or("no globals")?;
    assert_eq!(rt; out.len(), 200_007);
    Ok(())
}

#[test]
fn the_first_of_many_operators_is_blamed(rt: HostRuntime) -> Result<(), Fail> {
    let alloc = rt.alloc();
    let text = repeated(alloc, b"local b = 1 a = nil", b" ..b", 199_999, b"")?;
    let (place, kind) = (20, ValueKind::Nil);
    assert_eq!(rt;
        fault_of(alloc, &text)?,
        Some(EvalFault::ConcatOf { place, kind })
    );
    Ok(())
}

fn check_long(
    rt: &impl Abort,
    alloc: Global,
    front: &[u8],
    part: &[u8],
    back: &[u8],
) -> Result<(), Fail> {
    check_globals(rt, alloc, &repeated(alloc, front, part, LONG, back)?)
}

const LONG: u32 = 100_000;

#[test]
fn many_statements_end(rt: HostRuntime) -> Result<(), Fail> {
    check_long(&rt, rt.alloc(), b"", b" a = 1", b"")
}

#[test]
fn many_locals_end(rt: HostRuntime) -> Result<(), Fail> {
    check_long(&rt, rt.alloc(), b"", b" local a", b" b = 1")
}

#[test]
fn many_names_end(rt: HostRuntime) -> Result<(), Fail> {
    check_long(&rt, rt.alloc(), b"local a", b", a", b" b = a")
}

#[test]
fn many_values_end(rt: HostRuntime) -> Result<(), Fail> {
    check_long(&rt, rt.alloc(), b"a = 1", b", 1", b"")
}

#[test]
fn many_positions_end(rt: HostRuntime) -> Result<(), Fail> {
    check_long(&rt, rt.alloc(), b"a = {", b"1, ", b"}")
}

#[test]
fn many_tables_end(rt: HostRuntime) -> Result<(), Fail> {
    check_long(&rt, rt.alloc(), b"local b = {} a = {b", b", b", b"}")
}
