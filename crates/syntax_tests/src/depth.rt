//! Texts of many brackets and long texts, and the laws.
use crate::faults::fault_of;
use lua_lexer::tokens;
use lua_syntax::{ExprKind, LuaChunk, Statement, SyntaxFault, Unserved, chunk, laws};
use std::alloc::{AllocError, Global};
use std::test::Fail;

// A text of `a = `, openings, a middle and closings.
fn nested(
    alloc: Global,
    times: usize,
    opening: &[u8],
    middle: &[u8],
    closing: &[u8],
) -> Result<Vec<u8>, AllocError> {
    let mut text = Vec::from_slice(alloc, b"a = ")?;
    for _ in 0..times {
        text.extend_from_slice(opening)?;
    }
    text.extend_from_slice(middle)?;
    for _ in 0..times {
        text.extend_from_slice(closing)?;
    }
    Ok(text)
}

// How many parts an expression has by itself.
fn part_count(kind: &ExprKind) -> usize {
    match kind {
        ExprKind::Index(_, suffixes) => suffixes.len(),
        ExprKind::Concat(operands, _) => operands.len(),
        ExprKind::Table(fields) => fields.len(),
        _ => 0,
    }
}

// How many names, values and parts of the last value a statement has.
fn counts(statement: &Statement) -> (usize, usize, usize) {
    let (names, values) = match statement {
        Statement::Assign { names, values } => (names.len(), values),
        Statement::Local { names, values } => (names.len(), values),
    };
    let parts = match values.as_slice().last() {
        Some(value) => part_count(&value.kind),
        None => 0,
    };
    (names, values.len(), parts)
}

// How many statements a chunk has, and how many names, values and parts the last of them.
fn chunk_counts(chunk: &LuaChunk) -> (usize, (usize, usize, usize)) {
    let statements = chunk.statements.as_slice();
    match statements.last() {
        Some(statement) => (statements.len(), counts(statement)),
        None => (0, (0, 0, 0)),
    }
}

// The counts of the chunk of a text, if it has one.
fn counts_of(alloc: Global, text: &[u8]) -> Option<(usize, (usize, usize, usize))> {
    match tokens(alloc, text) {
        Ok(list) => match chunk(alloc, &list) {
            Ok(found) => Some(chunk_counts(&found)),
            Err(_) => None,
        },
        Err(_) => None,
    }
}

/// How often brackets open, those, what stands within, and brackets that close.
type Nest = (usize, &'static [u8], &'static [u8], &'static [u8]);

const SHALLOW: &[Nest] = &[
    (100, b"(", b"1", b")"),
    (100, b"{", b"", b"}"),
    (100, b"b[", b"1", b"]"),
    (50, b"{[", b"1", b"]=2}"),
    (50, b"({", b"", b"})"),
    (33, b"({b[", b"(1)", b"]})"),
    (99, b"{", b"(1), b[2], {3}", b"}"),
];

#[test]
fn a_hundred_brackets_may_be_open(rt: HostRuntime) -> Result<(), Fail> {
    let alloc = rt.alloc();
    for (times, opening, middle, closing) in SHALLOW {
        let text = nested(alloc, *times, opening, middle, closing)?;
        let found = counts_of(alloc, &text);
        assert!(rt; found.is_some(), "{times} times");
    }
    Ok(())
}

const DEEP: &[(Nest, SyntaxFault)] = &[
    ((101, b"(", b"1", b")"), SyntaxFault::TooDeep { place: 104 }),
    ((101, b"{", b"", b"}"), SyntaxFault::TooDeep { place: 104 }),
    (
        (101, b"b[", b"1", b"]"),
        SyntaxFault::TooDeep { place: 205 },
    ),
    (
        (51, b"{[", b"1", b"]=2}"),
        SyntaxFault::TooDeep { place: 104 },
    ),
    ((51, b"({", b"", b"})"), SyntaxFault::TooDeep { place: 104 }),
    (
        (34, b"({b[", b"1", b"]})"),
        SyntaxFault::TooDeep { place: 137 },
    ),
    (
        (100, b"(", b"b[1]", b")"),
        SyntaxFault::TooDeep { place: 105 },
    ),
    (
        (100, b"{", b"1, {}", b"}"),
        SyntaxFault::TooDeep { place: 107 },
    ),
    ((101, b"(", b"", b""), SyntaxFault::TooDeep { place: 104 }),
    ((1000, b"{", b"", b""), SyntaxFault::TooDeep { place: 104 }),
    // One that doesn't fit opens nothing.
    (
        (100, b"{", b"1 (", b"}"),
        SyntaxFault::Expected { place: 106 },
    ),
    (
        (100, b"{", b"1 {", b"}"),
        SyntaxFault::Expected { place: 106 },
    ),
    (
        (100, b"(", b"1 [", b")"),
        SyntaxFault::Expected { place: 106 },
    ),
    (
        (100, b"(", b"b (", b")"),
        SyntaxFault::NotServed {
            place: 106,
            which: Unserved::Call,
        },
    ),
    (
        (100, b"{", b"b {", b"}"),
        SyntaxFault::NotServed {
            place: 106,
            which: Unserved::Call,
        },
    ),
];

#[test]
fn the_next_bracket_is_too_deep(rt: HostRuntime) -> Result<(), Fail> {
    let alloc = rt.alloc();
    for ((times, opening, middle, closing), wanted) in DEEP {
        let text = nested(alloc, *times, opening, middle, closing)?;
        assert_eq!(rt; fault_of(alloc, &text), Some(*wanted));
    }
    Ok(())
}

// A text, a part 200,000 times behind it, and what stands behind those.
fn repeated(alloc: Global, front: &[u8], part: &[u8], back: &[u8]) -> Result<Vec<u8>, AllocError> {
    let mut text = Vec::from_slice(alloc, front)?;
    for _ in 0..200_000 {
        text.extend_from_slice(part)?;
    }
    text.extend_from_slice(back)?;
    Ok(text)
}

#[test]
fn long_texts_end(rt: HostRuntime) -> Result<(), Fail> {
    let alloc = rt.alloc();
    let text = repeated(alloc, b"a = b", b"\na = 1;", b"")?;
    assert_eq!(rt; counts_of(alloc, &text), Some((200_001, (1, 1, 0))));
    Ok(())
}

#[test]
fn long_runs_of_semicolons_end(rt: HostRuntime) -> Result<(), Fail> {
    let alloc = rt.alloc();
    let text = repeated(alloc, b"a = 1", b";", b"")?;
    assert_eq!(rt; counts_of(alloc, &text), Some((1, (1, 1, 0))));
    Ok(())
}

#[test]
fn long_lists_of_names_end(rt: HostRuntime) -> Result<(), Fail> {
    let alloc = rt.alloc();
    let text = repeated(alloc, b"local a", b", b", b"")?;
    assert_eq!(rt; counts_of(alloc, &text), Some((1, (200_001, 0, 0))));
    Ok(())
}

#[test]
fn long_lists_of_values_end(rt: HostRuntime) -> Result<(), Fail> {
    let alloc = rt.alloc();
    let text = repeated(alloc, b"a = b", b", 1", b"")?;
    assert_eq!(rt; counts_of(alloc, &text), Some((1, (1, 200_001, 0))));
    Ok(())
}

#[test]
fn long_expressions_end(rt: HostRuntime) -> Result<(), Fail> {
    let alloc = rt.alloc();
    let text = repeated(alloc, b"a = b", b" .. b", b"")?;
    assert_eq!(rt; counts_of(alloc, &text), Some((1, (1, 1, 200_001))));
    Ok(())
}

#[test]
fn long_runs_of_suffixes_end(rt: HostRuntime) -> Result<(), Fail> {
    let alloc = rt.alloc();
    let text = repeated(alloc, b"a = b", b".b[1]", b"")?;
    assert_eq!(rt; counts_of(alloc, &text), Some((1, (1, 1, 400_000))));
    Ok(())
}

#[test]
fn long_tables_end(rt: HostRuntime) -> Result<(), Fail> {
    let alloc = rt.alloc();
    let text = repeated(alloc, b"a = {", b"b = 1, ", b"}")?;
    assert_eq!(rt; counts_of(alloc, &text), Some((1, (1, 1, 200_000))));
    Ok(())
}

#[test]
fn laws_are_called(rt: HostRuntime) -> Result<(), Fail> {
    let list = tokens(rt.alloc(), b"a = {b.c .. 'd'}")?;
    laws::one_chunk(&list);
    laws::one_fault(&list);
    laws::chunk_without_fault(&list);
    laws::chunk_or_fault(&list);
    laws::places(&list);
    Ok(())
}
