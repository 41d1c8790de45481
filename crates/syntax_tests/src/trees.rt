//! Texts with the statements that their tokens derive, each node with its place.
use crate::printed::printed;
use lua_lexer::tokens;
use lua_syntax::{LuaChunk, chunk};
use std::alloc::Global;

/// A text, and the words of its chunk.
type Row = (&'static [u8], &'static [u8]);

// Whether the chunk has these words.
fn has_words(alloc: Global, found: &LuaChunk, wanted: &[u8]) -> bool {
    match printed(alloc, found) {
        Ok(words) => words.as_slice() == wanted,
        Err(_) => false,
    }
}

// Whether the tokens of the text derive the chunk of these words.
fn is_read_as(alloc: Global, text: &[u8], wanted: &[u8]) -> bool {
    match tokens(alloc, text) {
        Ok(list) => match chunk(alloc, &list) {
            Ok(found) => has_words(alloc, &found, wanted),
            Err(_) => false,
        },
        Err(_) => false,
    }
}

// The first of the texts whose tokens don't derive the chunk of its words.
fn first_misread(alloc: Global, rows: &[Row]) -> Option<usize> {
    for (at, (text, wanted)) in rows.iter().enumerate() {
        if !is_read_as(alloc, text, wanted) {
            return Some(at);
        }
    }
    None
}

const STATEMENTS: &[Row] = &[
    (b"", b""),
    (b";;", b""),
    (b"a = 1", b"assign a@0 = 1@4;"),
    (b"; a = 1 ;", b"assign a@2 = 1@6;"),
    (b"a = 1;;b = 2", b"assign a@0 = 1@4;assign b@7 = 2@11;"),
    (b"x, y = 1, 2, 3", b"assign x@0 y@3 = 1@7 2@10 3@13;"),
    (b"x, y, z = 1", b"assign x@0 y@3 z@6 = 1@10;"),
    (b"local a", b"local a@6 =;"),
    (b"local a; a = 1", b"local a@6 =;assign a@9 = 1@13;"),
    (b"local a a = 1", b"local a@6 =;assign a@8 = 1@12;"),
    (b"local a, b local c", b"local a@6 b@9 =;local c@17 =;"),
    (b"local a = b", b"local a@6 = b@10;"),
    (
        b"local _MODREV, _SPECREV = '1.0', '-1'",
        b"local _MODREV@6 _SPECREV@15 = '1.0'@26 '-1'@33;",
    ),
    (b"a = b c = d", b"assign a@0 = b@4;assign c@6 = d@10;"),
    (
        b"a = b.c d = e",
        b"assign a@0 = index@4 b@4 at@5 'c'@6 end;assign d@8 = e@12;",
    ),
    (
        b"a = {} local b = 1",
        b"assign a@0 = table@4 end;local b@13 = 1@17;",
    ),
    (b"a = (b) c = 1", b"assign a@0 = b@5;assign c@8 = 1@12;"),
];

const SIMPLE: &[Row] = &[
    (b"a = nil", b"assign a@0 = nil@4;"),
    (b"a = true, false", b"assign a@0 = true@4 false@10;"),
    (b"a = 0", b"assign a@0 = 0@4;"),
    (
        b"a = 9223372036854775807",
        b"assign a@0 = 9223372036854775807@4;",
    ),
    (b"a = [[x]]", b"assign a@0 = 'x'@4;"),
    (b"a = \"\"", b"assign a@0 = ''@4;"),
    (b"a = b", b"assign a@0 = b@4;"),
    (b"a = (1)", b"assign a@0 = 1@5;"),
    (b"a = ((b))", b"assign a@0 = b@6;"),
    (b"a = (({}))", b"assign a@0 = table@6 end;"),
];

const PREFIXES: &[Row] = &[
    (b"a = b.c", b"assign a@0 = index@4 b@4 at@5 'c'@6 end;"),
    (b"a = b [c]", b"assign a@0 = index@4 b@4 at@6 c@7 end;"),
    (
        b"a = b[1].c['d']",
        b"assign a@0 = index@4 b@4 at@5 1@6 at@8 'c'@9 at@10 'd'@11 end;",
    ),
    (
        b"a = b[c[d].e]",
        b"assign a@0 = index@4 b@4 at@5 index@6 c@6 at@7 d@8 at@10 'e'@11 end end;",
    ),
    (
        b"a = b[c .. d]",
        b"assign a@0 = index@4 b@4 at@5 concat@6 c@6 d@11 by@8 end end;",
    ),
    (
        b"a = (b.c).d",
        b"assign a@0 = index@4 index@5 b@5 at@6 'c'@7 end at@9 'd'@10 end;",
    ),
    (
        b"a = ('b')[c]",
        b"assign a@0 = index@4 'b'@5 at@9 c@10 end;",
    ),
    (
        b"a = ({})[1]",
        b"assign a@0 = index@4 table@5 end at@8 1@9 end;",
    ),
    (b"a = ((b)).c", b"assign a@0 = index@4 b@6 at@9 'c'@10 end;"),
];

const CONCATS: &[Row] = &[
    (
        b"a = b .. 'c'",
        b"assign a@0 = concat@4 b@4 'c'@9 by@6 end;",
    ),
    (
        b"a = 1 .. 2 .. 3",
        b"assign a@0 = concat@4 1@4 2@9 3@14 by@6 by@11 end;",
    ),
    (
        b"a = b.c .. {} .. nil",
        b"assign a@0 = concat@4 index@4 b@4 at@5 'c'@6 end table@11 end nil@17 by@8 by@14 end;",
    ),
    (
        b"a = (b) .. (c .. d)",
        b"assign a@0 = concat@4 b@5 concat@12 c@12 d@17 by@14 end by@8 end;",
    ),
    (
        b"a = (b .. c) .. d",
        b"assign a@0 = concat@4 concat@5 b@5 c@10 by@7 end d@16 by@13 end;",
    ),
    (
        b"a = (b .. c).d",
        b"assign a@0 = index@4 concat@5 b@5 c@10 by@7 end at@12 'd'@13 end;",
    ),
];

const TABLES: &[Row] = &[
    (b"a = {1}", b"assign a@0 = table@4 item@5 1@5 end;"),
    (b"a = {1;}", b"assign a@0 = table@4 item@5 1@5 end;"),
    (
        b"a = {1; b, nil}",
        b"assign a@0 = table@4 item@5 1@5 item@8 b@8 item@11 nil@11 end;",
    ),
    (
        b"a = {b = 1, ['c'] = 2,}",
        b"assign a@0 = table@4 field@5 'b'@5 1@9 field@12 'c'@13 2@20 end;",
    ),
    (
        b"a = {[b .. c] = d .. e; [f] = g}",
        b"assign a@0 = table@4 field@5 concat@6 b@6 c@11 by@8 end concat@16 d@16 e@21 by@18 end \
field@24 f@25 g@30 end;",
    ),
    (
        b"a = {b = {c = {}}}",
        b"assign a@0 = table@4 field@5 'b'@5 table@9 field@10 'c'@10 table@14 end end end;",
    ),
    (
        b"a = {(b), b.c; {}}",
        b"assign a@0 = table@4 item@5 b@6 item@10 index@10 b@10 at@11 'c'@12 end item@15 table@15 end end;",
    ),
    (
        b"a = {b .. c}",
        b"assign a@0 = table@4 item@5 concat@5 b@5 c@10 by@7 end end;",
    ),
    (
        b"a = {b[1], (b).c}",
        b"assign a@0 = table@4 item@5 index@5 b@5 at@6 1@7 end item@11 index@11 b@12 at@14 'c'@15 end end;",
    ),
];

#[test]
fn tokens_derive_these_chunks(rt: HostRuntime) {
    let alloc = rt.alloc();
    for (name, rows) in [
        ("statements", STATEMENTS),
        ("simple", SIMPLE),
        ("prefixes", PREFIXES),
        ("concats", CONCATS),
        ("tables", TABLES),
    ] {
        assert_eq!(rt; first_misread(alloc, rows), None, "in the {name}");
    }
}
