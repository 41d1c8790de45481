//! Texts of Lua with what is printed of their globals.
use crate::read::printed;
use std::alloc::Global;
use std::process::Abort;
use std::test::Fail;

/// A text, and what is printed of its globals.
type Row = (&'static [u8], &'static [u8]);

fn check(rt: &impl Abort, alloc: Global, text: &[u8], wanted: &[u8]) -> Result<(), Fail> {
    let out = printed(alloc, text)?;
    assert_eq!(rt; out.as_deref(), Some(wanted));
    Ok(())
}

fn check_all(rt: &impl Abort, alloc: Global, rows: &[Row]) -> Result<(), Fail> {
    for (text, wanted) in rows {
        check(rt, alloc, text, wanted)?;
    }
    Ok(())
}

const STATEMENTS: &[Row] = &[
    (b"", b""),
    (b";;", b""),
    (b"a = 1", b"a = 1\n"),
    (b"b = 1 a = 2", b"a = 2\nb = 1\n"),
    (b"a = 1 a = nil", b""),
    (b"a = 1 a = 2", b"a = 2\n"),
    (b"a = nil a = 1", b"a = 1\n"),
    (b"a, b = 1", b"a = 1\n"),
    (b"a, b = 1, 2", b"a = 1\nb = 2\n"),
    (b"a = 1, 2", b"a = 1\n"),
    (b"a = 1 b = 2 a, b = b, a", b"a = 2\nb = 1\n"),
    (
        b"a = 1 b = 2 c = 3 a, b, c = c, a, b",
        b"a = 3\nb = 1\nc = 2\n",
    ),
    (b"a = 1 b = a a = 2", b"a = 2\nb = 1\n"),
    (b"a = b b = 1", b"b = 1\n"),
    (b"a = true b = false", b"a = true\nb = false\n"),
    (b"a = 9223372036854775807", b"a = 9223372036854775807\n"),
    (b"a = 'x' b = ''", b"a = \"x\"\nb = \"\"\n"),
];

#[test]
fn statements_set_globals(rt: HostRuntime) -> Result<(), Fail> {
    check_all(&rt, rt.alloc(), STATEMENTS)
}

const LOCALS: &[Row] = &[
    (b"local a", b""),
    (b"local a = 1", b""),
    (b"local a = 1 a = 2", b""),
    (b"local a a = 2", b""),
    (b"local a = 1 b = a", b"b = 1\n"),
    (b"local a b = a", b""),
    (b"local a = 1 a = 2 b = a", b"b = 2\n"),
    (b"local a a = 2 b = a", b"b = 2\n"),
    (b"local a = 1 a = nil b = a", b""),
    (b"a = 1 local a = 2 b = a", b"a = 1\nb = 2\n"),
    (b"a = 1 local a b = a", b"a = 1\n"),
    (b"a = 1 local a = 2 a = 3 b = a", b"a = 1\nb = 3\n"),
    (b"a = 1 local a = a b = a", b"a = 1\nb = 1\n"),
    (b"local a = 1 local a = 2 b = a", b"b = 2\n"),
    (
        b"local a = 1 local b = a local a = 3 c = b .. a",
        b"c = \"13\"\n",
    ),
    (b"local a = 1 local a = a .. a b = a", b"b = \"11\"\n"),
    (b"local a = 1 local a b = a", b""),
    (b"local a = 1 local a = 2 a = 3 b = a", b"b = 3\n"),
    (b"local a, a = 1, 2 b = a", b"b = 2\n"),
    (b"local a, a = 1, 2 a = 3 b = a", b"b = 3\n"),
    (b"local a, b = b, 1 c = a d = b", b"d = 1\n"),
    (b"local a = 1, 2 b = a", b"b = 1\n"),
    (b"local a, b = 1 c = a d = b", b"c = 1\n"),
    (b"local a = 1 a, b = b, a", b"b = 1\n"),
    (
        b"local a, b = 1, 2 a, b = b, a c = a d = b",
        b"c = 2\nd = 1\n",
    ),
    (
        b"local _MODREV, _SPECREV = '1.0', '-1' version = _MODREV .. _SPECREV",
        b"version = \"1.0-1\"\n",
    ),
];

#[test]
fn locals_hide_globals(rt: HostRuntime) -> Result<(), Fail> {
    check_all(&rt, rt.alloc(), LOCALS)
}

const JOINS: &[Row] = &[
    (b"a = 'x' .. 'y'", b"a = \"xy\"\n"),
    (b"a = 'x' .. 1", b"a = \"x1\"\n"),
    (b"a = 1 .. 'x'", b"a = \"1x\"\n"),
    (b"a = 1 .. 2", b"a = \"12\"\n"),
    (
        b"a = 0 .. 9223372036854775807",
        b"a = \"09223372036854775807\"\n",
    ),
    (b"a = 0x10 .. ''", b"a = \"16\"\n"),
    (b"a = '' .. ''", b"a = \"\"\n"),
    (b"a = 1 .. 'b' .. 3 .. 'd'", b"a = \"1b3d\"\n"),
    (b"a = ('a' .. 'b') .. 'c'", b"a = \"abc\"\n"),
    (b"a = 'a' .. ('b' .. 'c')", b"a = \"abc\"\n"),
    (b"a = 'a' .. ({'b'})[1] .. ({c = 3}).c", b"a = \"ab3\"\n"),
    (b"a = (1) b = ((('x')))", b"a = 1\nb = \"x\"\n"),
];

#[test]
fn texts_and_integers_are_joined(rt: HostRuntime) -> Result<(), Fail> {
    check_all(&rt, rt.alloc(), JOINS)
}

const INDEXES: &[Row] = &[
    (
        b"local t = {x = {y = 7}} a = t.x.y b = t['x']['y'] c = t.z",
        b"a = 7\nb = 7\n",
    ),
    (b"local t = {x = 1} a = t[nil] b = t[{}] c = t[true]", b""),
    (
        b"local t = {5, 6} a = t[1] b = t[2] c = t[3] d = t['1']",
        b"a = 5\nb = 6\n",
    ),
    (
        b"local t = {[true] = 1, [false] = 2, [3] = 4} a = t[true] b = t[false] c = t[3]",
        b"a = 1\nb = 2\nc = 4\n",
    ),
    (b"local t = {a1 = 1} a = t['a' .. 1]", b"a = 1\n"),
    (
        b"local t, k = {x = {'y'}, y = 2}, 'x' a = t[t[k][1]]",
        b"a = 2\n",
    ),
    (b"a = ({x = 1}).x b = (({2}))[1]", b"a = 1\nb = 2\n"),
    (b"t = {x = {}} a = t.x", b"a = {}\nt = {\n   x = {},\n}\n"),
];

#[test]
fn tables_are_indexed(rt: HostRuntime) -> Result<(), Fail> {
    check_all(&rt, rt.alloc(), INDEXES)
}

const TABLES: &[Row] = &[
    (b"t = {}", b"t = {}\n"),
    (
        b"t = {1, 2, x = 'a' .. 1, [5] = true}",
        b"t = {\n   1,\n   2,\n   [5] = true,\n   x = \"a1\",\n}\n",
    ),
    (b"t = {nil, 2}", b"t = {\n   [2] = 2,\n}\n"),
    (b"t = {nil, nil, 3; nil}", b"t = {\n   [3] = 3,\n}\n"),
    (b"t = {x = nil, [1] = nil, [true] = nil}", b"t = {}\n"),
    (b"t = {[2] = 'b', 'a'}", b"t = {\n   \"a\",\n   \"b\",\n}\n"),
    (b"t = {'a', [2] = 'b'}", b"t = {\n   \"a\",\n   \"b\",\n}\n"),
    (
        b"t = {x = 1, 'a', y = 2, 'b'}",
        b"t = {\n   \"a\",\n   \"b\",\n   x = 1,\n   y = 2,\n}\n",
    ),
    (
        b"t = {[1] = 1, ['1'] = 2}",
        b"t = {\n   1,\n   [\"1\"] = 2,\n}\n",
    ),
    (
        b"t = {[0] = 0, [false] = 1, [''] = 2}",
        b"t = {\n   [0] = 0,\n   [\"\"] = 2,\n   [false] = 1,\n}\n",
    ),
    (
        b"x = 'k' t = {x = 1, [x] = 2}",
        b"t = {\n   k = 2,\n   x = 1,\n}\nx = \"k\"\n",
    ),
    (
        b"t = {{1}, {x = {}}}",
        b"t = {\n   {\n      1,\n   },\n   {\n      x = {},\n   },\n}\n",
    ),
    (
        b"local t = {1} a = {t, t}",
        b"a = {\n   {\n      1,\n   },\n   {\n      1,\n   },\n}\n",
    ),
];

#[test]
fn tables_are_made(rt: HostRuntime) -> Result<(), Fail> {
    check_all(&rt, rt.alloc(), TABLES)
}
