//! Which row is a path's, where tables are gone into, and which fault comes first.
use crate::answers::Wanted::{Fits, Missing, TooNew, Unknown, WrongShape};
use crate::answers::{Case, compare};
use schema_table::Format::{One, Three};
use schema_table::Row;
use std::test::Fail;

const STARS: &[Row] = &[
    row!(["a", "*"], Text, One, No),
    row!(["a", "b"], Bool, One, No),
    row!(["a", "b"], Text, One, No),
    row!(["*", "q"], Bool, One, No),
    row!(["*", "*"], Text, One, No),
    row!(["*"], Open, One, No),
    row!(["t"], Text, One, No),
];

const STAR_CASES: &[Case] = &[
    (b"a = {x = 'y'}", Three, Fits),
    (b"a = {x = true}", Three, WrongShape(0)),
    (b"a = {b = true}", Three, Fits),
    (b"a = {b = 'y'}", Three, WrongShape(1)),
    (b"a = {'y', [true] = 'y', ['*'] = 'y'}", Three, Fits),
    (b"a = {1}", Three, WrongShape(0)),
    (b"a = {[true] = 1}", Three, WrongShape(0)),
    (b"a = {['*'] = 1}", Three, WrongShape(0)),
    (b"a = {q = 'y'}", Three, Fits),
    (b"a = {q = true}", Three, WrongShape(0)),
    (b"z = {q = true}", Three, Fits),
    (b"z = {q = 'y'}", Three, WrongShape(3)),
    (b"z = {b = 'y'}", Three, Fits),
    (b"z = {b = true}", Three, WrongShape(4)),
    (b"z = 'y'", Three, WrongShape(5)),
    (b"t = 'y'", Three, Fits),
    (b"t = {}", Three, WrongShape(6)),
];

#[test]
fn rows_without_stars_come_first(rt: HostRuntime) -> Result<(), Fail> {
    compare(&rt, rt.alloc(), STARS, STAR_CASES)
}

const WITHIN: &[Row] = &[
    row!(["n"], Named, One, No),
    row!(["n", "x"], Text, One, No),
    row!(["m"], Named, One, No),
    row!(["m", "*", "z"], Text, One, No),
    row!(["k"], Named, One, No),
    row!(["*", "*", "*", "*"], Text, One, No),
    row!(["c"], Closed, One, No),
    row!(["c", "o"], Open, One, No),
    row!(["c", "o", "t"], Text, One, No),
    row!(["c", "c"], Closed, One, No),
    row!(["l"], Lists, One, No),
    row!(["l", "*"], Closed, One, No),
    row!(["l", "*", "t"], Text, One, No),
    row!(["s"], Mixed, One, No),
    row!(["s", "x"], Bool, One, No),
];

const WITHIN_CASES: &[Case] = &[
    (b"n = {x = 'y'}", Three, Fits),
    (b"n = {x = 1}", Three, WrongShape(1)),
    (b"n = {y = 1}", Three, Fits),
    (b"m = {x = {z = 1}}", Three, Fits),
    (b"m = {x = 1}", Three, Fits),
    (b"k = {x = {y = {z = 1}}}", Three, Fits),
    (b"l = {{t = 'y'}, {}}", Three, Fits),
    (b"l = {{}, {t = 1}}", Three, WrongShape(12)),
    (b"l = {{}, {u = 1}}", Three, Unknown(b"l.2.u")),
    (b"s = {x = 'y'}", Three, Fits),
    (b"c = {o = {t = 'y', u = 1}, c = {}}", Three, Fits),
    (b"c = {o = {t = 1}}", Three, WrongShape(8)),
    (b"c = {c = {d = {}}}", Three, Unknown(b"c.c.d")),
    (b"c = {c = {[12] = {}}}", Three, Unknown(b"c.c.12")),
    (b"c = {c = {[true] = {}}}", Three, Unknown(b"c.c.true")),
    (b"c = {[false] = {}}", Three, Unknown(b"c.false")),
    (b"c = {[''] = {}}", Three, Unknown(b"c.")),
    (b"c = {['a.b\\0'] = {}}", Three, Unknown(b"c.a.b\0")),
    (b"d = {}", Three, Unknown(b"d")),
];

#[test]
fn tables_are_gone_into(rt: HostRuntime) -> Result<(), Fail> {
    compare(&rt, rt.alloc(), WITHIN, WITHIN_CASES)
}

const ORDER: &[Row] = &[
    row!(["must"], Text, One, Always),
    row!(["b"], Closed, One, No),
    row!(["b", "t"], Text, One, No),
    row!(["b", "n"], Text, Three, No),
    row!(["c"], Text, Three, No),
    row!(["d"], Text, One, No),
];

const ORDER_CASES: &[Case] = &[
    (b"a = 1 b = {t = 1, x = 1} c = 1 d = 1", One, Unknown(b"a")),
    (b"b = {t = 1, x = 1, n = 1} c = 1 d = 1", One, TooNew(3)),
    (b"b = {t = 1, x = 1} c = 1 d = 1", One, WrongShape(2)),
    (b"b = {t = 1, s = 1} c = 1 d = 1", One, Unknown(b"b.s")),
    (b"b = {t = 1, [9] = 1} c = 1 d = 1", One, Unknown(b"b.9")),
    (b"b = {t = 1, [true] = 1} c = 1 d = 1", One, WrongShape(2)),
    (b"b = {[true] = 1, [9] = 1, [10] = 1}", One, Unknown(b"b.9")),
    (b"b = {[true] = 1, [false] = 1}", One, Unknown(b"b.false")),
    (b"b = 1 c = 1 d = 1", One, WrongShape(1)),
    (b"c = 1 d = 1 e = 1", One, TooNew(4)),
    (b"c = 1 d = 1 e = 1", Three, WrongShape(4)),
    (b"d = 1 e = 1", One, WrongShape(5)),
    (b"e = 1 f = 1", One, Unknown(b"e")),
    (b"must = 1 e = 1", One, Unknown(b"e")),
    (b"must = 1", One, WrongShape(0)),
    (b"b = {}", One, Missing(0)),
    (b"must = 'x' b = {}", One, Fits),
];

#[test]
fn the_first_fault_is_told(rt: HostRuntime) -> Result<(), Fail> {
    compare(&rt, rt.alloc(), ORDER, ORDER_CASES)
}
