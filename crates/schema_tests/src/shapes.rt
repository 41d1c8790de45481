//! Each shape, with values that have it and values that don't.
use crate::answers::Wanted::{Fits, TooNew, Unknown, WrongShape};
use crate::answers::{Case, compare};
use schema_table::Format::{One, OneOne, Three};
use schema_table::Row;
use std::test::Fail;

const SHAPES: &[Row] = &[
    row!(["text"], Text, One, No),
    row!(["truth"], Bool, One, No),
    row!(["texts"], Texts, One, No),
    row!(["mixed"], Mixed, One, No),
    row!(["named"], Named, One, No),
    row!(["closed"], Closed, One, No),
    row!(["open"], Open, One, No),
    row!(["lists"], Lists, One, No),
];

const SHAPE_CASES: &[Case] = &[
    (b"", Three, Fits),
    (b"text = 'x'", Three, Fits),
    (b"text = ''", Three, Fits),
    (b"text = 1", Three, WrongShape(0)),
    (b"text = true", Three, WrongShape(0)),
    (b"text = {}", Three, WrongShape(0)),
    (b"truth = true", Three, Fits),
    (b"truth = false", Three, Fits),
    (b"truth = 'true'", Three, WrongShape(1)),
    (b"truth = 1", Three, WrongShape(1)),
    (b"truth = {}", Three, WrongShape(1)),
    (b"texts = {}", Three, Fits),
    (b"texts = {'a', 'b'}", Three, Fits),
    (b"texts = {'a', 2}", Three, WrongShape(2)),
    (b"texts = {true, 'b'}", Three, WrongShape(2)),
    (b"texts = {{}}", Three, WrongShape(2)),
    (b"texts = {x = 'a'}", Three, WrongShape(2)),
    (b"texts = {'a', x = 'b'}", Three, WrongShape(2)),
    (b"texts = {'a', [true] = 'b'}", Three, WrongShape(2)),
    (b"texts = {[0] = 'a'}", Three, WrongShape(2)),
    (b"texts = {'a', [3] = 'b'}", Three, WrongShape(2)),
    (b"texts = 'a'", Three, WrongShape(2)),
    (b"texts = 1", Three, WrongShape(2)),
    (b"texts = true", Three, WrongShape(2)),
    (b"mixed = {}", Three, Fits),
    (b"mixed = {'a', [7] = 'b', x = 'c'}", Three, Fits),
    (b"mixed = {'a', [true] = 'b'}", Three, WrongShape(3)),
    (b"mixed = {[false] = 'b'}", Three, WrongShape(3)),
    (b"mixed = {'a', x = 1}", Three, WrongShape(3)),
    (b"mixed = {x = true}", Three, WrongShape(3)),
    (b"mixed = {{}}", Three, WrongShape(3)),
    (b"mixed = 'a'", Three, WrongShape(3)),
    (b"mixed = 1", Three, WrongShape(3)),
    (b"mixed = true", Three, WrongShape(3)),
    (b"named = {}", Three, Fits),
    (b"named = {x = 1, y = {z = {}}}", Three, Fits),
    (b"named = {'a'}", Three, WrongShape(4)),
    (b"named = {x = 1, [true] = 'a'}", Three, WrongShape(4)),
    (b"named = 'a'", Three, WrongShape(4)),
    (b"named = 1", Three, WrongShape(4)),
    (b"named = true", Three, WrongShape(4)),
    (b"closed = {}", Three, Fits),
    (b"closed = {x = 1}", Three, Unknown(b"closed.x")),
    (b"closed = 'a'", Three, WrongShape(5)),
    (b"closed = 1", Three, WrongShape(5)),
    (b"closed = true", Three, WrongShape(5)),
    (b"open = {}", Three, Fits),
    (b"open = {1, x = {y = 2}, [true] = 'a'}", Three, Fits),
    (b"open = 'a'", Three, WrongShape(6)),
    (b"open = 1", Three, WrongShape(6)),
    (b"open = true", Three, WrongShape(6)),
    (b"lists = {}", Three, Fits),
    (b"lists = {{}, {x = 1}}", Three, Fits),
    (b"lists = {{}, 'a'}", Three, WrongShape(7)),
    (b"lists = {{}, [3] = {}}", Three, WrongShape(7)),
    (b"lists = {[0] = {}}", Three, WrongShape(7)),
    (b"lists = {x = {}}", Three, WrongShape(7)),
    (b"lists = {[true] = {}}", Three, WrongShape(7)),
    (b"lists = 'a'", Three, WrongShape(7)),
    (b"lists = 1", Three, WrongShape(7)),
    (b"lists = true", Three, WrongShape(7)),
];

#[test]
fn values_have_shapes(rt: HostRuntime) -> Result<(), Fail> {
    compare(&rt, rt.alloc(), SHAPES, SHAPE_CASES)
}

const FORMATS: &[Row] = &[
    row!(["a"], Text, One, No),
    row!(["b"], Text, OneOne, No),
    row!(["c"], Closed, Three, No),
    row!(["c", "d"], Text, Three, No),
];

const FORMAT_CASES: &[Case] = &[
    (b"a = 'x'", One, Fits),
    (b"a = 'x'", OneOne, Fits),
    (b"a = 'x'", Three, Fits),
    (b"b = 'x'", One, TooNew(1)),
    (b"b = 'x'", OneOne, Fits),
    (b"b = 'x'", Three, Fits),
    (b"c = {}", One, TooNew(2)),
    (b"c = {}", OneOne, TooNew(2)),
    (b"c = {}", Three, Fits),
    (b"b = 1", One, TooNew(1)),
    (b"b = 1", OneOne, WrongShape(1)),
    (b"c = 1", OneOne, TooNew(2)),
    (b"c = 1", Three, WrongShape(2)),
    (b"c = {d = 1}", One, TooNew(2)),
    (b"c = {d = 1}", Three, WrongShape(3)),
];

#[test]
fn rows_begin_with_formats(rt: HostRuntime) -> Result<(), Fail> {
    compare(&rt, rt.alloc(), FORMATS, FORMAT_CASES)
}
