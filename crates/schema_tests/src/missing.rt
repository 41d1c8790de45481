//! Which rows are missing.
use crate::answers::Wanted::{Fits, Missing, WrongShape};
use crate::answers::{Case, compare};
use schema_table::Format::{One, OneOne, Three};
use schema_table::Row;
use std::test::Fail;

const ROWS: &[Row] = &[
    row!(["open"], Open, One, No),
    row!(["open", "x"], Text, One, Always),
    row!(["named"], Named, One, No),
    row!(["named", "*"], Open, One, No),
    row!(["named", "*", "y"], Text, One, Always),
    row!(["list"], Open, One, No),
    row!(["list", "*"], Text, One, Always),
    row!(["deep"], Open, One, No),
    row!(["deep", "a", "b", "c"], Text, One, Always),
    row!(["old"], Text, One, BeforeThree),
    row!(["name"], Text, One, Always),
];

const CASES: &[Case] = &[
    (b"", One, Missing(9)),
    (b"", OneOne, Missing(9)),
    (b"", Three, Missing(10)),
    (b"name = 'n'", One, Missing(9)),
    (b"name = 'n'", Three, Fits),
    (b"old = 'o'", One, Missing(10)),
    (b"name = 'n' old = 'o'", One, Fits),
    (b"name = 'n' old = 'o'", Three, Fits),
    (b"name = 1", One, WrongShape(10)),
    (b"name = 'n' open = {}", Three, Missing(1)),
    (b"name = 'n' open = {y = 'x'}", Three, Missing(1)),
    (b"name = 'n' open = {x = 'y'}", Three, Fits),
    (b"open = {}", One, Missing(1)),
    (b"name = 'n' named = {}", Three, Fits),
    (b"name = 'n' named = {a = {}}", Three, Missing(4)),
    (b"name = 'n' named = {a = {y = 'y'}}", Three, Fits),
    (
        b"name = 'n' named = {a = {y = 'y'}, b = {}}",
        Three,
        Missing(4),
    ),
    (
        b"name = 'n' named = {a = {}, b = {y = 'y'}}",
        Three,
        Missing(4),
    ),
    (
        b"name = 'n' named = {a = {y = 'y'}, b = {y = 'y'}}",
        Three,
        Fits,
    ),
    (b"name = 'n' list = {}", Three, Missing(6)),
    (b"name = 'n' list = {'x'}", Three, Fits),
    (b"name = 'n' list = {[true] = 'x'}", Three, Fits),
    (b"name = 'n' deep = {}", Three, Fits),
    (b"name = 'n' deep = {a = {}}", Three, Fits),
    (b"name = 'n' deep = {a = {b = 'x'}}", Three, Fits),
    (b"name = 'n' deep = {a = {b = {}}}", Three, Missing(8)),
    (b"name = 'n' deep = {a = {b = {d = 1}}}", Three, Missing(8)),
    (b"name = 'n' deep = {a = {b = {c = 1}}}", Three, Fits),
    (b"name = 'n' deep = {b = {b = {}}}", Three, Fits),
];

#[test]
fn rows_are_missing(rt: HostRuntime) -> Result<(), Fail> {
    compare(&rt, rt.alloc(), ROWS, CASES)
}
