//! Forty rows, of which the last one has to be there, and none.
use crate::answers::Wanted::{Fits, Missing, Unknown, WrongShape};
use crate::answers::{Case, compare};
use schema_table::Format::Three;
use schema_table::Row;
use std::test::Fail;

const ROWS: &[Row] = &[
    row!(["k0"], Text, One, No),
    row!(["k1"], Text, One, No),
    row!(["k2"], Text, One, No),
    row!(["k3"], Text, One, No),
    row!(["k4"], Text, One, No),
    row!(["k5"], Text, One, No),
    row!(["k6"], Text, One, No),
    row!(["k7"], Text, One, No),
    row!(["k8"], Text, One, No),
    row!(["k9"], Text, One, No),
    row!(["k10"], Text, One, No),
    row!(["k11"], Text, One, No),
    row!(["k12"], Text, One, No),
    row!(["k13"], Text, One, No),
    row!(["k14"], Text, One, No),
    row!(["k15"], Text, One, No),
    row!(["k16"], Text, One, No),
    row!(["k17"], Text, One, No),
    row!(["k18"], Text, One, No),
    row!(["k19"], Text, One, No),
    row!(["k20"], Text, One, No),
    row!(["k21"], Text, One, No),
    row!(["k22"], Text, One, No),
    row!(["k23"], Text, One, No),
    row!(["k24"], Text, One, No),
    row!(["k25"], Text, One, No),
    row!(["k26"], Text, One, No),
    row!(["k27"], Text, One, No),
    row!(["k28"], Text, One, No),
    row!(["k29"], Text, One, No),
    row!(["k30"], Text, One, No),
    row!(["k31"], Text, One, No),
    row!(["k32"], Text, One, No),
    row!(["k33"], Text, One, No),
    row!(["k34"], Text, One, No),
    row!(["k35"], Text, One, No),
    row!(["k36"], Text, One, No),
    row!(["k37"], Text, One, No),
    row!(["k38"], Text, One, No),
    row!(["k39"], Text, One, Always),
];

const CASES: &[Case] = &[
    (b"", Three, Missing(39)),
    (b"k38 = 'x'", Three, Missing(39)),
    (b"k39 = 'x'", Three, Fits),
    (b"k39 = 1", Three, WrongShape(39)),
    (b"k33 = 1 k39 = 1", Three, WrongShape(33)),
    (b"k40 = 'x'", Three, Unknown(b"k40")),
];

#[test]
fn the_last_row_counts(rt: HostRuntime) -> Result<(), Fail> {
    compare(&rt, rt.alloc(), ROWS, CASES)
}

const CASES_OF_NONE: &[Case] = &[(b"", Three, Fits), (b"k = {}", Three, Unknown(b"k"))];

#[test]
fn without_rows_no_key_is_known(rt: HostRuntime) -> Result<(), Fail> {
    compare(&rt, rt.alloc(), &[], CASES_OF_NONE)
}
