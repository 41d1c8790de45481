ghost use Rattle.std.specs.Prelude.{IfOk};
ghost use Rattle.lua_value.specs.Ordered.{IsOrdered};

use crate::made::{check, list, text, with};
use lua_value::{Key, Table, Value, laws};
use std::alloc::{AllocError, Global};
use std::process::Abort;
use std::test::Fail;

// Keys of each kind, each kind out of order.
fn mixed(alloc: Global) -> Result<Table, AllocError>
    ensures { IfOk result (λ made. IsOrdered made) }
{
    let made = Table::new(alloc);
    let made = with(made, Key::Text(text(alloc, b"b")?), Value::Bool(false))?;
    let made = with(made, Key::Text(text(alloc, b"")?), Value::Bool(false))?;
    let made = with(made, Key::Text(text(alloc, b"ab")?), Value::Bool(false))?;
    let made = with(made, Key::Bool(true), Value::Int(4))?;
    let made = with(made, Key::Bool(false), Value::Int(4))?;
    let made = with(made, Key::Int(10), Value::Int(3))?;
    let made = with(made, Key::Int(0), Value::Int(3))?;
    with(made, Key::Int(2), Value::Int(3))
}

const MIXED: &[u8] = b"t = {
   [0] = 3,
   [2] = 3,
   [10] = 3,
   [\"\"] = false,
   ab = false,
   b = false,
   [false] = 4,
   [true] = 4,
}
";

#[test]
fn keys_stand_in_order(rt: HostRuntime) -> Result<(), Fail> {
    let alloc = rt.alloc();
    let table = mixed(alloc)?;
    assert_eq!(rt; table.len(), 8);
    check(&rt, alloc, Value::Table(table.copy(alloc)?), MIXED)?;
    check(&rt, alloc, Value::Table(table), MIXED)
}

#[test]
fn entries_are_found_by_place_and_by_key(rt: HostRuntime) -> Result<(), Fail> {
    let alloc = rt.alloc();
    let table = mixed(alloc)?;
    let (key, value) = table.entry(4).ok_or("no entry")?;
    assert!(rt; matches!(value, Value::Bool(false)));
    assert!(rt; *key == Key::Text(text(alloc, b"ab")?));
    assert!(rt; table.entry(8).is_none());
    assert!(rt; matches!(table.get(&Key::Bool(true)), Some(Value::Int(4))));
    assert!(rt; table.get(&Key::Int(3)).is_none());
    Ok(())
}

#[test]
fn an_insert_answers_the_old_value(rt: HostRuntime) -> Result<(), Fail> {
    let alloc = rt.alloc();
    let mut table = list(alloc, &[7, 8])?;
    let old = table.insert(Key::Int(2), Value::Bool(true))?;
    assert!(rt; matches!(old, Some(Value::Int(8))));
    let old = table.insert(Key::Int(0), Value::Int(5))?;
    assert!(rt; old.is_none());
    let expected = b"t = {\n   [0] = 5,\n   7,\n   true,\n}\n";
    check(&rt, alloc, Value::Table(table), expected)
}

#[test]
fn only_the_keys_1_to_n_make_a_list(rt: HostRuntime) -> Result<(), Fail> {
    let alloc = rt.alloc();
    assert!(rt; list(alloc, b"")?.is_list());
    assert!(rt; list(alloc, b"abc")?.is_list());
    assert!(rt; !with(list(alloc, b"abc")?, Key::Int(0), Value::Int(9))?.is_list());
    assert!(rt; !with(list(alloc, b"abc")?, Key::Int(5), Value::Int(9))?.is_list());
    assert!(rt; !with(Table::new(alloc), Key::Int(2), Value::Int(9))?.is_list());
    assert!(rt; !with(list(alloc, b"a")?, Key::Bool(true), Value::Int(9))?.is_list());
    Ok(())
}

fn check_merge(
    rt: &impl Abort,
    alloc: Global,
    lower: &Table,
    upper: &Table,
    expected: &[u8],
) -> Result<(), Fail>
    requires lower { IsOrdered lower.now }
    requires upper { IsOrdered upper.now }
{
    let merged = lower.merged(alloc, upper)?;
    check(rt, alloc, Value::Table(merged), expected)
}

#[test]
fn lists_are_merged_by_position(rt: HostRuntime) -> Result<(), Fail> {
    let alloc = rt.alloc();
    let cases = [
        (b"".as_slice(), b"".as_slice(), b"t = {}\n".as_slice()),
        (b"\x01\x02", b"", b"t = {\n   1,\n   2,\n}\n"),
        (b"", b"\x07\x08", b"t = {\n   7,\n   8,\n}\n"),
        (
            b"\x01\x02\x03",
            b"\x07\x08",
            b"t = {\n   7,\n   8,\n   3,\n}\n",
        ),
        (
            b"\x07\x08",
            b"\x01\x02\x03",
            b"t = {\n   1,\n   2,\n   3,\n}\n",
        ),
    ];
    for (lower, upper, expected) in cases {
        check_merge(
            &rt,
            alloc,
            &list(alloc, lower)?,
            &list(alloc, upper)?,
            expected,
        )?;
    }
    Ok(())
}

#[test]
fn keys_of_each_kind_are_merged(rt: HostRuntime) -> Result<(), Fail> {
    let alloc = rt.alloc();
    let expected = b"t = {
   [0] = 3,
   1,
   2,
   3,
   [10] = 3,
   [\"\"] = false,
   ab = false,
   b = false,
   [false] = 4,
   [true] = 4,
}
";
    check_merge(
        &rt,
        alloc,
        &mixed(alloc)?,
        &list(alloc, b"\x01\x02\x03")?,
        expected,
    )
}

// A table in which `t` has a list, or a text where the list is empty.
fn under_t(alloc: Global, items: &[u8]) -> Result<Table, AllocError>
    ensures { IfOk result (λ made. IsOrdered made) }
{
    let key = Key::Text(text(alloc, b"t")?);
    if items.is_empty() {
        return with(Table::new(alloc), key, Value::Text(text(alloc, b"w")?));
    }
    with(Table::new(alloc), key, Value::Table(list(alloc, items)?))
}

#[test]
fn tables_are_merged_within_and_texts_are_not(rt: HostRuntime) -> Result<(), Fail> {
    let alloc = rt.alloc();
    let cases = [
        (
            b"".as_slice(),
            b"\x07".as_slice(),
            b"t = {\n   t = {\n      7,\n   },\n}\n".as_slice(),
        ),
        (b"\x07", b"", b"t = {\n   t = \"w\",\n}\n"),
        (
            b"\x01\x02",
            b"\x07",
            b"t = {\n   t = {\n      7,\n      2,\n   },\n}\n",
        ),
    ];
    for (lower, upper, expected) in cases {
        check_merge(
            &rt,
            alloc,
            &under_t(alloc, lower)?,
            &under_t(alloc, upper)?,
            expected,
        )?;
    }
    Ok(())
}

#[test]
fn laws_hold_of_any_tables(rt: HostRuntime) -> Result<(), Fail> {
    let alloc = rt.alloc();
    let (lower, upper) = (mixed(alloc)?, list(alloc, b"abc")?);
    laws::merged_again(&lower, &upper);
    laws::merged_key(&lower, &upper, &Key::Int(1));
    laws::merged_with_empty(&upper);
    laws::put_key(&lower, &Key::Int(1), &Value::Nil);
    laws::put_other(&lower, &Key::Int(1), &Value::Nil, &Key::Int(2));
    Ok(())
}
