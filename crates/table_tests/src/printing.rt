ghost use Rattle.lua_value.specs.Key.{IsKey};

use crate::made::{check, numbers, text, with};
use lua_value::{Key, Table, Value};
use std::alloc::Global;
use std::process::Abort;
use std::test::Fail;

#[test]
fn texts_are_printed_with_escapes(rt: HostRuntime) -> Result<(), Fail> {
    let alloc = rt.alloc();
    let cases = [
        (b"".as_slice(), b"t = \"\"\n".as_slice()),
        (b"a\"b", b"t = \"a\\\"b\"\n"),
        (b"a\\b", b"t = \"a\\\\b\"\n"),
        (b"a\nb", b"t = \"a\\nb\"\n"),
        (b"\0\x01\x09\x0b\r", b"t = \"\\000\\001\\009\\011\\013\"\n"),
        (b"\x1f ", b"t = \"\\031 \"\n"),
        (b"~\x7f", b"t = \"~\\127\"\n"),
        (b"\x80\xc3\xa4\xff", b"t = \"\x80\xc3\xa4\xff\"\n"),
    ];
    for (bytes, expected) in cases {
        check(&rt, alloc, Value::Text(text(alloc, bytes)?), expected)?;
    }
    Ok(())
}

// Compares what is printed of `t = {KEY = true}`.
fn check_key(rt: &impl Abort, alloc: Global, key: Key, expected: &[u8]) -> Result<(), Fail>
    requires { IsKey key }
{
    let table = with(Table::new(alloc), key, Value::Bool(true))?;
    check(rt, alloc, Value::Table(table), expected)
}

#[test]
fn names_are_printed_bare(rt: HostRuntime) -> Result<(), Fail> {
    let alloc = rt.alloc();
    let cases = [
        (b"x".as_slice(), b"t = {\n   x = true,\n}\n".as_slice()),
        (b"_ENV", b"t = {\n   _ENV = true,\n}\n"),
        (b"Zz09_", b"t = {\n   Zz09_ = true,\n}\n"),
        (b"nilly", b"t = {\n   nilly = true,\n}\n"),
        (b"", b"t = {\n   [\"\"] = true,\n}\n"),
        (b"9a", b"t = {\n   [\"9a\"] = true,\n}\n"),
        (b"a-b", b"t = {\n   [\"a-b\"] = true,\n}\n"),
        (b"\xe4", b"t = {\n   [\"\xe4\"] = true,\n}\n"),
        (b"a\x7f", b"t = {\n   [\"a\\127\"] = true,\n}\n"),
    ];
    for (bytes, expected) in cases {
        check_key(&rt, alloc, Key::Text(text(alloc, bytes)?), expected)?;
    }
    for truth in [true, false] {
        let expected = if truth {
            b"t = {\n   [true] = true,\n}\n".as_slice()
        } else {
            b"t = {\n   [false] = true,\n}\n"
        };
        check_key(&rt, alloc, Key::Bool(truth), expected)?;
    }
    Ok(())
}

#[test]
fn keywords_are_printed_in_brackets(rt: HostRuntime) -> Result<(), Fail> {
    let alloc = rt.alloc();
    let keywords = [
        "and", "break", "do", "else", "elseif", "end", "false", "for", "function", "goto", "if",
        "in", "local", "nil", "not", "or", "repeat", "return", "then", "true", "until", "while",
    ];
    for keyword in keywords {
        let expected = format!(in alloc; "t = {{\n   [\"{keyword}\"] = true,\n}}\n")?;
        let key = Key::Text(text(alloc, keyword.as_bytes())?);
        check_key(&rt, alloc, key, expected.as_bytes())?;
    }
    Ok(())
}

#[test]
fn positions_are_printed_without_keys(rt: HostRuntime) -> Result<(), Fail> {
    let alloc = rt.alloc();
    let cases = [
        (b"".as_slice(), b"t = {}\n".as_slice()),
        (b"\x01\x02", b"t = {\n   1,\n   2,\n}\n"),
        (b"\x01\x02\x04", b"t = {\n   1,\n   2,\n   [4] = 4,\n}\n"),
        (b"\x02\x03", b"t = {\n   [2] = 2,\n   [3] = 3,\n}\n"),
        (b"\0\x01", b"t = {\n   [0] = 0,\n   1,\n}\n"),
        (
            b"\x01\x03\x04",
            b"t = {\n   1,\n   [3] = 3,\n   [4] = 4,\n}\n",
        ),
    ];
    for (keys, expected) in cases {
        check(&rt, alloc, Value::Table(numbers(alloc, keys)?), expected)?;
    }
    Ok(())
}

#[test]
fn keys_of_each_kind_stand_in_order(rt: HostRuntime) -> Result<(), Fail> {
    let alloc = rt.alloc();
    let table = with(numbers(alloc, &[1, 2])?, Key::Int(5), Value::Bool(true))?;
    let value = Value::Text(text(alloc, b"a1")?);
    let table = with(table, Key::Text(text(alloc, b"x")?), value)?;
    let expected = b"t = {\n   1,\n   2,\n   [5] = true,\n   x = \"a1\",\n}\n";
    check(&rt, alloc, Value::Table(table), expected)
}

#[test]
fn tables_within_stand_three_blanks_deeper(rt: HostRuntime) -> Result<(), Fail> {
    let alloc = rt.alloc();
    let empty = Value::Table(Table::new(alloc));
    let inner = with(numbers(alloc, &[1])?, Key::Bool(false), empty)?;
    let middle = with(Table::new(alloc), Key::Int(7), Value::Table(inner))?;
    let outer = with(numbers(alloc, &[1])?, Key::Int(2), Value::Table(middle))?;
    let expected = b"t = {
   1,
   {
      [7] = {
         1,
         [false] = {},
      },
   },
}
";
    check(&rt, alloc, Value::Table(outer), expected)
}
