//! Texts of Lua with the first fault of each.
use crate::read::fault_of;
use lua_eval::{EvalFault, ValueKind};
use std::alloc::Global;
use std::process::Abort;
use std::test::Fail;

/// A text, and the place and the kind of its fault.
type Kinded = (&'static [u8], u32, ValueKind);

/// A text, and the place of its fault.
type Placed = (&'static [u8], u32);

fn check(rt: &impl Abort, alloc: Global, text: &[u8], wanted: EvalFault) -> Result<(), Fail> {
    assert_eq!(rt; fault_of(alloc, text)?, Some(wanted));
    Ok(())
}

const CONCATS: &[Kinded] = &[
    (b"a = 'x' .. b", 8, ValueKind::Nil),
    (b"a = b .. 'x'", 6, ValueKind::Nil),
    (b"a = nil .. 1", 8, ValueKind::Nil),
    (b"a = 1 .. nil", 6, ValueKind::Nil),
    (b"a = 'x' .. true", 8, ValueKind::Bool),
    (b"a = false .. 'x'", 10, ValueKind::Bool),
    (b"a = 1 .. {}", 6, ValueKind::Table),
    (b"a = {} .. 'x'", 7, ValueKind::Table),
    (b"a = {} .. nil", 7, ValueKind::Table),
    (b"a = nil .. {}", 8, ValueKind::Nil),
    (b"a = true .. nil", 9, ValueKind::Bool),
    (b"a = nil .. true", 8, ValueKind::Nil),
    (b"a = {} .. 1 .. true", 12, ValueKind::Bool),
    (b"a = {} .. 1 .. 2", 7, ValueKind::Table),
    (b"a = 1 .. {} .. 2", 12, ValueKind::Table),
    (b"a = 1 .. 2 .. nil", 11, ValueKind::Nil),
    (b"a = nil .. true .. {}", 16, ValueKind::Bool),
    (b"a = nil .. 1 .. 2 .. 3", 8, ValueKind::Nil),
    (b"a = 1 .. nil .. 2 .. 3", 13, ValueKind::Nil),
    (b"a = 1 .. 2 .. nil .. 3", 18, ValueKind::Nil),
    (b"a = 1 .. 2 .. 3 .. nil", 16, ValueKind::Nil),
    (b"a = nil .. true .. {} .. nil", 22, ValueKind::Table),
    (b"a = {} .. true .. 'x' .. 1", 15, ValueKind::Bool),
    (b"a = ({} .. 1) .. true", 8, ValueKind::Table),
    (b"a = {} .. (1 .. 2)", 7, ValueKind::Table),
    (b"a = {} .. (true .. 2)", 16, ValueKind::Bool),
    (b"a = 1 .. ({true})[1]", 6, ValueKind::Bool),
    (b"a = {x = 1 .. b}", 11, ValueKind::Nil),
    (b"a = {[b .. 1] = 1}", 8, ValueKind::Nil),
    (b"local a = b .. 1", 12, ValueKind::Nil),
    (b"a = 1 b = a .. a c = b .. d", 23, ValueKind::Nil),
];

#[test]
fn other_values_are_not_joined(rt: HostRuntime) -> Result<(), Fail> {
    let alloc = rt.alloc();
    for (text, place, kind) in CONCATS {
        let (place, kind) = (*place, *kind);
        check(&rt, alloc, text, EvalFault::ConcatOf { place, kind })?;
    }
    Ok(())
}

const INDEXES: &[Kinded] = &[
    (b"a = b.c", 5, ValueKind::Nil),
    (b"a = b[1]", 5, ValueKind::Nil),
    (b"a = (nil).x", 9, ValueKind::Nil),
    (b"local b = true a = b.c", 20, ValueKind::Bool),
    (b"a = (false).c", 11, ValueKind::Bool),
    (b"local b = 1 a = b[1]", 17, ValueKind::Int),
    (b"b = 'x' a = b.c", 13, ValueKind::Text),
    (b"a = ('x' .. 1).y", 14, ValueKind::Text),
    (b"a = ({x = 1}).x.y", 15, ValueKind::Int),
    (b"a = ({}).x.y", 10, ValueKind::Nil),
    (b"a = b.c.d", 5, ValueKind::Nil),
    (b"a = b[c.d]", 7, ValueKind::Nil),
    (b"a = (b.c)[{} .. 1]", 6, ValueKind::Nil),
    (b"a = {} .. b.c", 11, ValueKind::Nil),
    (b"a = b.c .. {}", 5, ValueKind::Nil),
    (b"a = {[b.c] = d.e}", 7, ValueKind::Nil),
    (b"a = 1, b.c", 8, ValueKind::Nil),
    (b"local a = 1, b.c", 14, ValueKind::Nil),
    (b"a, b = c.d, {} .. 1", 8, ValueKind::Nil),
    (b"local a = a.b", 11, ValueKind::Nil),
    (b"a = b.c a, a = 1", 5, ValueKind::Nil),
    (b"t = {x = {}} a = t.x.y[{}]", 22, ValueKind::Nil),
    (b"a = b a = a.b", 11, ValueKind::Nil),
    (b"t = {1} a = t[1][2][3]", 16, ValueKind::Int),
];

#[test]
fn tables_alone_are_indexed(rt: HostRuntime) -> Result<(), Fail> {
    let alloc = rt.alloc();
    for (text, place, kind) in INDEXES {
        let (place, kind) = (*place, *kind);
        check(&rt, alloc, text, EvalFault::IndexOf { place, kind })?;
    }
    Ok(())
}

const NAMES: &[Placed] = &[
    (b"x, x = 1, 2", 3),
    (b"a, b, a = 1", 6),
    (b"a, b, b, a = 1", 6),
    (b"a, b, c, b, c = 1", 9),
    (b"x, x = {} .. 1", 3),
    (b"local x x, x = 1", 11),
    (b"a = 1 b = 2 x, x = a", 15),
];

#[test]
fn a_name_is_assigned_once_at_a_time(rt: HostRuntime) -> Result<(), Fail> {
    let alloc = rt.alloc();
    for (text, place) in NAMES {
        let place = *place;
        check(&rt, alloc, text, EvalFault::TwiceName { place })?;
    }
    Ok(())
}

const NIL_KEYS: &[Placed] = &[
    (b"a = {[nil_name] = 1}", 5),
    (b"a = {[nil] = {} .. 1}", 5),
    (b"a = {1, [({}).x] = 1}", 8),
];

#[test]
fn nil_is_no_key(rt: HostRuntime) -> Result<(), Fail> {
    let alloc = rt.alloc();
    for (text, place) in NIL_KEYS {
        let place = *place;
        check(&rt, alloc, text, EvalFault::NilKey { place })?;
    }
    Ok(())
}

const TABLE_KEYS: &[Placed] = &[
    (b"a = {[{}] = 1}", 5),
    (b"a = {[{}] = {} .. 1}", 5),
    (b"a = {x = 1, [{1}] = 1}", 12),
    (b"a = {[{}] = 1, [nil] = 2}", 5),
];

#[test]
fn a_table_is_no_key(rt: HostRuntime) -> Result<(), Fail> {
    let alloc = rt.alloc();
    for (text, place) in TABLE_KEYS {
        let place = *place;
        check(&rt, alloc, text, EvalFault::TableKey { place })?;
    }
    Ok(())
}

const TWICE_KEYS: &[Placed] = &[
    (b"a = {x = 1, x = 2}", 12),
    (b"a = {x = 1, ['x'] = 2}", 12),
    (b"a = {x = nil, x = 1}", 14),
    (b"a = {x = 1, x = nil}", 12),
    (b"a = {x = 1, x = {} .. 1}", 12),
    (b"a = {[1] = 'b', 'a'}", 16),
    (b"a = {'b', [1] = 'a'}", 10),
    (b"a = {nil, [1] = 3}", 10),
    (b"a = {[1] = nil, 2}", 16),
    (b"a = {[2] = 1, 2, 3}", 17),
    (b"a = {[2] = 1, nil, b.c}", 19),
    (b"a = {[1] = 1, ({}).x}", 14),
    (b"a = {[true] = 1, [true] = 2}", 17),
    (b"a = {['a' .. 1] = 1, a1 = 2}", 21),
    (b"a = {[0x1] = 1, [1] = 2}", 16),
    (b"a = {x = {y = 1, y = 2}, x = 1}", 17),
    (b"a = 1, {x = 1, x = 2}", 15),
];

#[test]
fn a_key_is_given_once(rt: HostRuntime) -> Result<(), Fail> {
    let alloc = rt.alloc();
    for (text, place) in TWICE_KEYS {
        let place = *place;
        check(&rt, alloc, text, EvalFault::TwiceKey { place })?;
    }
    Ok(())
}
