//! Formats, names and versions.
use crate::compare::{Case, Frame, GOOD, compare};
use crate::told::Part;
use std::test::Fail;

const HEADS: Frame = Frame {
    start: GOOD,
    end: "",
    part: Part::Head,
};

const FORMATS: &[Case] = &[
    ("", "1.0 hello 1.0-1"),
    ("rockspec_format = nil", "1.0 hello 1.0-1"),
    ("rockspec_format = '1.0'", "1.0 hello 1.0-1"),
    ("rockspec_format = '1.1'", "1.1 hello 1.0-1"),
    ("rockspec_format = '3.0'", "3.0 hello 1.0-1"),
    ("rockspec_format = '2.0'", "BadFormat"),
    ("rockspec_format = '3'", "BadFormat"),
    ("rockspec_format = '3.0 '", "BadFormat"),
    ("rockspec_format = '03.0'", "BadFormat"),
    ("rockspec_format = '3.1'", "BadFormat"),
    ("rockspec_format = ''", "BadFormat"),
    ("rockspec_format = 1", "BadFormat"),
    ("rockspec_format = 3", "BadFormat"),
    ("rockspec_format = true", "BadFormat"),
    ("rockspec_format = false", "BadFormat"),
    ("rockspec_format = {}", "BadFormat"),
    ("rockspec_format = {'1.0'}", "BadFormat"),
];

#[test]
fn formats_are_read(rt: HostRuntime) -> Result<(), Fail> {
    compare(&rt, rt.alloc(), &HEADS, FORMATS)
}

const NAMES: &[Case] = &[
    ("package = 'Hello'", "1.0 hello 1.0-1"),
    ("package = 'LUA_x.Y-9'", "1.0 lua_x.y-9 1.0-1"),
    ("package = '9p'", "1.0 9p 1.0-1"),
    ("package = 'manifests'", "1.0 manifests 1.0-1"),
    (
        "package = '012345678901234567890123456789012345678901234567890123456789'",
        "1.0 012345678901234567890123456789012345678901234567890123456789 1.0-1",
    ),
    (
        "package = '0123456789012345678901234567890123456789012345678901234567890'",
        "BadName",
    ),
    ("package = ''", "BadName"),
    ("package = '-hello'", "BadName"),
    ("package = '_hello'", "BadName"),
    ("package = '.hello'", "BadName"),
    ("package = 'manifest'", "BadName"),
    ("package = 'Manifest'", "BadName"),
    ("package = 'hello '", "BadName"),
    ("package = 'a/b'", "BadName"),
    ("package = 'a\\0'", "BadName"),
    ("package = '\u{e9}'", "BadName"),
    ("package = 'a\\255'", "BadName"),
];

#[test]
fn names_are_read(rt: HostRuntime) -> Result<(), Fail> {
    compare(&rt, rt.alloc(), &HEADS, NAMES)
}

const VERSIONS: &[Case] = &[
    (
        "local _MODREV, _SPECREV = '1.0', '-1' version = _MODREV .. _SPECREV",
        "1.0 hello 1.0-1",
    ),
    ("version = 1 .. '-' .. 2", "1.0 hello 1-2"),
    ("version = 'scm-1'", "1.0 hello scm-1"),
    ("version = '1.0.RC2-01'", "1.0 hello 1.0.RC2-01"),
    ("version = '1.-1'", "1.0 hello 1.-1"),
    (
        "version = '123456789012345678-1'",
        "1.0 hello 123456789012345678-1",
    ),
    ("version = '1234567890123456789-1'", "BadVersion"),
    ("version = '1-1234567890123456789'", "BadVersion"),
    (
        "version = '12345678.12345678.12345678.12345678.12-1'",
        "1.0 hello 12345678.12345678.12345678.12345678.12-1",
    ),
    (
        "version = '12345678.12345678.12345678.12345678.123-1'",
        "BadVersion",
    ),
    ("version = '1.0'", "BadVersion"),
    ("version = 'scm'", "BadVersion"),
    ("version = '1.0-'", "BadVersion"),
    ("version = '1.0-a'", "BadVersion"),
    ("version = '1.0-1a'", "BadVersion"),
    ("version = '-1'", "BadVersion"),
    ("version = '.1-1'", "BadVersion"),
    ("version = '1.0-1-1'", "BadVersion"),
    ("version = '1_0-1'", "BadVersion"),
    ("version = '1.0-1 '", "BadVersion"),
    ("version = '1/0-1'", "BadVersion"),
    ("version = ''", "BadVersion"),
    ("version = '1.\u{e9}-1'", "BadVersion"),
    ("version = '1.\\255-1'", "BadVersion"),
];

#[test]
fn versions_are_read(rt: HostRuntime) -> Result<(), Fail> {
    compare(&rt, rt.alloc(), &HEADS, VERSIONS)
}
