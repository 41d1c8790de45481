//! Which texts are dependencies, how they are written, and which faults other texts have.

use rocks_constraint::{Dependency, DependencyFault};
use std::alloc::{AllocError, Global};

/// Texts, and how the dependencies that they are are written.
const READ: &[(&str, &str)] = &[
    ("lua", "lua"),
    (" \tlua\t ", "lua"),
    ("Lua-CJSON", "lua-cjson"),
    ("9p", "9p"),
    ("manifests", "manifests"),
    ("lua5.1", "lua5.1"),
    ("lua >= 5.1, < 5.5", "lua >= 5.1, < 5.5"),
    ("lua>=5.1<5.5", "lua >= 5.1, < 5.5"),
    ("a>1<2", "a > 1, < 2"),
    ("lua ~> 5.1", "lua ~> 5.1"),
    ("lua~>5.1", "lua ~> 5.1"),
    ("lua = 5.1", "lua == 5.1"),
    ("lua == 5.1", "lua == 5.1"),
    ("lua 5.1", "lua == 5.1"),
    ("lua 5.1 5.2", "lua == 5.1, == 5.2"),
    ("lua 5.1,5.2", "lua == 5.1, == 5.2"),
    ("lua ~= 5.1", "lua ~= 5.1"),
    ("lua != 5.1", "lua ~= 5.1"),
    ("lua ~= 5.1 != 5.2", "lua ~= 5.1, ~= 5.2"),
    ("lua < 5.1", "lua < 5.1"),
    ("lua > 5.1", "lua > 5.1"),
    ("lua <= 5.1", "lua <= 5.1"),
    ("lua >= 5.1", "lua >= 5.1"),
    ("lua\t>\t5.1", "lua > 5.1"),
    ("lua <=\t5.1-1,,\t,>5.0,", "lua <= 5.1-1, > 5.0"),
    ("lua > 5.1 ,, ,", "lua > 5.1"),
    ("lua > 1.0-1 < 1.0-2", "lua > 1.0-1, < 1.0-2"),
    ("a.b_c-d > scm-1 , ", "a.b_c-d > scm-1"),
    ("lua > RC_1-2", "lua > RC_1-2"),
    (
        "lua > 1234567890.234567890.234567890.234567890",
        "lua > 1234567890.234567890.234567890.234567890",
    ),
    ("lua > 999999999999999999", "lua > 999999999999999999"),
];

const BAD_OPERATOR: &[(&str, u32)] = &[
    ("lua ! 5.1", 4),
    ("lua!5.1", 3),
    ("lua => 5.1", 4),
    ("lua => 5", 4),
    ("lua ==> 5.1", 4),
    ("lua === 5.1", 4),
    ("lua >= 5.1, <> 5.5", 12),
    ("lua >= 5.1 ~ 5.5", 11),
    ("lua =>", 4),
];

const BAD: &[(&str, u32)] = &[
    ("", 0),
    ("  ", 2),
    ("\n", 0),
    ("-lua", 0),
    ("_lua", 0),
    (".lua", 0),
    (" manifest", 1),
    ("Manifest >= 1", 0),
    (
        "lua45678901234567890123456789012345678901234567890123456789012",
        0,
    ),
    (">= 5.1", 0),
    ("lua,", 3),
    ("lua , >= 5.1", 4),
    ("lua=", 4),
    ("lua >=", 6),
    ("lua >= ", 7),
    ("lua >= ,", 7),
    ("lua >= < 5.1", 7),
    ("lua >= 5.1, /", 12),
    ("lua >= 5.1;", 10),
    ("lua >= -5.1", 7),
    ("lua >= 1234567890123456789", 7),
    ("lua >= 5-1234567890123456789", 9),
    ("lua > 1, >= 1.1234567890123456789", 14),
    ("lua >= 1234567890.234567890.234567890.2345678901", 47),
    ("lua >= 5.1 @ 5.2", 11),
    ("lua @5.1", 4),
    ("lua/x", 3),
    ("lua\n>= 5.1", 3),
    ("lu\u{e9}", 2),
];

fn is_written(alloc: Global, text: &str, written: &str) -> bool {
    let Ok(dependency) = Dependency::read(alloc, text) else {
        return false;
    };
    let Ok(found) = dependency.text(alloc) else {
        return false;
    };
    found.as_str() == written
}

fn has_fault(alloc: Global, text: &str, fault: DependencyFault) -> bool {
    match Dependency::read(alloc, text) {
        Ok(_) => false,
        Err(found) => found == fault,
    }
}

#[test]
fn texts_are_read_and_written(rt: HostRuntime) {
    for (text, written) in READ {
        assert!(rt; is_written(rt.alloc(), text, written), "{text}");
        assert!(rt; is_written(rt.alloc(), written, written), "{written}");
    }
}

#[test]
fn faults_are_told(rt: HostRuntime) {
    for (text, place) in BAD_OPERATOR {
        let fault = DependencyFault::BadOperator { place: *place };
        assert!(rt; has_fault(rt.alloc(), text, fault), "{text}");
    }
    for (text, place) in BAD {
        let fault = DependencyFault::BadDependency { place: *place };
        assert!(rt; has_fault(rt.alloc(), text, fault), "{text}");
    }
}

// A text, so many times one more, and an end.
fn repeated(
    alloc: Global,
    start: &str,
    part: &str,
    count: usize,
    end: &str,
) -> Result<String, AllocError> {
    let mut text = String::from_str(alloc, start)?;
    for _ in 0..count {
        text.push_str(part)?;
    }
    text.push_str(end)?;
    Ok(text)
}

fn repeated_place(alloc: Global, start: &str, part: &str, count: usize, end: &str) -> Option<u32> {
    match Dependency::read(alloc, &repeated(alloc, start, part, count, end).ok()?) {
        Err(DependencyFault::BadDependency { place }) => Some(place),
        _ => None,
    }
}

#[test]
fn limits_are_kept(rt: HostRuntime) {
    assert_eq!(rt; repeated_place(rt.alloc(), "lua", " 1", 32, " , "), None);
    assert_eq!(rt; repeated_place(rt.alloc(), "lua", " 1", 33, ""), Some(68));
    assert_eq!(rt; repeated_place(rt.alloc(), "", " ", 997, "lua"), None);
    assert_eq!(rt; repeated_place(rt.alloc(), "", " ", 998, "lua"), Some(1000));
    assert_eq!(rt;
        repeated_place(rt.alloc(), "", " ", 996, "lua/x"),
        Some(999)
    );
    assert_eq!(rt; repeated_place(rt.alloc(), "", " ", 1000, "/"), Some(1000));
}

fn is_copied(alloc: Global, text: &str) -> Option<bool> {
    let dependency = Dependency::read(alloc, text).ok()?;
    let copied = dependency.copy(alloc).ok()?;
    let first = dependency.constraints().first()?;
    Some(
        copied.name() == dependency.name()
            && copied.constraints() == dependency.constraints()
            && first.copy(alloc).ok()? == *first,
    )
}

#[test]
fn copies_are_equal(rt: HostRuntime) {
    assert_eq!(rt; is_copied(rt.alloc(), "lua >= 5.1, < 5.5"), Some(true));
}
