//! Rockspecs with two faults: the earlier one is told.
use crate::compare::{Case, Frame, GOOD, compare};
use crate::told::Part;
use std::test::Fail;

const TEXT: Frame = Frame {
    start: "",
    end: "",
    part: Part::Head,
};

const HEADS: Frame = Frame {
    start: GOOD,
    end: "",
    part: Part::Head,
};

const PLANS: Frame = Frame {
    start: GOOD,
    end: "",
    part: Part::Plan,
};

const TEXTS: &[Case] = &[
    ("a = = ?", "BadByte 6"),
    ("a = b.c a = ?", "BadByte 12"),
    ("a = b.c a = =", "Expected 12"),
    ("rockspec_format = 1 a = b.c", "IndexOf 25 nil"),
    (
        "a = b.c rockspec_format = {} build = {platforms = 1}",
        "IndexOf 5 nil",
    ),
];

#[test]
fn the_text_comes_before_its_fields(rt: HostRuntime) -> Result<(), Fail> {
    compare(&rt, rt.alloc(), &TEXT, TEXTS)
}

const FIELDS: &[Case] = &[
    (
        "rockspec_format = '2.0' build = {platforms = 1}",
        "BadFormat",
    ),
    ("rockspec_format = '2.0' x = 1", "BadFormat"),
    ("x = 1 hooks = {platforms = 1}", "BadPlatforms hooks"),
    (
        "build_dependencies = {platforms = 1}",
        "BadPlatforms build_dependencies",
    ),
    (
        "package = nil source = {platforms = 1}",
        "BadPlatforms source",
    ),
    // of several shapes the first that is visited, in the order of keys
    ("package = 1 x = 1", "WrongShape package"),
    ("version = 1 package = 1", "WrongShape package"),
    ("a = 1 package = 1", "Unknown a"),
    (
        "build = {type = 1, install = {x = 1}}",
        "Unknown build.install.x",
    ),
    ("build = {type = 1} deploy = 1", "WrongShape build.type"),
    ("test = 1 version = 1", "TooNew test"),
    ("test = 1 source = 1", "WrongShape source"),
    ("x = 1 package = nil", "Unknown x"),
    ("version = 1 package = nil", "WrongShape version"),
    ("test = {} build = nil", "TooNew test"),
    // shape, name, version, dependencies, platform, plan
    ("x = 1 package = '-'", "Unknown x"),
    ("package = '-' build = {}", "Missing build.type"),
    ("package = '-' version = '1'", "BadName"),
    ("package = '-' dependencies = {'!'}", "BadName"),
    ("version = '1' dependencies = {'!'}", "BadVersion"),
    ("version = '1' supported_platforms = {'x'}", "BadVersion"),
    (
        "dependencies = {'!'} supported_platforms = {'x'}",
        "BadDependency 0 BadDependency 0",
    ),
    (
        "dependencies = {'!'} build = {type = 'x'}",
        "BadDependency 0 BadDependency 0",
    ),
    (
        "supported_platforms = {'x'} build = {type = 'x'}",
        "Platform",
    ),
    (
        "supported_platforms = {'x'} build = {type = 'builtin'}",
        "Platform",
    ),
    ("build = {type = 'x'}", "1.0 hello 1.0-1"),
];

#[test]
fn the_first_fault_of_fields_is_told(rt: HostRuntime) -> Result<(), Fail> {
    compare(&rt, rt.alloc(), &HEADS, FIELDS)
}

const BUILDS: &[Case] = &[
    (
        "external_dependencies = {X = {}} build = {type = 'x'}",
        "BuildType x",
    ),
    (
        "build = {type = 'x', modules = {a = 'a.c'}, patches = {a = 'b'}}",
        "BuildType x",
    ),
    (
        "build = {type = 'x', install = {bin = {'/'}}}",
        "BuildType x",
    ),
    (
        "external_dependencies = {X = {}} build = {type = 'builtin'}",
        "NoModules",
    ),
    (
        "build = {type = 'builtin', patches = {a = 'b'}}",
        "NoModules",
    ),
    (
        "external_dependencies = {{}} build = {type = 'none', patches = {a = 'b'}}",
        "External",
    ),
    (
        "external_dependencies = {{}} build = {type = 'builtin', modules = {a = 'a.c'}}",
        "External",
    ),
    (
        "build = {type = 'builtin', modules = {a = 'a.c'}, patches = {a = 'b'}}",
        "Patches",
    ),
    (
        "build = {type = 'none', install = {bin = {'/'}}, patches = {a = 'b'}}",
        "Patches",
    ),
    (
        "build = {type = 'builtin', modules = {['/'] = 'a.lua', a = 'a.c'}}",
        "NeedsCompiler a",
    ),
    (
        "build = {type = 'builtin', modules = {a = 'a.c'}, install = {bin = {'a/b', 'b/b'}}}",
        "NeedsCompiler a",
    ),
    (
        "build = {type = 'builtin', modules = {a = '/a.lua'}, install = {lua = {'/b'}}}",
        "BadTarget /a.lua",
    ),
    (
        "build = {type = 'none', install = {conf = {'/a'}}, copy_directories = {'lua'}}",
        "BadTarget /a",
    ),
    (
        "build = {type = 'none', copy_directories = {'lua', 'bin'}}",
        "BadTarget lua",
    ),
    (
        "build = {type = 'none', install = {bin = {'a/b', 'b/b'}}, copy_directories = {'lua'}}",
        "BadTarget lua",
    ),
    (
        "build = {type = 'none', install = {bin = {'a/b', 'b/b', '/c'}}}",
        "BadTarget /c",
    ),
];

#[test]
fn the_first_fault_of_a_build_is_told(rt: HostRuntime) -> Result<(), Fail> {
    compare(&rt, rt.alloc(), &PLANS, BUILDS)
}
