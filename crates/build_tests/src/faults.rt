//! Why builds fail.
use crate::compare::{Case, compare_faults};
use crate::made::Way;
use std::test::Fail;

const NO_SOURCES: &[Case] = &[
    ("modules = {m = 'm.lua'}", &[], "NoSourceFolder"),
    (
        "modules = {}, install = {lua = {'x'}}",
        &[],
        "NoSourceFolder",
    ),
    (
        "modules = {}, install = {lib = {'x'}}",
        &[],
        "NoSourceFolder",
    ),
    (
        "modules = {}, install = {bin = {'x'}}",
        &[],
        "NoSourceFolder",
    ),
    (
        "modules = {}, install = {conf = {'x'}}",
        &[],
        "NoSourceFolder",
    ),
    (
        "modules = {}, copy_directories = {'doc'}",
        &[],
        "NoSourceFolder",
    ),
    (
        "type = 'none', copy_directories = {'doc'}",
        &[],
        "NoSourceFolder",
    ),
    // a file stands there, and files stand in other folders
    (
        "modules = {m = 'm.lua'}",
        &[("m-1.0-1", "x")],
        "NoSourceFolder",
    ),
    (
        "modules = {m = 'm.lua'}",
        &[
            ("M-1.0-1/m.lua", "x"),
            ("m-1.0/m.lua", "x"),
            ("m-1.0-1.rock/m.lua", "x"),
            ("m-1.0-10/m.lua", "x"),
            ("m.lua", "x"),
            ("x/m-1.0-1/m.lua", "x"),
        ],
        "NoSourceFolder",
    ),
];

#[test]
fn sources_may_be_missing(rt: HostRuntime) -> Result<(), Fail> {
    compare_faults(&rt, rt.alloc(), Way::Build, NO_SOURCES)
}

const MISSING: &[Case] = &[
    (
        "modules = {m = 'm.lua'}",
        &[("m-1.0-1/y", "x")],
        "MissingFile m.lua",
    ),
    (
        "modules = {m = './src/m.lua'}",
        &[("m-1.0-1/m.lua", "x")],
        "MissingFile src/m.lua",
    ),
    (
        "modules = {m = 'm.lua'}",
        &[("m-1.0-1/M.lua", "x"), ("m-1.0-1/m.lua2", "x")],
        "MissingFile m.lua",
    ),
    (
        "modules = {}, install = {conf = {a = 'x'}}",
        &[("m-1.0-1/conf/a", "x")],
        "MissingFile x",
    ),
    (
        "modules = {}, install = {bin = {'b/x'}}",
        &[("m-1.0-1/x", "x")],
        "MissingFile b/x",
    ),
    // a folder stands at the path, and a file above it
    (
        "modules = {m = 'src.lua'}",
        &[("m-1.0-1/src.lua/m.lua", "x")],
        "MissingFile src.lua",
    ),
    (
        "modules = {m = 'src/m.lua'}",
        &[("m-1.0-1/src", "x")],
        "MissingFile src/m.lua",
    ),
    // a folder that isn't there, also where a file stands at its path
    (
        "modules = {}, copy_directories = {'doc'}",
        &[("m-1.0-1/docs/x", "x")],
        "MissingFile doc",
    ),
    (
        "modules = {}, copy_directories = {'doc'}",
        &[("m-1.0-1/doc", "x")],
        "MissingFile doc",
    ),
    (
        "modules = {}, copy_directories = {'./doc/x'}",
        &[("m-1.0-1/doc/y", "x")],
        "MissingFile doc/x",
    ),
    (
        "type = 'none', copy_directories = {'doc'}",
        &[("m-1.0-1/x/doc/y", "x")],
        "MissingFile doc",
    ),
];

#[test]
fn files_and_folders_may_be_missing(rt: HostRuntime) -> Result<(), Fail> {
    compare_faults(&rt, rt.alloc(), Way::Build, MISSING)
}

const ORDER: &[Case] = &[
    // by the path where the file comes to stand
    (
        "modules = {b = 'y.lua', a = 'z.lua'}",
        &[("m-1.0-1/f", "x")],
        "MissingFile z.lua",
    ),
    (
        "modules = {b = 'y.lua', a = 'z.lua'}",
        &[("m-1.0-1/z.lua", "x")],
        "MissingFile y.lua",
    ),
    (
        "modules = {['a.b'] = 'y.lua', ['a-b'] = 'z.lua'}",
        &[("m-1.0-1/f", "x")],
        "MissingFile z.lua",
    ),
    (
        "modules = {a = 'y.lua', ['a-b'] = 'z.lua'}",
        &[("m-1.0-1/f", "x")],
        "MissingFile z.lua",
    ),
    // by kind: modules, libraries, commands, configuration
    (
        "modules = {z = '4.lua'}, install = {lib = {y = '3'}, bin = {x = '2'}, conf = {w = '1'}}",
        &[("m-1.0-1/f", "x")],
        "MissingFile 4.lua",
    ),
    (
        "modules = {z = '4.lua'}, install = {lib = {y = '3'}, bin = {x = '2'}, conf = {w = '1'}}",
        &[("m-1.0-1/4.lua", "x")],
        "MissingFile 3",
    ),
    (
        "modules = {z = '4.lua'}, install = {lib = {y = '3'}, bin = {x = '2'}, conf = {w = '1'}}",
        &[("m-1.0-1/3", "x"), ("m-1.0-1/4.lua", "x")],
        "MissingFile 2",
    ),
    (
        "modules = {z = '4.lua'}, install = {lib = {y = '3'}, bin = {x = '2'}, conf = {w = '1'}}",
        &[
            ("m-1.0-1/2", "x"),
            ("m-1.0-1/3", "x"),
            ("m-1.0-1/4.lua", "x"),
        ],
        "MissingFile 1",
    ),
    // files before folders, and these in order
    (
        "modules = {}, install = {conf = {z = 'z'}}, copy_directories = {'b', 'a'}",
        &[("m-1.0-1/f", "x")],
        "MissingFile z",
    ),
    (
        "modules = {}, install = {conf = {z = 'z'}}, copy_directories = {'b', 'a'}",
        &[("m-1.0-1/z", "x")],
        "MissingFile a",
    ),
    (
        "modules = {}, install = {conf = {z = 'z'}}, copy_directories = {'b', 'a'}",
        &[("m-1.0-1/a/x", "x"), ("m-1.0-1/z", "x")],
        "MissingFile b",
    ),
];

#[test]
fn the_first_that_is_missing_answers(rt: HostRuntime) -> Result<(), Fail> {
    compare_faults(&rt, rt.alloc(), Way::Build, ORDER)
}
