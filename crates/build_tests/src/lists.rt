//! What each list of a build installs.
use crate::compare::{Case, compare_rocks};
use crate::made::Way;
use std::test::Fail;

const MODULES: &[Case] = &[
    (
        "modules = {m = 'm.lua'}",
        &[("m-1.0-1/m.lua", "a")],
        "Lua m.lua = a\n",
    ),
    (
        "modules = {m = './src/x.lua'}",
        &[("m-1.0-1/src/x.lua", "a")],
        "Lua m.lua = a\n",
    ),
    (
        "modules = {m = 'init.lua', ['m.n'] = './src/init.lua'}",
        &[("m-1.0-1/init.lua", "a"), ("m-1.0-1/src/init.lua", "b")],
        "Lua m/init.lua = a\nLua m/n/init.lua = b\n",
    ),
    // the files of the rock are in its own order, whatever that of the sources
    (
        "modules = {['b.c'] = '1.lua', b = '2.lua', a = '3.lua'}",
        &[
            ("m-1.0-1/1.lua", "x"),
            ("m-1.0-1/2.lua", "y"),
            ("m-1.0-1/3.lua", "z"),
        ],
        "Lua a.lua = z\nLua b.lua = y\nLua b/c.lua = x\n",
    ),
    // one source for two modules
    (
        "modules = {a = 'x.lua', ['b.c'] = 'x.lua'}",
        &[("m-1.0-1/x.lua", "xyz")],
        "Lua a.lua = xyz\nLua b/c.lua = xyz\n",
    ),
    (
        "modules = {m = 'm.lua'}",
        &[("m-1.0-1/m.lua", "")],
        "Lua m.lua = \n",
    ),
    // no other file is taken, and none from other folders and servers
    (
        "modules = {m = 'm.lua'}",
        &[
            ("m-1.0-1/doc/x", "x"),
            ("m-1.0-1/m.lua", "a"),
            ("m-1.0-1/n.lua", "x"),
            ("m-1.0-1.rock/lua/n.lua", "x"),
            ("m-1.0-1.rockspec", "x"),
            ("m-1.0-2/m.lua", "x"),
            ("m.lua", "x"),
        ],
        "Lua m.lua = a\n",
    ),
];

#[test]
fn modules_are_built(rt: HostRuntime) -> Result<(), Fail> {
    compare_rocks(&rt, rt.alloc(), Way::Build, MODULES)
}

const INSTALLED: &[Case] = &[
    (
        "modules = {}, install = {lua = {'src/x.lua', y = 'y.lua', ['a.b'] = 'data.txt'}}",
        &[
            ("m-1.0-1/data.txt", "3"),
            ("m-1.0-1/src/x.lua", "1"),
            ("m-1.0-1/y.lua", "2"),
        ],
        "Lua a/data.txt = 3\nLua x.lua = 1\nLua y.lua = 2\n",
    ),
    (
        "modules = {}, install = {lib = {'build/x.so', ['a.b'] = './y.so'}}",
        &[("m-1.0-1/build/x.so", "1"), ("m-1.0-1/y.so", "2")],
        "Lib a/y.so = 2\nLib x.so = 1\n",
    ),
    (
        "modules = {}, install = {bin = {'bin/x', './y.lua', z = 'bin/x'}}",
        &[("m-1.0-1/bin/x", "1"), ("m-1.0-1/y.lua", "")],
        "Bin x = 1\nBin y.lua = \nBin z = 1\n",
    ),
    (
        "modules = {}, install = {conf = {'etc/x', ['a/b'] = './c'}}",
        &[("m-1.0-1/c", "2"), ("m-1.0-1/etc/x", "1")],
        "own conf/a/b = 2\nown conf/x = 1\n",
    ),
    // by kind and then by path, one source for each
    (
        "modules = {z = 'f.lua'}, install = {lua = {'f.lua'}, lib = {'f.lua'}, bin = {'f.lua'}, conf = {'f.lua'}}",
        &[("m-1.0-1/f.lua", "x")],
        "Lua f.lua = x\nLua z.lua = x\nLib f.lua = x\nBin f.lua = x\nown conf/f.lua = x\n",
    ),
];

#[test]
fn files_are_installed(rt: HostRuntime) -> Result<(), Fail> {
    compare_rocks(&rt, rt.alloc(), Way::Build, INSTALLED)
}

const FOLDERS: &[Case] = &[
    (
        "modules = {}, copy_directories = {'doc'}",
        &[
            ("m-1.0-1/doc/a/b/c", "2"),
            ("m-1.0-1/doc/a/d", ""),
            ("m-1.0-1/doc/x", "1"),
            ("m-1.0-1/doc.txt", "x"),
            ("m-1.0-1/docs/x", "x"),
        ],
        "own doc/a/b/c = 2\nown doc/a/d = \nown doc/x = 1\n",
    ),
    // the path is kept, and other files beside are not taken
    (
        "modules = {}, copy_directories = {'./doc/html'}",
        &[("m-1.0-1/doc/html/x", "1"), ("m-1.0-1/doc/x", "x")],
        "own doc/html/x = 1\n",
    ),
    // the files of all folders are in byte order
    (
        "modules = {}, copy_directories = {'a', 'a-b', 'a0'}",
        &[
            ("m-1.0-1/a/x", "1"),
            ("m-1.0-1/a/y/z", "2"),
            ("m-1.0-1/a-b/y", "3"),
            ("m-1.0-1/a0/x", "4"),
        ],
        "own a-b/y = 3\nown a/x = 1\nown a/y/z = 2\nown a0/x = 4\n",
    ),
    // and so are those and the configuration files
    (
        "modules = {}, install = {conf = {x = 'b/x'}}, copy_directories = {'b', 'confs', 'd'}",
        &[
            ("m-1.0-1/b/x", "1"),
            ("m-1.0-1/confs/x", "2"),
            ("m-1.0-1/d/x", "3"),
        ],
        "own b/x = 1\nown conf/x = 1\nown confs/x = 2\nown d/x = 3\n",
    ),
    // a file may be deployed too
    (
        "modules = {m = 'src/m.lua'}, copy_directories = {'src'}",
        &[("m-1.0-1/src/m.lua", "a")],
        "Lua m.lua = a\nown src/m.lua = a\n",
    ),
    // names of folders that are kept at the top, and names like those
    (
        "modules = {}, copy_directories = {'src', 'm-1.0-2.rockspec'}",
        &[
            ("m-1.0-1/m-1.0-2.rockspec/x", "1"),
            ("m-1.0-1/src/lua/x", "2"),
            ("m-1.0-1/src/rock_manifest", "3"),
        ],
        "own m-1.0-2.rockspec/x = 1\nown src/lua/x = 2\nown src/rock_manifest = 3\n",
    ),
];

#[test]
fn folders_are_copied(rt: HostRuntime) -> Result<(), Fail> {
    compare_rocks(&rt, rt.alloc(), Way::Build, FOLDERS)
}

const NOTHING: &[Case] = &[
    ("modules = {}", &[], ""),
    (
        "modules = {}",
        &[("m-1.0-1/m.lua", "x"), ("m-1.0-1/doc/x", "x")],
        "",
    ),
    ("type = 'none'", &[], ""),
    ("type = 'none'", &[("m-1.0-1/m.lua", "x")], ""),
    ("type = 'none', modules = {m = 'm.lua'}", &[], ""),
    (
        "type = 'none', modules = {m = 'm.lua'}",
        &[("m-1.0-1/m.lua", "x")],
        "",
    ),
    (
        "modules = {}, install = {lua = {}, lib = {}, bin = {}, conf = {}}, copy_directories = {}",
        &[],
        "",
    ),
    // a file stands where the folder would
    ("modules = {}", &[("m-1.0-1", "x")], ""),
];

#[test]
fn a_build_may_name_nothing(rt: HostRuntime) -> Result<(), Fail> {
    compare_rocks(&rt, rt.alloc(), Way::Build, NOTHING)
}

const NONE: &[Case] = &[
    (
        "type = 'none', install = {bin = {'x'}}, copy_directories = {'doc'}",
        &[("m-1.0-1/doc/y", "2"), ("m-1.0-1/x", "1")],
        "Bin x = 1\nown doc/y = 2\n",
    ),
    (
        "type = 'none', modules = {m = 'absent.lua'}, install = {conf = {'x'}}",
        &[("m-1.0-1/x", "1")],
        "own conf/x = 1\n",
    ),
];

#[test]
fn a_build_of_type_none_installs_all_but_modules(rt: HostRuntime) -> Result<(), Fail> {
    compare_rocks(&rt, rt.alloc(), Way::Build, NONE)
}
