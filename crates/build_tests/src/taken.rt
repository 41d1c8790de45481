//! Unpacked rocks.
use crate::compare::{Case, compare_faults, compare_rocks};
use crate::made::Way;
use std::test::Fail;

const TAKEN: &[Case] = &[
    ("modules = {}", &[], ""),
    (
        "modules = {}",
        &[("m-1.0-1.rock/lua/m.lua", "a")],
        "Lua m.lua = a\n",
    ),
    (
        "modules = {}",
        &[("m-1.0-1.rock/lib/m.so", "a")],
        "Lib m.so = a\n",
    ),
    ("modules = {}", &[("m-1.0-1.rock/bin/m", "")], "Bin m = \n"),
    (
        "modules = {}",
        &[("m-1.0-1.rock/doc/m/x", "a")],
        "own doc/m/x = a\n",
    ),
    // each kind in order
    (
        "modules = {}",
        &[
            ("m-1.0-1.rock/README", "1"),
            ("m-1.0-1.rock/a-b/y", "2"),
            ("m-1.0-1.rock/a/x", "3"),
            ("m-1.0-1.rock/bin/b", "4"),
            ("m-1.0-1.rock/bin/a", "5"),
            ("m-1.0-1.rock/lib/a.so", "6"),
            ("m-1.0-1.rock/lua/a/b.lua", "7"),
            ("m-1.0-1.rock/lua/a.lua", "8"),
            ("m-1.0-1.rock/zz", "9"),
        ],
        "Lua a.lua = 8\nLua a/b.lua = 7\nLib a.so = 6\nBin a = 5\nBin b = 4\n\
            own README = 1\nown a-b/y = 2\nown a/x = 3\nown zz = 9\n",
    ),
    // files with the names of the folders
    (
        "modules = {}",
        &[
            ("m-1.0-1.rock/bin", "1"),
            ("m-1.0-1.rock/lib", "2"),
            ("m-1.0-1.rock/lua", "3"),
        ],
        "own bin = 1\nown lib = 2\nown lua = 3\n",
    ),
    // names like those of the folders, and those names deeper down
    (
        "modules = {}",
        &[
            ("m-1.0-1.rock/Lua/x", "1"),
            ("m-1.0-1.rock/conf/lua/x", "2"),
            ("m-1.0-1.rock/conf/x", "3"),
            ("m-1.0-1.rock/lua/bin/x", "4"),
            ("m-1.0-1.rock/luax/x", "5"),
        ],
        "Lua bin/x = 4\nown Lua/x = 1\nown conf/lua/x = 2\nown conf/x = 3\nown luax/x = 5\n",
    ),
    // the rockspec and an old record are passed over
    (
        "modules = {}",
        &[
            ("m-1.0-1.rock/m-1.0-1.rockspec", "x"),
            ("m-1.0-1.rock/rock_manifest", "x"),
            ("m-1.0-1.rock/lua/m.lua", "a"),
        ],
        "Lua m.lua = a\n",
    ),
    // and no others with these names, nor with names like them
    (
        "modules = {}",
        &[
            ("m-1.0-1.rock/doc/m-1.0-1.rockspec", "1"),
            ("m-1.0-1.rock/doc/rock_manifest", "2"),
            ("m-1.0-1.rock/lua/rock_manifest", "3"),
            ("m-1.0-1.rock/m-1.0-1.rockspec.old/x", "4"),
            ("m-1.0-1.rock/m-1.0-2.rockspec", "5"),
            ("m-1.0-1.rock/rock_manifest2/x", "6"),
            ("m-1.0-1.rock/rock_manifests", "7"),
        ],
        "Lua rock_manifest = 3\nown doc/m-1.0-1.rockspec = 1\nown doc/rock_manifest = 2\n\
            own m-1.0-1.rockspec.old/x = 4\nown m-1.0-2.rockspec = 5\nown rock_manifest2/x = 6\n\
            own rock_manifests = 7\n",
    ),
    // no file of another folder
    (
        "modules = {}",
        &[
            ("m-1.0-1/lua/x", "x"),
            ("m-1.0-1.rock2/lua/x", "x"),
            ("m-1.0-2.rock/lua/x", "x"),
        ],
        "",
    ),
    ("modules = {}", &[("m-1.0-1.rock", "x")], ""),
    // whatever the build says
    (
        "type = 'make'",
        &[("m-1.0-1.rock/lua/m.lua", "a")],
        "Lua m.lua = a\n",
    ),
    (
        "modules = {n = 'n.lua'}, copy_directories = {'doc'}",
        &[("m-1.0-1/n.lua", "x"), ("m-1.0-1.rock/lua/m.lua", "a")],
        "Lua m.lua = a\n",
    ),
];

#[test]
fn unpacked_rocks_are_taken(rt: HostRuntime) -> Result<(), Fail> {
    compare_rocks(&rt, rt.alloc(), Way::Take, TAKEN)
}

const BAD: &[Case] = &[
    (
        "modules = {}",
        &[("m-1.0-1.rock/rock_manifest/x", "x")],
        "BadTarget rock_manifest/x",
    ),
    (
        "modules = {}",
        &[("m-1.0-1.rock/rock_manifest/x/y", "x")],
        "BadTarget rock_manifest/x/y",
    ),
    // only where the rockspec isn't there
    (
        "modules = {}",
        &[("m-1.0-1.rock/m-1.0-1.rockspec/x", "x")],
        "BadTarget m-1.0-1.rockspec/x",
    ),
    // the least
    (
        "modules = {}",
        &[
            ("m-1.0-1.rock/a", "x"),
            ("m-1.0-1.rock/rock_manifest/y", "x"),
            ("m-1.0-1.rock/rock_manifest/x/z", "x"),
            ("m-1.0-1.rock/z", "x"),
        ],
        "BadTarget rock_manifest/x/z",
    ),
    (
        "modules = {}",
        &[
            ("m-1.0-1.rock/rock_manifest/a", "x"),
            ("m-1.0-1.rock/m-1.0-1.rockspec/z", "x"),
        ],
        "BadTarget m-1.0-1.rockspec/z",
    ),
];

#[test]
fn files_may_stand_in_the_way(rt: HostRuntime) -> Result<(), Fail> {
    compare_faults(&rt, rt.alloc(), Way::Take, BAD)
}
