//! Why rocks don't join a tree: refusals in their order, and what rocks need.

use super::{device, is_refused, put, runs};
use rocks_outside::MemoryShelf;
use std::process::Abort;

/// Words, the server and path of files with their bytes, and what is said.
type Row = (
    &'static str,
    &'static [(u32, &'static str, &'static str)],
    &'static str,
);

fn shelf_with(rt: &(impl Abort + AllocGlobal), files: &[(u32, &str, &str)]) -> MemoryShelf {
    let mut shelf = MemoryShelf::new(rt.alloc(), 2).expect(rt, "memory");
    for (server, path, text) in files {
        put(rt, &mut shelf, *server, path, text);
    }
    shelf
}

fn are_refused(rt: &(impl Abort + AllocGlobal), rows: &[Row]) {
    for (line, files, refusal) in rows {
        is_refused(rt, &mut shelf_with(rt, files), line, refusal);
    }
}

const ADD: &str = "--tree T --from S add m 1.0-1";

const INSTALL: &str = "--tree T --from S install m 1.0-1";

const ADD_LUA: &str = "--tree T --from S add Lua 5.4-1";

const INSTALL_LUA: &str = "--tree T --from S install Lua 5.4-1";

// Rockspecs with faults: the first has all of them, and each one behind it has one less.
const NO_SOURCE: &str =
    "package = 'N' version = '1.0-1' dependencies = {'b'} build = {type = 'make'}";

const OTHER: &str =
    "package = 'N' version = '1.0-1' dependencies = {'b'} source = {url = 'u'} build = {type = 'make'}";

const MAKE: &str =
    "package = 'M' version = '1.0-1' dependencies = {'b'} source = {url = 'u'} build = {type = 'make'}";

const NEEDY: &str = "package = 'M' version = '1.0-1' dependencies = {'b'} source = {url = 'u'} \
build = {type = 'builtin', modules = {x = 'x.lua'}}";

const FINE: &str = "package = 'M' version = '1.0-1' source = {url = 'u'} \
build = {type = 'builtin', modules = {x = 'x.lua'}}";

// In each row the reasons behind the one that is told are true as well.
const ADDED: &[Row] = &[
    (ADD_LUA, &[], "refused Provided\n"),
    (
        ADD_LUA,
        &[(0, "lua-5.4-1.rock/rock_manifest/x", "")],
        "refused Provided\n",
    ),
    (
        ADD_LUA,
        &[
            (0, "lua-5.4-1.rock/lua-5.4-1.rockspec", NO_SOURCE),
            (0, "lua-5.4-1.rock/rock_manifest/x", ""),
        ],
        "refused Provided\n",
    ),
    (ADD, &[], "refused NoRock m 1.0-1\n"),
    (
        ADD,
        &[
            (0, "m-1.0-1.rock/rock_manifest/x", ""),
            (0, "m-1.0-1.rockspec", FINE),
            (0, "m-1.0-1/x.lua", ""),
        ],
        "refused NoRock m 1.0-1\n",
    ),
    (
        ADD,
        &[
            (0, "m-1.0-1.rock/m-1.0-1.rockspec", NO_SOURCE),
            (0, "m-1.0-1.rock/rock_manifest/x", ""),
        ],
        "refused Spec m 1.0-1 Missing source\n",
    ),
    (
        ADD,
        &[
            (0, "m-1.0-1.rock/m-1.0-1.rockspec", OTHER),
            (0, "m-1.0-1.rock/rock_manifest/x", ""),
        ],
        "refused NotTheRock m 1.0-1\n",
    ),
    (
        ADD,
        &[
            (0, "m-1.0-1.rock/m-1.0-1.rockspec", MAKE),
            (0, "m-1.0-1.rock/rock_manifest/x", ""),
        ],
        "refused Build m 1.0-1 BadTarget rock_manifest/x\n",
    ),
    (
        ADD,
        &[
            (0, "m-1.0-1.rock/m-1.0-1.rockspec", MAKE),
            (0, "m-1.0-1.rock/rock_manifest", ""),
        ],
        "refused Unmet b\n",
    ),
];

#[test]
fn the_first_reason_not_to_add_is_told(rt: HostRuntime) {
    are_refused(&rt, ADDED);
}

const INSTALLED: &[Row] = &[
    (INSTALL_LUA, &[], "refused Provided\n"),
    (
        INSTALL_LUA,
        &[(0, "lua-5.4-1.rockspec", NO_SOURCE)],
        "refused Provided\n",
    ),
    (INSTALL, &[], "refused NoRockspec m 1.0-1\n"),
    (
        INSTALL,
        &[
            (0, "m-1.0-1.rock/m-1.0-1.rockspec", FINE),
            (0, "m-1.0-1/m-1.0-1.rockspec", FINE),
        ],
        "refused NoRockspec m 1.0-1\n",
    ),
    (
        INSTALL,
        &[(0, "m-1.0-1.rockspec", NO_SOURCE)],
        "refused Spec m 1.0-1 Missing source\n",
    ),
    (
        INSTALL,
        &[(0, "m-1.0-1.rockspec", OTHER)],
        "refused NotTheRock m 1.0-1\n",
    ),
    (
        INSTALL,
        &[(0, "m-1.0-1.rockspec", MAKE)],
        "refused Build m 1.0-1 BuildType make\n",
    ),
    (
        INSTALL,
        &[(0, "m-1.0-1.rockspec", MAKE), (0, "m-1.0-1/x.lua", "")],
        "refused Build m 1.0-1 BuildType make\n",
    ),
    (
        INSTALL,
        &[(0, "m-1.0-1.rockspec", NEEDY)],
        "refused Build m 1.0-1 NoSourceFolder\n",
    ),
    (
        INSTALL,
        &[(0, "m-1.0-1.rockspec", NEEDY), (0, "m-1.0-1/y", "")],
        "refused Build m 1.0-1 MissingFile x.lua\n",
    ),
    (
        INSTALL,
        &[(0, "m-1.0-1.rockspec", NEEDY), (0, "m-1.0-1/x.lua", "")],
        "refused Unmet b\n",
    ),
];

#[test]
fn the_first_reason_not_to_install_is_told(rt: HostRuntime) {
    are_refused(&rt, INSTALLED);
}

// The earliest server with the rockspec is the only one that is asked for more.
const EARLIEST: &[Row] = &[
    (
        INSTALL,
        &[
            (0, "m-1.0-1.rockspec", FINE),
            (1, "m-1.0-1.rockspec", FINE),
            (1, "m-1.0-1/x.lua", ""),
        ],
        "refused Build m 1.0-1 NoSourceFolder\n",
    ),
    (
        INSTALL,
        &[
            (0, "m-1.0-1/x.lua", ""),
            (1, "m-1.0-1.rockspec", FINE),
            (1, "m-1.0-1/y.lua", ""),
        ],
        "refused Build m 1.0-1 MissingFile x.lua\n",
    ),
    (
        INSTALL,
        &[
            (0, "m-1.0-1.rockspec", OTHER),
            (1, "m-1.0-1.rockspec", FINE),
            (1, "m-1.0-1/x.lua", ""),
        ],
        "refused NotTheRock m 1.0-1\n",
    ),
    (
        ADD,
        &[
            (0, "m-1.0-1.rock/m-1.0-1.rockspec", OTHER),
            (1, "m-1.0-1.rock/m-1.0-1.rockspec", FINE),
        ],
        "refused NotTheRock m 1.0-1\n",
    ),
    (
        ADD,
        &[
            (0, "m-1.0-1.rock/rock_manifest/x", ""),
            (1, "m-1.0-1.rock/m-1.0-1.rockspec", NEEDY),
        ],
        "refused Unmet b\n",
    ),
];

#[test]
fn one_server_makes_a_rock(rt: HostRuntime) {
    are_refused(&rt, EARLIEST);
}

const MET: &[(&str, &str)] = &[
    ("", "+ m 1.0-1\nok\n"),
    // by Lua 5.4-1
    ("'lua'", "+ m 1.0-1\nok\n"),
    ("'lua >= 5.1, < 5.5'", "+ m 1.0-1\nok\n"),
    ("'lua ~> 5.4'", "+ m 1.0-1\nok\n"),
    ("'Lua 5.4'", "+ m 1.0-1\nok\n"),
    ("'lua == 5.4-1'", "+ m 1.0-1\nok\n"),
    // by the rock itself
    ("'m'", "+ m 1.0-1\nok\n"),
    ("'lua', 'M >= 1.0'", "+ m 1.0-1\nok\n"),
];

const UNMET: &[(&str, &str)] = &[
    ("'b'", "refused Unmet b\n"),
    ("'b>=1.0'", "refused Unmet b >= 1.0\n"),
    ("'B 1.0'", "refused Unmet b == 1.0\n"),
    ("'lua >= 5.5'", "refused Unmet lua >= 5.5\n"),
    ("'lua < 5.4'", "refused Unmet lua < 5.4\n"),
    ("'lua ~> 5.3'", "refused Unmet lua ~> 5.3\n"),
    ("'lua >= 5.1, < 5.4'", "refused Unmet lua >= 5.1, < 5.4\n"),
    ("'lua == 5.4-2'", "refused Unmet lua == 5.4-2\n"),
    ("'m > 1.0-1'", "refused Unmet m > 1.0-1\n"),
    // the first in the rockspec's order
    ("'lua', 'm', 'd', 'c'", "refused Unmet d\n"),
    ("'c', 'lua 5.3'", "refused Unmet c\n"),
    ("'lua 5.3', 'c'", "refused Unmet lua == 5.3\n"),
];

// A shelf with the rock of a rockspec that needs this, unpacked and as sources.
fn needing(rt: &(impl Abort + AllocGlobal), needs: &str) -> MemoryShelf {
    let text = format!(in rt.alloc();
        "package = 'M' version = '1.0-1' source = {{url = 'u'}} \
dependencies = {{{needs}}} build = {{type = 'none'}}"
    )
    .expect(rt, "memory");
    let mut shelf = MemoryShelf::new(rt.alloc(), 1).expect(rt, "memory");
    put(rt, &mut shelf, 0, "m-1.0-1.rockspec", &text);
    put(rt, &mut shelf, 0, "m-1.0-1.rock/m-1.0-1.rockspec", &text);
    shelf
}

#[test]
fn rocks_join_whose_needs_are_met(rt: HostRuntime) {
    for (needs, said) in MET {
        runs(
            &rt,
            &mut device(&rt),
            &mut needing(&rt, needs),
            ADD,
            0,
            said,
        );
        runs(
            &rt,
            &mut device(&rt),
            &mut needing(&rt, needs),
            INSTALL,
            0,
            said,
        );
    }
}

#[test]
fn the_first_unmet_need_is_told(rt: HostRuntime) {
    for (needs, refusal) in UNMET {
        is_refused(&rt, &mut needing(&rt, needs), ADD, refusal);
        is_refused(&rt, &mut needing(&rt, needs), INSTALL, refusal);
    }
}
