//! What builds install.
use crate::compare::{Case, Frame, compare};
use crate::told::Part;
use std::test::Fail;

const PLANS: Frame = Frame {
    start: "package = 'Hello' version = '1.0-1' source = {url = 'u'} ",
    end: "",
    part: Part::Plan,
};

const MODULES: &[Case] = &[
    ("build = {type = 'builtin', modules = {}}", ""),
    (
        "build = {type = 'builtin', modules = {m = 'm.lua'}}",
        "Lua m.lua < m.lua\n",
    ),
    (
        "build = {type = 'builtin', modules = {m = './m.lua'}}",
        "Lua m.lua < m.lua\n",
    ),
    (
        "build = {type = 'builtin', modules = {['a.b'] = 'src/x.lua'}}",
        "Lua a/b.lua < src/x.lua\n",
    ),
    (
        "build = {type = 'builtin', modules = {['a-b_9'] = 'x.lua'}}",
        "Lua a-b_9.lua < x.lua\n",
    ),
    (
        "build = {type = 'builtin', modules = {a = 'src/init.lua'}}",
        "Lua a/init.lua < src/init.lua\n",
    ),
    (
        "build = {type = 'builtin', modules = {['a.b'] = 'init.lua'}}",
        "Lua a/b/init.lua < init.lua\n",
    ),
    (
        "build = {type = 'builtin', modules = {a = './init.lua'}}",
        "Lua a/init.lua < init.lua\n",
    ),
    (
        "build = {type = 'builtin', modules = {a = 'xinit.lua'}}",
        "Lua a.lua < xinit.lua\n",
    ),
    (
        "build = {type = 'builtin', modules = {['a.init'] = 'init.lua'}}",
        "Lua a/init.lua < init.lua\n",
    ),
    (
        "build = {type = 'builtin', modules = {['a.init'] = 'x.lua'}}",
        "Lua a/init.lua < x.lua\n",
    ),
    (
        "build = {type = 'builtin', modules = {init = 'init.lua'}}",
        "Lua init/init.lua < init.lua\n",
    ),
    (
        "build = {type = 'builtin', modules = {x = '.lua'}}",
        "Lua x.lua < .lua\n",
    ),
    (
        "build = {type = 'builtin', modules = {b = 'y.lua', a = 'y.lua'}}",
        "Lua a.lua < y.lua\nLua b.lua < y.lua\n",
    ),
    ("build = {type = 'none', modules = {m = 'm.lua'}}", ""),
    ("build = {type = 'none', modules = {['a b'] = 'm.c'}}", ""),
    (
        "rockspec_format = '3.0' build = {modules = {m = 'm.lua'}}",
        "Lua m.lua < m.lua\n",
    ),
    ("rockspec_format = '3.0' build = {}", "NoModules"),
    ("rockspec_format = '3.0'", "NoModules"),
];

#[test]
fn modules_are_installed(rt: HostRuntime) -> Result<(), Fail> {
    compare(&rt, rt.alloc(), &PLANS, MODULES)
}

const INSTALLS: Frame = Frame {
    start: "package = 'Hello' version = '1.0-1' source = {url = 'u'} \
        build = {type = 'none', install = {",
    end: "}}",
    part: Part::Plan,
};

const INSTALLED: &[Case] = &[
    ("lua = {'src/x.lua'}", "Lua x.lua < src/x.lua\n"),
    ("lua = {'./src/x.lua'}", "Lua x.lua < src/x.lua\n"),
    ("lua = {'src/init.lua'}", "Lua init.lua < src/init.lua\n"),
    ("lua = {'x.txt'}", "Lua x.txt < x.txt\n"),
    ("lua = {a = 'src/x.lua'}", "Lua a.lua < src/x.lua\n"),
    ("lua = {['a.b'] = 'x.lua'}", "Lua a/b.lua < x.lua\n"),
    ("lua = {['a.b'] = 'init.lua'}", "Lua a/b.lua < init.lua\n"),
    ("lua = {['a.b'] = 'src/x.txt'}", "Lua a/x.txt < src/x.txt\n"),
    ("lua = {a = './x'}", "Lua x < x\n"),
    (
        "lua = {[7] = 'b/y', [0] = 'a/x'}",
        "Lua x < a/x\nLua y < b/y\n",
    ),
    ("lib = {'build/x.so'}", "Lib x.so < build/x.so\n"),
    ("lib = {['a.b'] = 'x.so'}", "Lib a/x.so < x.so\n"),
    (
        "lib = {['a.b.c'] = './build/b.so'}",
        "Lib a/b/b.so < build/b.so\n",
    ),
    ("lib = {a = 'x.lua'}", "Lib a.lua < x.lua\n"),
    ("bin = {'bin/x'}", "Bin x < bin/x\n"),
    ("bin = {'./x.lua'}", "Bin x.lua < x.lua\n"),
    ("bin = {y = 'bin/x'}", "Bin y < bin/x\n"),
    ("bin = {['a/b.c'] = 'x'}", "Bin a/b.c < x\n"),
    ("conf = {'etc/x'}", "conf x < etc/x\n"),
    ("conf = {['a/b'] = './x'}", "conf a/b < x\n"),
    (
        "conf = {'x/y/z', ['a b'] = 'c'}",
        "conf a b < c\nconf z < x/y/z\n",
    ),
    ("lua = {}, lib = {}, bin = {}, conf = {}", ""),
    // by kind, and then by path; one path for each kind
    (
        "conf = {a = 'f'}, bin = {a = 'e'}, lib = {'d/a', z = 'c/b'}, lua = {'b/a'}",
        "Lua a < b/a\nLib a < d/a\nLib b < c/b\nBin a < e\nconf a < f\n",
    ),
];

#[test]
fn files_are_installed(rt: HostRuntime) -> Result<(), Fail> {
    compare(&rt, rt.alloc(), &INSTALLS, INSTALLED)
}

const COPIES: Frame = Frame {
    start: "package = 'Hello' version = '1.0-1' source = {url = 'u'} \
        build = {type = 'none', copy_directories = ",
    end: "}",
    part: Part::Plan,
};

const FOLDERS: &[Case] = &[
    ("{'doc'}", "folder doc\n"),
    ("{'./doc'}", "folder doc\n"),
    ("{'tests', 'doc/html'}", "folder doc/html\nfolder tests\n"),
    (
        "{'luax', 'src/lua', 'Lua', 'l'}",
        "folder Lua\nfolder l\nfolder luax\nfolder src/lua\n",
    ),
    (
        "{'rock_manifest2', 'confs'}",
        "folder confs\nfolder rock_manifest2\n",
    ),
    ("{'hello-1.0-2.rockspec'}", "folder hello-1.0-2.rockspec\n"),
    ("{'Hello-1.0-1.rockspec'}", "folder Hello-1.0-1.rockspec\n"),
    (
        "{'doc', 'docs', 'doc2/x'}",
        "folder doc\nfolder doc2/x\nfolder docs\n",
    ),
    ("{}", ""),
    ("{'lua'}", "BadTarget lua"),
    ("{'lib'}", "BadTarget lib"),
    ("{'bin'}", "BadTarget bin"),
    ("{'conf'}", "BadTarget conf"),
    ("{'rock_manifest'}", "BadTarget rock_manifest"),
    ("{'hello-1.0-1.rockspec'}", "BadTarget hello-1.0-1.rockspec"),
    ("{'lua/x'}", "BadTarget lua/x"),
    ("{'./lib'}", "BadTarget ./lib"),
    ("{'doc', 'conf/x'}", "BadTarget conf/x"),
    ("{''}", "BadTarget "),
    ("{'.'}", "BadTarget ."),
    ("{'./'}", "BadTarget ./"),
    ("{'/doc'}", "BadTarget /doc"),
    ("{'doc/'}", "BadTarget doc/"),
    ("{'doc/../x'}", "BadTarget doc/../x"),
    ("{'././doc'}", "BadTarget ././doc"),
];

#[test]
fn folders_are_copied(rt: HostRuntime) -> Result<(), Fail> {
    compare(&rt, rt.alloc(), &COPIES, FOLDERS)
}

const PLATFORMS: &[Case] = &[
    (
        "build = {type = 'builtin', modules = {m = 'm.lua'}, \
            platforms = {linux = {modules = {m = 'l.lua'}}}}",
        "Lua m.lua < l.lua\n",
    ),
    (
        "build = {type = 'builtin', modules = {m = 'm.lua'}, \
            platforms = {unix = {modules = {m = 'u.lua', n = 'u.lua'}}, \
            linux = {modules = {m = 'l.lua'}}}}",
        "Lua m.lua < l.lua\nLua n.lua < u.lua\n",
    ),
    (
        "build = {type = 'builtin', modules = {m = 'm.c'}, \
            platforms = {unix = {modules = {m = 'm.lua'}}}}",
        "Lua m.lua < m.lua\n",
    ),
    (
        "build = {type = 'builtin', modules = {m = 'm.lua'}, \
            platforms = {windows = {modules = {m = 'm.c'}}}}",
        "Lua m.lua < m.lua\n",
    ),
    (
        "build = {type = 'make', platforms = {linux = {type = 'none'}}}",
        "",
    ),
    (
        "build = {type = 'none', platforms = {linux = {type = 'make'}}}",
        "BuildType make",
    ),
    (
        "build = {type = 'none', install = {bin = {'a', 'b'}}, \
            platforms = {unix = {install = {bin = {'c', x = 'd'}}}}}",
        "Bin b < b\nBin c < c\nBin x < d\n",
    ),
    (
        "build = {type = 'none', copy_directories = {'doc', 'test'}, \
            platforms = {unix = {copy_directories = {'html'}}}}",
        "folder html\nfolder test\n",
    ),
    (
        "build = {type = 'none', patches = {x = 'y'}, platforms = {unix = {patches = {}}}}",
        "Patches",
    ),
    (
        "build = {type = 'none'} external_dependencies = {platforms = {windows = {X = {}}}}",
        "",
    ),
    (
        "build = {type = 'none'} external_dependencies = {platforms = {linux = {X = {}}}}",
        "External",
    ),
];

#[test]
fn platforms_change_builds(rt: HostRuntime) -> Result<(), Fail> {
    compare(&rt, rt.alloc(), &PLANS, PLATFORMS)
}
