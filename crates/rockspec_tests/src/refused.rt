//! Builds that aren't served, or don't say where their files stand.
use crate::compare::{Case, Frame, compare};
use crate::told::Part;
use std::test::Fail;

const PLANS: Frame = Frame {
    start: "package = 'Hello' version = '1.0-1' source = {url = 'u'} ",
    end: "",
    part: Part::Plan,
};

const BUILDS: &[Case] = &[
    ("build = {type = 'make'}", "BuildType make"),
    ("build = {type = 'cmake', modules = {}}", "BuildType cmake"),
    ("build = {type = 'command'}", "BuildType command"),
    (
        "build = {type = 'module', modules = {}}",
        "BuildType module",
    ),
    (
        "build = {type = 'Builtin', modules = {}}",
        "BuildType Builtin",
    ),
    (
        "build = {type = 'builtin ', modules = {}}",
        "BuildType builtin ",
    ),
    ("build = {type = ''}", "BuildType "),
    ("build = {type = 'builtin'}", "NoModules"),
    (
        "build = {type = 'builtin', install = {bin = {'x'}}}",
        "NoModules",
    ),
    ("build = {type = 'builtin', modules = nil}", "NoModules"),
    ("build = {type = 'none'}", ""),
    (
        "build = {type = 'none'} external_dependencies = {X = {header = 'x.h'}}",
        "External",
    ),
    (
        "build = {type = 'none'} external_dependencies = {{}}",
        "External",
    ),
    ("build = {type = 'none'} external_dependencies = {}", ""),
    (
        "build = {type = 'none', patches = {['a.patch'] = 'x'}}",
        "Patches",
    ),
    ("build = {type = 'none', patches = {a = 1}}", "Patches"),
    ("build = {type = 'none', patches = {}}", ""),
];

#[test]
fn builds_are_not_served(rt: HostRuntime) -> Result<(), Fail> {
    compare(&rt, rt.alloc(), &PLANS, BUILDS)
}

const BUILTIN: Frame = Frame {
    start: "package = 'Hello' version = '1.0-1' source = {url = 'u'} \
        build = {type = 'builtin', modules = ",
    end: "}",
    part: Part::Plan,
};

const MODULES: &[Case] = &[
    ("{a = 'a.c'}", "NeedsCompiler a"),
    ("{['a.b'] = 'a.so'}", "NeedsCompiler a.b"),
    ("{a = {'a.c', 'b.c'}}", "NeedsCompiler a"),
    ("{a = {sources = {'a.lua'}}}", "NeedsCompiler a"),
    ("{a = 1}", "NeedsCompiler a"),
    ("{a = true}", "NeedsCompiler a"),
    ("{a = ''}", "NeedsCompiler a"),
    ("{a = 'a.LUA'}", "NeedsCompiler a"),
    ("{a = 'a.lua '}", "NeedsCompiler a"),
    ("{z = 'z.c', m = 'm.c'}", "NeedsCompiler m"),
    (
        "{z = 'z.c', m = 'm.lua', ['/'] = 'a.lua'}",
        "NeedsCompiler z",
    ),
    ("{['a b'] = 'a.c'}", "NeedsCompiler a b"),
    ("{['a b'] = 'x.lua'}", "BadTarget a b"),
    ("{[''] = 'x.lua'}", "BadTarget "),
    ("{['a..b'] = 'x.lua'}", "BadTarget a..b"),
    ("{['a\"b'] = 'x.lua'}", "BadTarget a\\\"b"),
    ("{['a\\nb'] = 'x.lua'}", "BadTarget a\\nb"),
    ("{['.a'] = 'x.lua'}", "BadTarget .a"),
    ("{['a.'] = 'x.lua'}", "BadTarget a."),
    ("{['a/b'] = 'x.lua'}", "BadTarget a/b"),
    ("{['\u{e9}'] = 'x.lua'}", "BadTarget \u{e9}"),
    ("{a = '../x.lua'}", "BadTarget ../x.lua"),
    ("{a = '/x.lua'}", "BadTarget /x.lua"),
    ("{a = 'b//x.lua'}", "BadTarget b//x.lua"),
    ("{a = 'b/./x.lua'}", "BadTarget b/./x.lua"),
    ("{a = 'b\\\\x.lua'}", "BadTarget b\\\\x.lua"),
    ("{a = 'b\\tx.lua'}", "BadTarget b\\009x.lua"),
    ("{a = '././x.lua'}", "BadTarget ././x.lua"),
    ("{a = './../x.lua'}", "BadTarget ./../x.lua"),
    ("{b = '/b.lua', a = '/a.lua'}", "BadTarget /a.lua"),
    ("{['a b'] = '/a.lua'}", "BadTarget a b"),
    (
        "{['a.init'] = 'x.lua', a = 'init.lua'}",
        "TwoForOne a/init.lua",
    ),
    (
        "{a = 'x.lua', b = 'x.lua'}",
        "Lua a.lua < x.lua\nLua b.lua < x.lua\n",
    ),
];

#[test]
fn modules_are_refused(rt: HostRuntime) -> Result<(), Fail> {
    compare(&rt, rt.alloc(), &BUILTIN, MODULES)
}

const INSTALLED: Frame = Frame {
    start: "package = 'Hello' version = '1.0-1' source = {url = 'u'} \
        build = {type = 'none', install = {",
    end: "}}",
    part: Part::Plan,
};

const INSTALLS: &[Case] = &[
    ("lua = {['a/b'] = 'x.lua'}", "BadTarget a/b"),
    ("lua = {['.a'] = 'x'}", "BadTarget .a"),
    ("lua = {''}", "BadTarget "),
    ("lua = {a = '../x'}", "BadTarget ../x"),
    ("lua = {'x/'}", "BadTarget x/"),
    ("lib = {['a/b'] = 'x.so'}", "BadTarget a/b"),
    ("lib = {a = '/x.so'}", "BadTarget /x.so"),
    ("lib = {'./'}", "BadTarget ./"),
    ("bin = {['/a'] = 'x'}", "BadTarget /a"),
    ("bin = {['./a'] = 'x'}", "BadTarget ./a"),
    ("bin = {['../a'] = 'x'}", "BadTarget ../a"),
    ("bin = {[''] = 'x'}", "BadTarget "),
    ("bin = {a = '..'}", "BadTarget .."),
    ("bin = {'a/../b'}", "BadTarget a/../b"),
    ("conf = {['a//b'] = 'x'}", "BadTarget a//b"),
    ("conf = {['..'] = 'x'}", "BadTarget .."),
    ("conf = {a = '/x'}", "BadTarget /x"),
    ("conf = {'.'}", "BadTarget ."),
    // the first list with one, and in each the least key, positions first
    ("lua = {'/a'}, lib = {'/b'}", "BadTarget /a"),
    ("lib = {'/a'}, bin = {'/b'}", "BadTarget /a"),
    ("bin = {'/a'}, conf = {'/b'}", "BadTarget /a"),
    ("bin = {b = '/x', a = '/y', '/z'}", "BadTarget /z"),
    ("bin = {b = '/x', a = '/y', 'z'}", "BadTarget /y"),
    ("bin = {[2] = '/x', [0] = '/y'}", "BadTarget /y"),
    // one place for two files
    ("lua = {a = 'a.lua', 'src/a.lua'}", "TwoForOne a.lua"),
    ("lua = {['a.b'] = 'x', ['a.c'] = 'y/x'}", "TwoForOne a/x"),
    ("lib = {'x/a', 'y/a'}", "TwoForOne a"),
    ("bin = {'x/a', a = 'b'}", "TwoForOne a"),
    ("bin = {a = 'x', ['a/b'] = 'y'}", "TwoForOne a/b"),
    (
        "bin = {a = 'x', ['a/b/c'] = 'y', ['a!'] = 'z'}",
        "TwoForOne a/b/c",
    ),
    ("conf = {'x/a', 'y/a'}", "TwoForOne a"),
    ("conf = {a = 'x', ['a/b'] = 'y'}", "TwoForOne a/b"),
    ("lua = {'src/x', ['x.y'] = 'y.lua'}", "TwoForOne x/y.lua"),
    (
        "bin = {['b/c'] = 'x', b = 'x', ['a/c'] = 'x', a = 'x'}",
        "TwoForOne a/c",
    ),
    (
        "bin = {['b/c'] = 'x', b = 'x'}, conf = {'x/a', 'y/a'}",
        "TwoForOne a",
    ),
    (
        "bin = {'x/a'}, conf = {'x/a'}, lib = {'x/a'}",
        "Lib a < x/a\nBin a < x/a\nconf a < x/a\n",
    ),
];

#[test]
fn installs_are_refused(rt: HostRuntime) -> Result<(), Fail> {
    compare(&rt, rt.alloc(), &INSTALLED, INSTALLS)
}

const TWOFOLD: &[Case] = &[
    (
        "build = {type = 'builtin', modules = {a = 'a.lua'}, install = {lua = {a = 'b.lua'}}}",
        "TwoForOne a.lua",
    ),
    (
        "build = {type = 'builtin', modules = {a = 'a.lua'}, install = {lua = {a = 'a.lua'}}}",
        "TwoForOne a.lua",
    ),
    (
        "build = {type = 'builtin', modules = {['x.y'] = 'y.lua'}, install = {lua = {'src/x'}}}",
        "TwoForOne x/y.lua",
    ),
    (
        "build = {type = 'builtin', modules = {a = 'a.lua'}, install = {lib = {a = 'a.lua'}}}",
        "Lua a.lua < a.lua\nLib a.lua < a.lua\n",
    ),
    (
        "build = {type = 'none', copy_directories = {'doc', 'doc'}}",
        "TwoForOne doc",
    ),
    (
        "build = {type = 'none', copy_directories = {'doc', './doc'}}",
        "TwoForOne doc",
    ),
    (
        "build = {type = 'none', copy_directories = {'doc/x', 'doc'}}",
        "TwoForOne doc/x",
    ),
    (
        "build = {type = 'none', copy_directories = {'a', 'a!', 'a/b/c'}}",
        "TwoForOne a/b/c",
    ),
    (
        "build = {type = 'none', copy_directories = {'b', 'b', 'c', 'c'}, \
            install = {bin = {d = 'x', ['d/e'] = 'x'}}}",
        "TwoForOne b",
    ),
    (
        "build = {type = 'none', copy_directories = {'doc'}, install = {bin = {doc = 'x'}}}",
        "Bin doc < x\nfolder doc\n",
    ),
];

#[test]
fn one_place_is_for_one_file(rt: HostRuntime) -> Result<(), Fail> {
    compare(&rt, rt.alloc(), &PLANS, TWOFOLD)
}
