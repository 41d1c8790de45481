//! Fields that are missing, of a wrong shape, unknown, or of a later format.
use crate::compare::{Case, Frame, GOOD, GOOD_THREE, compare};
use crate::told::Part;
use std::test::Fail;

const HEADS: Frame = Frame {
    start: GOOD,
    end: "",
    part: Part::Head,
};

const HEADS_OF_THREE: Frame = Frame {
    start: GOOD_THREE,
    end: "",
    part: Part::Head,
};

const MISSING: &[Case] = &[
    ("package = nil", "Missing package"),
    ("version = nil", "Missing version"),
    ("source = nil", "Missing source"),
    ("source = {}", "Missing source.url"),
    ("source = {file = 'x'}", "Missing source.url"),
    ("build = nil", "Missing build"),
    ("build = {}", "Missing build.type"),
    ("build = {modules = {}}", "Missing build.type"),
    ("rockspec_format = '1.1' build = nil", "Missing build"),
    (
        "rockspec_format = '1.1' build = {modules = {}}",
        "Missing build.type",
    ),
    ("rockspec_format = '3.0' package = nil", "Missing package"),
    ("rockspec_format = '3.0' version = nil", "Missing version"),
    ("rockspec_format = '3.0' source = nil", "Missing source"),
    ("rockspec_format = '3.0' source = {}", "Missing source.url"),
    ("rockspec_format = '3.0' build = nil", "3.0 hello 1.0-1"),
    ("rockspec_format = '3.0' build = {}", "3.0 hello 1.0-1"),
    ("package = nil version = nil", "Missing package"),
    ("version = nil source = {}", "Missing version"),
    ("source = nil build = nil", "Missing source"),
    ("source = {} build = nil", "Missing source.url"),
    ("package = nil build = {}", "Missing package"),
];

#[test]
fn fields_are_missing(rt: HostRuntime) -> Result<(), Fail> {
    compare(&rt, rt.alloc(), &HEADS, MISSING)
}

const WRONG: &[Case] = &[
    ("package = 1", "WrongShape package"),
    ("version = {}", "WrongShape version"),
    ("description = 'x'", "WrongShape description"),
    (
        "description = {summary = 1}",
        "WrongShape description.summary",
    ),
    (
        "description = {detailed = {}}",
        "WrongShape description.detailed",
    ),
    (
        "description = {homepage = true}",
        "WrongShape description.homepage",
    ),
    (
        "description = {license = {'MIT'}}",
        "WrongShape description.license",
    ),
    (
        "description = {maintainer = 1}",
        "WrongShape description.maintainer",
    ),
    (
        "supported_platforms = 'unix'",
        "WrongShape supported_platforms",
    ),
    (
        "supported_platforms = {1}",
        "WrongShape supported_platforms",
    ),
    (
        "supported_platforms = {unix = 'unix'}",
        "WrongShape supported_platforms",
    ),
    ("dependencies = 'lua'", "WrongShape dependencies"),
    ("dependencies = {lua = '>= 5.1'}", "WrongShape dependencies"),
    ("dependencies = {'lua', {'x'}}", "WrongShape dependencies"),
    (
        "dependencies = {'lua', [3] = 'x'}",
        "WrongShape dependencies",
    ),
    (
        "external_dependencies = 'X'",
        "WrongShape external_dependencies",
    ),
    (
        "external_dependencies = {X = 'x.h'}",
        "WrongShape external_dependencies.*",
    ),
    (
        "external_dependencies = {'x.h'}",
        "WrongShape external_dependencies.*",
    ),
    ("source = 'u'", "WrongShape source"),
    ("source = {url = 1}", "WrongShape source.url"),
    ("source = {url = 'u', md5 = 1}", "WrongShape source.md5"),
    ("source = {url = 'u', file = 1}", "WrongShape source.file"),
    ("source = {url = 'u', dir = 1}", "WrongShape source.dir"),
    ("source = {url = 'u', tag = 1}", "WrongShape source.tag"),
    (
        "source = {url = 'u', branch = 1}",
        "WrongShape source.branch",
    ),
    (
        "source = {url = 'u', module = 1}",
        "WrongShape source.module",
    ),
    (
        "source = {url = 'u', cvs_tag = 1}",
        "WrongShape source.cvs_tag",
    ),
    (
        "source = {url = 'u', cvs_module = 1}",
        "WrongShape source.cvs_module",
    ),
    ("hooks = 'x'", "WrongShape hooks"),
    ("deploy = 'x'", "WrongShape deploy"),
    (
        "deploy = {wrap_bin_scripts = 'no'}",
        "WrongShape deploy.wrap_bin_scripts",
    ),
];

#[test]
fn fields_have_shapes(rt: HostRuntime) -> Result<(), Fail> {
    compare(&rt, rt.alloc(), &HEADS, WRONG)
}

const WRONG_BUILDS: &[Case] = &[
    ("build = 'x'", "WrongShape build"),
    ("build = {type = 1}", "WrongShape build.type"),
    (
        "build = {type = 'none', modules = 'm.lua'}",
        "WrongShape build.modules",
    ),
    (
        "build = {type = 'none', modules = {'m.lua'}}",
        "WrongShape build.modules",
    ),
    (
        "build = {type = 'none', modules = {[true] = 'm.lua'}}",
        "WrongShape build.modules",
    ),
    (
        "build = {type = 'none', install = 'x'}",
        "WrongShape build.install",
    ),
    (
        "build = {type = 'none', install = {lua = 'x'}}",
        "WrongShape build.install.lua",
    ),
    (
        "build = {type = 'none', install = {lua = {1}}}",
        "WrongShape build.install.lua",
    ),
    (
        "build = {type = 'none', install = {lib = {x = 1}}}",
        "WrongShape build.install.lib",
    ),
    (
        "build = {type = 'none', install = {bin = {{}}}}",
        "WrongShape build.install.bin",
    ),
    (
        "build = {type = 'none', install = {conf = {[true] = 'x'}}}",
        "WrongShape build.install.conf",
    ),
    (
        "build = {type = 'none', copy_directories = 'doc'}",
        "WrongShape build.copy_directories",
    ),
    (
        "build = {type = 'none', copy_directories = {1}}",
        "WrongShape build.copy_directories",
    ),
    (
        "build = {type = 'none', copy_directories = {x = 'doc'}}",
        "WrongShape build.copy_directories",
    ),
    (
        "build = {type = 'none', patches = 'x'}",
        "WrongShape build.patches",
    ),
    (
        "build = {type = 'none', patches = {'x'}}",
        "WrongShape build.patches",
    ),
    (
        "build = {type = 'none', modules = {m = 1, n = {}}}",
        "1.0 hello 1.0-1",
    ),
    (
        "build = {type = 'none', install = {}, patches = {}, x = 1}",
        "1.0 hello 1.0-1",
    ),
    (
        "build = {type = 'none', install = {lua = {}, bin = {'x', y = 'z'}}}",
        "1.0 hello 1.0-1",
    ),
];

#[test]
fn builds_have_shapes(rt: HostRuntime) -> Result<(), Fail> {
    compare(&rt, rt.alloc(), &HEADS, WRONG_BUILDS)
}

const UNKNOWN: &[Case] = &[
    ("x = 1", "Unknown x"),
    ("Package = 'x'", "Unknown Package"),
    ("platforms = {}", "Unknown platforms"),
    ("variables = {}", "Unknown variables"),
    ("description = {x = 'y'}", "Unknown description.x"),
    ("description = {'y'}", "Unknown description.1"),
    ("description = {[true] = 'y'}", "Unknown description.true"),
    (
        "description = {['a\"\\0'] = 'y'}",
        "Unknown description.a\\\"\\000",
    ),
    ("description = {['a.b'] = 'y'}", "Unknown description.a.b"),
    (
        "description = {platforms = {}}",
        "Unknown description.platforms",
    ),
    (
        "build = {type = 'none', install = {etc = {}}}",
        "Unknown build.install.etc",
    ),
    (
        "build = {type = 'none', install = {{'x'}}}",
        "Unknown build.install.1",
    ),
    ("local x = 1", "1.0 hello 1.0-1"),
    ("x = nil", "1.0 hello 1.0-1"),
    ("source = {url = 'u', x = 1}", "1.0 hello 1.0-1"),
    (
        "build = {type = 'none', x = {}, [true] = 1}",
        "1.0 hello 1.0-1",
    ),
    ("hooks = {x = 1, 'y'}", "1.0 hello 1.0-1"),
    (
        "deploy = {x = 1, wrap_bin_scripts = false}",
        "1.0 hello 1.0-1",
    ),
    (
        "external_dependencies = {X = {y = 1}, {}}",
        "1.0 hello 1.0-1",
    ),
];

#[test]
fn fields_are_unknown(rt: HostRuntime) -> Result<(), Fail> {
    compare(&rt, rt.alloc(), &HEADS, UNKNOWN)
}

const TOO_NEW: &[Case] = &[
    ("description = {labels = {}}", "TooNew description.labels"),
    (
        "description = {issues_url = 'u'}",
        "TooNew description.issues_url",
    ),
    ("build_dependencies = {}", "TooNew build_dependencies"),
    ("test_dependencies = {}", "TooNew test_dependencies"),
    ("test = {}", "TooNew test"),
    ("build_dependencies = 'x'", "TooNew build_dependencies"),
    (
        "rockspec_format = '1.1' description = {labels = {}}",
        "TooNew description.labels",
    ),
    ("rockspec_format = '1.1' test = {}", "TooNew test"),
];

const OF_THREE: &[Case] = &[
    (
        "description = {labels = {}, issues_url = 'u'}",
        "3.0 hello 1.0-1",
    ),
    ("build_dependencies = {}", "3.0 hello 1.0-1"),
    ("test_dependencies = {'lua'}", "3.0 hello 1.0-1"),
    ("test = {type = 'busted', x = 1}", "3.0 hello 1.0-1"),
    (
        "description = {labels = 'x'}",
        "WrongShape description.labels",
    ),
    (
        "description = {labels = {1}}",
        "WrongShape description.labels",
    ),
    (
        "description = {issues_url = 1}",
        "WrongShape description.issues_url",
    ),
    ("build_dependencies = 'x'", "WrongShape build_dependencies"),
    (
        "test_dependencies = {x = 'y'}",
        "WrongShape test_dependencies",
    ),
    ("test = 'busted'", "WrongShape test"),
];

#[test]
fn fields_begin_with_formats(rt: HostRuntime) -> Result<(), Fail> {
    compare(&rt, rt.alloc(), &HEADS, TOO_NEW)?;
    compare(&rt, rt.alloc(), &HEADS_OF_THREE, OF_THREE)
}
