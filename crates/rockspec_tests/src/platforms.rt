//! Tables for platforms, and platforms that are served.
use crate::compare::{Case, Frame, GOOD, GOOD_THREE, compare};
use crate::told::Part;
use std::test::Fail;

const HEADS: Frame = Frame {
    start: GOOD,
    end: "",
    part: Part::Head,
};

const HEADS_OF_THREE: Frame = Frame {
    start: GOOD_THREE,
    end: "",
    part: Part::Head,
};

const BAD: &[Case] = &[
    (
        "build = {type = 'none', platforms = 1}",
        "BadPlatforms build",
    ),
    (
        "build = {type = 'none', platforms = {unix = 'x'}}",
        "BadPlatforms build",
    ),
    (
        "build = {type = 'none', platforms = {linux = true}}",
        "BadPlatforms build",
    ),
    (
        "dependencies = {platforms = 'unix'}",
        "BadPlatforms dependencies",
    ),
    (
        "dependencies = {platforms = {unix = 'lua'}}",
        "BadPlatforms dependencies",
    ),
    (
        "dependencies = {platforms = {linux = 1}}",
        "BadPlatforms dependencies",
    ),
    (
        "build_dependencies = {platforms = 1}",
        "BadPlatforms build_dependencies",
    ),
    (
        "build_dependencies = {platforms = {unix = 1}}",
        "BadPlatforms build_dependencies",
    ),
    (
        "build_dependencies = {platforms = {linux = 1}}",
        "BadPlatforms build_dependencies",
    ),
    (
        "test_dependencies = {platforms = true}",
        "BadPlatforms test_dependencies",
    ),
    (
        "test_dependencies = {platforms = {unix = 1}}",
        "BadPlatforms test_dependencies",
    ),
    (
        "test_dependencies = {platforms = {linux = 1}}",
        "BadPlatforms test_dependencies",
    ),
    (
        "external_dependencies = {platforms = ''}",
        "BadPlatforms external_dependencies",
    ),
    (
        "external_dependencies = {platforms = {unix = 1}}",
        "BadPlatforms external_dependencies",
    ),
    (
        "external_dependencies = {platforms = {linux = 1}}",
        "BadPlatforms external_dependencies",
    ),
    ("source = {url = 'u', platforms = 1}", "BadPlatforms source"),
    (
        "source = {url = 'u', platforms = {unix = 'v'}}",
        "BadPlatforms source",
    ),
    (
        "source = {url = 'u', platforms = {linux = 'v'}}",
        "BadPlatforms source",
    ),
    ("hooks = {platforms = false}", "BadPlatforms hooks"),
    ("hooks = {platforms = {unix = 1}}", "BadPlatforms hooks"),
    ("hooks = {platforms = {linux = 1}}", "BadPlatforms hooks"),
    ("test = {platforms = 1}", "BadPlatforms test"),
    ("test = {platforms = {unix = 1}}", "BadPlatforms test"),
    (
        "test = {platforms = {unix = {}, linux = 1}}",
        "BadPlatforms test",
    ),
];

#[test]
fn platforms_are_bad(rt: HostRuntime) -> Result<(), Fail> {
    compare(&rt, rt.alloc(), &HEADS, BAD)
}

const FIRST: &[Case] = &[
    (
        "build = {platforms = 1} dependencies = {platforms = 1}",
        "BadPlatforms build",
    ),
    (
        "dependencies = {platforms = 1} build_dependencies = {platforms = 1}",
        "BadPlatforms dependencies",
    ),
    (
        "build_dependencies = {platforms = 1} test_dependencies = {platforms = 1}",
        "BadPlatforms build_dependencies",
    ),
    (
        "test_dependencies = {platforms = 1} external_dependencies = {platforms = 1}",
        "BadPlatforms test_dependencies",
    ),
    (
        "external_dependencies = {platforms = 1} source = {platforms = 1}",
        "BadPlatforms external_dependencies",
    ),
    (
        "source = {platforms = 1} hooks = {platforms = 1}",
        "BadPlatforms source",
    ),
    (
        "hooks = {platforms = 1} test = {platforms = 1}",
        "BadPlatforms hooks",
    ),
    (
        "dependencies = {platforms = 1} a = {platforms = 1}",
        "BadPlatforms dependencies",
    ),
];

#[test]
fn the_first_field_with_bad_platforms_is_told(rt: HostRuntime) -> Result<(), Fail> {
    compare(&rt, rt.alloc(), &HEADS, FIRST)
}

// Tables for other platforms go, and so does `platforms` itself; other fields keep an entry of this name.
const OTHERS: &[Case] = &[
    (
        "dependencies = {platforms = {windows = 1, macosx = {}}}",
        "1.0 hello 1.0-1",
    ),
    ("dependencies = {platforms = {}}", "1.0 hello 1.0-1"),
    ("dependencies = {platforms = {'x'}}", "1.0 hello 1.0-1"),
    (
        "external_dependencies = {platforms = {win32 = 1}}",
        "1.0 hello 1.0-1",
    ),
    ("hooks = {platforms = {linux = {x = 1}}}", "1.0 hello 1.0-1"),
    ("hooks = 'x'", "WrongShape hooks"),
    ("deploy = {platforms = 1}", "1.0 hello 1.0-1"),
    (
        "deploy = {platforms = {unix = {wrap_bin_scripts = 1}}}",
        "1.0 hello 1.0-1",
    ),
    (
        "description = {platforms = {}}",
        "Unknown description.platforms",
    ),
    (
        "supported_platforms = {platforms = {}}",
        "WrongShape supported_platforms",
    ),
    (
        "build = {type = 'none', install = {platforms = {}}}",
        "Unknown build.install.platforms",
    ),
    // one within `unix` is kept
    (
        "build = {type = 'none', platforms = {unix = {platforms = {linux = {type = 1}}}}}",
        "1.0 hello 1.0-1",
    ),
    (
        "build = {type = 'none', platforms = {unix = {platforms = 1}}}",
        "1.0 hello 1.0-1",
    ),
    (
        "dependencies = {'lua', platforms = {unix = {platforms = {}}}}",
        "WrongShape dependencies",
    ),
    (
        "external_dependencies = {platforms = {linux = {platforms = 'x'}}}",
        "WrongShape external_dependencies.*",
    ),
];

#[test]
fn platforms_are_taken_out(rt: HostRuntime) -> Result<(), Fail> {
    compare(&rt, rt.alloc(), &HEADS, OTHERS)
}

// What is merged counts as if it stood there.
const MERGED: &[Case] = &[
    (
        "source = {platforms = {unix = {url = 'u'}}}",
        "3.0 hello 1.0-1",
    ),
    (
        "source = {url = 1, platforms = {linux = {url = 'u'}}}",
        "3.0 hello 1.0-1",
    ),
    (
        "source = {url = 'u', platforms = {linux = {url = 1}}}",
        "WrongShape source.url",
    ),
    (
        "source = {platforms = {unix = {url = 1}, linux = {url = 'u'}}}",
        "3.0 hello 1.0-1",
    ),
    (
        "source = {platforms = {unix = {url = 'u'}, linux = {url = 1}}}",
        "WrongShape source.url",
    ),
    (
        "source = {platforms = {windows = {url = 'u'}}}",
        "Missing source.url",
    ),
    (
        "build = {platforms = {unix = {type = 1}}}",
        "WrongShape build.type",
    ),
    (
        "build = {install = 1, platforms = {unix = {install = {}}}}",
        "3.0 hello 1.0-1",
    ),
    (
        "build = {install = {}, platforms = {unix = {install = 1}}}",
        "WrongShape build.install",
    ),
    (
        "external_dependencies = {platforms = {unix = {X = 1}}}",
        "WrongShape external_dependencies.*",
    ),
    (
        "dependencies = {platforms = {unix = {1}}}",
        "WrongShape dependencies",
    ),
    (
        "dependencies = {platforms = {unix = {[2] = 'lua'}}}",
        "WrongShape dependencies",
    ),
    (
        "dependencies = {[2] = 'a', platforms = {unix = {'b'}}}",
        "3.0 hello 1.0-1",
    ),
    (
        "build_dependencies = {platforms = {linux = {x = 'y'}}}",
        "WrongShape build_dependencies",
    ),
    (
        "test_dependencies = {platforms = {linux = {{}}}}",
        "WrongShape test_dependencies",
    ),
    (
        "test = {platforms = {linux = {type = 'busted'}}}",
        "3.0 hello 1.0-1",
    ),
];

#[test]
fn platforms_are_merged(rt: HostRuntime) -> Result<(), Fail> {
    compare(&rt, rt.alloc(), &HEADS_OF_THREE, MERGED)
}

const LISTED: Frame = Frame {
    start: "package = 'hello' version = '1.0-1' source = {url = 'u'} \
        build = {type = 'none'} supported_platforms = ",
    end: "",
    part: Part::Head,
};

const SUPPORTED: &[Case] = &[
    ("{}", "1.0 hello 1.0-1"),
    ("{'unix'}", "1.0 hello 1.0-1"),
    ("{'linux'}", "1.0 hello 1.0-1"),
    ("{'windows', 'linux'}", "1.0 hello 1.0-1"),
    ("{'unix', 'macosx', '!windows'}", "1.0 hello 1.0-1"),
    ("{'!windows'}", "1.0 hello 1.0-1"),
    ("{'!windows', '!macosx'}", "1.0 hello 1.0-1"),
    ("{'!'}", "1.0 hello 1.0-1"),
    ("{'!Linux'}", "1.0 hello 1.0-1"),
    ("{'! linux'}", "1.0 hello 1.0-1"),
    ("{'!!unix'}", "1.0 hello 1.0-1"),
    ("{'!unix'}", "Platform"),
    ("{'!linux'}", "Platform"),
    ("{'unix', '!linux'}", "Platform"),
    ("{'!linux', 'unix'}", "Platform"),
    ("{'linux', '!unix'}", "Platform"),
    ("{'unix', 'linux', '!unix'}", "Platform"),
    ("{'windows'}", "Platform"),
    ("{'!windows', 'macosx'}", "Platform"),
    ("{'Unix'}", "Platform"),
    ("{'unix '}", "Platform"),
    ("{''}", "Platform"),
    ("{'', '!windows'}", "Platform"),
    ("{'linux\\0'}", "Platform"),
];

#[test]
fn some_platforms_are_supported(rt: HostRuntime) -> Result<(), Fail> {
    compare(&rt, rt.alloc(), &LISTED, SUPPORTED)
}
