//! Whole rockspecs, of each format, and bytes that are no Lua text of the served part.
use crate::compare::{Frame, GOOD, compare};
use crate::told::{Part, told};
use rockspec::LONGEST_ROCKSPEC;
use std::alloc::{AllocError, Global};
use std::test::Fail;

const TEXT: Frame = Frame {
    start: "",
    end: "",
    part: Part::Head,
};

const TEXTS: &[(&str, &str)] = &[
    ("package = 'hello", "OpenString 10"),
    ("package = ?", "BadByte 10"),
    ("package = 'a\\q'", "BadEscape 12"),
    ("rockspec_format = 1.0", "BadNumeral 18"),
    ("a = 9223372036854775808", "NumberTooLarge 4"),
    ("--[[ package", "OpenBracket 0"),
    ("package = = 'a'", "Expected 10"),
    ("package 'a'", "NotServed 8 Call"),
    ("package = f('a')", "NotServed 11 Call"),
    ("if x then end", "NotServed 0 Control"),
    ("build.type = 'none'", "NotServed 5 FieldAssign"),
    ("a = 1 + 1", "NotServed 6 Operator"),
    ("version = MAJOR .. '-1'", "ConcatOf 16 nil"),
    ("package = p.name", "IndexOf 11 nil"),
    ("a = {x = 1, x = 2}", "TwiceKey 12"),
    ("a = {[{}] = 1}", "TableKey 5"),
    ("a = {[nil] = 1}", "NilKey 5"),
    ("a, a = 1, 2", "TwiceName 3"),
];

#[test]
fn texts_have_faults(rt: HostRuntime) -> Result<(), Fail> {
    compare(&rt, rt.alloc(), &TEXT, TEXTS)
}

const ROCKSPEC: &str = "-- a comment
local _MODREV, _SPECREV = '2.1', '-3'
rockspec_format = '3.0'
package = 'Hello'
version = _MODREV .. _SPECREV
source = {
   url = 'git+https://localhost/hello.git',
   tag = 'v' .. _MODREV,
   dir = 'hello',
}
description = {
   summary = 'Says hello',
   detailed = [[
      Says hello to
      everybody.
   ]],
   license = 'MIT/X11',
   homepage = 'https://localhost',
   issues_url = 'https://localhost/issues',
   maintainer = 'Nobody',
   labels = {'hello', 'text'},
}
supported_platforms = {'!windows', 'unix'}
dependencies = {
   'lua >= 5.1, < 5.5',
   'LPeg ~> 1.0',
   platforms = {windows = {[3] = 'winapi'}},
}
build_dependencies = {'busted-htest'}
test_dependencies = {'busted >= 2.0'}
test = {type = 'busted', platforms = {unix = {flags = {'-v'}}}}
build = {
   type = 'builtin',
   modules = {
      hello = 'src/init.lua',
      ['hello.text'] = 'src/text.lua',
   },
   install = {bin = {'bin/hello'}, conf = {['hello.conf'] = 'etc/hello.conf'}},
   copy_directories = {'doc', 'test'},
   platforms = {linux = {modules = {['hello.os'] = 'src/linux.lua'}}},
}
deploy = {wrap_bin_scripts = true}
hooks = {post_install = 'echo'}
";

const HEAD: Frame = Frame {
    start: ROCKSPEC,
    end: "",
    part: Part::Head,
};

const NEEDS: Frame = Frame {
    start: ROCKSPEC,
    end: "",
    part: Part::Needs,
};

const PLAN: Frame = Frame {
    start: ROCKSPEC,
    end: "",
    part: Part::Plan,
};

#[test]
fn a_whole_rockspec_is_read(rt: HostRuntime) -> Result<(), Fail> {
    compare(&rt, rt.alloc(), &HEAD, &[("", "3.0 hello 2.1-3")])?;
    compare(
        &rt,
        rt.alloc(),
        &NEEDS,
        &[("", "lua >= 5.1, < 5.5\nlpeg ~> 1.0\n")],
    )?;
    compare(&rt, rt.alloc(), &PLAN, &[("", INSTALLED)])
}

const INSTALLED: &str = "Lua hello/init.lua < src/init.lua
Lua hello/os.lua < src/linux.lua
Lua hello/text.lua < src/text.lua
Bin hello < bin/hello
conf hello.conf < etc/hello.conf
folder doc
folder test
";

// A rockspec, a comment's dashes, and blanks up to a length, or another byte for each of them.
fn padded(alloc: Global, start: &str, length: u32, byte: u8) -> Result<Vec<u8>, AllocError> {
    let mut text = Vec::from_slice(alloc, start.as_bytes())?;
    text.extend_from_slice(b"--")?;
    text.resize(length as usize, byte)?;
    Ok(text)
}

// Whether this is told of the key of a rockspec.
fn is_told(alloc: Global, bytes: &[u8], wanted: &str) -> Result<bool, AllocError> {
    Ok(told(alloc, bytes, Part::Head)?.as_slice() == wanted.as_bytes())
}

#[test]
fn the_longest_rockspec_has_262_144_bytes(rt: HostRuntime) -> Result<(), Fail> {
    assert_eq!(rt; LONGEST_ROCKSPEC, 262_144);
    let longest = padded(rt.alloc(), GOOD, 262_144, b' ')?;
    assert!(rt; is_told(rt.alloc(), &longest, "1.0 hello 1.0-1")?);
    let longer = padded(rt.alloc(), GOOD, 262_145, b' ')?;
    assert!(rt; is_told(rt.alloc(), &longer, "TooLarge 262145")?);
    // No byte of this one begins a token.
    let other = padded(rt.alloc(), "?", 262_146, b'?')?;
    assert!(rt; is_told(rt.alloc(), &other, "TooLarge 262146")?);
    Ok(())
}

// The dependency has as many blanks as it takes for 1,001 bytes, or 1,000.
#[test]
fn a_long_text_is_no_dependency(rt: HostRuntime) -> Result<(), Fail> {
    let mut longest = padded(rt.alloc(), GOOD, 200, b' ')?;
    longest.extend_from_slice(b"\ndependencies = {'lua")?;
    let mut longer = Vec::from_slice(rt.alloc(), &longest)?;
    longest.resize(200 + 21 + 997, b' ')?;
    longest.extend_from_slice(b"'}")?;
    assert!(rt; is_told(rt.alloc(), &longest, "1.0 hello 1.0-1")?);
    longer.resize(200 + 21 + 998, b' ')?;
    longer.extend_from_slice(b"'}")?;
    assert!(rt; is_told(rt.alloc(), &longer, "BadDependency 0 BadDependency 1000")?);
    Ok(())
}
