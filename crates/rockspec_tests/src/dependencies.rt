//! What rocks need.
use crate::compare::{Case, Frame, GOOD_THREE, compare};
use crate::told::Part;
use std::test::Fail;

const NEEDS: Frame = Frame {
    start: GOOD_THREE,
    end: "",
    part: Part::Needs,
};

const READ: &[Case] = &[
    ("", ""),
    ("dependencies = {}", ""),
    ("dependencies = {'lua'}", "lua\n"),
    (
        "dependencies = {'lua>=5.1,<5.5', 'LPeg 1.0'}",
        "lua >= 5.1, < 5.5\nlpeg == 1.0\n",
    ),
    ("dependencies = {'b', 'a', 'b'}", "b\na\nb\n"),
    (
        "dependencies = {[3] = 'c', [1] = 'a', [2] = 'b'}",
        "a\nb\nc\n",
    ),
    (
        "local a = 'x' dependencies = {a .. ' >= ' .. 1}",
        "x >= 1\n",
    ),
    // positions are merged
    (
        "dependencies = {'a', 'b', platforms = {unix = {'c'}}}",
        "c\nb\n",
    ),
    (
        "dependencies = {'a', platforms = {unix = {'b', 'c'}}}",
        "b\nc\n",
    ),
    (
        "dependencies = {'a', platforms = {unix = {'b', 'c'}, linux = {'d'}}}",
        "d\nc\n",
    ),
    (
        "dependencies = {'a', platforms = {linux = {[2] = 'b'}, unix = {[3] = 'c'}}}",
        "a\nb\nc\n",
    ),
    ("dependencies = {'a', platforms = {windows = {'b'}}}", "a\n"),
    ("dependencies = {'!', platforms = {linux = {'a'}}}", "a\n"),
    // what builds and tests need has no effect
    ("build_dependencies = {'a'} test_dependencies = {'b'}", ""),
    (
        "dependencies = {'a'} build_dependencies = {'b'} test_dependencies = {'c'}",
        "a\n",
    ),
];

#[test]
fn dependencies_are_read(rt: HostRuntime) -> Result<(), Fail> {
    compare(&rt, rt.alloc(), &NEEDS, READ)
}

const BAD: &[Case] = &[
    ("dependencies = {''}", "BadDependency 0 BadDependency 0"),
    ("dependencies = {'lua !'}", "BadDependency 0 BadOperator 4"),
    (
        "dependencies = {'lua', 'a/b'}",
        "BadDependency 1 BadDependency 1",
    ),
    (
        "dependencies = {'lua >= 1234567890123456789'}",
        "BadDependency 0 BadDependency 7",
    ),
    (
        "dependencies = {'lua >= 5.1', 'x =>'}",
        "BadDependency 1 BadOperator 2",
    ),
    (
        "dependencies = {'manifest'}",
        "BadDependency 0 BadDependency 0",
    ),
    (
        "dependencies = {'lua\\255'}",
        "BadDependency 0 BadDependency 3",
    ),
    (
        "dependencies = {'lua', '=', '!'}",
        "BadDependency 1 BadDependency 0",
    ),
    (
        "build_dependencies = {'-'}",
        "BadDependency 0 BadDependency 0",
    ),
    (
        "build_dependencies = {'a', 'b >'}",
        "BadDependency 1 BadDependency 3",
    ),
    (
        "dependencies = {'a', 'b'} build_dependencies = {'c', 'd ~'}",
        "BadDependency 3 BadOperator 2",
    ),
    (
        "test_dependencies = {'a', 'b', 'c@'}",
        "BadDependency 2 BadDependency 1",
    ),
    (
        "build_dependencies = {'a'} test_dependencies = {'@'}",
        "BadDependency 1 BadDependency 0",
    ),
    (
        "dependencies = {'a'} build_dependencies = {'b'} test_dependencies = {'c', 'd <>'}",
        "BadDependency 3 BadOperator 2",
    ),
    (
        "dependencies = {'a'} build_dependencies = {'?'} test_dependencies = {'='}",
        "BadDependency 1 BadDependency 0",
    ),
    (
        "dependencies = {'a '..'='} build_dependencies = {'?'} test_dependencies = {'='}",
        "BadDependency 0 BadDependency 3",
    ),
    (
        "dependencies = {'a', platforms = {linux = {'!'}}}",
        "BadDependency 0 BadDependency 0",
    ),
];

#[test]
fn bad_dependencies_are_told(rt: HostRuntime) -> Result<(), Fail> {
    compare(&rt, rt.alloc(), &NEEDS, BAD)
}
