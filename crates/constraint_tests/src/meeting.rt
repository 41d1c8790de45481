//! When versions meet constraints.

use rocks_constraint::{Dependency, meets};
use rocks_version::Version;
use std::alloc::Global;

const MET: &[(&str, &str)] = &[
    ("5.1", "lua"),
    ("5.1-2", "lua == 5.1"),
    ("5.1", "lua == 5.1-2"),
    ("5.1-2", "lua == 5.1-02"),
    ("05.1", "lua == 5.1"),
    ("5_1", "lua == 5.1"),
    ("5..1", "lua 5.1"),
    ("1.0rc1", "lua == 1.0.rc.1"),
    ("1.0-1", "lua = 1-0-1"),
    ("1.final", "lua == 1.fun"),
    ("5.1", "lua ~= 5.1.0"),
    ("5.1-2", "lua ~= 5.1-3"),
    ("5.2", "lua != 5.1"),
    ("1.0RC1", "lua ~= 1.0rc1"),
    ("5.1", "lua ~> 5"),
    ("5.1.4", "lua ~> 5.1"),
    ("5", "lua ~> 5.0"),
    ("5", "lua ~> 5.0.0"),
    ("5.1-2", "lua ~> 5.1-2"),
    ("1.2-1", "lua ~> 1.2"),
    ("1.2.9-1", "lua ~> 1.2"),
    ("5.1.3-2", "lua ~> 5.1-2"),
    ("1.0rc1", "lua ~> 1.0rc"),
    ("5.4", "lua >= 5.1, < 5.5"),
    ("5.1.0", "lua <= 5.1, >= 5.1"),
    ("5.1.0-1", "lua <= 5.1, >= 5.1"),
    ("scm-1", "lua > 99"),
    ("5.10", "lua > 5.9"),
    ("2.0rc1-1", "lua < 2.0-1"),
    ("1.0-1", "lua < 1.0-2"),
    ("1.0-10", "lua > 1.0-9"),
    ("1.0", "lua <= 1.0-1, >= 1.0-2"),
    ("1.a", "lua > 1.0, < 1.1"),
    ("1.alpha", "lua < 1.beta < 1.pre < 1.rc < 1"),
    ("5.1.3", "lua >= 5.1 < 5.2 ~= 5.1.2 != 5.1.4 ~> 5"),
];

const UNMET: &[(&str, &str)] = &[
    ("5.1-2", "lua == 5.1-3"),
    ("5.1", "lua == 5.1.0"),
    ("5.1.0", "lua == 5.1"),
    ("5.2", "lua 5.1"),
    ("1.final", "lua == 1.other"),
    ("1.rc", "lua = 1.RC"),
    ("5.1", "lua ~= 5.1"),
    ("5.1", "lua ~= 5.1-2"),
    ("1.final", "lua != 1.fun"),
    ("5.1", "lua ~> 5.1-2"),
    ("5.1-3", "lua ~> 5.1-2"),
    ("5.2", "lua ~> 5.1"),
    ("1.20-1", "lua ~> 1.2"),
    ("1-1", "lua ~> 1.2"),
    ("5.1", "lua ~> 5.1.1"),
    ("6", "lua ~> 5"),
    ("5", "lua ~> 5.rc"),
    ("5.5", "lua >= 5.1, < 5.5"),
    ("5.0", "lua >= 5.1, < 5.5"),
    ("5.1", "lua < 5.1"),
    ("5.1", "lua > 5.1"),
    ("5.1.0", "lua < 5.1"),
    ("5.1.0", "lua > 5.1"),
    ("5.1-1", "lua < 5.1"),
    ("5.1", "lua > 5.1-1"),
    ("5.1-2", "lua <= 5.1-1"),
    ("5.1-1", "lua >= 5.1-2"),
    ("1.0rc1", "lua >= 1.0"),
    ("cvs", "lua >= scm"),
    ("dev", "lua <= scm"),
    ("99", "lua >= cvs"),
    ("5.1", "lua >= 5.0, < 5.1"),
    ("5.1", "lua < 5.2, > 5.1"),
];

fn tells(alloc: Global, version: &str, dependency: &str, met: bool) -> bool {
    let Ok(version) = Version::read(alloc, version) else {
        return false;
    };
    let Ok(dependency) = Dependency::read(alloc, dependency) else {
        return false;
    };
    meets(&version, dependency.constraints()) == met
}

#[test]
fn versions_meet_constraints(rt: HostRuntime) {
    for (version, dependency) in MET {
        assert!(rt;
            tells(rt.alloc(), version, dependency, true),
            "{version} {dependency}"
        );
    }
    for (version, dependency) in UNMET {
        assert!(rt;
            tells(rt.alloc(), version, dependency, false),
            "{version} {dependency}"
        );
    }
}
