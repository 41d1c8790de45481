//! Tells of dependencies, a line of standard input each: a version, a tab and a dependency's text. It answers a line
//! each: `met` or `unmet`, a blank and the dependency as it is printed; or the fault of the text with its place, or `no
//! version`. The script that compares with LuaRocks reads it.
#![tactic(auto)]

ghost use Rattle.std.specs.Prelude.{◌≡◌};

use rocks_constraint::{Dependency, DependencyFault, meets};
use rocks_version::Version;
use std::alloc::{AllocError, Global};
use std::io;
use std::process::ExitCode;

fn main(rt: HostRuntime) -> ExitCode {
    match tell_of_lines(&rt) {
        Ok(()) => ExitCode::SUCCESS,
        Err(_) => ExitCode::FAILURE,
    }
}

fn tell_of_lines(rt: &HostRuntime) -> io::Result<()> {
    for line in rt.lines(rt.alloc()) {
        let told = told(rt.alloc(), &line?)?;
        println!(rt; "{told}")?;
    }
    Ok(())
}

// What is told of a line.
fn told(alloc: Global, line: &str) -> Result<String, AllocError> {
    let Some((version, text)) = line.split_once('\t') else {
        return String::from_str(alloc, "no version");
    };
    let Ok(version) = Version::read(alloc, version) else {
        return String::from_str(alloc, "no version");
    };
    match Dependency::read(alloc, text) {
        Ok(dependency) => told_of_both(alloc, &version, &dependency),
        Err(DependencyFault::BadOperator { place }) => { format!(in alloc; "BadOperator {place}") }
        Err(DependencyFault::BadDependency { place }) => {
            format!(in alloc; "BadDependency {place}")
        }
        Err(DependencyFault::NoMemory) => Err(AllocError),
    }
}

fn told_of_both(
    alloc: Global,
    version: &Version,
    dependency: &Dependency,
) -> Result<String, AllocError> {
    let met = if meets(version, dependency.constraints()) {
        "met"
    } else {
        "unmet"
    };
    let text = dependency.text(alloc)?;
    format!(in alloc; "{met} {text}")
}
