//! The program `rocks`: installs and removes Lua modules in a tree. `docs/MANUAL.md` tells its commands.
#![tactic(auto)]

ghost use Rattle.std.specs.Prelude.{◌≡◌, ◌⊎◌, map, IsErr, string_bytes};
ghost use Rattle.rocks_command.specs.Words.{command_of};
ghost use Rattle.rocks_program.specs.Faults.{status_without_words};

mod status_line;

use rocks_folders::{FolderDevice, FolderShelf, StdSource};
use rocks_session::{Status, WordsFault, roots, run};
use status_line::StatusLine;
use std::process::ExitCode;
use std::{env, io};

/// Reads the words behind the program's name, makes the real folders and streams, and runs. It ends with the status's
/// code, also where standard error takes no line, and prints a line to it for the codes from 2 on.
fn main(rt: HostRuntime) -> ExitCode {
    let status = match words(&rt) {
        Ok(words) => answer(&rt, &words),
        Err(error) => without_words(&error),
    };
    if let Some(line) = StatusLine::of(&status) {
        let _ = eprintln!(rt; "{line}");
    }
    ExitCode::from(status.code())
}

// Runs the words over the folders that they name, standard input and standard output.
fn answer(rt: &HostRuntime, words: &[String]) -> Status
    ensures bad_words { result ≡ Status.BadWords → IsErr (command_of (map string_bytes words.now)) }
    ensures words_first { IsErr (command_of (map string_bytes words.now))
        → (result ≡ Status.BadWords) ⊎ (result ≡ Status.NoMemory) }
{
    let alloc = rt.alloc();
    match roots(alloc, words) {
        Ok(roots) => {
            let mut device = FolderDevice::new(*rt, roots.tree);
            let mut shelf = FolderShelf::new(*rt, roots.servers);
            let mut input = StdSource::new(*rt);
            run(alloc, words, &mut device, &mut shelf, &mut input)
        }
        Err(WordsFault::NoMemory) => Status::NoMemory,
        Err(_) => Status::BadWords,
    }
}

// The status where the words couldn't be read: one that isn't UTF-8 is a faulty command line.
fn without_words(error: &io::Error) -> Status
    ensures { result ≡ status_without_words error.now }
{
    match error.kind() {
        io::ErrorKind::OutOfMemory => Status::NoMemory,
        _ => Status::BadWords,
    }
}

// The words behind the program's name. A word that isn't UTF-8 is an error.
fn words(rt: &HostRuntime) -> io::Result<Vec<String>> {
    let mut words = Vec::new(rt.alloc());
    for word in env::args(rt)?.skip(1) {
        words.push(word)?;
    }
    Ok(words)
}
