ghost use Rattle.std.specs.Prelude.{◌≡◌, ◌+◌, ◌*◌, ◌||◌, length, map, IfOk, IsOk, MatchResult};
ghost use Rattle.std.specs.Prelude.{IsTrue, MatchOption, false, string_bytes};
ghost use Rattle.std.specs.List.{list_any};
ghost use Rattle.rocks_version.specs.Texts.{is_rock_version, is_version};
ghost use Rattle.rocks_command.specs.Words.{command_of, rooted, from_folders, after_from};
ghost use Rattle.rocks_command.specs.Words.{command_in, eval_path, key_version, rock_key};
ghost use Rattle.rocks_command.specs.Words.{compare_left, compare_right, ended, is_option};
ghost use Rattle.rocks_command.specs.Words.{IsFaultOf, RootsAre};

use crate::{Command, RootWords, WordsFault};
use rocks_bytes::Text;
use rocks_text::{FilePath, Name, TextFault};
use rocks_version::{RockKey, Version, VersionFault};
use sqlite_items::Items;
use std::alloc::{AllocError, Global};

/// The most servers of one command line.
const MOST_SERVERS: usize = 8;

/// The command that the words of a command line give: `--tree DIR`, then `--from DIR` at most 8 times, then
/// `add NAME VERSION`, `install NAME VERSION`, `lint NAME VERSION`, `eval PATH` or `compare VERSION VERSION`. NAME is put
/// into lower case, PATH is a path on a server, and VERSION any version behind `compare`, and else one that a rock may
/// have.
///
/// `Options` and `BadWords` exactly where the words are faulty so, and `NoMemory` where memory runs out.
pub fn read_words(alloc: Global, words: &[String]) -> Result<Command, WordsFault>
    ensures { MatchResult result
        (λ command. command_of (map string_bytes words.now) ≡ Ok command)
        (IsFaultOf (command_of (map string_bytes words.now))) }
{
    let (_, _, command) = rooted(words)?;
    command_in(alloc, command)
}

/// The tree and the servers that the words of a command line name.
///
/// It refuses what `read_words` refuses, for the same fault, and nothing else; `NoMemory` where memory runs out.
pub fn roots(alloc: Global, words: &[String]) -> Result<RootWords, WordsFault>
    ensures ok { IfOk result (λ roots.
        RootsAre (rooted (map string_bytes words.now)) roots.tree roots.servers) }
    ensures same { MatchResult result
        (λ _. IsOk (command_of (map string_bytes words.now)))
        (IsFaultOf (command_of (map string_bytes words.now))) }
{
    let (tree, from, command) = rooted(words)?;
    command_in(alloc, command)?;
    Ok(RootWords {
        tree: Text::from(tree.clone()?),
        servers: from_folders(alloc, from)?,
    })
}

fn rooted(words: &[String]) -> Result<(&String, &[String], &[String]), WordsFault>
    ensures { MatchResult result
        (λ parts. rooted (map string_bytes words.now) ≡ Ok (record {
          tree = string_bytes parts.0.now;
          servers = from_folders (map string_bytes parts.1.now);
          command = map string_bytes parts.2.now;
        }))
        (λ fault. (rooted (map string_bytes words.now) ≡ Err fault)
        × (fault ≡ WordsFault.Options)) }
{
    let [flag, tree, from @ ..] = words else {
        return Err(WordsFault::Options);
    };
    if flag.as_str() != "--tree" {
        return Err(WordsFault::Options);
    }
    let command = after_from(from);
    if (from.len() - command.len()) / 2 > MOST_SERVERS {
        return Err(WordsFault::Options);
    }
    if has_option(command) {
        return Err(WordsFault::Options);
    }
    Ok((tree, from, command))
}

fn has_option(words: &[String]) -> bool
    ensures { result ≡ list_any is_option (map string_bytes words.now) }
{
    for word in words {
        if is_option(word) {
            return true;
        }
    }
    false
}

fn is_option(word: &String) -> bool
    ensures { result ≡ is_option (string_bytes word.now) }
{
    word.as_str() == "--tree" || word.as_str() == "--from"
}

fn after_from(words: &[String]) -> &[String]
    ensures rest { map string_bytes result.now ≡ after_from (map string_bytes words.now) }
    ensures count { 2 * length (from_folders (map string_bytes words.now)) + length result.now
        ≡ length words.now }
{
    let mut rest = words;
    while let [flag, _, after @ ..] = rest {
        if flag.as_str() != "--from" {
            break;
        }
        rest = after;
    }
    rest
}

fn from_folders(alloc: Global, words: &[String]) -> Result<Items<Text>, AllocError>
    ensures { IfOk result (λ folders. folders ≡ from_folders (map string_bytes words.now)) }
{
    let mut folders = Items::new(alloc);
    let mut rest = words;
    while let [flag, folder, after @ ..] = rest {
        if flag.as_str() != "--from" {
            return Ok(folders);
        }
        folders.push(Text::from(folder.clone()?))?;
        rest = after;
    }
    Ok(folders)
}

fn command_in(alloc: Global, words: &[String]) -> Result<Command, WordsFault>
    ensures { MatchResult result
        (λ command. command_in (map string_bytes words.now) ≡ Ok command)
        (IsFaultOf (command_in (map string_bytes words.now))) }
{
    match words {
        [verb, rest @ ..] if verb.as_str() == "add" => Ok(Command::Add(rock_key(alloc, rest)?)),
        [verb, rest @ ..] if verb.as_str() == "install" => {
            Ok(Command::Install(rock_key(alloc, rest)?))
        }
        [verb, rest @ ..] if verb.as_str() == "lint" => Ok(Command::Lint(rock_key(alloc, rest)?)),
        [verb, rest @ ..] if verb.as_str() == "eval" => eval_path(alloc, rest),
        [verb, rest @ ..] if verb.as_str() == "compare" => compare_left(alloc, rest),
        _ => Err(WordsFault::BadWords { which: 0 }),
    }
}

// The rock that the words name, where no word is left behind it.
fn rock_key(alloc: Global, words: &[String]) -> Result<RockKey, WordsFault>
    ensures { MatchResult result
        (λ key. rock_key (map string_bytes words.now) ≡ Ok key)
        (IsFaultOf (rock_key (map string_bytes words.now))) }
{
    let [name, rest @ ..] = words else {
        return Err(WordsFault::BadWords { which: 1 });
    };
    match Name::from_text(alloc, name.as_str()) {
        Ok(name) => key_version(alloc, name, rest),
        Err(TextFault::NoMemory) => Err(WordsFault::NoMemory),
        Err(_) => Err(WordsFault::BadWords { which: 1 }),
    }
}

fn key_version(alloc: Global, name: Name, words: &[String]) -> Result<RockKey, WordsFault>
    ensures { MatchResult result
        (λ key. key_version name (map string_bytes words.now) ≡ Ok key)
        (IsFaultOf (key_version name (map string_bytes words.now))) }
{
    let [version, rest @ ..] = words else {
        return Err(WordsFault::BadWords { which: 2 });
    };
    let Some(version) = rock_version(alloc, version.as_str())? else {
        return Err(WordsFault::BadWords { which: 2 });
    };
    ended(RockKey { name, version }, 3, rest)
}

fn eval_path(alloc: Global, words: &[String]) -> Result<Command, WordsFault>
    ensures { MatchResult result
        (λ command. eval_path (map string_bytes words.now) ≡ Ok command)
        (IsFaultOf (eval_path (map string_bytes words.now))) }
{
    let [path, rest @ ..] = words else {
        return Err(WordsFault::BadWords { which: 1 });
    };
    let path = match FilePath::from_text(alloc, path.as_str()) {
        Ok(path) => path,
        Err(TextFault::NoMemory) => return Err(WordsFault::NoMemory),
        Err(_) => return Err(WordsFault::BadWords { which: 1 }),
    };
    ended(Command::Eval(path), 2, rest)
}

fn compare_left(alloc: Global, words: &[String]) -> Result<Command, WordsFault>
    ensures { MatchResult result
        (λ command. compare_left (map string_bytes words.now) ≡ Ok command)
        (IsFaultOf (compare_left (map string_bytes words.now))) }
{
    let [left, rest @ ..] = words else {
        return Err(WordsFault::BadWords { which: 1 });
    };
    let Some(left) = version(alloc, left.as_str())? else {
        return Err(WordsFault::BadWords { which: 1 });
    };
    compare_right(alloc, left, rest)
}

fn compare_right(alloc: Global, left: Version, words: &[String]) -> Result<Command, WordsFault>
    ensures { MatchResult result
        (λ command. compare_right left (map string_bytes words.now) ≡ Ok command)
        (IsFaultOf (compare_right left (map string_bytes words.now))) }
{
    let [right, rest @ ..] = words else {
        return Err(WordsFault::BadWords { which: 2 });
    };
    let Some(right) = version(alloc, right.as_str())? else {
        return Err(WordsFault::BadWords { which: 2 });
    };
    ended(Command::Compare(left, right), 3, rest)
}

// What words say, where no word is left behind them.
fn ended<T: Drop>(said: T, count: u32, words: &[String]) -> Result<T, WordsFault>
    ensures { result ≡ ended count said (map string_bytes words.now) }
{
    if !words.is_empty() {
        return Err(WordsFault::BadWords { which: count });
    }
    Ok(said)
}

// The version that a word is, if it is one.
#[tactic(auto, using(crate::proofs::WordLemmas::no_version, crate::proofs::WordLemmas::some_version))]
fn version(alloc: Global, word: &str) -> Result<Option<Version>, AllocError>
    ensures { IfOk result (λ read. MatchOption read (is_version word.now ≡ false)
        (λ version. IsTrue (is_version word.now) × (version ≡ word.now))) }
{
    match Version::read(alloc, word) {
        Ok(version) => Ok(Some(version)),
        Err(VersionFault::NoMemory) => Err(AllocError),
        Err(_) => Ok(None),
    }
}

// The version of a rock that a word is, if it is one.
#[tactic(auto, using(crate::proofs::WordLemmas::no_rock_version))]
fn rock_version(alloc: Global, word: &str) -> Result<Option<Version>, AllocError>
    ensures { IfOk result (λ read. MatchOption read (is_rock_version word.now ≡ false)
        (λ version. IsTrue (is_rock_version word.now) × (version ≡ word.now))) }
{
    let Some(version) = version(alloc, word)? else {
        return Ok(None);
    };
    if !version.is_rock_version() {
        return Ok(None);
    }
    Ok(Some(version))
}
