ghost use Rattle.std.specs.Prelude.{◌≡◌, ◌++◌, ◌&&◌, ◌==◌, false, not, if◌then◌else◌, IfOk, OnOk, Some, None};
ghost use Rattle.std.specs.List.{filter};
ghost use Rattle.std.specs.Option.{option_to_list};
ghost use Rattle.std.specs.Str.{is_utf8};
ghost use Rattle.rocks_text.specs.Texts.{is_file_path};
ghost use Rattle.rock_manifest.specs.Reading.{file_in, files_under, lines, path_in};

use hex::FromHex;
use rocks_text::{FilePath, TextFault};
use std::alloc::{AllocError, Global};
use std::str;

/// The files of the lines that stand under a global of that name. The only error is want of memory.
pub fn files_under(
    alloc: Global,
    name: &[u8],
    bytes: &[u8],
) -> Result<Vec<(FilePath, [u8; 16])>, AllocError>
    ensures { IfOk result (λ files. files.items ≡ files_under name.now false (lines bytes.now)) }
{
    let mut files = Vec::new(alloc);
    let mut inside = false;
    for line in bytes.split(|b| *b == b'\n') {
        if !line.starts_with(b" ") {
            inside = line.starts_with(name);
        } else if inside {
            add_file(alloc, line, &mut files)?;
        }
    }
    Ok(files)
}

// Adds the file of a line, if it has one.
fn add_file(
    alloc: Global,
    line: &[u8],
    files: &mut Vec<(FilePath, [u8; 16])>,
) -> Result<(), AllocError>
    ensures { OnOk result (files.new.items ≡ files.old.items ++ option_to_list (file_in line.now)) }
{
    if let Some(file) = file_in(alloc, line)? {
        files.push(file)?;
    }
    Ok(())
}

#[tactic(auto, unfolding(crate::specs::Reading::file_in))]
fn file_in(alloc: Global, line: &[u8]) -> Result<Option<(FilePath, [u8; 16])>, AllocError>
    ensures { IfOk result (λ file. file ≡ file_in line.now) }
{
    let length = line.len();
    if length < 38 {
        return Ok(None);
    }
    let Ok(digest) = <[u8; 16]>::from_hex(&line[length - 34..length - 2]) else {
        return Ok(None);
    };
    match file_path(alloc, &path_in(alloc, &line[3..length - 35])?)? {
        Some(path) => Ok(Some((path, digest))),
        None => Ok(None),
    }
}

// The path that bytes are, if they are one.
fn file_path(alloc: Global, bytes: &[u8]) -> Result<Option<FilePath>, AllocError>
    ensures { IfOk result (λ path. path
        ≡ (if is_utf8 bytes.now && is_file_path bytes.now then Some bytes.now else None)) }
{
    let Ok(text) = str::from_utf8(bytes) else {
        return Ok(None);
    };
    match FilePath::from_text(alloc, text) {
        Ok(path) => Ok(Some(path)),
        Err(TextFault::NoMemory) => Err(AllocError),
        Err(_) => Ok(None),
    }
}

// The bytes of the path in the key of a line.
#[tactic(auto, unfolding(crate::specs::Reading::path_in))]
fn path_in(alloc: Global, key: &[u8]) -> Result<Vec<u8>, AllocError>
    ensures { IfOk result (λ path. path.items ≡ path_in key.now) }
{
    let length = key.len();
    if length >= 7 && key[0] == b'[' {
        without_backslashes(alloc, &key[2..length - 5])
    } else {
        Vec::from_slice(alloc, &key[..length.saturating_sub(3)])
    }
}

fn without_backslashes(alloc: Global, quoted: &[u8]) -> Result<Vec<u8>, AllocError>
    ensures { IfOk result (λ path. path.items ≡ filter (λ b. not (b == 92)) quoted.now) }
{
    quoted
        .iter()
        .copied()
        .filter(|b| *b != b'\\')
        .collect(alloc)
}
