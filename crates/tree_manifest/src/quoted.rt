// Keys and texts in the lines of a manifest. What is found is right wherever the line is one that is printed.
ghost use Rattle.std.specs.Prelude.{◌≡◌, ◌≤◌, ◌==◌, not, IfOk};
ghost use Rattle.std.specs.List.{filter};
ghost use Rattle.rock_manifest.specs.Reading.{path_in};
ghost use Rattle.tree_manifest.specs.Reading.{key_of, text_of};

use std::alloc::{AllocError, Global};

/// The key of a line that opens a table, or has an empty one. The only error is want of memory.
#[tactic(auto, unfolding(crate::specs::Reading::key_of))]
pub fn key_in(alloc: Global, line: &[u8]) -> Result<Vec<u8>, AllocError>
    ensures { IfOk result (λ found. found.items ≡ key_of line.now) }
{
    let end = if line.ends_with(b",") { 3 } else { 1 };
    path_in(alloc, &line[..line.len().saturating_sub(end)])
}

#[tactic(auto, unfolding(rock_manifest::specs::Reading::path_in))]
fn path_in(alloc: Global, key: &[u8]) -> Result<Vec<u8>, AllocError>
    ensures { IfOk result (λ path. path.items ≡ path_in key.now) }
{
    let length = key.len();
    if length >= 7 && key[0] == b'[' {
        without_backslashes(alloc, &key[2..length - 5])
    } else {
        Vec::from_slice(alloc, &key[..length.saturating_sub(3)])
    }
}

/// The text of a line that has so many bytes before it. The only error is want of memory.
#[tactic(auto, unfolding(crate::specs::Reading::text_of))]
pub fn text_in(alloc: Global, front: usize, line: &[u8]) -> Result<Vec<u8>, AllocError>
    requires { front ≤ 8 }
    ensures { IfOk result (λ found. found.items ≡ text_of front line.now) }
{
    let length = line.len();
    if length < front + 3 {
        return Ok(Vec::new(alloc));
    }
    without_backslashes(alloc, &line[front + 1..length - 2])
}

// None of the texts has a backslash, so each is one of an escape.
fn without_backslashes(alloc: Global, quoted: &[u8]) -> Result<Vec<u8>, AllocError>
    ensures { IfOk result (λ path. path.items ≡ filter (λ b. not (b == 92)) quoted.now) }
{
    quoted
        .iter()
        .copied()
        .filter(|b| *b != b'\\')
        .collect(alloc)
}
