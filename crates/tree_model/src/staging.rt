ghost use Rattle.std.specs.Prelude.{◌≡◌, ◌++◌, IfOk, OnOk, map};
ghost use Rattle.rock_manifest.specs.Text.{record_text};
ghost use Rattle.rock_record.specs.Rocks.{record_of};
ghost use Rattle.tree_model.specs.Tree.{file_at, files_of, item_file, own_file, record_path};

use rock_record::{Rock, rockspec_path};
use rocks_bytes::Bytes;
use rocks_text::{FilePath, Item, TreePath};
use rocks_version::RockKey;
use std::alloc::{AllocError, Global};
use tree_paths::{own_path, plain};

/// A file at its path in a tree. Its bytes are those of a rock.
#[derive(Drop)]
pub struct Staged<'a> {
    pub at: TreePath,
    pub bytes: &'a [u8],
}

/// The files that a rock brings, at their paths in a tree: its rockspec and the text of its record, its own files and
/// its items, in this order. No byte is copied. The only error is want of memory.
pub fn files<'a>(
    alloc: Global,
    rock: &'a Rock,
    record: &'a [u8],
) -> Result<Vec<Staged<'a>>, AllocError>
    requires { «record».now ≡ record_text (record_of rock.now) }
    ensures { IfOk result (λ files. map file_at files.items ≡ files_of rock.now) }
{
    let rockspec = rockspec_path(alloc, &rock.key)?;
    let mut files = Vec::new(alloc);
    files.push(Staged {
        at: own_path(alloc, &rock.key, &rockspec)?,
        bytes: rock.rockspec.as_slice(),
    })?;
    files.push(Staged {
        at: record_place(alloc, &rock.key)?,
        bytes: record,
    })?;
    add_own(alloc, &rock.key, rock.own.as_slice(), &mut files)?;
    add_items(alloc, rock.items.as_slice(), &mut files)?;
    Ok(files)
}

// Where the record of a rock's files stands.
fn record_place(alloc: Global, key: &RockKey) -> Result<TreePath, AllocError>
    ensures { IfOk result (λ path. path ≡ record_path key.now) }
{
    own_path(alloc, key, &FilePath::known(alloc, "rock_manifest")?)
}

// Adds a rock's own files, at their places in its folder.
fn add_own<'a>(
    alloc: Global,
    key: &RockKey,
    own: &'a [(FilePath, Bytes)],
    files: &mut Vec<Staged<'a>>,
) -> Result<(), AllocError>
    ensures { OnOk result (map file_at files.new.items
        ≡ map file_at files.old.items ++ map (own_file key.now) own.now) }
{
    for (path, bytes) in own {
        files.push(Staged {
            at: own_path(alloc, key, path)?,
            bytes: bytes.as_slice(),
        })?;
    }
    Ok(())
}

// Adds a rock's items, at their plain places.
fn add_items<'a>(
    alloc: Global,
    items: &'a [(Item, Bytes)],
    files: &mut Vec<Staged<'a>>,
) -> Result<(), AllocError>
    ensures { OnOk result (map file_at files.new.items
        ≡ map file_at files.old.items ++ map item_file items.now) }
{
    for (item, bytes) in items {
        files.push(Staged {
            at: plain(alloc, item)?,
            bytes: bytes.as_slice(),
        })?;
    }
    Ok(())
}
