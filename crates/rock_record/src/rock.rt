ghost use Rattle.std.specs.Prelude.{◌≡◌, ◌++◌, ◌∷◌, ◌≤◌, [], length, ◌↔◌, string_bytes, IfOk, IsTrue, OnOk};
ghost use Rattle.std.specs.List.{prefix_len};
ghost use Rattle.std.specs.Ordering.{is_lt};
ghost use Rattle.rocks_text.specs.Files.{path_cmp};
ghost use Rattle.rock_record.specs.Rocks.{digested, put_in_order, record_of, IsInOrder};
ghost use Rattle.rocks_version.specs.Keys.{rockspec_name};
ghost use Rattle.rock_manifest.specs.Text.{record_text};

use crate::digest;
use crate::order::{are_files_in_order, are_items_in_order, is_apart};
use rock_manifest::{Record, record_text};
use rocks_bytes::Bytes;
use rocks_constraint::Dependency;
use rocks_text::{FilePath, Item};
use rocks_version::{RockKey, rockspec_name};
use sqlite_items::Items;
use std::alloc::{AllocError, Global};

/// One version of one package with all its files.
#[derive(Debug, Drop)]
pub struct Rock {
    pub key: RockKey,
    pub dependencies: Items<Dependency>,
    /// The bytes of its rockspec.
    pub rockspec: Bytes,
    /// The files that it deploys, with their bytes.
    pub items: Items<(Item, Bytes)>,
    /// The files that stay in its own folder, with their bytes, without the rockspec.
    pub own: Items<(FilePath, Bytes)>,
}

impl Rock {
    /// Whether items and own files are in order, each once, and no own file has the rockspec's
    /// name (this project's own). The only error is want of memory.
    pub fn is_in_order(&self, alloc: Global) -> Result<bool, AllocError>
        ensures { IfOk result (λ is. IsTrue is ↔ IsInOrder self.now) }
    {
        if !are_items_in_order(self.items.as_slice()) {
            return Ok(false);
        }
        if !are_files_in_order(self.own.as_slice()) {
            return Ok(false);
        }
        let rockspec = rockspec_path(alloc, &self.key)?;
        Ok(is_apart(&rockspec, self.own.as_slice()))
    }

    /// An equal rock. The only error is want of memory.
    pub fn copy(&self, alloc: Global) -> Result<Rock, AllocError>
        ensures { IfOk result (λ copied. copied ≡ self.now) }
    {
        Ok(Rock {
            key: self.key.copy(alloc)?,
            dependencies: copied_dependencies(alloc, self.dependencies.as_slice())?,
            rockspec: self.rockspec.copy(alloc)?,
            items: copied_items(alloc, self.items.as_slice())?,
            own: copied_files(alloc, self.own.as_slice())?,
        })
    }
}

/// Equal dependencies. The only error is want of memory.
pub fn copied_dependencies(
    alloc: Global,
    dependencies: &[Dependency],
) -> Result<Items<Dependency>, AllocError>
    ensures { IfOk result (λ copied. copied ≡ dependencies.now) }
{
    let mut copied = Items::new(alloc);
    for dependency in dependencies {
        copied.push(dependency.copy(alloc)?)?;
    }
    Ok(copied)
}

fn copied_items(alloc: Global, items: &[(Item, Bytes)]) -> Result<Items<(Item, Bytes)>, AllocError>
    ensures { IfOk result (λ copied. copied ≡ items.now) }
{
    let mut copied = Items::new(alloc);
    for (item, bytes) in items {
        copied.push((item.copy(alloc)?, bytes.copy(alloc)?))?;
    }
    Ok(copied)
}

fn copied_files(
    alloc: Global,
    files: &[(FilePath, Bytes)],
) -> Result<Items<(FilePath, Bytes)>, AllocError>
    ensures { IfOk result (λ copied. copied ≡ files.now) }
{
    let mut copied = Items::new(alloc);
    for (path, bytes) in files {
        copied.push((path.copy(alloc)?, bytes.copy(alloc)?))?;
    }
    Ok(copied)
}

/// The text of the record of a rock: for each file its path and the MD5 of its bytes, the rockspec
/// among the rock's own files (LuaRocks's `rock_manifest`). The only error is want of memory.
pub fn rock_manifest_text(alloc: Global, rock: &Rock) -> Result<Bytes, AllocError>
    requires { IsInOrder rock.now }
    ensures { IfOk result (λ text. text ≡ record_text (record_of rock.now)) }
{
    record_text(alloc, &record_of(alloc, rock)?)
}

#[tactic(auto, unfolding(crate::specs::Rocks::record_of))]
fn record_of(alloc: Global, rock: &Rock) -> Result<Record, AllocError>
    ensures { IfOk result (λ made. made ≡ record_of rock.now) }
{
    let rockspec = rockspec_path(alloc, &rock.key)?;
    let rockspec_digest = digest(rock.rockspec.as_slice());
    Ok(Record {
        items: digested_items(alloc, rock.items.as_slice())?,
        own: own_files(alloc, rockspec, rockspec_digest, rock.own.as_slice())?,
    })
}

/// The path of a rock's rockspec in its folder, and on a server: `NAME-VERSION.rockspec`. The only error is want of
/// memory.
pub fn rockspec_path(alloc: Global, key: &RockKey) -> Result<FilePath, AllocError>
    ensures { IfOk result (λ path. path ≡ rockspec_name key.now.name key.now.version) }
{
    // They are looked at for what their types promise: so the text is a path.
    let _name = key.name.as_str();
    let _version = key.version.as_str();
    let text = rockspec_name(alloc, key)?;
    FilePath::known(alloc, text.as_str())
}

fn digested_items(
    alloc: Global,
    items: &[(Item, Bytes)],
) -> Result<Items<(Item, [u8; 16])>, AllocError>
    ensures { IfOk result (λ made. made ≡ digested items.now) }
{
    let mut made = Items::new(alloc);
    for (item, bytes) in items {
        made.push((item.copy(alloc)?, digest(bytes.as_slice())))?;
    }
    Ok(made)
}

// The own files with their digests, and the rockspec in its place among them.
fn own_files(
    alloc: Global,
    rockspec: FilePath,
    rockspec_digest: [u8; 16],
    own: &[(FilePath, Bytes)],
) -> Result<Items<(FilePath, [u8; 16])>, AllocError>
    ensures { IfOk result
        (λ made. made ≡ put_in_order (rockspec, rockspec_digest) (digested own.now)) }
{
    let (below, above) = own.split_at(count_below(&rockspec, own));
    let mut made = Items::new(alloc);
    add_digested(alloc, below, &mut made)?;
    made.push((rockspec, rockspec_digest))?;
    add_digested(alloc, above, &mut made)?;
    Ok(made)
}

// How many files stand before the first whose path isn't below this one.
fn count_below(path: &FilePath, own: &[(FilePath, Bytes)]) -> usize
    ensures value { result ≡ prefix_len (λ file. is_lt (path_cmp file.0 path.now)) own.now }
    ensures within { result ≤ length own.now }
{
    own.iter().take_while(|file| file.0 < *path).count()
}

fn add_digested(
    alloc: Global,
    files: &[(FilePath, Bytes)],
    made: &mut Items<(FilePath, [u8; 16])>,
) -> Result<(), AllocError>
    ensures { OnOk result (made.new ≡ made.old ++ digested files.now) }
{
    for (path, bytes) in files {
        made.push((path.copy(alloc)?, digest(bytes.as_slice())))?;
    }
    Ok(())
}
