ghost use Rattle.std.specs.Prelude.{◌≡◌, map, string_bytes, IfOk, IsTrue};
ghost use Rattle.std.specs.List.{list_all};
ghost use Rattle.rocks_text.specs.Texts.{is_name};
ghost use Rattle.rocks_version.specs.Texts.{is_version, is_version_byte};
ghost use Rattle.tree_paths.specs.Places.{place_of, plain_path, flat_byte, flat_name};
ghost use Rattle.tree_paths.specs.Places.{versioned_path, rock_folder, own_path};

use rocks_text::{FilePath, Item, Kind, TreePath};
use rocks_version::RockKey;
use std::alloc::{AllocError, Global};

/// The plain path of an item: below `share/lua/5.4/`, `lib/lua/5.4/` or `bin/` (LuaRocks: file locations). The only
/// error is want of memory.
pub fn plain(alloc: Global, item: &Item) -> Result<TreePath, AllocError>
    ensures { IfOk result (λ path. path ≡ plain_path item.now) }
{
    let place = place_of(item.kind);
    let path = item.path.as_str();
    let text = format!(in alloc; "{place}{path}")?;
    TreePath::known(alloc, &text)
}

/// The versioned path of an item of a rock: the place of its kind, NAME_VERSION with each `-` and `.` as `_`, then `-`
/// and the item's path, as `share/lua/5.4/b_1_0_1-x.lua` (LuaRocks: file locations). The only error is want of memory.
pub fn versioned(alloc: Global, item: &Item, key: &RockKey) -> Result<TreePath, AllocError>
    ensures { IfOk result (λ path. path ≡ versioned_path item.now key.now) }
{
    let place = place_of(item.kind);
    let stem = flat_name(alloc, key)?;
    let path = item.path.as_str();
    let text = format!(in alloc; "{place}{stem}-{path}")?;
    TreePath::known(alloc, &text)
}

/// Where a rock's own file stands: in the rock's folder. The only error is want of memory.
pub fn own_path(alloc: Global, key: &RockKey, path: &FilePath) -> Result<TreePath, AllocError>
    ensures { IfOk result (λ whole. whole ≡ own_path key.now path.now) }
{
    let folder = rock_folder(alloc, key.name.as_str(), key.version.as_str())?;
    let path = path.as_str();
    let text = format!(in alloc; "{folder}{path}")?;
    TreePath::known(alloc, &text)
}

/// The folder of a rock's own files: `lib/luarocks/rocks-5.4/NAME/VERSION/` (LuaRocks: file locations). The only error
/// is want of memory.
pub fn rock_folder(alloc: Global, name: &str, version: &str) -> Result<String, AllocError>
    ensures { IfOk result (λ text. string_bytes text ≡ rock_folder name.now version.now) }
{
    format!(in alloc; "lib/luarocks/rocks-5.4/{name}/{version}/")
}

// The folder of a tree that a kind's files stand in.
fn place_of(kind: Kind) -> &'static str
    ensures { result.now ≡ place_of kind }
{
    match kind {
        Kind::Lua => "share/lua/5.4/",
        Kind::Lib => "lib/lua/5.4/",
        Kind::Bin => "bin/",
    }
}

fn flat_name(alloc: Global, key: &RockKey) -> Result<String, AllocError>
    ensures value { IfOk result (λ text. string_bytes text ≡ flat_name key.now) }
    ensures named { IsTrue (is_name key.now.name) }
    ensures of_version { IsTrue (is_version key.now.version) }
{
    let name = key.name.as_str();
    let version = key.version.as_str();
    let whole = format!(in alloc; "{name}_{version}")?;
    flattened(alloc, whole.as_bytes())
}

fn flattened(alloc: Global, text: &[u8]) -> Result<String, AllocError>
    requires { IsTrue (list_all is_version_byte text.now) }
    ensures { IfOk result (λ flat. string_bytes flat ≡ map flat_byte text.now) }
{
    let mut flat = String::new(alloc);
    for b in text {
        flat.push(char::from(flat_byte(*b)))?;
    }
    Ok(flat)
}

fn flat_byte(b: u8) -> u8
    ensures { result ≡ flat_byte b }
{
    if b == b'-' || b == b'.' { b'_' } else { b }
}
