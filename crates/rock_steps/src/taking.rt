ghost use Rattle.std.specs.Prelude.{◌≡◌, IfOk};
ghost use Rattle.std.specs.List.{find};
ghost use Rattle.std.specs.Option.{option_map};
ghost use Rattle.rocks_text.specs.Paths.{below};
ghost use Rattle.rock_steps.specs.Steps.{is_bad, is_passed, taken, taken_part, taken_steps};

use crate::folders::{below, is_in};
use crate::{Part, Source, Step};
use rocks_text::{FilePath, Item, Kind};
use std::alloc::{AllocError, Global};

/// The steps that take an unpacked rock's folder, for the paths of all its files and the file name of its rockspec:
/// files below `lua/`, `lib/` and `bin/` are deployed, and all others are the rock's own, but for the rockspec, which
/// was read, and a record that an earlier installation left, which is made anew (this project's own, after the layout
/// of LuaRocks' rocks). The only error is want of memory.
pub fn taken_steps(
    alloc: Global,
    rockspec: &str,
    listing: &[FilePath],
) -> Result<Vec<Step>, AllocError>
    ensures { IfOk result (λ steps. steps.items ≡ taken_steps rockspec.now listing.now) }
{
    let mut steps = Vec::new(alloc);
    for path in listing {
        if !is_passed(rockspec, path) {
            steps.push(taken(alloc, path)?)?;
        }
    }
    Ok(steps)
}

fn is_passed(rockspec: &str, path: &FilePath) -> bool
    ensures { result ≡ is_passed rockspec.now path.now }
{
    path.as_str() == rockspec || path.as_str() == "rock_manifest"
}

fn taken(alloc: Global, path: &FilePath) -> Result<Step, AllocError>
    ensures { IfOk result (λ step. step ≡ taken path.now) }
{
    Ok(Step::Read(Source {
        part: part_of(alloc, path)?,
        from: path.copy(alloc)?,
    }))
}

fn part_of(alloc: Global, path: &FilePath) -> Result<Part, AllocError>
    ensures { IfOk result (λ part. part ≡ taken_part path.now) }
{
    if let Some(item) = item_of(alloc, path, "lua", Kind::Lua)? {
        return Ok(Part::Item(item));
    }
    if let Some(item) = item_of(alloc, path, "lib", Kind::Lib)? {
        return Ok(Part::Item(item));
    }
    if let Some(item) = item_of(alloc, path, "bin", Kind::Bin)? {
        return Ok(Part::Item(item));
    }
    Ok(Part::Own(path.copy(alloc)?))
}

// The item that the file is, where it stands in the folder of this kind.
fn item_of(
    alloc: Global,
    path: &FilePath,
    folder: &str,
    kind: Kind,
) -> Result<Option<Item>, AllocError>
    ensures { IfOk result (λ item. item
        ≡ option_map (λ rest. record { kind = kind; path = rest }) (below folder.now path.now)) }
{
    match below(folder, path) {
        Some(rest) => Ok(Some(Item {
            kind,
            path: FilePath::known(alloc, rest)?,
        })),
        None => Ok(None),
    }
}

/// The first path of an unpacked rock's folder that stands below the place of its record or of its rockspec, where no
/// file can. It takes no memory.
pub fn first_bad<'a>(rockspec: &str, listing: &'a [FilePath]) -> Option<&'a FilePath>
    ensures { option_map (λ path. path.now) result ≡ find (is_bad rockspec.now) listing.now }
{
    listing.iter().find(|path| is_bad(rockspec, path))
}

fn is_bad(rockspec: &str, path: &FilePath) -> bool
    ensures { result ≡ is_bad rockspec.now path.now }
{
    is_in("rock_manifest", path) || is_in(rockspec, path)
}
