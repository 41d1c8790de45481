// What rocks need.
ghost use Rattle.std.specs.Prelude.{◌≡◌, ◌∷◌, [], List, map, IfOk, IfSome, Some};
ghost use Rattle.std.specs.List.{All, flat_map};
ghost use Rattle.manifest_text.specs.Views.{IsRockKey, IsWanted};
ghost use Rattle.manifest_text.specs.declared.view.ViewRock.{ViewRock as WholeRock};
ghost use Rattle.rocks_constraint.specs.Wanted.{Wanted};
ghost use Rattle.rocks_version.specs.declared.key.RockKey.{RockKey as WholeKey};
ghost use Rattle.tree_manifest.specs.Forms.{need_texts, rock_group};
ghost use Rattle.tree_manifest.specs.Found.{AreRocks};

use crate::ViewRock;
use crate::groups::Group;
use crate::keys::{dependency, rock_key, rock_of};
use crate::quoted::{key_in, text_in};
use rocks_bytes::Bytes;
use rocks_constraint::Dependency;
use rocks_version::RockKey;
use sqlite_items::Items;
use std::alloc::{AllocError, Global};

/// The rocks that are gathered, each with what it needs. The only error is want of memory.
pub fn rocks(alloc: Global, groups: &[Group]) -> Result<Vec<ViewRock>, AllocError>
    ensures valid { IfOk result (λ found. AreRocks found.items) }
    ensures known { IfOk result (λ found. (rocks : List WholeRock) → AreRocks rocks
        → groups.now ≡ map rock_group rocks → found.items ≡ rocks) }
{
    let mut found = Vec::new(alloc);
    for group in groups {
        let name = key_in(alloc, group.outer.as_slice())?;
        let version = key_in(alloc, group.head.as_slice())?;
        let dependencies = needs(alloc, group.texts.as_slice())?;
        if let Some(key) = rock_of(alloc, &name, &version)? {
            found.push(ViewRock { key, dependencies })?;
        }
    }
    Ok(found)
}

// The texts stand in pairs, of the rock that meets a dependency and of the dependency.
fn needs(alloc: Global, texts: &[Bytes]) -> Result<Items<(Dependency, RockKey)>, AllocError>
    ensures valid { IfOk result (λ found. All (λ need. IsWanted need.0 × IsRockKey need.1) found) }
    ensures known { IfOk result (λ found. (needs : List (Wanted × WholeKey))
        → All (λ need. IsWanted need.0 × IsRockKey need.1) needs
        → texts.now ≡ flat_map need_texts needs → found ≡ needs) }
{
    let mut found = Items::new(alloc);
    for at in 0..texts.len() / 2 {
        let met = texts[2 * at].as_slice();
        let needs = texts[2 * at + 1].as_slice();
        if let Some(need) = need(alloc, met, needs)? {
            found.push(need)?;
        }
    }
    Ok(found)
}

fn need(
    alloc: Global,
    met: &[u8],
    needs: &[u8],
) -> Result<Option<(Dependency, RockKey)>, AllocError>
    ensures valid { IfOk result (λ found. IfSome found
        (λ need. IsWanted need.0 × IsRockKey need.1)) }
    ensures known { IfOk result (λ found. (need : Wanted × WholeKey)
        → IsWanted need.0 × IsRockKey need.1
        → met.now ∷ needs.now ∷ [] ≡ need_texts need → found ≡ Some need) }
{
    let Some(met) = rock_key(alloc, &text_in(alloc, 6, met)?)? else {
        return Ok(None);
    };
    let Some(wanted) = dependency(alloc, &text_in(alloc, 8, needs)?)? else {
        return Ok(None);
    };
    Ok(Some((wanted, met)))
}
