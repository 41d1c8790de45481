ghost use Rattle.std.specs.Prelude.{List, ℕ, IfOk, MatchOption};
ghost use Rattle.twofold_paths.specs.Places.{IsTwofoldPath, IsLeastTwofoldPath};

use crate::Place;
use crate::search::least_taken;
use rocks_text::FilePath;
use std::alloc::{AllocError, Global};

/// Of some places, in any order, the least path at which one is in another's way: another place of its sort has the
/// path too, or stands at a folder of it. None where there is none (this project's own). The only error is want of
/// memory.
pub fn least_twofold(alloc: Global, places: Vec<Place>) -> Result<Option<FilePath>, AllocError>
    ensures { IfOk result (λ found. MatchOption found
        ((path : List ℕ) → ¬ IsTwofoldPath places.items path)
        (IsLeastTwofoldPath places.items)) }
{
    let mut places = places;
    places.sort()?;
    match least_taken(&places) {
        Some(path) => Ok(Some(path.copy(alloc)?)),
        None => Ok(None),
    }
}
