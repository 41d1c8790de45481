// Whether what was read stands in order.
ghost use Rattle.std.specs.Prelude.{◌≢◌, ◌↔◌, [], map, IsTrue};
ghost use Rattle.std.specs.List.{All};
ghost use Rattle.std.specs.List.Sorted.{IsStrictlySortedBy};
ghost use Rattle.rocks_text.specs.Files.{path_cmp};
ghost use Rattle.rocks_version.specs.Keys.{listing_cmp};
ghost use Rattle.tree_manifest.specs.Orders.{IsInOrder, AreInOrder};

use crate::{ManifestView, ViewRock};
use rocks_text::FilePath;
use rocks_version::{RockKey, before};
use sqlite_items::Items;

/// Whether item paths are in order, each once and with some rocks, and rocks are listed in order, each once. It takes
/// no memory.
pub fn is_in_order(whole: &ManifestView) -> bool
    ensures { IsTrue result ↔ IsInOrder whole.now }
{
    are_provided(whole.commands.as_slice())
        && are_provided(whole.libs.as_slice())
        && are_provided(whole.modules.as_slice())
        && are_listed(whole.rocks.as_slice())
}

fn are_provided(paths: &[(FilePath, Items<RockKey>)]) -> bool
    ensures { IsTrue result ↔ AreInOrder paths.now }
{
    rise(paths) && have_rocks(paths)
}

fn rise(paths: &[(FilePath, Items<RockKey>)]) -> bool
    ensures { IsTrue result ↔ IsStrictlySortedBy path_cmp (map (λ path. path.0) paths.now) }
{
    paths.is_sorted_by(|path, next| path.0 < next.0)
}

fn have_rocks(paths: &[(FilePath, Items<RockKey>)]) -> bool
    ensures { IsTrue result ↔ All (λ path. path.1 ≢ []) paths.now }
{
    paths.iter().all(|path| !path.1.is_empty())
}

fn are_listed(rocks: &[ViewRock]) -> bool
    ensures { IsTrue result ↔ IsStrictlySortedBy listing_cmp (map (λ rock. rock.key) rocks.now) }
{
    rocks.is_sorted_by(|rock, next| before(&rock.key, &next.key))
}
