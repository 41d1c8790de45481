ghost use Rattle.std.specs.Prelude.{◌≡◌, ◌↔◌, not, IsTrue};
ghost use Rattle.std.specs.List.{list_all};
ghost use Rattle.std.specs.Ordering.{is_eq};
ghost use Rattle.rocks_text.specs.Files.{path_cmp};
ghost use Rattle.rock_manifest.specs.Records.{AreItemsInOrder, ArePathsInOrder};

use rocks_bytes::Bytes;
use rocks_text::{FilePath, Item};

/// Whether items stand in order, each once. It takes no memory.
pub fn are_items_in_order(items: &[(Item, Bytes)]) -> bool
    ensures { IsTrue result ↔ AreItemsInOrder items.now }
{
    items.is_sorted_by(|file, next| file.0 < next.0)
}

/// Whether paths stand in order, each once. It takes no memory.
pub fn are_files_in_order(own: &[(FilePath, Bytes)]) -> bool
    ensures { IsTrue result ↔ ArePathsInOrder own.now }
{
    own.is_sorted_by(|file, next| file.0 < next.0)
}

/// Whether a path is none of a list's. It takes no memory.
pub fn is_apart(path: &FilePath, own: &[(FilePath, Bytes)]) -> bool
    ensures { result ≡ list_all (λ file. not (is_eq (path_cmp file.0 path.now))) own.now }
{
    own.iter().all(|file| file.0 != *path)
}
