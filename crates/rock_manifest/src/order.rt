ghost use Rattle.std.specs.Prelude.{◌↔◌, IsTrue};
ghost use Rattle.rock_manifest.specs.Records.{AreItemsInOrder, ArePathsInOrder};

use crate::Record;
use rocks_text::{FilePath, Item};

/// Whether items and paths stand in order, each once. It takes no memory.
pub fn is_in_order(whole: &Record) -> bool
    ensures { IsTrue result ↔ (AreItemsInOrder whole.now.items × ArePathsInOrder whole.now.own) }
{
    are_items_in_order(whole.items.as_slice()) && are_files_in_order(whole.own.as_slice())
}

fn are_items_in_order(items: &[(Item, [u8; 16])]) -> bool
    ensures { IsTrue result ↔ AreItemsInOrder items.now }
{
    items.is_sorted_by(|file, next| file.0 < next.0)
}

fn are_files_in_order(own: &[(FilePath, [u8; 16])]) -> bool
    ensures { IsTrue result ↔ ArePathsInOrder own.now }
{
    own.is_sorted_by(|file, next| file.0 < next.0)
}
