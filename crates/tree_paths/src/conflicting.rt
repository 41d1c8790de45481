ghost use Rattle.std.specs.Prelude.{◌↔◌, IsTrue};
ghost use Rattle.rocks_text.specs.Paths.{IsFolderOf};
ghost use Rattle.tree_paths.specs.Conflicts.{Conflicts};

use rocks_text::TreePath;

/// Whether two paths can't be those of two files of one tree: they are equal, or one is that of a folder of the
/// other. It takes no memory (this project's own).
pub fn conflict(left: &TreePath, right: &TreePath) -> bool
    ensures { IsTrue result ↔ Conflicts left.now right.now }
{
    left == right || is_folder_of(left, right) || is_folder_of(right, left)
}

fn is_folder_of(folder: &TreePath, path: &TreePath) -> bool
    ensures { IsTrue result ↔ IsFolderOf folder.now path.now }
{
    match path.as_str().strip_prefix(folder.as_str()) {
        Some(rest) => rest.starts_with('/'),
        None => false,
    }
}
