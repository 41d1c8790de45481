ghost use Rattle.std.specs.Prelude.{◌≡◌, ◌≢◌, ◌↔◌, false, IsTrue, IfOk, IfSome, IsErrOf};
ghost use Rattle.std.specs.List.{list_all};
ghost use Rattle.std.specs.Option.{option_map};
ghost use Rattle.rocks_text.specs.Paths.{joined, below};
ghost use Rattle.rocks_text.specs.Texts.{is_file_path, is_tree_path, is_path};
ghost use Rattle.rocks_text.specs.Texts.{is_part, is_part_byte};

use crate::TextFault;
use rocks_bytes::Text;
use std::alloc::{AllocError, Global};
use std::marker::Model;

/// The longest part of a path on a server, in bytes.
const FILE_PART: usize = 150;

/// The longest path on a server, in bytes.
const FILE_PATH: usize = 1024;

/// The longest part of a path in a tree, in bytes.
const TREE_PART: usize = 255;

/// The longest path in a tree, in bytes.
pub const TREE_PATH: usize = 1200;

/// A relative path within a rock or a server: parts of 1 to 150 bytes joined by `/`, at most 1,024 bytes. A part is
/// not `.` or `..` and has no `\`, no byte below 32 and not 127. Paths are ordered by their bytes (this project's own).
#[derive(Debug, PartialEq, Eq, PartialOrd, Ord, Drop)]
pub struct FilePath {
    text: Text,
}

impl Model for FilePath {
    ghost use Rattle.std.specs.Prelude.{List, ℕ, IsTrue};
    ghost use Rattle.rocks_text.specs.Texts.{is_file_path};

    ghost Value = { List ℕ };

    ghost view = { λ p. p.text };

    ghost invariant = { λ p. IsTrue (is_file_path p.text) };

    ghost inverse = { λ v. record { text = v } };
}

impl FilePath {
    /// The path that a text is.
    ///
    /// `BadPath` exactly where it is none, and else `NoMemory` where memory runs out.
    pub fn from_text(alloc: Global, text: &str) -> Result<FilePath, TextFault>
        ensures value { IfOk result (λ path. path ≡ text.now) }
        ensures bad { IsErrOf result TextFault.BadPath ↔ (is_file_path text.now ≡ false) }
        ensures no_name { result ≢ Err TextFault.BadName }
    {
        if !is_path(FILE_PART, FILE_PATH, text.as_bytes()) {
            return Err(TextFault::BadPath);
        }
        Ok(FilePath {
            text: Text::from(String::from_str(alloc, text)?),
        })
    }

    /// The path that a text is known to be. The only error is want of memory.
    pub fn known(alloc: Global, text: &str) -> Result<FilePath, AllocError>
        requires { IsTrue (is_file_path text.now) }
        ensures { IfOk result (λ path. path ≡ text.now) }
    {
        Ok(FilePath {
            text: Text::from(String::from_str(alloc, text)?),
        })
    }

    /// The path of what stands at a path in a folder: `FOLDER/PATH`. The only error is want of memory.
    pub fn joined(alloc: Global, folder: &FilePath, path: &str) -> Result<FilePath, AllocError>
        requires { IsTrue (is_file_path (joined folder.now path.now)) }
        ensures { IfOk result (λ whole. whole ≡ joined folder.now path.now) }
    {
        let folder = folder.as_str();
        let whole = format!(in alloc; "{folder}/{path}")?;
        FilePath::known(alloc, &whole)
    }

    /// The path from a folder on, or `None` exactly where this path isn't below the folder. What follows a folder and
    /// its slash is a path itself.
    pub fn below(&self, folder: &FilePath) -> Option<&str>
        ensures rest { option_map (λ rest. rest.now) result ≡ below folder.now self.now }
        ensures valid { IfSome result (λ rest. IsTrue (is_file_path rest.now)) }
        ensures whole { IsTrue (is_file_path self.now) }
    {
        self.as_str()
            .strip_prefix(folder.as_str())?
            .strip_prefix('/')
    }

    /// The path, to be read.
    pub fn as_str(&self) -> &str
        ensures value { result.now ≡ self.now }
        ensures valid { IsTrue (is_file_path self.now) }
    {
        self.text.as_str()
    }

    /// An equal path. The only error is want of memory.
    pub fn copy(&self, alloc: Global) -> Result<FilePath, AllocError>
        ensures { IfOk result (λ copied. copied ≡ self.now) }
    {
        Ok(FilePath {
            text: self.text.copy(alloc)?,
        })
    }
}

/// A relative path within a tree: as a `FilePath`, with parts of up to 255 bytes and 1,200 bytes in all.
#[derive(Debug, PartialEq, Eq, PartialOrd, Ord, Drop)]
pub struct TreePath {
    text: Text,
}

impl Model for TreePath {
    ghost use Rattle.std.specs.Prelude.{List, ℕ, IsTrue};
    ghost use Rattle.rocks_text.specs.Texts.{is_tree_path};

    ghost Value = { List ℕ };

    ghost view = { λ p. p.text };

    ghost invariant = { λ p. IsTrue (is_tree_path p.text) };

    ghost inverse = { λ v. record { text = v } };
}

impl TreePath {
    /// The path that a text is.
    ///
    /// `BadPath` exactly where it is none, and else `NoMemory` where memory runs out.
    pub fn from_text(alloc: Global, text: &str) -> Result<TreePath, TextFault>
        ensures value { IfOk result (λ path. path ≡ text.now) }
        ensures bad { IsErrOf result TextFault.BadPath ↔ (is_tree_path text.now ≡ false) }
        ensures no_name { result ≢ Err TextFault.BadName }
    {
        if !is_path(TREE_PART, TREE_PATH, text.as_bytes()) {
            return Err(TextFault::BadPath);
        }
        Ok(TreePath {
            text: Text::from(String::from_str(alloc, text)?),
        })
    }

    /// The path that a text is known to be. The only error is want of memory.
    pub fn known(alloc: Global, text: &str) -> Result<TreePath, AllocError>
        requires { IsTrue (is_tree_path text.now) }
        ensures { IfOk result (λ path. path ≡ text.now) }
    {
        Ok(TreePath {
            text: Text::from(String::from_str(alloc, text)?),
        })
    }

    /// The path, to be read.
    pub fn as_str(&self) -> &str
        ensures value { result.now ≡ self.now }
        ensures valid { IsTrue (is_tree_path self.now) }
    {
        self.text.as_str()
    }

    /// An equal path. The only error is want of memory.
    pub fn copy(&self, alloc: Global) -> Result<TreePath, AllocError>
        ensures { IfOk result (λ copied. copied ≡ self.now) }
    {
        Ok(TreePath {
            text: self.text.copy(alloc)?,
        })
    }
}

fn is_path(longest_part: usize, longest: usize, text: &[u8]) -> bool
    ensures { result ≡ is_path longest_part longest text.now }
{
    text.len() <= longest
        && text
            .split(|b| *b == b'/')
            .all(|part| is_part(longest_part, part))
}

fn is_part(longest: usize, part: &[u8]) -> bool
    ensures { result ≡ is_part longest part.now }
{
    !part.is_empty()
        && part.len() <= longest
        && are_part_bytes(part)
        && part != b".".as_slice()
        && part != b"..".as_slice()
}

fn are_part_bytes(part: &[u8]) -> bool
    ensures { result ≡ list_all is_part_byte part.now }
{
    part.iter().all(|b| is_part_byte(*b))
}

fn is_part_byte(b: u8) -> bool
    ensures { result ≡ is_part_byte b }
{
    b >= 32 && b != 127 && b != b'\\'
}
