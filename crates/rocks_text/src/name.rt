ghost use Rattle.std.specs.Prelude.{◌≡◌, ◌≢◌, ◌↔◌, false, IsTrue, IfOk, IsErrOf, codes};
ghost use Rattle.std.specs.List.{list_all};
ghost use Rattle.std.specs.Char.{to_ascii_lowercase};
ghost use Rattle.std.specs.Str.{bytes_eq};
ghost use Rattle.rocks_text.specs.Texts.{is_name, is_name_byte, lowered};

use crate::TextFault;
use rocks_bytes::Text;
use std::alloc::{AllocError, Global};
use std::marker::Model;

/// The longest name, in bytes.
const LONGEST_NAME: usize = 60;

/// The name of the tree's own file beside the folders of the rocks, which no package may have.
const MANIFEST: &str = "manifest";

/// The name of a package: 1 to 60 bytes of `a-z`, `0-9`, `_`, `-` and `.`, of which the first is a letter or
/// digit, and not `manifest`. Names are ordered by their bytes (this project's own).
#[derive(Debug, PartialEq, Eq, PartialOrd, Ord, Drop)]
pub struct Name {
    text: Text,
}

impl Model for Name {
    ghost use Rattle.std.specs.Prelude.{List, ℕ, IsTrue};
    ghost use Rattle.rocks_text.specs.Texts.{is_name};

    ghost Value = { List ℕ };

    ghost view = { λ n. n.text };

    ghost invariant = { λ n. IsTrue (is_name n.text) };

    ghost inverse = { λ v. record { text = v } };
}

impl Name {
    /// The name that a text stands for: the text with `A-Z` in lower case.
    ///
    /// `BadName` exactly where that is no name, and else `NoMemory` where memory runs out.
    pub fn from_text(alloc: Global, text: &str) -> Result<Name, TextFault>
        ensures value { IfOk result (λ name. name ≡ lowered text.now) }
        ensures bad { IsErrOf result TextFault.BadName ↔ (is_name (lowered text.now) ≡ false) }
        ensures no_path { result ≢ Err TextFault.BadPath }
    {
        if !lowers_to_name(text) {
            return Err(TextFault::BadName);
        }
        Ok(Name {
            text: Text::from(text.to_ascii_lowercase(alloc)?),
        })
    }

    /// The name, to be read.
    pub fn as_str(&self) -> &str
        ensures value { result.now ≡ self.now }
        ensures valid { IsTrue (is_name self.now) }
    {
        self.text.as_str()
    }

    /// An equal name. The only error is want of memory.
    pub fn copy(&self, alloc: Global) -> Result<Name, AllocError>
        ensures { IfOk result (λ copied. copied ≡ self.now) }
    {
        Ok(Name {
            text: self.text.copy(alloc)?,
        })
    }
}

// Whether the text is a name once it is put into lower case. It takes no memory.
fn lowers_to_name(text: &str) -> bool
    ensures { result ≡ is_name (lowered text.now) }
{
    let bytes = text.as_bytes();
    !bytes.is_empty()
        && bytes.len() <= LONGEST_NAME
        && bytes[0].is_ascii_alphanumeric()
        && lower_to_name_bytes(bytes)
        && !lowers_to_manifest(text)
}

fn lower_to_name_bytes(text: &[u8]) -> bool
    ensures { result ≡ list_all (λ b. is_name_byte (to_ascii_lowercase b)) text.now }
{
    text.iter().all(|b| lowers_to_name_byte(*b))
}

fn lowers_to_name_byte(b: u8) -> bool
    ensures { result ≡ is_name_byte (to_ascii_lowercase b) }
{
    is_name_byte(b.to_ascii_lowercase())
}

fn lowers_to_manifest(text: &str) -> bool
    ensures { result ≡ bytes_eq (lowered text.now) (codes "manifest") }
{
    text.eq_ignore_ascii_case(MANIFEST)
}

fn is_name_byte(b: u8) -> bool
    ensures { result ≡ is_name_byte b }
{
    b.is_ascii_lowercase() || b.is_ascii_digit() || b == b'_' || b == b'-' || b == b'.'
}
