ghost use Rattle.std.specs.Prelude.{◌≡◌, IsTrue, IfOk, IfNone, IfSome, MatchResult};
ghost use Rattle.rocks_version.specs.Texts.{body, has_short_numbers, is_version, is_rock_version};
ghost use Rattle.rocks_version.specs.Texts.{revision};
ghost use Rattle.rocks_version.specs.Faults.{fault_of};

use crate::{VersionFault, text};
use rocks_bytes::Text;
use std::alloc::{AllocError, Global};
use std::marker::Model;

/// A version: 1 to 40 letters, digits, `.`, `-` and `_`, of which the first is a letter or digit, where no number
/// has more than 18 digits. Its revision, if it has one, is the number behind the last dash, where that ends it
/// (LuaRocks; the bytes and limits are this project's own).
#[derive(Debug, PartialEq, Eq, Drop)]
pub struct Version {
    text: Text,
}

impl Model for Version {
    ghost use Rattle.std.specs.Prelude.{List, ℕ, IsTrue};
    ghost use Rattle.rocks_version.specs.Texts.{is_version};

    ghost Value = { List ℕ };

    ghost view = { λ v. v.text };

    ghost invariant = { λ v. IsTrue (is_version v.text) };

    ghost inverse = { λ v. record { text = v } };
}

impl Version {
    /// The version that a text is, as it stands. It is tested before memory is taken.
    ///
    /// `BadVersion` where the text has not the form of a version, `NumberTooLong` where it has that form and a
    /// number in it is too long, and else `NoMemory` where memory runs out.
    #[tactic(auto, using(crate::proofs::FaultLemmas::version_if_none))]
    pub fn read(alloc: Global, text: &str) -> Result<Version, VersionFault>
        ensures version { IfNone (fault_of text.now) (MatchResult result
            (λ version. version ≡ text.now) (λ fault. fault ≡ VersionFault.NoMemory)) }
        ensures fault { IfSome (fault_of text.now) (λ fault. result ≡ Err fault) }
    {
        match text::fault_of(text.as_bytes()) {
            Some(fault) => Err(fault),
            None => Ok(Version {
                text: Text::from(String::from_str(alloc, text)?),
            }),
        }
    }

    /// The version, to be read.
    pub fn as_str(&self) -> &str
        ensures value { result.now ≡ self.now }
        ensures valid { IsTrue (is_version self.now) }
    {
        self.text.as_str()
    }

    /// The text before the revision and its dash, whose components `first` reads.
    #[tactic(auto, using(crate::proofs::Parts::version_body_short))]
    pub fn body(&self) -> &[u8]
        ensures value { result.now ≡ body self.now }
        ensures short { IsTrue (has_short_numbers result.now) }
    {
        text::body(self.as_str().as_bytes())
    }

    /// The revision, if the version has one.
    #[tactic(auto, using(crate::proofs::Parts::version_short))]
    pub fn revision(&self) -> Option<u64>
        ensures { result ≡ revision self.now }
    {
        text::revision(self.as_str().as_bytes())
    }

    /// An equal version. The only error is want of memory.
    pub fn copy(&self, alloc: Global) -> Result<Version, AllocError>
        ensures { IfOk result (λ copied. copied ≡ self.now) }
    {
        Ok(Version {
            text: self.text.copy(alloc)?,
        })
    }

    /// Whether a rock may have this version: letters, digits and dots, then a dash and a revision (LuaRocks). It
    /// takes no memory.
    pub fn is_rock_version(&self) -> bool
        ensures { result ≡ is_rock_version self.now }
    {
        text::is_rock_version(self.as_str().as_bytes())
    }
}
