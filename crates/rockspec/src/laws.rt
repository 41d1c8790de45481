//! Laws of rockspecs, as contracts of functions that do nothing.
ghost use Rattle.std.specs.Prelude.{◌≡◌, ℕ, List, Result, IsTrue};
ghost use Rattle.rocks_text.specs.Texts.{is_name};
ghost use Rattle.rocks_version.specs.Texts.{is_rock_version};
ghost use Rattle.rockspec.specs.declared.fault.SpecFault.{SpecFault as Fault};
ghost use Rattle.rockspec.specs.declared.read.Rockspec.{Rockspec as Whole};
ghost use Rattle.rockspec.specs.Specs.{HasSpec, IsSpec};

/// Bytes are one rockspec, or have one first fault, and never both.
pub fn one_spec()
    ensures { (bytes : List ℕ) (one other : Result Whole Fault) → HasSpec bytes one
        → HasSpec bytes other → one ≡ other }
{}

/// The name of a rockspec is a name, in lower case, and its version one that a rock may have.
pub fn names_and_versions()
    ensures name { (bytes : List ℕ) (rockspec : Whole) → IsSpec bytes rockspec
        → IsTrue (is_name rockspec.key.name) }
    ensures version { (bytes : List ℕ) (rockspec : Whole) → IsSpec bytes rockspec
        → IsTrue (is_rock_version rockspec.key.version) }
{}
