//! Laws of meanings, as contracts of functions that do nothing.
ghost use Rattle.std.specs.Prelude.{◌≡◌, ◌++◌, codes, IfOk, IsTrue};
ghost use Rattle.std.specs.Result.{result_ok};
ghost use Rattle.build_targets.specs.Meanings.{is_path, meaning_at};
ghost use Rattle.build_targets.specs.Places.{path_of};

use crate::meanings::Listing;
use lua_value::Key;

/// What an entry means comes from a path and stands at a path, which begins with `conf/` for a configuration file.
pub fn targets_are_paths(listing: Listing, key: &Key, file: &[u8])
    ensures from { IfOk (meaning_at listing key.now file.now)
        (λ target. IsTrue (is_path target.from)) }
    ensures to { IfOk (meaning_at listing key.now file.now)
        (λ target. IsTrue (is_path (path_of target.to))) }
{}

/// A file that is a path has the same target with `./` before it.
pub fn dot_slash_goes(listing: Listing, key: &Key, file: &[u8])
    requires { IsTrue (is_path file.now) }
    ensures { result_ok (meaning_at listing key.now (codes "./" ++ file.now))
        ≡ result_ok (meaning_at listing key.now file.now) }
{}
