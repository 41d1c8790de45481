//! Laws of what is served, as contracts of functions that do nothing.
ghost use Rattle.std.specs.Prelude.{◌≡◌, ℕ, List, Result, Some, IsSome};
ghost use Rattle.std.specs.List.{Contains};
ghost use Rattle.std.specs.FinMap.{get};
ghost use Rattle.rocks_text.specs.Files.{Files};
ghost use Rattle.rocks_text.specs.Paths.{joined};
ghost use Rattle.rocks_outside.specs.Shelf.{paths_below};
ghost use Rattle.rocks_reply.specs.declared.reply.Refusal.{Refusal};
ghost use Rattle.rocks_version.specs.declared.key.RockKey.{RockKey};
ghost use Rattle.rock_record.specs.declared.rock.Rock.{Rock};
ghost use Rattle.served_rocks.specs.Fetched.{IsFetched};
ghost use Rattle.served_rocks.specs.Search.{earliest_with};
ghost use Rattle.served_rocks.specs.declared.rockspecs.Origin.{Origin as Source};

/// Each file that a folder lists is there, and so is a path on the server that was found to have it.
pub fn listed_files()
    ensures below { (files : Files) (folder path : List ℕ)
        → Contains (paths_below folder files) path → IsSome (get files (joined folder path)) }
    ensures found { (servers : List Files) (files : Files) (path : List ℕ)
        → earliest_with path servers ≡ Some files → IsSome (get files path) }
{}

/// What the servers hold makes one rock of a key, or has one reason why not, and never both.
pub fn one_fetched()
    ensures { (origin : Source) (key : RockKey) (servers : List Files)
        (one other : Result Rock Refusal) → IsFetched origin key servers one
        → IsFetched origin key servers other → one ≡ other }
{}
