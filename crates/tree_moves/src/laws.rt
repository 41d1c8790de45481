//! Laws of moves, as contracts of functions that do nothing.
ghost use Rattle.std.specs.Prelude.{◌≡◌, ◌≢◌, ℕ, List, None};
ghost use Rattle.std.specs.List.{Contains};
ghost use Rattle.std.specs.FinMap.{get};
ghost use Rattle.rocks_text.specs.Files.{Files};
ghost use Rattle.tree_moves.specs.Moves.{moved, AreApart};
ghost use Rattle.tree_moves.specs.declared.lists.Move.{Move as OneMove};

/// Moves that don't meet leave at each path that one goes to the file that it moved, at each that one comes from none, and
/// at each other what was there.
pub fn moved_files()
    ensures targets { (moves : List OneMove) (files : Files) (move : OneMove)
        → AreApart moves files → Contains moves move
        → get (moved moves files) move.to ≡ get files move.from }
    ensures sources { (moves : List OneMove) (files : Files) (move : OneMove)
        → AreApart moves files → Contains moves move → get (moved moves files) move.from ≡ None }
    ensures others { (moves : List OneMove) (files : Files) (path : List ℕ)
        → ((move : OneMove) → Contains moves move → (path ≢ move.to) × (path ≢ move.from))
        → get (moved moves files) path ≡ get files path }
{}
