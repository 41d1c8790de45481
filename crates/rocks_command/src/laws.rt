//! Laws of the words, as contracts of functions that do nothing.
ghost use Rattle.std.specs.Prelude.{◌≡◌, ◌↔◌, ℕ, List, Ok};
ghost use Rattle.rocks_command.specs.Words.{AreRooted, Rooted, rooted};

/// Words have a tree, servers and the words of a command exactly where they are written as these say.
pub fn words_are_rooted()
    ensures { (words : List (List ℕ)) (parts : Rooted)
        → (rooted words ≡ Ok parts) ↔ AreRooted words parts }
{}
