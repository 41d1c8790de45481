//! What the table of keywords says. The function has an empty body; its contract is the law.

ghost use Rattle.std.specs.Prelude.{◌≡◌, ℕ, List, ◌↔◌, Some, IsTrue};
ghost use Rattle.lua_names.specs.declared.keyword.Keyword.{Keyword};
ghost use Rattle.lua_names.specs.Keywords.{keyword_bytes, keyword_of};
ghost use Rattle.lua_names.specs.Names.{is_word};

/// Bytes are read as a keyword exactly where they are its spelling, and each spelling has the form of a name.
pub fn keywords()
    ensures spelled { (word : List ℕ) (k : Keyword)
        → (keyword_of word ≡ Some k) ↔ (word ≡ keyword_bytes k) }
    ensures words { (k : Keyword) → IsTrue (is_word (keyword_bytes k)) }
{}
