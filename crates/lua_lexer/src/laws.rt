//! What the definitions of tokens and faults say together. Each function has an empty body; its contract is
//! the law.

ghost use Rattle.std.specs.Prelude.{◌≡◌, ℕ, ◌⊎◌, List};
ghost use Rattle.lua_lexer.specs.declared.fault.LexFault.{LexFault};
ghost use Rattle.lua_lexer.specs.declared.token.Token.{Token};
ghost use Rattle.lua_lexer.specs.Faults.{HasFault};
ghost use Rattle.lua_lexer.specs.Laws.{Rises, EachStands};
ghost use Rattle.lua_lexer.specs.Spelling.{Spells};

/// A text spells at most one list of tokens.
pub fn one_list()
    ensures { (text : List ℕ) (some others : List Token)
        → Spells text some → Spells text others → some ≡ others }
{}

/// A text spells a list of tokens or has a fault, never both, and one fault only.
pub fn list_or_fault()
    ensures either { (text : List ℕ)
        → ((tokens : List Token) × Spells text tokens)
        ⊎ ((fault : LexFault) × HasFault text fault) }
    ensures not_both { (text : List ℕ) (tokens : List Token) (fault : LexFault)
        → Spells text tokens → HasFault text fault → ⊥ }
    ensures one_fault { (text : List ℕ) (fault other : LexFault)
        → HasFault text fault → HasFault text other → fault ≡ other }
{}

/// The places of tokens rise strictly, and at its place stands each token's spelling.
pub fn places()
    ensures rise { (text : List ℕ) (tokens : List Token) → Spells text tokens → Rises tokens }
    ensures stand { (text : List ℕ) (tokens : List Token)
        → Spells text tokens → EachStands text tokens }
{}
