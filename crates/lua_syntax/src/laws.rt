//! Laws of chunks, as contracts of functions that do nothing.
ghost use Rattle.std.specs.Prelude.{◌≡◌, ◌⊎◌, ℕ};
ghost use Rattle.lua_syntax.specs.declared.fault.SyntaxFault.{SyntaxFault};
ghost use Rattle.lua_syntax.specs.declared.tree.LuaChunk.{LuaChunk};
ghost use Rattle.lua_syntax.specs.Chunks.{Derives};
ghost use Rattle.lua_syntax.specs.Faults.{HasFault};
ghost use Rattle.lua_syntax.specs.Places.{IsPlaceIn, IsPlaceOf};

use lua_lexer::TokenList;

/// A list of tokens derives one chunk at most.
pub fn one_chunk(tokens: &TokenList)
    ensures { (one other : LuaChunk) → Derives tokens.now one → Derives tokens.now other
        → one ≡ other }
{}

/// A list of tokens has one fault at most.
pub fn one_fault(tokens: &TokenList)
    ensures { (one other : SyntaxFault) → HasFault tokens.now one → HasFault tokens.now other
        → one ≡ other }
{}

/// A list of tokens that derives a chunk has no fault.
pub fn chunk_without_fault(tokens: &TokenList)
    ensures { (chunk : LuaChunk) (fault : SyntaxFault) → Derives tokens.now chunk
        → HasFault tokens.now fault → ⊥ }
{}

/// A list of tokens derives a chunk or has a fault.
pub fn chunk_or_fault(tokens: &TokenList)
    ensures { ((chunk : LuaChunk) × Derives tokens.now chunk)
        ⊎ ((fault : SyntaxFault) × HasFault tokens.now fault) }
{
    let _items = tokens.as_slice();
}

/// Every place in a chunk is the place of one of its tokens.
pub fn places(tokens: &TokenList)
    ensures { (chunk : LuaChunk) (place : ℕ) → Derives tokens.now chunk → IsPlaceIn chunk place
        → IsPlaceOf tokens.now place }
{}
