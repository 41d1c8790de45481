ghost use Rattle.std.specs.Prelude.{◌≡◌, IfOk};

use crate::vocabulary::Symbol;
use lua_names::Keyword;
use rocks_bytes::Bytes;
use sqlite_items::Items;
use std::alloc::{AllocError, Global};
use std::marker::Model;

/// What a token is (Lua 5.4 manual, section 3.1).
#[derive(Debug, PartialEq, Eq, Drop)]
pub enum TokenKind {
    /// A name that is no keyword.
    Name(Bytes),
    /// One of the reserved words.
    Keyword(Keyword),
    /// One of the other symbols.
    Symbol(Symbol),
    /// What a quoted text or a long bracket stands for.
    Text(Bytes),
    /// An integer, at most 9,223,372,036,854,775,807.
    Int(u64),
    /// The end of the text.
    End,
}

/// A token, and the offset of its first byte.
#[derive(Debug, PartialEq, Eq, Drop)]
pub struct Token {
    pub place: u32,
    pub kind: TokenKind,
}

impl TokenKind {
    /// An equal value. The only error is want of memory.
    pub fn copy(&self, alloc: Global) -> Result<TokenKind, AllocError>
        ensures { IfOk result (λ copied. copied ≡ self.now) }
    {
        match self {
            TokenKind::Name(name) => Ok(TokenKind::Name(name.copy(alloc)?)),
            TokenKind::Keyword(keyword) => Ok(TokenKind::Keyword(*keyword)),
            TokenKind::Symbol(symbol) => Ok(TokenKind::Symbol(*symbol)),
            TokenKind::Text(text) => Ok(TokenKind::Text(text.copy(alloc)?)),
            TokenKind::Int(number) => Ok(TokenKind::Int(*number)),
            TokenKind::End => Ok(TokenKind::End),
        }
    }
}

impl Token {
    /// An equal value. The only error is want of memory.
    pub fn copy(&self, alloc: Global) -> Result<Token, AllocError>
        ensures { IfOk result (λ copied. copied ≡ self.now) }
    {
        Ok(Token {
            place: self.place,
            kind: self.kind.copy(alloc)?,
        })
    }
}

/// The tokens of a text in order, the last of them `End`: names are no keywords, texts have bytes, integers are
/// below 2 to the 63rd, and no place is above 8,388,608. Contracts see it as the list of its tokens.
#[derive(Debug, Drop)]
pub struct TokenList {
    items: Items<Token>,
}

impl Model for TokenList {
    ghost use Rattle.std.specs.Prelude.{List};
    ghost use Rattle.lua_lexer.specs.declared.token.Token.{Token};
    ghost use Rattle.lua_lexer.specs.TokenLists.{IsTokenList};

    ghost Value = { List Token };

    ghost view = { λ list. list.items };

    ghost invariant = { λ list. IsTokenList list.items };
}

impl TokenList {
    ghost use Rattle.lua_lexer.specs.TokenLists.{IsTokenList};

    /// The tokens in order.
    pub fn as_slice(&self) -> &[Token]
        ensures tokens { result.now ≡ self.now }
        ensures promised { IsTokenList self.now }
    {
        self.items.as_slice()
    }

    /// An equal value. The only error is want of memory.
    pub fn copy(&self, alloc: Global) -> Result<TokenList, AllocError>
        ensures { IfOk result (λ copied. copied ≡ self.now) }
    {
        let mut tokens = Vec::new(alloc);
        for token in self.items.as_slice() {
            tokens.push(token.copy(alloc)?)?;
        }
        Ok(TokenList::from_vec(tokens))
    }

    pub(crate) fn from_vec(tokens: Vec<Token>) -> TokenList
        requires { IsTokenList tokens.items }
        ensures { result ≡ tokens.items }
    {
        TokenList {
            items: Items::from_vec(tokens),
        }
    }
}
