ghost use Rattle.std.specs.Prelude.{◌≡◌};
ghost use Rattle.lua_names.specs.Keywords.{keyword_of};

/// The keywords (Lua 5.4 manual, section 3.1).
#[derive(Clone, Copy, Debug, PartialEq, Eq)]
pub enum Keyword {
    /// `and`
    And,
    /// `break`
    Break,
    /// `do`
    Do,
    /// `else`
    Else,
    /// `elseif`
    Elseif,
    /// `end`
    End,
    /// `false`
    False,
    /// `for`
    For,
    /// `function`
    Function,
    /// `goto`
    Goto,
    /// `if`
    If,
    /// `in`
    In,
    /// `local`
    Local,
    /// `nil`
    Nil,
    /// `not`
    Not,
    /// `or`
    Or,
    /// `repeat`
    Repeat,
    /// `return`
    Return,
    /// `then`
    Then,
    /// `true`
    True,
    /// `until`
    Until,
    /// `while`
    While,
}

/// The keyword that the bytes spell, if they spell one (Lua 5.4 manual, section 3.1).
#[tactic(auto, unfolding(crate::specs::Keywords::keyword_of))]
pub fn keyword_of(word: &[u8]) -> Option<Keyword>
    ensures { result ≡ keyword_of word.now }
{
    match word {
        b"and" => Some(Keyword::And),
        b"break" => Some(Keyword::Break),
        b"do" => Some(Keyword::Do),
        b"else" => Some(Keyword::Else),
        b"elseif" => Some(Keyword::Elseif),
        b"end" => Some(Keyword::End),
        b"false" => Some(Keyword::False),
        b"for" => Some(Keyword::For),
        b"function" => Some(Keyword::Function),
        b"goto" => Some(Keyword::Goto),
        b"if" => Some(Keyword::If),
        b"in" => Some(Keyword::In),
        b"local" => Some(Keyword::Local),
        b"nil" => Some(Keyword::Nil),
        b"not" => Some(Keyword::Not),
        b"or" => Some(Keyword::Or),
        b"repeat" => Some(Keyword::Repeat),
        b"return" => Some(Keyword::Return),
        b"then" => Some(Keyword::Then),
        b"true" => Some(Keyword::True),
        b"until" => Some(Keyword::Until),
        b"while" => Some(Keyword::While),
        _ => None,
    }
}
