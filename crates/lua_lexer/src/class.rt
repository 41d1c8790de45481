ghost use Rattle.std.specs.Prelude.{◌≡◌};
ghost use Rattle.std.specs.List.{list_all};
ghost use Rattle.lua_names.specs.Names.{is_digit, is_name_start, is_name_byte};
ghost use Rattle.lua_lexer.specs.Alphabet.{is_space, is_line_break, is_numeral_byte};
ghost use Rattle.lua_lexer.specs.Alphabet.{is_hexadecimal, is_quote, digit_of};
ghost use Rattle.lua_lexer.specs.Reading.{holds, run, after_run};

use lua_names::is_name_byte;

/// Sorts of bytes that tokens and the gaps between them consist of.
#[derive(Clone, Copy, Debug, PartialEq, Eq)]
pub enum Class {
    Space,
    Digit,
    Hexadecimal,
    /// Letters, digits and `_`.
    Name,
    /// What follows the first byte of a numeral: letters, digits, `_` and `.`.
    Numeral,
    /// The `=` of a long bracket.
    Equals,
    /// All but the bytes of a line break.
    Line,
}

pub fn is_space(byte: u8) -> bool
    ensures { result ≡ is_space byte }
{
    matches!(byte, b'\t'..=b'\r' | b' ')
}

pub fn is_line_break(byte: u8) -> bool
    ensures { result ≡ is_line_break byte }
{
    byte == b'\n' || byte == b'\r'
}

pub fn is_digit(byte: u8) -> bool
    ensures { result ≡ is_digit byte }
{
    byte >= b'0' && byte <= b'9'
}

pub fn is_quote(byte: u8) -> bool
    ensures { result ≡ is_quote byte }
{
    byte == b'"' || byte == b'\''
}

/// The value of a decimal or hexadecimal digit.
pub fn digit_of(byte: u8) -> Option<u8>
    ensures { result ≡ digit_of byte }
{
    if byte >= b'0' && byte <= b'9' {
        Some(byte - b'0')
    } else if byte >= b'A' && byte <= b'F' {
        Some(byte - b'A' + 10)
    } else if byte >= b'a' && byte <= b'f' {
        Some(byte - b'a' + 10)
    } else {
        None
    }
}

impl Class {
    pub fn holds(self, byte: u8) -> bool
        ensures { result ≡ holds self byte }
    {
        match self {
            Class::Space => is_space(byte),
            Class::Digit => is_digit(byte),
            Class::Hexadecimal => digit_of(byte).is_some(),
            Class::Name => is_name_byte(byte),
            Class::Numeral => is_name_byte(byte) || byte == b'.',
            Class::Equals => byte == b'=',
            Class::Line => !is_line_break(byte),
        }
    }

    /// The longest front of the bytes that is of this class, and the bytes after it.
    pub fn split(self, bytes: &[u8]) -> (&[u8], &[u8])
        ensures front { result.0.now ≡ run (holds self) bytes.now }
        ensures rest { result.1.now ≡ after_run (holds self) bytes.now }
    {
        let mut taken = 0;
        while taken < bytes.len() && self.holds(bytes[taken]) {
            taken += 1;
        }
        bytes.split_at(taken)
    }

    pub fn holds_all(self, bytes: &[u8]) -> bool
        ensures { result ≡ list_all (holds self) bytes.now }
    {
        bytes.iter().all(|byte| self.holds(*byte))
    }
}
