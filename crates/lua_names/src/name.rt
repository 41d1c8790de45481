ghost use Rattle.std.specs.Prelude.{◌≡◌};
ghost use Rattle.std.specs.List.{list_all};
ghost use Rattle.lua_names.specs.Names.{is_name, is_name_byte, is_name_start, is_word};

use crate::keyword::keyword_of;

/// Whether a name may begin with the byte: a letter or `_` (Lua 5.4 manual, section 3.1).
pub fn is_name_start(byte: u8) -> bool
    ensures { result ≡ is_name_start byte }
{
    matches!(byte, b'A'..=b'Z' | b'a'..=b'z' | b'_')
}

/// Whether the byte may stand in a name: a letter, a digit or `_` (Lua 5.4 manual, section 3.1).
pub fn is_name_byte(byte: u8) -> bool
    ensures { result ≡ is_name_byte byte }
{
    is_name_start(byte) || matches!(byte, b'0'..=b'9')
}

/// Whether the bytes are a name: letters, digits and `_`, not beginning with a digit, and no keyword
/// (Lua 5.4 manual, section 3.1).
pub fn is_name(bytes: &[u8]) -> bool
    ensures { result ≡ is_name bytes.now }
{
    is_word(bytes) && keyword_of(bytes).is_none()
}

fn is_word(bytes: &[u8]) -> bool
    ensures { result ≡ is_word bytes.now }
{
    match bytes.split_first() {
        Some((first, rest)) => is_name_start(*first) && are_name_bytes(rest),
        None => false,
    }
}

fn are_name_bytes(bytes: &[u8]) -> bool
    ensures { result ≡ list_all is_name_byte bytes.now }
{
    bytes.iter().all(|byte| is_name_byte(*byte))
}
