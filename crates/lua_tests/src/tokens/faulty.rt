//! Texts that spell no tokens, with their faults.

use crate::tokens::first_accepted;
use lua_lexer::LexFault;
use std::alloc::Global;

const BAD_BYTES_1: &[(&[u8], LexFault)] = &[
    (b"\x00", LexFault::BadByte { place: 0 }),
    (b"a \x7f", LexFault::BadByte { place: 2 }),
    (b"\xff", LexFault::BadByte { place: 0 }),
    (b"\xef\xbb\xbfa", LexFault::BadByte { place: 0 }),
    (b"a!", LexFault::BadByte { place: 1 }),
    (b"a @", LexFault::BadByte { place: 2 }),
    (b"$ ? ` \\", LexFault::BadByte { place: 0 }),
    (b"x \\n", LexFault::BadByte { place: 2 }),
    (b"\x08", LexFault::BadByte { place: 0 }),
];

pub fn bad_bytes_1_accepted(alloc: Global) -> Option<usize> {
    first_accepted(alloc, BAD_BYTES_1)
}

const BAD_BYTES_2: &[(&[u8], LexFault)] = &[
    (b"\x0e", LexFault::BadByte { place: 0 }),
    (b"[=", LexFault::BadByte { place: 0 }),
    (b"a[=b", LexFault::BadByte { place: 1 }),
    (b"[==]", LexFault::BadByte { place: 0 }),
    (b"! 'a", LexFault::BadByte { place: 0 }),
];

pub fn bad_bytes_2_accepted(alloc: Global) -> Option<usize> {
    first_accepted(alloc, BAD_BYTES_2)
}

const OPEN_STRINGS_1: &[(&[u8], LexFault)] = &[
    (b"x = \"abc", LexFault::OpenString { place: 4 }),
    (b"\"", LexFault::OpenString { place: 0 }),
    (b"'abc\"", LexFault::OpenString { place: 0 }),
    (b"'abc\n'", LexFault::OpenString { place: 0 }),
    (b" 'abc\r'", LexFault::OpenString { place: 1 }),
    (b"'\\", LexFault::OpenString { place: 0 }),
    (b"'\\\n\n'", LexFault::OpenString { place: 0 }),
    (b"'\\\r\n\r'", LexFault::OpenString { place: 0 }),
    (b"'\\x4\n'", LexFault::OpenString { place: 0 }),
];

pub fn open_strings_1_accepted(alloc: Global) -> Option<usize> {
    first_accepted(alloc, OPEN_STRINGS_1)
}

const OPEN_STRINGS_2: &[(&[u8], LexFault)] = &[
    (b"'\\x", LexFault::OpenString { place: 0 }),
    (b"'\\u{41", LexFault::OpenString { place: 0 }),
    (b"'\\u{41\r'", LexFault::OpenString { place: 0 }),
    (b"'\\u\n'", LexFault::OpenString { place: 0 }),
    (b"'\\u{\n'", LexFault::OpenString { place: 0 }),
    (b"'\\25", LexFault::OpenString { place: 0 }),
    (b"'\\z \n", LexFault::OpenString { place: 0 }),
    (b"'a\n\\q", LexFault::OpenString { place: 0 }),
];

pub fn open_strings_2_accepted(alloc: Global) -> Option<usize> {
    first_accepted(alloc, OPEN_STRINGS_2)
}

const BAD_ESCAPES_1: &[(&[u8], LexFault)] = &[
    (b"x = 'ab\\q'", LexFault::BadEscape { place: 7 }),
    (b"'\\A'", LexFault::BadEscape { place: 1 }),
    (b"'\\\x00'", LexFault::BadEscape { place: 1 }),
    (b"'\\256'", LexFault::BadEscape { place: 1 }),
    (b"'a\\999\n'", LexFault::BadEscape { place: 2 }),
    (b"'\\xg0'", LexFault::BadEscape { place: 1 }),
    (b"'\\x4'", LexFault::BadEscape { place: 1 }),
    (b"'\\x4g'", LexFault::BadEscape { place: 1 }),
    (b"'\\X41'", LexFault::BadEscape { place: 1 }),
];

pub fn bad_escapes_1_accepted(alloc: Global) -> Option<usize> {
    first_accepted(alloc, BAD_ESCAPES_1)
}

const BAD_ESCAPES_2: &[(&[u8], LexFault)] = &[
    (b"'\\u41'", LexFault::BadEscape { place: 1 }),
    (b"'\\u{}'", LexFault::BadEscape { place: 1 }),
    (b"'\\u{g}'", LexFault::BadEscape { place: 1 }),
    (b"'\\u{41'", LexFault::BadEscape { place: 1 }),
    (b"'\\u{41g}'", LexFault::BadEscape { place: 1 }),
    (b"'\\u{80000000}'", LexFault::BadEscape { place: 1 }),
    (b"'\\u{80000000\n'", LexFault::BadEscape { place: 1 }),
    (b"'\\u{7FFFFFFF0", LexFault::BadEscape { place: 1 }),
    (b"'\\q \n", LexFault::BadEscape { place: 1 }),
];

pub fn bad_escapes_2_accepted(alloc: Global) -> Option<usize> {
    first_accepted(alloc, BAD_ESCAPES_2)
}

const OPEN_BRACKETS: &[(&[u8], LexFault)] = &[
    (b"[[x", LexFault::OpenBracket { place: 0 }),
    (b"a [=[x]]", LexFault::OpenBracket { place: 2 }),
    (b"[=[x]==]", LexFault::OpenBracket { place: 0 }),
    (b"[[", LexFault::OpenBracket { place: 0 }),
    (b"a --[==[x]=]", LexFault::OpenBracket { place: 2 }),
];

pub fn open_brackets_accepted(alloc: Global) -> Option<usize> {
    first_accepted(alloc, OPEN_BRACKETS)
}

const BAD_NUMERALS_1: &[(&[u8], LexFault)] = &[
    (b"1..2", LexFault::BadNumeral { place: 0 }),
    (b"a = 0x", LexFault::BadNumeral { place: 4 }),
    (b"0xg", LexFault::BadNumeral { place: 0 }),
    (b"1e5", LexFault::BadNumeral { place: 0 }),
    (b".5", LexFault::BadNumeral { place: 0 }),
    (b"3.", LexFault::BadNumeral { place: 0 }),
    (b"3.14", LexFault::BadNumeral { place: 0 }),
    (b"0x1p4", LexFault::BadNumeral { place: 0 }),
    (b"3x", LexFault::BadNumeral { place: 0 }),
];

pub fn bad_numerals_1_accepted(alloc: Global) -> Option<usize> {
    first_accepted(alloc, BAD_NUMERALS_1)
}

const BAD_NUMERALS_2: &[(&[u8], LexFault)] = &[
    (b"3_", LexFault::BadNumeral { place: 0 }),
    (b"1and", LexFault::BadNumeral { place: 0 }),
    (b"00x1", LexFault::BadNumeral { place: 0 }),
    (b"99999999999999999999x", LexFault::BadNumeral { place: 0 }),
];

pub fn bad_numerals_2_accepted(alloc: Global) -> Option<usize> {
    first_accepted(alloc, BAD_NUMERALS_2)
}

const LARGE_NUMBERS: &[(&[u8], LexFault)] = &[
    (
        b"9223372036854775808",
        LexFault::NumberTooLarge { place: 0 },
    ),
    (
        b"a 99999999999999999999999",
        LexFault::NumberTooLarge { place: 2 },
    ),
    (b"0x8000000000000000", LexFault::NumberTooLarge { place: 0 }),
    (
        b"0x10000000000000000",
        LexFault::NumberTooLarge { place: 0 },
    ),
];

pub fn large_numbers_accepted(alloc: Global) -> Option<usize> {
    first_accepted(alloc, LARGE_NUMBERS)
}
