//! Texts with their tokens: each with its place, the kind, and what a name, a text or an integer is; at last the
//! end, at the text's length.

use crate::tokens::Kind::{End, Int, Keyword, Name, Symbol, Text};
use crate::tokens::{Kind, first_misread};
use lua_lexer as lua;
use std::alloc::Global;

type Row = (&'static [u8], &'static [(u32, Kind)]);

/// White space alone.
const GAPS: &[Row] = &[(b"", &[(0, End)]), (b" \t\r\n\x0b\x0c", &[(6, End)])];

pub fn gaps_misread(alloc: Global) -> Option<usize> {
    first_misread(alloc, GAPS)
}

/// Names and keywords.
const WORDS: &[Row] = &[
    (b"a", &[(0, Name(b"a")), (1, End)]),
    (b"_x9 Z", &[(0, Name(b"_x9")), (4, Name(b"Z")), (5, End)]),
    (
        b"and break do else elseif end",
        &[
            (0, Keyword(lua::Keyword::And)),
            (4, Keyword(lua::Keyword::Break)),
            (10, Keyword(lua::Keyword::Do)),
            (13, Keyword(lua::Keyword::Else)),
            (18, Keyword(lua::Keyword::Elseif)),
            (25, Keyword(lua::Keyword::End)),
            (28, End),
        ],
    ),
    (
        b"false for function goto if in",
        &[
            (0, Keyword(lua::Keyword::False)),
            (6, Keyword(lua::Keyword::For)),
            (10, Keyword(lua::Keyword::Function)),
            (19, Keyword(lua::Keyword::Goto)),
            (24, Keyword(lua::Keyword::If)),
            (27, Keyword(lua::Keyword::In)),
            (29, End),
        ],
    ),
    (
        b"local nil not or repeat return",
        &[
            (0, Keyword(lua::Keyword::Local)),
            (6, Keyword(lua::Keyword::Nil)),
            (10, Keyword(lua::Keyword::Not)),
            (14, Keyword(lua::Keyword::Or)),
            (17, Keyword(lua::Keyword::Repeat)),
            (24, Keyword(lua::Keyword::Return)),
            (30, End),
        ],
    ),
    (
        b"then true until while",
        &[
            (0, Keyword(lua::Keyword::Then)),
            (5, Keyword(lua::Keyword::True)),
            (10, Keyword(lua::Keyword::Until)),
            (16, Keyword(lua::Keyword::While)),
            (21, End),
        ],
    ),
    (b"end1", &[(0, Name(b"end1")), (4, End)]),
    (
        b"End elsei elseifs",
        &[
            (0, Name(b"End")),
            (4, Name(b"elsei")),
            (10, Name(b"elseifs")),
            (17, End),
        ],
    ),
];

pub fn words_misread(alloc: Global) -> Option<usize> {
    first_misread(alloc, WORDS)
}

/// Symbols, alone and glued to the next.
const SYMBOLS_1: &[Row] = &[
    (
        b"+ - * / % ^ # & ~ |",
        &[
            (0, Symbol(lua::Symbol::Plus)),
            (2, Symbol(lua::Symbol::Minus)),
            (4, Symbol(lua::Symbol::Star)),
            (6, Symbol(lua::Symbol::Slash)),
            (8, Symbol(lua::Symbol::Percent)),
            (10, Symbol(lua::Symbol::Caret)),
            (12, Symbol(lua::Symbol::Hash)),
            (14, Symbol(lua::Symbol::Amp)),
            (16, Symbol(lua::Symbol::Tilde)),
            (18, Symbol(lua::Symbol::Bar)),
            (19, End),
        ],
    ),
    (
        b"<< >> // == ~= <= >= < > =",
        &[
            (0, Symbol(lua::Symbol::ShiftLeft)),
            (3, Symbol(lua::Symbol::ShiftRight)),
            (6, Symbol(lua::Symbol::DoubleSlash)),
            (9, Symbol(lua::Symbol::Equal)),
            (12, Symbol(lua::Symbol::NotEqual)),
            (15, Symbol(lua::Symbol::LessEqual)),
            (18, Symbol(lua::Symbol::GreaterEqual)),
            (21, Symbol(lua::Symbol::Less)),
            (23, Symbol(lua::Symbol::Greater)),
            (25, Symbol(lua::Symbol::Assign)),
            (26, End),
        ],
    ),
    (
        b"( ) { } [ ] :: ; : , . .. ...",
        &[
            (0, Symbol(lua::Symbol::OpenParen)),
            (2, Symbol(lua::Symbol::CloseParen)),
            (4, Symbol(lua::Symbol::OpenBrace)),
            (6, Symbol(lua::Symbol::CloseBrace)),
            (8, Symbol(lua::Symbol::OpenBracket)),
            (10, Symbol(lua::Symbol::CloseBracket)),
            (12, Symbol(lua::Symbol::DoubleColon)),
            (15, Symbol(lua::Symbol::Semicolon)),
            (17, Symbol(lua::Symbol::Colon)),
            (19, Symbol(lua::Symbol::Comma)),
            (21, Symbol(lua::Symbol::Dot)),
            (23, Symbol(lua::Symbol::Concat)),
            (26, Symbol(lua::Symbol::Dots)),
            (29, End),
        ],
    ),
    (
        b"+-*/%^#&~|",
        &[
            (0, Symbol(lua::Symbol::Plus)),
            (1, Symbol(lua::Symbol::Minus)),
            (2, Symbol(lua::Symbol::Star)),
            (3, Symbol(lua::Symbol::Slash)),
            (4, Symbol(lua::Symbol::Percent)),
            (5, Symbol(lua::Symbol::Caret)),
            (6, Symbol(lua::Symbol::Hash)),
            (7, Symbol(lua::Symbol::Amp)),
            (8, Symbol(lua::Symbol::Tilde)),
            (9, Symbol(lua::Symbol::Bar)),
            (10, End),
        ],
    ),
    (
        b"<<<=>>>=///===~==",
        &[
            (0, Symbol(lua::Symbol::ShiftLeft)),
            (2, Symbol(lua::Symbol::LessEqual)),
            (4, Symbol(lua::Symbol::ShiftRight)),
            (6, Symbol(lua::Symbol::GreaterEqual)),
            (8, Symbol(lua::Symbol::DoubleSlash)),
            (10, Symbol(lua::Symbol::Slash)),
            (11, Symbol(lua::Symbol::Equal)),
            (13, Symbol(lua::Symbol::Assign)),
            (14, Symbol(lua::Symbol::NotEqual)),
            (16, Symbol(lua::Symbol::Assign)),
            (17, End),
        ],
    ),
    (
        b"(){}];:,",
        &[
            (0, Symbol(lua::Symbol::OpenParen)),
            (1, Symbol(lua::Symbol::CloseParen)),
            (2, Symbol(lua::Symbol::OpenBrace)),
            (3, Symbol(lua::Symbol::CloseBrace)),
            (4, Symbol(lua::Symbol::CloseBracket)),
            (5, Symbol(lua::Symbol::Semicolon)),
            (6, Symbol(lua::Symbol::Colon)),
            (7, Symbol(lua::Symbol::Comma)),
            (8, End),
        ],
    ),
    (
        b":::",
        &[
            (0, Symbol(lua::Symbol::DoubleColon)),
            (2, Symbol(lua::Symbol::Colon)),
            (3, End),
        ],
    ),
    (
        b"<>",
        &[
            (0, Symbol(lua::Symbol::Less)),
            (1, Symbol(lua::Symbol::Greater)),
            (2, End),
        ],
    ),
    (
        b"~<",
        &[
            (0, Symbol(lua::Symbol::Tilde)),
            (1, Symbol(lua::Symbol::Less)),
            (2, End),
        ],
    ),
    (
        b"a[b]",
        &[
            (0, Name(b"a")),
            (1, Symbol(lua::Symbol::OpenBracket)),
            (2, Name(b"b")),
            (3, Symbol(lua::Symbol::CloseBracket)),
            (4, End),
        ],
    ),
    (
        b"[ [",
        &[
            (0, Symbol(lua::Symbol::OpenBracket)),
            (2, Symbol(lua::Symbol::OpenBracket)),
            (3, End),
        ],
    ),
    (b"[", &[(0, Symbol(lua::Symbol::OpenBracket)), (1, End)]),
    (
        b"]=]]",
        &[
            (0, Symbol(lua::Symbol::CloseBracket)),
            (1, Symbol(lua::Symbol::Assign)),
            (2, Symbol(lua::Symbol::CloseBracket)),
            (3, Symbol(lua::Symbol::CloseBracket)),
            (4, End),
        ],
    ),
    (
        b"- -",
        &[
            (0, Symbol(lua::Symbol::Minus)),
            (2, Symbol(lua::Symbol::Minus)),
            (3, End),
        ],
    ),
    (b"-", &[(0, Symbol(lua::Symbol::Minus)), (1, End)]),
    (
        b"a..b",
        &[
            (0, Name(b"a")),
            (1, Symbol(lua::Symbol::Concat)),
            (3, Name(b"b")),
            (4, End),
        ],
    ),
];

pub fn symbols_1_misread(alloc: Global) -> Option<usize> {
    first_misread(alloc, SYMBOLS_1)
}

/// Symbols, alone and glued to the next.
const SYMBOLS_2: &[Row] = &[
    (
        b"a...b",
        &[
            (0, Name(b"a")),
            (1, Symbol(lua::Symbol::Dots)),
            (4, Name(b"b")),
            (5, End),
        ],
    ),
    (
        b"a....b",
        &[
            (0, Name(b"a")),
            (1, Symbol(lua::Symbol::Dots)),
            (4, Symbol(lua::Symbol::Dot)),
            (5, Name(b"b")),
            (6, End),
        ],
    ),
    (
        b"a.b",
        &[
            (0, Name(b"a")),
            (1, Symbol(lua::Symbol::Dot)),
            (2, Name(b"b")),
            (3, End),
        ],
    ),
    (
        b"a..2",
        &[
            (0, Name(b"a")),
            (1, Symbol(lua::Symbol::Concat)),
            (3, Int(2)),
            (4, End),
        ],
    ),
    (
        b"...5",
        &[(0, Symbol(lua::Symbol::Dots)), (3, Int(5)), (4, End)],
    ),
    (
        b"x=1",
        &[
            (0, Name(b"x")),
            (1, Symbol(lua::Symbol::Assign)),
            (2, Int(1)),
            (3, End),
        ],
    ),
];

pub fn symbols_2_misread(alloc: Global) -> Option<usize> {
    first_misread(alloc, SYMBOLS_2)
}

/// Integers, up to the greatest.
const INTEGERS: &[Row] = &[
    (b"0", &[(0, Int(0)), (1, End)]),
    (b"007", &[(0, Int(7)), (3, End)]),
    (
        b"1 .. 2",
        &[
            (0, Int(1)),
            (2, Symbol(lua::Symbol::Concat)),
            (5, Int(2)),
            (6, End),
        ],
    ),
    (
        b"9223372036854775807",
        &[(0, Int(9223372036854775807)), (19, End)],
    ),
    (
        b"00009223372036854775807",
        &[(0, Int(9223372036854775807)), (23, End)],
    ),
    (
        b"0x7fffFFFFffffFFFF",
        &[(0, Int(9223372036854775807)), (18, End)],
    ),
    (b"0X00000000000000000000a", &[(0, Int(10)), (23, End)]),
    (
        b"0xabcdef 0xABCDEF 0x1029",
        &[
            (0, Int(11259375)),
            (9, Int(11259375)),
            (18, Int(4137)),
            (24, End),
        ],
    ),
    (b"0x0", &[(0, Int(0)), (3, End)]),
];

pub fn integers_misread(alloc: Global) -> Option<usize> {
    first_misread(alloc, INTEGERS)
}

/// Comments.
const COMMENTS: &[Row] = &[
    (b"--", &[(2, End)]),
    (b"-- x", &[(4, End)]),
    (b"--x\na", &[(4, Name(b"a")), (5, End)]),
    (b"--x\ra", &[(4, Name(b"a")), (5, End)]),
    (b"--x\r\na", &[(5, Name(b"a")), (6, End)]),
    (b"--x\n\ra", &[(5, Name(b"a")), (6, End)]),
    (b"---[[x\ny", &[(7, Name(b"y")), (8, End)]),
    (b"--[=\na", &[(5, Name(b"a")), (6, End)]),
    (b"--[==x]]\na", &[(9, Name(b"a")), (10, End)]),
    (b"-- [[\na", &[(6, Name(b"a")), (7, End)]),
    (b"--[[x]]a", &[(7, Name(b"a")), (8, End)]),
    (b"--[==[x\r\n]=]]==]a", &[(16, Name(b"a")), (17, End)]),
    (b"a--[[]]b", &[(0, Name(b"a")), (7, Name(b"b")), (8, End)]),
    (b"-- \x00\x7f\xff\n7", &[(7, Int(7)), (8, End)]),
];

pub fn comments_misread(alloc: Global) -> Option<usize> {
    first_misread(alloc, COMMENTS)
}

/// Long brackets.
const BRACKETS: &[Row] = &[
    (
        b"a = [==[\r\nx\r\ny]==]",
        &[
            (0, Name(b"a")),
            (2, Symbol(lua::Symbol::Assign)),
            (4, Text(b"x\ny")),
            (18, End),
        ],
    ),
    (b"[[]]", &[(0, Text(b"")), (4, End)]),
    (
        b"[[]]]",
        &[
            (0, Text(b"")),
            (4, Symbol(lua::Symbol::CloseBracket)),
            (5, End),
        ],
    ),
    (b"[=[]]=]", &[(0, Text(b"]")), (7, End)]),
    (
        b"[=[]=]=]",
        &[
            (0, Text(b"")),
            (6, Symbol(lua::Symbol::Assign)),
            (7, Symbol(lua::Symbol::CloseBracket)),
            (8, End),
        ],
    ),
    (b"[==[]=]]==]", &[(0, Text(b"]=]")), (11, End)]),
    (b"[[\n\nx]]", &[(0, Text(b"\nx")), (7, End)]),
    (b"[[\r\rx]]", &[(0, Text(b"\nx")), (7, End)]),
    (b"[[\n\rx\n\ry]]", &[(0, Text(b"x\ny")), (10, End)]),
    (b"[[\r\nx\r\n\ry]]", &[(0, Text(b"x\n\ny")), (11, End)]),
    (b"[[a\nb\rc]]", &[(0, Text(b"a\nb\nc")), (9, End)]),
    (b"[[a\r\n\r\nb]]", &[(0, Text(b"a\n\nb")), (10, End)]),
    (b"[[a\n]]", &[(0, Text(b"a\n")), (6, End)]),
    (b"[[\n]]", &[(0, Text(b"")), (5, End)]),
    (
        b"[[\\n\x00\x7f\xff'\"]]",
        &[(0, Text(b"\\n\x00\x7f\xff'\"")), (11, End)],
    ),
];

pub fn brackets_misread(alloc: Global) -> Option<usize> {
    first_misread(alloc, BRACKETS)
}

/// Quoted texts.
const QUOTED_1: &[Row] = &[
    (b"\"\" ''", &[(0, Text(b"")), (3, Text(b"")), (5, End)]),
    (
        b"\"a'b\" 'c\"d'",
        &[(0, Text(b"a'b")), (6, Text(b"c\"d")), (11, End)],
    ),
    (
        b"'\x00\x7f\xff\t'",
        &[(0, Text(b"\x00\x7f\xff\t")), (6, End)],
    ),
    (
        b"'\\a\\b\\t\\n\\v\\f\\r'",
        &[(0, Text(b"\x07\x08\t\n\x0b\x0c\r")), (16, End)],
    ),
    (b"'\\\\\\\"\\''", &[(0, Text(b"\\\"'")), (8, End)]),
    (b"'a\\\nb'", &[(0, Text(b"a\nb")), (6, End)]),
    (b"'a\\\rb'", &[(0, Text(b"a\nb")), (6, End)]),
    (b"'a\\\r\nb'", &[(0, Text(b"a\nb")), (7, End)]),
    (b"'a\\\n\rb'", &[(0, Text(b"a\nb")), (7, End)]),
    (
        b"'\\x41\\x7a\\xFf\\x00'",
        &[(0, Text(b"Az\xff\x00")), (18, End)],
    ),
    (b"'\\x414'", &[(0, Text(b"A4")), (7, End)]),
    (b"'\\7'", &[(0, Text(b"\x07")), (4, End)]),
    (b"'\\65b'", &[(0, Text(b"Ab")), (6, End)]),
    (b"'\\065\\0651'", &[(0, Text(b"AA1")), (11, End)]),
    (
        b"'\\255\\0\\00\\000'",
        &[(0, Text(b"\xff\x00\x00\x00")), (15, End)],
    ),
    (b"'a\\z  b'", &[(0, Text(b"ab")), (8, End)]),
];

pub fn quoted_1_misread(alloc: Global) -> Option<usize> {
    first_misread(alloc, QUOTED_1)
}

/// Quoted texts.
const QUOTED_2: &[Row] = &[
    (b"'a\\zb'", &[(0, Text(b"ab")), (6, End)]),
    (b"'a\\z'", &[(0, Text(b"a")), (5, End)]),
    (
        b"'a\\z\r\n\t \x0b\x0c\n\rb'",
        &[(0, Text(b"ab")), (14, End)],
    ),
    (
        b"'\\u{0}\\u{41}\\u{7F}'",
        &[(0, Text(b"\x00A\x7f")), (19, End)],
    ),
    (
        b"'\\u{80}\\u{7ff}'",
        &[(0, Text(b"\xc2\x80\xdf\xbf")), (15, End)],
    ),
    (
        b"'\\u{800}\\u{FFFF}'",
        &[(0, Text(b"\xe0\xa0\x80\xef\xbf\xbf")), (17, End)],
    ),
    (
        b"'\\u{10000}\\u{1FFFFF}'",
        &[(0, Text(b"\xf0\x90\x80\x80\xf7\xbf\xbf\xbf")), (21, End)],
    ),
    (
        b"'\\u{200000}\\u{3FFFFFF}'",
        &[
            (0, Text(b"\xf8\x88\x80\x80\x80\xfb\xbf\xbf\xbf\xbf")),
            (23, End),
        ],
    ),
    (
        b"'\\u{4000000}'",
        &[(0, Text(b"\xfc\x84\x80\x80\x80\x80")), (13, End)],
    ),
    (
        b"'\\u{7FFFFFFF}'",
        &[(0, Text(b"\xfd\xbf\xbf\xbf\xbf\xbf")), (14, End)],
    ),
    (
        b"'\\u{000000000000000041}x'",
        &[(0, Text(b"Ax")), (25, End)],
    ),
    (b"'\\u{D800}'", &[(0, Text(b"\xed\xa0\x80")), (10, End)]),
    (
        b"a'b'c",
        &[(0, Name(b"a")), (1, Text(b"b")), (4, Name(b"c")), (5, End)],
    ),
    (b"'--[['", &[(0, Text(b"--[[")), (6, End)]),
];

pub fn quoted_2_misread(alloc: Global) -> Option<usize> {
    first_misread(alloc, QUOTED_2)
}
