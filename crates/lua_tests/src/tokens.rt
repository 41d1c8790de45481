mod faulty;
mod spelled;

use lua_lexer::{LexFault, Token, TokenKind, TokenList, laws, tokens};
use std::alloc::Global;
use std::test::Fail;

/// What a token of the tables is.
#[derive(Clone, Copy, Debug)]
pub enum Kind {
    Name(&'static [u8]),
    Keyword(lua_lexer::Keyword),
    Symbol(lua_lexer::Symbol),
    Text(&'static [u8]),
    Int(u64),
    End,
}

fn is_kind(found: &TokenKind, wanted: Kind) -> bool {
    match (found, wanted) {
        (TokenKind::Name(name), Kind::Name(bytes)) => name.as_slice() == bytes,
        (TokenKind::Keyword(keyword), Kind::Keyword(other)) => *keyword == other,
        (TokenKind::Symbol(symbol), Kind::Symbol(other)) => *symbol == other,
        (TokenKind::Text(text), Kind::Text(bytes)) => text.as_slice() == bytes,
        (TokenKind::Int(number), Kind::Int(other)) => *number == other,
        (TokenKind::End, Kind::End) => true,
        _ => false,
    }
}

fn are_tokens(found: &[Token], wanted: &[(u32, Kind)]) -> bool {
    found.len() == wanted.len()
        && found.iter().zip(wanted).all(|(token, row)| token.place == row.0
            && is_kind(&token.kind, row.1))
}

/// The first of the texts whose tokens aren't these.
pub fn first_misread(alloc: Global, rows: &[(&[u8], &[(u32, Kind)])]) -> Option<usize> {
    for (at, (text, wanted)) in rows.iter().enumerate() {
        match tokens(alloc, text) {
            Ok(found) if are_tokens(found.as_slice(), wanted) => {}
            _ => return Some(at),
        }
    }
    None
}

/// The first of the texts that hasn't this fault.
pub fn first_accepted(alloc: Global, rows: &[(&[u8], LexFault)]) -> Option<usize> {
    for (at, (text, wanted)) in rows.iter().enumerate() {
        match tokens(alloc, text) {
            Err(fault) if fault == *wanted => {}
            _ => return Some(at),
        }
    }
    None
}

/// The cases of the two tables: texts with their tokens, and texts with their faults.
#[test]
fn texts_have_these_tokens_or_faults(rt: HostRuntime) {
    let alloc = rt.alloc();
    let wrong = [
        spelled::gaps_misread(alloc),
        spelled::words_misread(alloc),
        spelled::symbols_1_misread(alloc),
        spelled::symbols_2_misread(alloc),
        spelled::integers_misread(alloc),
        spelled::comments_misread(alloc),
        spelled::brackets_misread(alloc),
        spelled::quoted_1_misread(alloc),
        spelled::quoted_2_misread(alloc),
        faulty::bad_bytes_1_accepted(alloc),
        faulty::bad_bytes_2_accepted(alloc),
        faulty::open_strings_1_accepted(alloc),
        faulty::open_strings_2_accepted(alloc),
        faulty::bad_escapes_1_accepted(alloc),
        faulty::bad_escapes_2_accepted(alloc),
        faulty::open_brackets_accepted(alloc),
        faulty::bad_numerals_1_accepted(alloc),
        faulty::bad_numerals_2_accepted(alloc),
        faulty::large_numbers_accepted(alloc),
    ];
    for (table, row) in wrong.iter().enumerate() {
        assert_eq!(rt; *row, None, "in table {table}");
    }
}

#[test]
fn copies_are_equal(rt: HostRuntime) -> Result<(), Fail> {
    let list = tokens(rt.alloc(), b"local a = 'b' 7")?;
    let copied: TokenList = list.copy(rt.alloc())?;
    assert_eq!(rt; copied.as_slice(), list.as_slice());
    for token in list.as_slice() {
        assert_eq!(rt; token.copy(rt.alloc())?, *token);
        assert_eq!(rt; token.kind.copy(rt.alloc())?, token.kind);
    }
    Ok(())
}

#[test]
fn greatest_length(rt: HostRuntime) -> Result<(), Fail> {
    let mut text = vec![in rt.alloc(); b' '; 8_388_608]?;
    let list = tokens(rt.alloc(), &text)?;
    assert_eq!(rt; list.as_slice().len(), 1);
    text.push(b' ')?;
    match tokens(rt.alloc(), &text) {
        Ok(_) => assert!(rt; false, "tokens of a text that is too long"),
        Err(fault) => assert_eq!(rt; fault, LexFault::TooLong { length: 8_388_609 }),
    }
    Ok(())
}

#[test]
fn laws_are_called() {
    laws::one_list();
    laws::list_or_fault();
    laws::places();
}
