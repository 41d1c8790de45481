//! Texts whose tokens derive no chunk, with their faults.
use lua_lexer::tokens;
use lua_syntax::Unserved::{
    Attribute, Call, Control, Environment, FieldAssign, Function, Operator, Vararg,
};
use lua_syntax::{SyntaxFault, Unserved, chunk};
use std::alloc::{AllocError, Global};

/// Parts of texts.
type Parts = &'static [&'static [u8]];

/// The fault of the tokens of a text, if it has tokens and they have one.
pub fn fault_of(alloc: Global, text: &[u8]) -> Option<SyntaxFault> {
    match tokens(alloc, text) {
        Ok(list) => chunk(alloc, &list).err(),
        Err(_) => None,
    }
}

// Whether it is the fault of a token at this place: that the token isn't served so, or that another is expected.
fn is_fault(found: Option<SyntaxFault>, place: usize, wanted: Option<Unserved>) -> bool {
    match (found, wanted) {
        (Some(SyntaxFault::NotServed { place: at, which }), Some(wanted)) => {
            at as usize == place && which == wanted
        }
        (Some(SyntaxFault::Expected { place: at }), None) => at as usize == place,
        _ => false,
    }
}

// A front and a blank behind it, if it isn't empty.
fn spaced(alloc: Global, front: &[u8]) -> Result<Vec<u8>, AllocError> {
    let mut text = Vec::from_slice(alloc, front)?;
    if !front.is_empty() {
        text.extend_from_slice(b" ")?;
    }
    Ok(text)
}

// Whether the token behind the front is the first wrong one, with this fault.
fn is_refused(alloc: Global, front: &[u8], token: &[u8], wanted: Option<Unserved>) -> bool {
    let Ok(mut text) = spaced(alloc, front) else {
        return false;
    };
    let place = text.len();
    match text.extend_from_slice(token) {
        Ok(()) => is_fault(fault_of(alloc, &text), place, wanted),
        Err(_) => false,
    }
}

fn first_token(
    alloc: Global,
    front: &[u8],
    tokens: &[&[u8]],
    wanted: Option<Unserved>,
) -> Option<usize> {
    for (at, token) in tokens.iter().enumerate() {
        if !is_refused(alloc, front, token, wanted) {
            return Some(at);
        }
    }
    None
}

// The first front and token for which the token behind the front isn't the first wrong one, with this fault.
fn first_accepted(
    alloc: Global,
    fronts: &[&[u8]],
    tokens: &[&[u8]],
    wanted: Option<Unserved>,
) -> Option<(usize, usize)> {
    for (row, front) in fronts.iter().enumerate() {
        if let Some(at) = first_token(alloc, front, tokens, wanted) {
            return Some((row, at));
        }
    }
    None
}

// Where a statement may begin.
const STATEMENT_STARTS: Parts = &[
    b"",
    b";",
    b"a = 1",
    b"a = b",
    b"a = b . c",
    b"a = { }",
    b"a = ( 1 )",
    b"a = b .. c",
    b"a , b = 1 , 2",
    b"local a",
    b"local a , b",
    b"local a = b",
    b"local a ;",
];

// Where an expression may begin.
const EXPRESSION_STARTS: Parts = &[
    b"a =",
    b"a = 1 ,",
    b"local a =",
    b"a = b ..",
    b"a = (",
    b"a = b [",
    b"a = {",
    b"a = { 1 ,",
    b"a = { 1 ;",
    b"a = { [",
    b"a = { [ 1 ] =",
    b"a = { b =",
];

// Behind whole expressions that are no prefixes.
const WHOLE: Parts = &[
    b"a = 1",
    b"a = nil",
    b"a = true",
    b"a = 'x'",
    b"a = { }",
    b"local a = 1",
    b"a = 1 , 2",
    b"a = b .. 1",
    b"a = ( 1",
    b"a = b [ 1",
    b"a = { 1",
    b"a = { 1 , 2",
    b"a = { [ 1",
    b"a = { [ 1 ] = 2",
    b"a = { b = 1",
];

// Behind prefixes.
const PREFIXES: Parts = &[
    b"a = b",
    b"a = ( 1 )",
    b"a = b . c",
    b"a = b [ 1 ]",
    b"a = ( b ) . c",
    b"a = 1 .. b",
    b"a = 1 , b",
    b"local a = b",
    b"a = ( b",
    b"a = b [ c",
    b"a = { b",
    b"a = { 1 , b . c",
    b"a = { [ b",
    b"a = { [ 1 ] = b",
    b"a = { b = c",
];

// Behind names that are to be assigned to.
const NAMES: Parts = &[b"a", b"a , b", b"; a", b"a = 1 b", b"local a b"];

// Behind names of a `local`.
const LOCAL_NAMES: Parts = &[b"local a", b"local a , b", b"; local a"];

// Where only a name may stand.
const NAME_STARTS: Parts = &[b"a ,", b"a , b ,", b"local a ,", b"a = b ."];

const BEHIND_LOCAL: Parts = &[b"local", b"a = 1 local", b"local a local"];

const CONTROL: Parts = &[
    b"if", b"while", b"for", b"repeat", b"do", b"goto", b"break", b"return", b"::",
];

const BINARY: Parts = &[
    b"+", b"-", b"*", b"/", b"%", b"^", b"&", b"~", b"|", b"<<", b">>", b"//", b"==", b"~=", b"<=",
    b">=", b"<", b">", b"and", b"or",
];

const CALLS: Parts = &[b":", b"(", b"'x'", b"{"];

#[test]
fn statements_are_not_served(rt: HostRuntime) {
    let alloc = rt.alloc();
    let rows: [(Unserved, Parts, Parts); 6] = [
        (Control, STATEMENT_STARTS, CONTROL),
        (Function, STATEMENT_STARTS, &[b"function"]),
        (Call, STATEMENT_STARTS, &[b"("]),
        (Environment, STATEMENT_STARTS, &[b"_ENV"]),
        (Function, BEHIND_LOCAL, &[b"function"]),
        (Environment, BEHIND_LOCAL, &[b"_ENV"]),
    ];
    for (at, (which, fronts, tokens)) in rows.iter().enumerate() {
        assert_eq!(rt;
            first_accepted(alloc, fronts, tokens, Some(*which)),
            None,
            "in row {at}"
        );
    }
}

#[test]
fn names_are_not_served(rt: HostRuntime) {
    let alloc = rt.alloc();
    let rows: [(Unserved, Parts, Parts); 4] = [
        (Call, NAMES, CALLS),
        (FieldAssign, NAMES, &[b".", b"["]),
        (Attribute, LOCAL_NAMES, &[b"<"]),
        (Environment, NAME_STARTS, &[b"_ENV"]),
    ];
    for (at, (which, fronts, tokens)) in rows.iter().enumerate() {
        assert_eq!(rt;
            first_accepted(alloc, fronts, tokens, Some(*which)),
            None,
            "in row {at}"
        );
    }
}

#[test]
fn expressions_are_not_served(rt: HostRuntime) {
    let alloc = rt.alloc();
    let rows: [(Unserved, Parts, Parts); 7] = [
        (Function, EXPRESSION_STARTS, &[b"function"]),
        (Vararg, EXPRESSION_STARTS, &[b"..."]),
        (Operator, EXPRESSION_STARTS, &[b"not", b"-", b"#", b"~"]),
        (Environment, EXPRESSION_STARTS, &[b"_ENV"]),
        (Operator, WHOLE, BINARY),
        (Operator, PREFIXES, BINARY),
        (Call, PREFIXES, CALLS),
    ];
    for (at, (which, fronts, tokens)) in rows.iter().enumerate() {
        assert_eq!(rt;
            first_accepted(alloc, fronts, tokens, Some(*which)),
            None,
            "in row {at}"
        );
    }
}

#[test]
fn other_tokens_are_expected_in_statements(rt: HostRuntime) {
    let alloc = rt.alloc();
    let rows: [(Parts, Parts); 6] = [
        (
            STATEMENT_STARTS,
            &[
                b")", b"]", b"}", b"1", b"nil", b"true", b"false", b"not", b"#", b"...", b"then",
                b"else", b"elseif", b"until", b"in", b"end",
            ],
        ),
        (
            &[b"", b"; ;"],
            &[
                b"=", b",", b".", b"..", b":", b"[", b"{", b"'x'", b"+", b"-", b"~", b"<", b"==",
                b"and", b"or",
            ],
        ),
        (
            NAMES,
            &[
                b"", b"1", b"nil", b"b", b"_ENV", b";", b"..", b"+", b"<", b"==", b")", b"local",
                b"if", b"end", b"and",
            ],
        ),
        (
            NAME_STARTS,
            &[
                b"",
                b"1",
                b"nil",
                b"'x'",
                b"=",
                b",",
                b"(",
                b"{",
                b"[",
                b".",
                b";",
                b"if",
                b"do",
                b"function",
                b"end",
                b"local",
            ],
        ),
        (
            BEHIND_LOCAL,
            &[
                b"", b"1", b"nil", b"'x'", b"=", b",", b"(", b"<", b";", b"if", b"end", b"local",
            ],
        ),
        (
            LOCAL_NAMES,
            &[b".", b":", b"[", b"..", b"'x'", b"{", b"==", b"+", b"and"],
        ),
    ];
    for (at, (fronts, tokens)) in rows.iter().enumerate() {
        assert_eq!(rt;
            first_accepted(alloc, fronts, tokens, None),
            None,
            "in row {at}"
        );
    }
}

#[test]
fn other_tokens_are_expected_in_expressions(rt: HostRuntime) {
    let alloc = rt.alloc();
    let rows: [(Parts, Parts); 5] = [
        (
            EXPRESSION_STARTS,
            &[
                b"", b"=", b",", b";", b".", b"..", b":", b"::", b"+", b"*", b"==", b"<", b"and",
                b"or", b"if", b"do", b"end", b"return", b"local", b"then", b"in", b")", b"]",
            ],
        ),
        (
            &[b"a =", b"a = b ..", b"a = (", b"a = b [", b"a = { b ="],
            &[b"[", b"}"],
        ),
        (
            WHOLE,
            &[
                b"1", b"'x'", b"{", b".", b"[", b":", b"=", b"nil", b"not", b"#", b"...", b"end",
                b"in",
            ],
        ),
        (
            &[
                b"a = ( 1",
                b"a = b [ 1",
                b"a = { 1",
                b"a = { [ 1",
                b"a = { b = 1",
            ],
            &[b"(", b"b", b"local", b"if", b"::", b"function", b"_ENV"],
        ),
        (
            PREFIXES,
            &[b"1", b"nil", b"not", b"#", b"...", b"end", b"in"],
        ),
    ];
    for (at, (fronts, tokens)) in rows.iter().enumerate() {
        assert_eq!(rt;
            first_accepted(alloc, fronts, tokens, None),
            None,
            "in row {at}"
        );
    }
}

#[test]
fn other_tokens_are_expected_in_brackets(rt: HostRuntime) {
    let alloc = rt.alloc();
    let rows: [(Parts, Parts); 6] = [
        (
            &[b"a = ( 1", b"a = ( b"],
            &[b"", b"]", b"}", b",", b";", b"="],
        ),
        (
            &[b"a = b [ 1", b"a = { [ 1", b"a = { [ b"],
            &[b"", b")", b"}", b",", b";", b"="],
        ),
        (
            &[
                b"a = { 1",
                b"a = { b",
                b"a = { b . c",
                b"a = { ( b )",
                b"a = { b = c",
                b"a = { [ 1 ] = 2",
            ],
            &[b"", b")", b"]", b"c", b"_ENV"],
        ),
        (
            &[
                b"a = { b . c",
                b"a = { ( b )",
                b"a = { b .. c",
                b"a = { b = c",
            ],
            &[b"="],
        ),
        (
            &[b"a = { [ 1 ]"],
            &[
                b"", b"}", b"1", b"==", b",", b";", b"b", b"+", b"_ENV", b"(", b".",
            ],
        ),
        (&[b"a = { 1 ,", b"a = { b = c ;"], &[b",", b";"]),
    ];
    for (at, (fronts, tokens)) in rows.iter().enumerate() {
        assert_eq!(rt;
            first_accepted(alloc, fronts, tokens, None),
            None,
            "in row {at}"
        );
    }
}

const WHOLE_TEXTS: &[(&[u8], usize, Option<Unserved>)] = &[
    (b"return", 0, Some(Control)),
    (b"return {}", 0, Some(Control)),
    (b"::l::", 0, Some(Control)),
    (b"if a then b = 1 end", 0, Some(Control)),
    (b"a = 1 return a", 6, Some(Control)),
    (b"function f() end", 0, Some(Function)),
    (b"local function f() end", 6, Some(Function)),
    (b"x = function() end", 4, Some(Function)),
    (b"x = ...", 4, Some(Vararg)),
    (b"f()", 1, Some(Call)),
    (b"f \"x\"", 2, Some(Call)),
    (b"f{}", 1, Some(Call)),
    (b"f:g()", 1, Some(Call)),
    (b"(f)()", 0, Some(Call)),
    (b"local a (", 8, Some(Call)),
    (b"x = f 'y' = 2", 6, Some(Call)),
    (b"version = (\"1\"):rep(2)", 15, Some(Call)),
    (b"a = \"x\" .. -1", 11, Some(Operator)),
    (b"a = 1 + 2", 6, Some(Operator)),
    (b"a = not b", 4, Some(Operator)),
    (b"a.b = 1", 1, Some(FieldAssign)),
    (b"a, b[1] = 1, 2", 4, Some(FieldAssign)),
    (b"local x <const> = 1", 8, Some(Attribute)),
    (b"_ENV = 1", 0, Some(Environment)),
    (b"a = {_ENV = 1}", 5, Some(Environment)),
    (b"a < b", 2, None),
    (b"local a.b", 7, None),
    (b"a", 1, None),
    (b"a =", 3, None),
    (b"local", 5, None),
    (b"a = {b = 1 = 2}", 11, None),
    (b"a = (1", 6, None),
    (b"a = 1)", 5, None),
    (b"a = {,}", 5, None),
    (b"a = 1 = _ENV", 6, None),
    (b"a = 1, , return", 7, None),
];

#[test]
fn a_fault_is_of_the_first_wrong_token(rt: HostRuntime) {
    let alloc = rt.alloc();
    for (text, place, wanted) in WHOLE_TEXTS {
        let found = fault_of(alloc, text);
        assert!(rt; is_fault(found, *place, *wanted), "at {place}: {found:?}");
    }
}
