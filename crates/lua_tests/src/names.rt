use lua_names::{Keyword, is_name, is_name_byte, is_name_start, keyword_of, laws};

/// Texts, and whether they are names.
const NAMES: &[(&[u8], bool)] = &[
    (b"", false),
    (b"a", true),
    (b"_", true),
    (b"_ENV", true),
    (b"Z9_z", true),
    (b"end1", true),
    (b"End", true),
    (b"9a", false),
    (b"a-b", false),
    (b"a b", false),
    (b"\xe9", false),
    (b"end", false),
    (b"while", false),
];

/// Texts, and which keywords they are.
const KEYWORDS: &[(&[u8], Option<Keyword>)] = &[
    (b"and", Some(Keyword::And)),
    (b"elseif", Some(Keyword::Elseif)),
    (b"else", Some(Keyword::Else)),
    (b"while", Some(Keyword::While)),
    (b"elsei", None),
    (b"And", None),
    (b"", None),
];

#[test]
fn names_are_told_from_keywords(rt: HostRuntime) {
    for (text, wanted) in NAMES {
        assert_eq!(rt; is_name(text), *wanted, "{text:?}");
    }
    for (text, wanted) in KEYWORDS {
        assert_eq!(rt; keyword_of(text), *wanted, "{text:?}");
    }
    for (byte, starts, stands) in [
        (b'A', true, true),
        (b'0', false, true),
        (b'@', false, false),
    ] {
        assert_eq!(rt; is_name_start(byte), starts);
        assert_eq!(rt; is_name_byte(byte), stands);
    }
    laws::keywords();
}
