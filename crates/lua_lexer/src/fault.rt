/// Why a text has no tokens. Places and lengths are counted in bytes, places from 0. Which fault it is,
/// is this project's own; what can be read is after the Lua 5.4 manual, section 3.1.
#[derive(Clone, Copy, Debug, PartialEq, Eq)]
pub enum LexFault {
    /// The text is longer than 8,388,608 bytes. Tested first.
    TooLong { length: u64 },
    /// A byte that begins no token, or a `[` before `=` that opens no long bracket.
    BadByte { place: u32 },
    /// The line or the text ends inside a quoted text; the place is that of its opening quote.
    OpenString { place: u32 },
    /// A long bracket without close; the place is that of its first byte, for a comment that of `--`.
    OpenBracket { place: u32 },
    /// A `\` in a quoted text that begins no escape; its own place.
    BadEscape { place: u32 },
    /// A numeral that is no integer, or one with a point or an exponent; the place of its first byte.
    BadNumeral { place: u32 },
    /// An integer above 9,223,372,036,854,775,807; the place of its first byte.
    NumberTooLarge { place: u32 },
    /// Memory ran out.
    NoMemory,
}
