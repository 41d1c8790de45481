ghost use Rattle.std.specs.Prelude.{◌≡◌};
ghost use Rattle.lua_lexer.specs.Reading.{Gives, stop_at, escape_fault, piece_at, quoted_at};

use crate::class::is_line_break;
use crate::escape::{Meaning, escape, push_meaning};
use crate::stop::{Cause, Stop};
use std::alloc::Global;

/// What the piece of a quoted text at the front of the bytes stands for, or nothing at the closing quote, and
/// the bytes after it. `opening` bytes are left at the opening quote.
#[tactic(auto, unfolding(crate::specs::Reading::piece_at))]
fn piece(quote: u8, opening: usize, bytes: &[u8]) -> Result<(Option<Meaning>, &[u8]), Stop>
    ensures { Gives (λ read. (read.0, read.1.now)) result (piece_at quote opening bytes.now) }
{
    let Some((first, rest)) = bytes.split_first() else {
        return Err(Stop::At(Cause::OpenString, opening));
    };
    if *first == quote {
        return Ok((None, rest));
    }
    if *first == b'\\' {
        return match escape(rest) {
            Ok((meaning, rest)) => Ok((Some(meaning), rest)),
            Err(failed) => Err(failed_escape(opening, bytes.len(), failed)),
        };
    }
    if is_line_break(*first) {
        return Err(Stop::At(Cause::OpenString, opening));
    }
    Ok((Some(Meaning::Byte(*first)), rest))
}

/// The first byte at which reading an escape fails decides: a line break or the end leaves the text open.
fn failed_escape(opening: usize, left: usize, failed: &[u8]) -> Stop
    ensures { result ≡ stop_at (escape_fault opening left failed.now) }
{
    match failed.first() {
        Some(byte) if !is_line_break(*byte) => Stop::At(Cause::BadEscape, left),
        _ => Stop::At(Cause::OpenString, opening),
    }
}

/// What the quoted text at the front of the bytes stands for, and the bytes after it.
pub fn quoted(alloc: Global, bytes: &[u8]) -> Result<(Vec<u8>, &[u8]), Stop>
    ensures { Gives (λ read. (read.0.items, read.1.now)) result (quoted_at bytes.now) }
{
    let Some((quote, mut rest)) = bytes.split_first() else {
        return Err(Stop::At(Cause::OpenString, 0));
    };
    let mut text = Vec::new(alloc);
    loop {
        let (meaning, after) = piece(*quote, bytes.len(), rest)?;
        rest = after;
        match meaning {
            Some(meaning) => push_meaning(&mut text, meaning)?,
            None => return Ok((text, rest)),
        }
    }
}
