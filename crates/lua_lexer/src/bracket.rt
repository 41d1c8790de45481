ghost use Rattle.std.specs.Prelude.{◌≡◌, drop, IfOk};
ghost use Rattle.std.specs.Option.{option_map};
ghost use Rattle.lua_lexer.specs.Reading.{level_at, opened, closed_at, close_at, comment_at};
ghost use Rattle.lua_lexer.specs.Reading.{bracket_at, Gives};
ghost use Rattle.lua_lexer.specs.LongBracket.{long_text, lines_of, without_break};

use crate::class::{Class, is_line_break};
use crate::stop::{Cause, Stop};
use std::alloc::{AllocError, Global};

/// The number of `=` at the front of the bytes and what follows them, if `[` or `]` as `last` says ends them.
#[tactic(auto, unfolding(crate::specs::Reading::level_at))]
fn level(last: u8, bytes: &[u8]) -> Option<(usize, &[u8])>
    ensures { option_map (λ read. (read.0, read.1.now)) result ≡ level_at last bytes.now }
{
    let (equals, rest) = Class::Equals.split(bytes);
    match rest.split_first() {
        Some((first, rest)) if *first == last => Some((equals.len(), rest)),
        _ => None,
    }
}

/// The level of the long bracket that opens at the front of the bytes, and what follows the opening.
#[tactic(auto, unfolding(crate::specs::Reading::opened))]
fn opened(bytes: &[u8]) -> Option<(usize, &[u8])>
    ensures { option_map (λ read. (read.0, read.1.now)) result ≡ opened bytes.now }
{
    match bytes {
        [b'[', rest @ ..] => level(b'[', rest),
        _ => None,
    }
}

/// What follows the close of a long bracket of this level, if one stands at the front of the bytes.
#[tactic(auto, unfolding(crate::specs::Reading::closed_at))]
fn closed(wanted: usize, bytes: &[u8]) -> Option<&[u8]>
    ensures { option_map (λ read. read.now) result ≡ closed_at wanted bytes.now }
{
    match bytes {
        [b']', rest @ ..] => match level(b']', rest) {
            Some((found, rest)) if found == wanted => Some(rest),
            _ => None,
        },
        _ => None,
    }
}

/// What stands before the first close of a long bracket of this level, and what follows it.
#[tactic(auto, unfolding(crate::specs::Reading::close_at))]
fn body(level: usize, bytes: &[u8]) -> Option<(&[u8], &[u8])>
    ensures { option_map (λ read. (read.0.now, read.1.now)) result ≡ close_at level bytes.now }
{
    let mut taken = 0;
    while taken < bytes.len() {
        if let Some(rest) = closed(level, &bytes[taken..]) {
            return Some((&bytes[..taken], rest));
        }
        taken += 1;
    }
    None
}

/// The bytes without the line break that they begin with, if they do.
pub fn without_break(bytes: &[u8]) -> &[u8]
    ensures { result.now ≡ without_break bytes.now }
{
    match bytes {
        [first, second, rest @ ..]
            if is_line_break(*first) && is_line_break(*second) && second != first => { rest }
        [first, rest @ ..] if is_line_break(*first) => rest,
        _ => bytes,
    }
}

/// The bytes with each line break turned into a line feed.
fn lines(alloc: Global, bytes: &[u8]) -> Result<Vec<u8>, AllocError>
    ensures { IfOk result (λ v. v.items ≡ lines_of bytes.now) }
{
    let mut text = Vec::new(alloc);
    let mut rest = bytes;
    while let Some((first, after)) = rest.split_first() {
        if is_line_break(*first) {
            text.push(b'\n')?;
            rest = without_break(rest);
        } else {
            text.push(*first)?;
            rest = after;
        }
    }
    Ok(text)
}

/// What the long bracket at the front of the bytes stands for, and what follows it.
#[tactic(auto, unfolding(crate::specs::Reading::bracket_at))]
pub fn bracket(alloc: Global, bytes: &[u8]) -> Result<(Vec<u8>, &[u8]), Stop>
    ensures { Gives (λ read. (read.0.items, read.1.now)) result (bracket_at bytes.now) }
{
    let Some((level, inner)) = opened(bytes) else {
        return Err(Stop::At(Cause::BadByte, bytes.len()));
    };
    let Some((body, rest)) = body(level, inner) else {
        return Err(Stop::At(Cause::OpenBracket, bytes.len()));
    };
    let text = lines(alloc, without_break(body))?;
    Ok((text, rest))
}

/// What follows the `--` of a comment.
fn after_mark(bytes: &[u8]) -> &[u8]
    ensures { result.now ≡ drop 2 bytes.now }
{
    match bytes {
        [_, _, rest @ ..] => rest,
        _ => &[],
    }
}

/// What follows the comment at the front of the bytes, whose first two bytes are `--`.
#[tactic(auto, unfolding(crate::specs::Reading::comment_at))]
pub fn comment(bytes: &[u8]) -> Result<&[u8], Stop>
    ensures { Gives (λ read. read.now) result (comment_at bytes.now) }
{
    let rest = after_mark(bytes);
    let Some((level, inner)) = opened(rest) else {
        let (_line, rest) = Class::Line.split(rest);
        return Ok(rest);
    };
    match body(level, inner) {
        Some((_body, rest)) => Ok(rest),
        None => Err(Stop::At(Cause::OpenBracket, bytes.len())),
    }
}
