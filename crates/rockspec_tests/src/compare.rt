//! How what comes of rockspecs is compared with what is wanted.
use crate::told::{Part, told};
use std::alloc::{AllocError, Global};
use std::process::Abort;
use std::str;
use std::test::Fail;

/// A rockspec without fault, of format 1.0. A later assignment takes the place of one in it.
pub const GOOD: &str = "package = 'hello' version = '1.0-1' source = {url = 'u'} \
    build = {type = 'builtin', modules = {}} ";

/// The same in format 3.0.
pub const GOOD_THREE: &str = "rockspec_format = '3.0' package = 'hello' version = '1.0-1' \
    source = {url = 'u'} build = {type = 'builtin', modules = {}} ";

/// What stands before and behind each text of a table, and what is told of these rockspecs.
pub struct Frame {
    pub start: &'static str,
    pub end: &'static str,
    pub part: Part,
}

/// A text, and what comes of the rockspec with it.
pub type Case = (&'static str, &'static str);

// What is told of the rockspec with a text in a frame.
fn found(alloc: Global, frame: &Frame, text: &str) -> Result<Vec<u8>, AllocError> {
    let mut whole = String::from_str(alloc, frame.start)?;
    whole.push_str(text)?;
    whole.push_str(frame.end)?;
    told(alloc, whole.as_bytes(), frame.part)
}

/// Compares what is told of the rockspecs with the texts.
pub fn compare(rt: &impl Abort, alloc: Global, frame: &Frame, cases: &[Case]) -> Result<(), Fail> {
    for (text, wanted) in cases {
        let found = found(alloc, frame, text)?;
        let found = str::from_utf8(&found).unwrap_or("no text");
        assert_eq!(rt; found, *wanted, "{text}");
    }
    Ok(())
}
