//! Calls of a shelf, as rows of a table.

use rocks_outside::{Shelf, ShelfError, ShelfRead};
use rocks_text::FilePath;
use std::process::Abort;

/// A server, a path, a limit, and what is read: the bytes, `absent`, `too long` or `fault`.
pub type Read = (u32, &'static str, u32, &'static str);

/// A server, a folder, and what is listed: the paths, each followed by `;`, or `fault`.
pub type Listing = (u32, &'static str, &'static str);

/// A path of a rock's file.
pub fn file_path(rt: &(impl Abort + AllocGlobal), text: &str) -> FilePath {
    FilePath::from_text(rt.alloc(), text).expect(rt, text)
}

/// Makes each read, and looks at what it answers.
pub fn take_reads<S: Shelf>(rt: &(impl Abort + AllocGlobal), shelf: &mut S, reads: &[Read]) {
    for read in reads {
        take_read(rt, shelf, read);
    }
}

fn take_read<S: Shelf>(rt: &(impl Abort + AllocGlobal), shelf: &mut S, read: &Read) {
    let (server, path, limit, told) = read;
    let at = file_path(rt, path);
    assert!(rt; *server < shelf.servers());
    let answer = shelf.read(rt.alloc(), *server, &at, *limit);
    assert!(rt; is_told(&answer, told), "{server} {path} {limit}");
}

fn is_told(answer: &Result<ShelfRead, ShelfError>, told: &str) -> bool {
    match answer {
        Ok(ShelfRead::Absent) => told == "absent",
        Ok(ShelfRead::TooLong) => told == "too long",
        Ok(ShelfRead::Bytes(bytes)) => bytes.as_slice() == told.as_bytes(),
        Err(ShelfError::Failed) => told == "fault",
        Err(ShelfError::NoMemory) => false,
    }
}

/// Makes each listing, and looks at what it answers.
pub fn take_listings<S: Shelf>(
    rt: &(impl Abort + AllocGlobal),
    shelf: &mut S,
    listings: &[Listing],
) {
    for listing in listings {
        take_listing(rt, shelf, listing);
    }
}

fn take_listing<S: Shelf>(rt: &(impl Abort + AllocGlobal), shelf: &mut S, listing: &Listing) {
    let (server, folder, told) = listing;
    let at = file_path(rt, folder);
    assert!(rt; *server < shelf.servers());
    let answer = shelf.list(rt.alloc(), *server, &at);
    assert!(rt; is_listed(rt, &answer, told), "{server} {folder}");
}

fn is_listed(
    rt: &(impl Abort + AllocGlobal),
    answer: &Result<Vec<FilePath>, ShelfError>,
    told: &str,
) -> bool {
    match answer {
        Ok(paths) => lines(rt, paths).as_str() == told,
        Err(ShelfError::Failed) => told == "fault",
        Err(ShelfError::NoMemory) => false,
    }
}

fn lines(rt: &(impl Abort + AllocGlobal), paths: &[FilePath]) -> String {
    let mut text = String::new(rt.alloc());
    for path in paths {
        text.push_str(path.as_str()).expect(rt, "memory");
        text.push(';').expect(rt, "memory");
    }
    text
}
