//! Texts that are no record's.

use rock_record::{RecordFault, read_rock_manifest};
use std::alloc::Global;
use std::test::Fail;

const NONE: &str = "bin = {}\nlib = {}\nlua = {}\nown = {}\n";

// What stands in the place of `lua = {}`.
const REFUSED_LUA: &[&str] = &[
    // upper case
    "lua = {\n   a = \"0CC175b9c0f1b6a831c399e269772661\",\n}\n",
    // 31 and 33 digits, and none
    "lua = {\n   a = \"0cc175b9c0f1b6a831c399e26977266\",\n}\n",
    "lua = {\n   a = \"0cc175b9c0f1b6a831c399e2697726611\",\n}\n",
    "lua = {\n   a = \"\",\n}\n",
    "lua = {\n   a = \"gcc175b9c0f1b6a831c399e269772661\",\n}\n",
    // out of order, and twice
    "lua = {
   b = \"0cc175b9c0f1b6a831c399e269772661\",
   a = \"0cc175b9c0f1b6a831c399e269772661\",
}
",
    "lua = {
   a = \"0cc175b9c0f1b6a831c399e269772661\",
   a = \"0cc175b9c0f1b6a831c399e269772661\",
}
",
    // no path of a file
    "lua = {\n   [\"\"] = \"0cc175b9c0f1b6a831c399e269772661\",\n}\n",
    "lua = {\n   [\"..\"] = \"0cc175b9c0f1b6a831c399e269772661\",\n}\n",
    "lua = {\n   [\"/a\"] = \"0cc175b9c0f1b6a831c399e269772661\",\n}\n",
    "lua = {\n   [\"a\\\\b\"] = \"0cc175b9c0f1b6a831c399e269772661\",\n}\n",
    "lua = {\n   [\"a\\009b\"] = \"0cc175b9c0f1b6a831c399e269772661\",\n}\n",
    // an escape that isn't needed, and one that is missing
    "lua = {\n   [\"a\\.b\"] = \"0cc175b9c0f1b6a831c399e269772661\",\n}\n",
    "lua = {\n   [\"a\\046b\"] = \"0cc175b9c0f1b6a831c399e269772661\",\n}\n",
    "lua = {\n   [\"a\"b\"] = \"0cc175b9c0f1b6a831c399e269772661\",\n}\n",
    // brackets that aren't needed, and some that are missing
    "lua = {\n   [\"a\"] = \"0cc175b9c0f1b6a831c399e269772661\",\n}\n",
    "lua = {\n   a.b = \"0cc175b9c0f1b6a831c399e269772661\",\n}\n",
    "lua = {\n   end = \"0cc175b9c0f1b6a831c399e269772661\",\n}\n",
    // other spellings of the same table
    "lua = {\n   a = '0cc175b9c0f1b6a831c399e269772661',\n}\n",
    "lua = {\n   a = \"0cc175b9c0f1b6a831c399e269772661\"\n}\n",
    "lua = {\n  a = \"0cc175b9c0f1b6a831c399e269772661\",\n}\n",
    "lua = {\n\ta = \"0cc175b9c0f1b6a831c399e269772661\",\n}\n",
    "lua = {\r\n   a = \"0cc175b9c0f1b6a831c399e269772661\",\r\n}\r\n",
    "lua = {\n}\n",
    "lua = { }\n",
    "lua={}\n",
    "lua = nil\n",
    "-- none\nlua = {}\n",
    // no global, one too many, and others
    "",
    "lua = {}\nlua = {}\n",
    "lua = {}\nlub = {}\n",
    "Lua = {}\n",
    "lua = {}",
];

const REFUSED: &[&str] = &[
    "",
    "\n",
    "bin = {}\nlib = {}\nlua = {}\nown = {}",
    "bin = {}\nlib = {}\nlua = {}\nown = {}\n\n",
    "bin = {}\nlib = {}\nlua = {}\nown = {}\n ",
    "bin = {}\nlib = {}\nlua = {}\nown = {}\nzzz = {}\n",
    "lib = {}\nbin = {}\nlua = {}\nown = {}\n",
    "bin = {}\nlib = {}\nown = {}\nlua = {}\n",
    "bin = {}\nlib = {}\nlua = {}\n",
    "bin = {}\r\nlib = {}\r\nlua = {}\r\nown = {}\r\n",
    "\u{feff}bin = {}\nlib = {}\nlua = {}\nown = {}\n",
];

fn is_refused(alloc: Global, text: &str) -> bool {
    match read_rock_manifest(alloc, text.as_bytes()) {
        Ok(_) => false,
        Err(fault) => fault == RecordFault::BadRecord,
    }
}

#[test]
fn the_empty_record_is_read(rt: HostRuntime) -> Result<(), Fail> {
    let found = read_rock_manifest(rt.alloc(), NONE.as_bytes())?;
    assert_eq!(rt; found.items.len(), 0);
    assert_eq!(rt; found.own.len(), 0);
    Ok(())
}

#[test]
fn other_texts_are_refused(rt: HostRuntime) -> Result<(), Fail> {
    for text in REFUSED {
        assert!(rt; is_refused(rt.alloc(), text), "{text}");
    }
    for lua in REFUSED_LUA {
        let text = format!(in rt.alloc(); "bin = {{}}\nlib = {{}}\n{lua}own = {{}}\n")?;
        assert!(rt; is_refused(rt.alloc(), text.as_str()), "{text}");
    }
    Ok(())
}

#[test]
fn bytes_that_are_no_text_are_refused(rt: HostRuntime) -> Result<(), Fail> {
    let mut text = String::from_str(
        rt.alloc(),
        "bin = {}\nlib = {}\nlua = {\n   [\"",
    )?.into_bytes();
    text.push(255)?;
    text.extend_from_slice(b"\"] = \"0cc175b9c0f1b6a831c399e269772661\",\n}\nown = {}\n")?;
    match read_rock_manifest(rt.alloc(), &text) {
        Ok(_) => assert!(rt; false),
        Err(fault) => assert_eq!(rt; fault, RecordFault::BadRecord),
    }
    Ok(())
}
