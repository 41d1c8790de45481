//! The texts of the records of rocks.

use crate::rocks::{Words, rock};
use rock_record::{Record, Rock, digest, read_rock_manifest, rock_manifest_text};
use rocks_text::Kind;
use std::alloc::Global;
use std::test::Fail;

// The digests are those of RFC 1321.
const WRITTEN: &[(Words, &str)] = &[
    (
        Words {
            name: "hello",
            version: "1.0-1",
            items: &[
                (Kind::Lua, "hello/init.lua", "a"),
                (Kind::Lua, "hello/util.lua", "abc"),
                (Kind::Bin, "hello", ""),
            ],
            own: &[],
        },
        "bin = {
   hello = \"d41d8cd98f00b204e9800998ecf8427e\",
}
lib = {}
lua = {
   [\"hello/init.lua\"] = \"0cc175b9c0f1b6a831c399e269772661\",
   [\"hello/util.lua\"] = \"900150983cd24fb0d6963f7d28e17f72\",
}
own = {
   [\"hello-1.0-1.rockspec\"] = \"900150983cd24fb0d6963f7d28e17f72\",
}
",
    ),
    (
        Words {
            name: "m",
            version: "2-1",
            items: &[
                (Kind::Lib, "1x", ""),
                (Kind::Lib, "_x1", ""),
                (Kind::Lib, "a b", ""),
                (Kind::Lib, "a\"b", ""),
                (Kind::Lib, "end", ""),
                (Kind::Lib, "\u{e9}", ""),
            ],
            own: &[
                ("README", "message digest"),
                ("doc/x.txt", "a"),
                ("zz", "abc"),
            ],
        },
        "bin = {}
lib = {
   [\"1x\"] = \"d41d8cd98f00b204e9800998ecf8427e\",
   _x1 = \"d41d8cd98f00b204e9800998ecf8427e\",
   [\"a b\"] = \"d41d8cd98f00b204e9800998ecf8427e\",
   [\"a\\\"b\"] = \"d41d8cd98f00b204e9800998ecf8427e\",
   [\"end\"] = \"d41d8cd98f00b204e9800998ecf8427e\",
   [\"\u{e9}\"] = \"d41d8cd98f00b204e9800998ecf8427e\",
}
lua = {}
own = {
   README = \"f96b697d7cb7938d525a2f31aaf161d0\",
   [\"doc/x.txt\"] = \"0cc175b9c0f1b6a831c399e269772661\",
   [\"m-2-1.rockspec\"] = \"900150983cd24fb0d6963f7d28e17f72\",
   zz = \"900150983cd24fb0d6963f7d28e17f72\",
}
",
    ),
];

const UNORDERED: &[Words] = &[
    Words {
        name: "a",
        version: "1-1",
        items: &[(Kind::Lua, "b", ""), (Kind::Lua, "a", "")],
        own: &[],
    },
    Words {
        name: "a",
        version: "1-1",
        items: &[(Kind::Bin, "a", ""), (Kind::Lua, "b", "")],
        own: &[],
    },
    Words {
        name: "a",
        version: "1-1",
        items: &[(Kind::Lua, "a", ""), (Kind::Lua, "a", "")],
        own: &[],
    },
    Words {
        name: "a",
        version: "1-1",
        items: &[],
        own: &[("b", ""), ("a", "")],
    },
    Words {
        name: "a",
        version: "1-1",
        items: &[],
        own: &[("a-1-1.rockspec", "")],
    },
];

// Whether the rock and its copy have the text, and the text is read as a record of so many files.
fn is_written(alloc: Global, rock: &Rock, text: &str) -> Result<bool, Fail> {
    let copied = rock.copy(alloc)?;
    if !rock.is_in_order(alloc)? || !copied.is_in_order(alloc)? {
        return Ok(false);
    }
    let found = read_rock_manifest(alloc, text.as_bytes())?;
    Ok(
        rock_manifest_text(alloc, rock)?.as_slice() == text.as_bytes()
            && rock_manifest_text(alloc, &copied)?.as_slice() == text.as_bytes()
            && is_of(&found, rock)
            && is_of(&found.copy(alloc)?, rock),
    )
}

// Whether the items of a record are those of a rock, with the digests of their bytes.
fn is_of(found: &Record, rock: &Rock) -> bool {
    found.own.len() == rock.own.len().saturating_add(1)
        && found.items.len() == rock.items.len()
        && found.items.as_slice().iter().zip(rock.items.as_slice()).all(|(file, item)| file.0
            == item.0
            && file.1 == digest(item.1.as_slice()))
}

#[test]
fn records_are_written_and_read(rt: HostRuntime) -> Result<(), Fail> {
    for (words, text) in WRITTEN {
        let rock = rock(rt.alloc(), words)?;
        assert!(rt; is_written(rt.alloc(), &rock, text)?, "{text}");
    }
    Ok(())
}

#[test]
fn other_rocks_are_not_in_order(rt: HostRuntime) -> Result<(), Fail> {
    for words in UNORDERED {
        let rock = rock(rt.alloc(), words)?;
        assert!(rt; !rock.is_in_order(rt.alloc())?);
    }
    Ok(())
}
