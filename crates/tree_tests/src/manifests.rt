//! Texts of manifests, read and written again.

use std::alloc::Global;
use std::test::Fail;
use tree_manifest::{ManifestFault, print_manifest, read_manifest};

const EMPTY: &[u8] = b"commands = {}
dependencies = {}
libs = {}
modules = {}
repository = {}
";

const ONE: &[u8] = b"commands = {
   hello = {
      \"hello/1.0-1\",
   },
}
dependencies = {
   hello = {
      [\"1.0-1\"] = {
         {
            met = \"lua/5.4-1\",
            needs = \"lua >= 5.1, < 5.5\",
         },
      },
   },
}
libs = {}
modules = {
   [\"hello/init.lua\"] = {
      \"hello/1.0-1\",
   },
   [\"hello/util.lua\"] = {
      \"hello/1.0-1\",
   },
}
repository = {
   hello = {
      [\"1.0-1\"] = {
         {
            arch = \"installed\",
         },
      },
   },
}
";

// Versions stand by their texts, and providers by their rank: 10.0-1 is the newer one.
const MANY: &[u8] = b"commands = {}
dependencies = {
   a = {
      [\"10.0-1\"] = {},
      [\"9.0-1\"] = {
         {
            met = \"a/10.0-1\",
            needs = \"a > 9\",
         },
         {
            met = \"b-c/1-1\",
            needs = \"b-c\",
         },
      },
   },
   [\"b-c\"] = {
      [\"1-1\"] = {},
   },
}
libs = {
   [\"x.so\"] = {
      \"b-c/1-1\",
   },
}
modules = {
   [\"q\\\"q.lua\"] = {
      \"a/10.0-1\",
      \"a/9.0-1\",
      \"b-c/1-1\",
   },
   [\"x.lua\"] = {
      \"a/9.0-1\",
   },
}
repository = {
   a = {
      [\"10.0-1\"] = {
         {
            arch = \"installed\",
         },
      },
      [\"9.0-1\"] = {
         {
            arch = \"installed\",
         },
      },
   },
   [\"b-c\"] = {
      [\"1-1\"] = {
         {
            arch = \"installed\",
         },
      },
   },
}
";

// How many rocks the manifest has that bytes are the text of, which is then written as it was read; None where they are
// the text of none.
fn rocks_in(alloc: Global, bytes: &[u8]) -> Result<Option<usize>, Fail> {
    let view = match read_manifest(alloc, bytes) {
        Ok(view) => view,
        Err(ManifestFault::NotCanonical) => return Ok(None),
        Err(fault) => return Err(Fail::from(fault)),
    };
    let copied = view.copy(alloc)?;
    let text = print_manifest(alloc, &copied)?;
    if text.as_slice() == bytes {
        Ok(Some(view.rocks.as_slice().len()))
    } else {
        Ok(None)
    }
}

#[test]
fn manifests_are_read_and_written(rt: HostRuntime) -> Result<(), Fail> {
    assert_eq!(rt; rocks_in(rt.alloc(), EMPTY)?, Some(0));
    assert_eq!(rt; rocks_in(rt.alloc(), ONE)?, Some(1));
    assert_eq!(rt; rocks_in(rt.alloc(), MANY)?, Some(3));
    Ok(())
}

// How many texts with one byte of a manifest dropped are those of one.
fn read_with_one_less(alloc: Global, text: &[u8]) -> Result<u32, Fail> {
    let mut count = 0u32;
    for at in 0..text.len() {
        let mut less = Vec::from_slice(alloc, text)?;
        less.remove(at);
        if rocks_in(alloc, &less)?.is_some() {
            count = count.saturating_add(1);
        }
    }
    Ok(count)
}

// A byte may go from the written dependency (8 of its bytes), from the rock that meets it (7), from the command's path (5),
// from each provider's name or version (9 of each of 3), and from the two modules' paths where they stay in order (10
// and 12). The names and versions of rocks stand in two tables.
#[test]
fn other_texts_are_refused(rt: HostRuntime) -> Result<(), Fail> {
    assert_eq!(rt; rocks_in(rt.alloc(), b"")?, None);
    assert_eq!(rt; rocks_in(rt.alloc(), b"x")?, None);
    assert_eq!(rt; read_with_one_less(rt.alloc(), EMPTY)?, 0);
    assert_eq!(rt; read_with_one_less(rt.alloc(), ONE)?, 69);
    Ok(())
}
