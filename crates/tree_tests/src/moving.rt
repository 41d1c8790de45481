//! Moves that are made on a device in memory.

use rocks_bytes::Bytes;
use rocks_outside::{Device, MemoryDevice};
use rocks_text::TreePath;
use sqlite_items::Items;
use std::process::Abort;
use tree_moves::{Move, MoveLists, Staged, perform};

fn path(rt: &(impl Abort + AllocGlobal), text: &str) -> TreePath {
    TreePath::from_text(rt.alloc(), text).expect(rt, "a path")
}

// The files of a device: each as its path, `=`, its bytes and `;`.
fn files(rt: &(impl Abort + AllocGlobal), device: &mut MemoryDevice) -> String {
    let paths = device.list(rt.alloc(), "").expect(rt, "a listing");
    let mut text = String::new(rt.alloc());
    for path in &paths {
        let read = device.read(rt.alloc(), path).expect(rt, "a read");
        text.push_str(path.as_str()).expect(rt, "memory");
        text.push_str("=").expect(rt, "memory");
        for byte in read.expect(rt, "a file") {
            text.push(char::from(byte)).expect(rt, "memory");
        }
        text.push_str(";").expect(rt, "memory");
    }
    text
}

fn moves(rt: &(impl Abort + AllocGlobal), pairs: &[(&str, &str)]) -> Items<Move> {
    let mut moves = Items::new(rt.alloc());
    for (from, to) in pairs {
        let one = Move {
            from: path(rt, from),
            to: path(rt, to),
        };
        moves.push(one).expect(rt, "memory");
    }
    moves
}

const PLAIN: &str = "share/lua/5.4/x.lua";

const VERSIONED: &str = "share/lua/5.4/b_1_0_1-x.lua";

const MANIFEST: &str = "lib/luarocks/rocks-5.4/manifest";

const OLD: &str = "lib/luarocks/work/old/0";

const NEW: [&str; 2] = ["lib/luarocks/work/new/0", "lib/luarocks/work/new/1"];

// The lists of a rock that comes first for `x.lua`, in a tree whose other rock has it already.
fn lists(rt: &(impl Abort + AllocGlobal)) -> MoveLists {
    let mut staged = Items::new(rt.alloc());
    for (at, bytes) in [(NEW[0], b"new".as_slice()), (NEW[1], b"a".as_slice())] {
        let bytes = Vec::from_slice(rt.alloc(), bytes).expect(rt, "memory");
        let file = Staged {
            at: path(rt, at),
            bytes: Bytes::from(bytes),
        };
        staged.push(file).expect(rt, "memory");
    }
    MoveLists {
        staged,
        aside: moves(rt, &[(MANIFEST, OLD), (PLAIN, VERSIONED)]),
        place: moves(rt, &[(NEW[0], MANIFEST), (NEW[1], PLAIN)]),
    }
}

#[test]
fn a_holder_makes_room_for_another(rt: HostRuntime) {
    let mut device = MemoryDevice::new(rt.alloc()).expect(&rt, "memory");
    for (at, bytes) in [(MANIFEST, b"old".as_slice()), (PLAIN, b"abc".as_slice())] {
        device.write(&path(&rt, at), bytes).expect(&rt, "a write");
    }
    let lists = lists(&rt).copy(rt.alloc()).expect(&rt, "memory");
    perform(rt.alloc(), &mut device, &lists).expect(&rt, "moves");
    let left = files(&rt, &mut device);
    let whole =
        "lib/luarocks/rocks-5.4/manifest=new;share/lua/5.4/b_1_0_1-x.lua=abc;share/lua/5.4/x.lua=a;";
    assert!(rt; left.as_str() == whole, "{left}");
    // Two writes before, and here two, four moves, one removal and two syncs.
    assert_eq!(rt; device.clock(), 11);
}
