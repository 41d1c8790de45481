//! Calls of a device, as rows of a table.

use rocks_outside::Device;
use rocks_text::TreePath;
use std::process::Abort;

/// A call that changes a device or makes it say something.
#[derive(Clone, Copy, Debug)]
pub enum Call {
    Write(&'static str, &'static str),
    Rename(&'static str, &'static str),
    Remove(&'static str),
    Sync,
    Say(&'static str),
}

/// A call, whether it is done, and the files after it.
pub type Step = (Call, bool, &'static str);

/// A path within a tree.
pub fn tree_path(rt: &(impl Abort + AllocGlobal), text: &str) -> TreePath {
    TreePath::from_text(rt.alloc(), text).expect(rt, text)
}

/// Makes each call in turn, and looks at the files after it.
pub fn take_steps<D: Device>(rt: &(impl Abort + AllocGlobal), device: &mut D, steps: &[Step]) {
    for step in steps {
        take_step(rt, device, step);
    }
}

fn take_step<D: Device>(rt: &(impl Abort + AllocGlobal), device: &mut D, step: &Step) {
    let (call, done, told) = step;
    assert!(rt; is_done(rt, device, call) == *done, "{call:?}");
    assert!(rt; files(rt, device, "").as_str() == *told, "{call:?}");
}

/// Makes a call, and answers whether it was done.
pub fn is_done<D: Device>(rt: &(impl Abort + AllocGlobal), device: &mut D, call: &Call) -> bool {
    match call {
        Call::Write(path, bytes) => device.write(&tree_path(rt, path), bytes.as_bytes()).is_ok(),
        Call::Rename(from, to) => device
            .rename(&tree_path(rt, from), &tree_path(rt, to))
            .is_ok(),
        Call::Remove(path) => device.remove(&tree_path(rt, path)).is_ok(),
        Call::Sync => device.sync().is_ok(),
        Call::Say(text) => device.say(text.as_bytes()).is_ok(),
    }
}

/// The files of a tree that begin so, each as `path=bytes;`.
pub fn files<D: Device>(rt: &(impl Abort + AllocGlobal), device: &mut D, prefix: &str) -> String {
    let alloc = rt.alloc();
    let mut text = String::new(alloc);
    let paths = device.list(alloc, prefix).expect(rt, "a listing");
    for path in &paths {
        let file = file(rt, device, path);
        text.push_str(file.as_str()).expect(rt, "memory");
    }
    text
}

fn file<D: Device>(rt: &(impl Abort + AllocGlobal), device: &mut D, path: &TreePath) -> String {
    let read = device.read(rt.alloc(), path).expect(rt, "a read");
    let bytes = read.expect(rt, "a file that was listed");
    let path = path.as_str();
    let text = str::from_utf8(&bytes).expect(rt, path);
    format!(in rt.alloc(); "{path}={text};").expect(rt, "memory")
}
