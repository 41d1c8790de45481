//! Records of many files.

use rock_record::{RecordFault, read_rock_manifest};
use std::alloc::Global;
use std::test::Fail;

const MANY: u32 = 5_000;

// The text of a record of many modules, in rising order or in falling.
fn text(alloc: Global, rises: bool) -> Result<String, Fail> {
    let mut text = String::from_str(alloc, "bin = {}\nlib = {}\nlua = {\n")?;
    for i in 0..MANY {
        let number = if rises { 10_000 + i } else { 20_000 - i };
        let line = format!(in alloc; "   m{number} = \"d41d8cd98f00b204e9800998ecf8427e\",\n")?;
        text.push_str(line.as_str())?;
    }
    text.push_str("}\nown = {}\n")?;
    Ok(text)
}

#[test]
fn many_paths_in_order_are_read(rt: HostRuntime) -> Result<(), Fail> {
    let text = text(rt.alloc(), true)?;
    let found = read_rock_manifest(rt.alloc(), text.as_bytes())?;
    assert_eq!(rt; found.items.len(), 5_000);
    Ok(())
}

#[test]
fn many_paths_in_falling_order_are_refused(rt: HostRuntime) -> Result<(), Fail> {
    let text = text(rt.alloc(), false)?;
    let refused = match read_rock_manifest(rt.alloc(), text.as_bytes()) {
        Ok(_) => false,
        Err(fault) => fault == RecordFault::BadRecord,
    };
    assert!(rt; refused);
    Ok(())
}
