//! Rocks of rockspecs from tables.
use rock_build::{BuildFault, build, take};
use rock_record::Rock;
use rocks_outside::Shelf;
use rockspec::{BuildPlan, Rockspec};
use std::alloc::Global;
use std::process::Abort;
use std::test::Fail;

/// Which call makes a rock.
#[derive(Clone, Copy)]
pub enum Way {
    Build,
    Take,
}

/// What comes of the rockspec of `m` 1.0-1 with the fields of its table `build`, on the second server of a shelf. A
/// rock that is made has the bytes of its rockspec.
pub fn made<F: Shelf>(
    rt: &impl Abort,
    alloc: Global,
    way: Way,
    fields: &str,
    shelf: &mut F,
) -> Result<Result<Rock, BuildFault>, Fail> {
    let text = rockspec(alloc, fields)?;
    let spec = Rockspec::read(alloc, text.as_bytes())?;
    assert!(rt; shelf.servers() > 1);
    let made = match (way, &spec.plan) {
        (Way::Take, _) => take(alloc, &spec, text.as_bytes(), shelf, 1),
        (Way::Build, BuildPlan::Build(_)) => build(alloc, &spec, text.as_bytes(), shelf, 1),
        (Way::Build, BuildPlan::Refused(_)) => panic!(rt; "no plan of {fields}"),
    };
    if let Ok(rock) = &made {
        assert!(rt; rock.rockspec.as_slice() == text.as_bytes(), "{fields}");
    }
    Ok(made)
}

fn rockspec(alloc: Global, fields: &str) -> Result<String, Fail> {
    Ok(format!(in alloc;
        "rockspec_format = '3.0' package = 'M' version = '1.0-1' source = {{url = 'u'}} \
        dependencies = {{'lua >= 5.1', 'b'}} build = {{{fields}}}"
    )?)
}
