//! The laws, called once each.
use build_targets::Listing;
use lua_value::{Key, Table};
use rocks_bytes::Bytes;
use std::test::Fail;

#[test]
fn laws_are_called(rt: HostRuntime) -> Result<(), Fail> {
    let globals = Table::new(rt.alloc());
    rockspec_table::laws::one_answer(&globals);
    rockspec_table::laws::platforms_go(&globals);
    let key = Key::Text(Bytes::from(Vec::from_slice(rt.alloc(), b"a")?));
    build_targets::laws::targets_are_paths(Listing::Bin, &key, b"x");
    build_targets::laws::dot_slash_goes(Listing::Bin, &key, b"x");
    rockspec::laws::one_spec();
    rockspec::laws::names_and_versions();
    build_plan::laws::one_plan();
    build_plan::laws::targets_are_apart();
    build_plan::laws::none_takes_no_modules();
    Ok(())
}
