//! Whether a rock is for the platforms that are served, `unix` and `linux`.
ghost use Rattle.std.specs.Prelude.{◌≡◌, IfOk};
ghost use Rattle.std.specs.List.{list_all};
ghost use Rattle.lua_value.specs.Ordered.{IsOrdered};
ghost use Rattle.rockspec.specs.Fields.{denies, is_supported};
ghost use Rattle.rockspec.specs.Entries.{are_entries_supported, has_entry};

use crate::fields::texts_at;
use lua_value::Table;
use std::alloc::{AllocError, Global};

/// Whether neither platform is denied, and one is listed or none at all (LuaRocks documentation, rockspec format:
/// supported_platforms). The only error is want of memory.
pub fn is_supported(alloc: Global, fields: &Table) -> Result<bool, AllocError>
    requires { IsOrdered fields.now }
    ensures { IfOk result (λ is. is ≡ is_supported fields.now) }
{
    let entries = texts_at(alloc, fields, "supported_platforms")?;
    Ok(are_supported(&entries))
}

fn are_supported(entries: &[&[u8]]) -> bool
    ensures { result ≡ are_entries_supported entries.now }
{
    if has_text(entries, b"!unix") || has_text(entries, b"!linux") {
        return false;
    }
    has_text(entries, b"unix") || has_text(entries, b"linux") || all_deny(entries)
}

fn has_text(entries: &[&[u8]], text: &[u8]) -> bool
    ensures { result ≡ has_entry entries.now text.now }
{
    entries.iter().any(|entry| text == *entry)
}

fn all_deny(entries: &[&[u8]]) -> bool
    ensures { result ≡ list_all (λ entry. denies entry.now) entries.now }
{
    entries.iter().all(|entry| entry.starts_with(b"!"))
}
