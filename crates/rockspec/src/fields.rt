//! What stands at a name among the fields.
ghost use Rattle.std.specs.Prelude.{◌≡◌, IfOk, map};
ghost use Rattle.build_plan.specs.Entries.{bytes_of};
ghost use Rattle.lua_value.specs.Ordered.{IsOrdered};
ghost use Rattle.lua_value.specs.Pairs.{listed};
ghost use Rattle.lua_value.specs.View.{datum};
ghost use Rattle.rockspec.specs.Fields.{text_at, texts_at};

use build_plan::bytes_of;
use lua_value::Table;
use rockspec_table::{entry_at, table_at, value_at};
use std::alloc::{AllocError, Global};

/// The text at a name; the empty one where there is none. The only error is want of memory.
pub fn text_at<'a>(alloc: Global, fields: &'a Table, name: &str) -> Result<&'a [u8], AllocError>
    requires { IsOrdered fields.now }
    ensures { IfOk result (λ text. text.now ≡ text_at name.now fields.now) }
{
    match value_at(alloc, fields, name)? {
        Some(value) => Ok(bytes_of(value)),
        None => Ok(&[]),
    }
}

/// The texts of the list at a name; none where there is no list. The only error is want of memory.
pub fn texts_at<'a>(
    alloc: Global,
    fields: &'a Table,
    name: &str,
) -> Result<Vec<&'a [u8]>, AllocError>
    requires { IsOrdered fields.now }
    ensures { IfOk result (λ texts.
        map (λ text. text.now) texts.items ≡ texts_at name.now fields.now) }
{
    match table_at(alloc, fields, name)? {
        Some(list) => texts_of(alloc, list),
        None => Ok(Vec::new(alloc)),
    }
}

// The texts of a table, in the order of their keys.
fn texts_of(alloc: Global, list: &Table) -> Result<Vec<&[u8]>, AllocError>
    requires { IsOrdered list.now }
    ensures { IfOk result (λ texts. map (λ text. text.now) texts.items
        ≡ map (λ pair. bytes_of pair.1) (listed list.now)) }
{
    let mut texts = Vec::new(alloc);
    for at in 0..list.len() {
        texts.push(bytes_of(entry_at(list, at).1))?;
    }
    Ok(texts)
}
