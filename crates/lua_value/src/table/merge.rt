ghost use Rattle.std.specs.Prelude.{◌≡◌, ◌++◌, ◌≤◌, IfOk, OnOk, Some, drop, length};
ghost use Rattle.chunked_list.specs.Items.{items, IsChunked};
ghost use Rattle.lua_value.specs.Merge.{merged_pairs, merged_value};
ghost use Rattle.lua_value.specs.Ordered.{IsOrdered, IsServed};
ghost use Rattle.lua_value.specs.View.{datum, pairs_of};

use super::copy::copy_entry;
use super::{Table, Value};
use crate::key::Key;
use chunked_list::ChunkedList;
use std::alloc::{AllocError, Global};
use std::cmp::Ordering;

impl Table {
    /// This table with another one merged over it, by key: where both values are tables they are
    /// merged, and else the upper one's stands (this project's own). The only error is want of memory.
    #[cycle(merge)]
    pub fn merged(&self, alloc: Global, over: &Table) -> Result<Table, AllocError>
        requires lower { IsOrdered self.now }
        requires upper { IsOrdered over.now }
        ensures ordered { IfOk result (λ table. IsOrdered table) }
        ensures value { IfOk result (λ table. table ≡ merged_pairs self.now over.now) }
    {
        Ok(Table {
            entries: merged_entries(alloc, &self.entries, &over.entries)?,
        })
    }
}

// The entries of two tables, merged from their fronts.
#[cycle(merge)]
fn merged_entries(
    alloc: Global,
    lower: &ChunkedList<(Key, Value)>,
    upper: &ChunkedList<(Key, Value)>,
) -> Result<ChunkedList<(Key, Value)>, AllocError>
    requires lower_whole { IsChunked lower.now }
    requires upper_whole { IsChunked upper.now }
    requires lower { IsOrdered (pairs_of (items lower.now)) }
    requires upper { IsOrdered (pairs_of (items upper.now)) }
    ensures whole { IfOk result (λ entries. IsChunked entries) }
    ensures value { IfOk result (λ entries. pairs_of (items entries)
        ≡ merged_pairs (pairs_of (items lower.now)) (pairs_of (items upper.now))) }
{
    let mut entries = ChunkedList::new(alloc);
    let mut low = 0;
    let mut high = 0;
    while low < lower.len() && high < upper.len() {
        let below = lower.item(low);
        let above = upper.item(high);
        match below.0.cmp(&above.0) {
            Ordering::Less => {
                entries.push(copy_entry(alloc, below)?)?;
                low += 1;
            }
            Ordering::Greater => {
                entries.push(copy_entry(alloc, above)?)?;
                high += 1;
            }
            Ordering::Equal => {
                let key = above.0.copy(alloc)?;
                entries.push((key, merged_value(alloc, &below.1, &above.1)?))?;
                low += 1;
                high += 1;
            }
        }
    }
    copy_rest(alloc, lower, low, &mut entries)?;
    copy_rest(alloc, upper, high, &mut entries)?;
    Ok(entries)
}

// What stands at a key after a merge, where both tables have the key.
#[cycle(merge)]
fn merged_value(alloc: Global, lower: &Value, upper: &Value) -> Result<Value, AllocError>
    requires lower { IsServed (datum lower.now) }
    requires upper { IsServed (datum upper.now) }
    ensures { IfOk result
        (λ value. datum value ≡ merged_value (Some (datum lower.now)) (datum upper.now)) }
{
    match (lower, upper) {
        (Value::Table(below), Value::Table(above)) => {
            Ok(Value::Table(below.merged(alloc, above)?))
        }
        _ => upper.copy(alloc),
    }
}

// Puts copies of the entries from a place on behind those that are there.
fn copy_rest(
    alloc: Global,
    from: &ChunkedList<(Key, Value)>,
    start: usize,
    into: &mut ChunkedList<(Key, Value)>,
) -> Result<(), AllocError>
    requires from_whole { IsChunked from.now }
    requires into_whole { IsChunked into.old }
    requires within { start ≤ length (items from.now) }
    ensures whole { IsChunked into.new }
    ensures value { OnOk result (items into.new ≡ items into.old ++ drop start (items from.now)) }
{
    for at in start..from.len() {
        into.push(copy_entry(alloc, from.item(at))?)?;
    }
    Ok(())
}
