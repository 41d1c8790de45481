ghost use Rattle.std.specs.Prelude.{◌≡◌, ◌≢◌, ◌↔◌, IsTrue, IfOk, IfSome, OnErr, MatchResult, option_map, slice_get};
ghost use Rattle.chunked_list.specs.Items.{items, IsChunked};
ghost use Rattle.lua_value.specs.Key.{key_cmp, IsKey};
ghost use Rattle.lua_value.specs.Ordered.{IsOrdered, IsServed};
ghost use Rattle.lua_value.specs.Pairs.{no_pairs, count, listed, value_at, put, IsList};
ghost use Rattle.lua_value.specs.View.{datum, pairs_of};
ghost use Rattle.lua_value.specs.Place.{IsPlaceOf, IsGapFor};

use crate::key::Key;
use chunked_list::ChunkedList;
use rocks_bytes::Bytes;
use std::alloc::{AllocError, Global};
use std::cmp::Ordering;
use std::marker::Model;

mod copy;
mod merge;

/// What a Lua text evaluates to (Lua 5.4 manual, section 2.1, as far as served).
#[cycle(table)]
#[derive(Debug, Drop)]
pub enum Value {
    Nil,
    Bool(bool),
    /// At most 9,223,372,036,854,775,807.
    Int(u64),
    /// Any bytes.
    Text(Bytes),
    Table(Table),
}

/// Keys, each with its value, in key order. No key comes twice, no value is Nil, and integers are
/// at most 9,223,372,036,854,775,807; so it is in each table within (this project's own).
#[cycle(table)]
#[derive(Debug, Drop)]
pub struct Table {
    entries: ChunkedList<(Key, Value)>,
}

impl Model for Table {
    ghost use Rattle.lua_value.specs.Pairs.{Pairs};
    ghost use Rattle.lua_value.specs.Code.{coded_pairs};

    ghost Value = { Pairs };

    ghost coded = { coded_pairs };

    ghost use Rattle.chunked_list.specs.Items.{items, IsChunked};
    ghost use Rattle.lua_value.specs.Depth.{depth};
    ghost use Rattle.lua_value.specs.View.{pairs_of};

    ghost view = { λ t. pairs_of (items t.entries) };

    ghost invariant = { λ t. IsChunked t.entries };

    ghost size = { depth };

    ghost use Rattle.std.proofs.Common.{arith};
    ghost use Rattle.lua_value.specs.Falls.{most_le-depth};

    ghost size_decreases = { λ t h. omega (arith, most_le-depth t.entries.blocks.items) };
}

impl Table {
    /// A table with no key. It takes no memory.
    pub fn new(alloc: Global) -> Table
        ensures { result ≡ no_pairs }
    {
        Table {
            entries: ChunkedList::new(alloc),
        }
    }

    /// How many keys the table has.
    pub fn len(&self) -> usize
        ensures { result ≡ count self.now }
    {
        self.entries.len()
    }

    /// The key and the value at a place in key order, counted from 0.
    /// None where the table has no more than `at` keys.
    pub fn entry(&self, at: usize) -> Option<(&Key, &Value)>
        requires { IsOrdered self.now }
        ensures value { option_map (λ e. (e.0.now, datum e.1.now)) result
            ≡ slice_get (listed self.now) at }
        ensures served { IfSome result
            (λ e. IsKey e.0.now × (e.1.now ≢ Value.Nil) × IsServed (datum e.1.now)) }
    {
        if at < self.entries.len() {
            let (key, value) = self.entries.item(at);
            return Some((key, value));
        }
        None
    }

    /// The value at the key. None where the table doesn't have the key.
    pub fn get(&self, key: &Key) -> Option<&Value>
        requires { IsOrdered self.now }
        ensures value { option_map (λ value. datum value.now) result ≡ value_at key.now self.now }
        ensures served { IfSome result
            (λ value. (value.now ≢ Value.Nil) × IsServed (datum value.now)) }
    {
        match place(&self.entries, key) {
            Ok(at) => Some(&self.entries.item(at).1),
            Err(_) => None,
        }
    }

    /// Sets the value at the key, and answers the value that stood there;
    /// None where the table didn't have the key.
    /// The only error is want of memory, and it leaves the table as it was.
    pub fn insert(&mut self, key: Key, value: Value) -> Result<Option<Value>, AllocError>
        requires ordered { IsOrdered self.old }
        requires key { IsKey key }
        requires not_nil { value ≢ Value.Nil }
        requires value { IsServed (datum value) }
        ensures ordered { IsOrdered self.new }
        ensures ok { IfOk result (λ old. self.new ≡ put key (datum value) self.old) }
        ensures old { IfOk result (λ old. option_map datum old ≡ value_at key self.old) }
        ensures err { OnErr result (self.new ≡ self.old) }
    {
        match place(&self.entries, &key) {
            Ok(at) => {
                let (_, old) = self.entries.replace(at, (key, value));
                Ok(Some(old))
            }
            Err(at) => {
                self.entries.insert(at, (key, value))?;
                Ok(None)
            }
        }
    }

    /// Whether the keys are 1 to n, for some n.
    pub fn is_list(&self) -> bool
        ensures { IsTrue result ↔ IsList self.now }
    {
        for at in 0..self.entries.len() {
            if !is_number(&self.entries.item(at).0, (at + 1) as u64) {
                return false;
            }
        }
        true
    }
}

fn is_number(key: &Key, number: u64) -> bool
    ensures { IsTrue result ↔ (key.now ≡ Key.Int number) }
{
    match key {
        Key::Int(found) => *found == number,
        _ => false,
    }
}

// Where the key is, or else where it would go.
fn place(entries: &ChunkedList<(Key, Value)>, key: &Key) -> Result<usize, usize>
    requires whole { IsChunked entries.now }
    requires ordered { IsOrdered (pairs_of (items entries.now)) }
    ensures { MatchResult result
        (IsPlaceOf key.now (items entries.now)) (IsGapFor key.now (items entries.now)) }
{
    entries.binary_search_by(
        |entry: &(Key, Value)| -> Ordering
            ensures { result ≡ key_cmp entry.entry.now.0 key.entry.now }
        { entry.0.cmp(key) },
    )
}
