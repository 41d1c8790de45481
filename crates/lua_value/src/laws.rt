//! Laws of tables, as contracts of functions that do nothing.
ghost use Rattle.std.specs.Prelude.{◌≡◌, ◌≢◌, Some};
ghost use Rattle.lua_value.specs.Merge.{merged_pairs, merged_at};
ghost use Rattle.lua_value.specs.Ordered.{IsOrdered};
ghost use Rattle.lua_value.specs.Pairs.{no_pairs, value_at, put};
ghost use Rattle.lua_value.specs.View.{datum};

use crate::key::Key;
use crate::table::{Table, Value};

/// After a key and a value are put in, that key has that value.
pub fn put_key(table: &Table, key: &Key, value: &Value)
    ensures { value_at key.now (put key.now (datum value.now) table.now)
        ≡ Some (datum value.now) }
{}

/// After a key and a value are put in, every other key has what it had before.
pub fn put_other(table: &Table, key: &Key, value: &Value, other: &Key)
    requires { other.now ≢ key.now }
    ensures { value_at other.now (put key.now (datum value.now) table.now)
        ≡ value_at other.now table.now }
{}

/// An empty table changes nothing in a merge, whether it is the upper or the lower one.
pub fn merged_with_empty(table: &Table)
    requires { IsOrdered table.now }
    ensures over { merged_pairs table.now no_pairs ≡ table.now }
    ensures under { merged_pairs no_pairs table.now ≡ table.now }
{}

/// Merging the upper table a second time changes nothing.
pub fn merged_again(lower: &Table, upper: &Table)
    requires lower { IsOrdered lower.now }
    requires upper { IsOrdered upper.now }
    ensures { merged_pairs (merged_pairs lower.now upper.now) upper.now
        ≡ merged_pairs lower.now upper.now }
{}

/// What a key has after a merge depends on what it has in the two tables, and on nothing else of them.
pub fn merged_key(lower: &Table, upper: &Table, key: &Key)
    ensures { value_at key.now (merged_pairs lower.now upper.now)
        ≡ merged_at (value_at key.now lower.now) (value_at key.now upper.now) }
{}
