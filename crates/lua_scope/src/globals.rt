ghost use Rattle.std.specs.Prelude.{◌≡◌, ◌≢◌, IfOk, IfSome, OnOk, OnErr, option_map};
ghost use Rattle.lua_value.specs.declared.key.Key.TheVariants.{Text};
ghost use Rattle.lua_value.specs.Ordered.{IsOrdered, IsServed};
ghost use Rattle.lua_value.specs.Pairs.{no_pairs, value_at};
ghost use Rattle.lua_value.specs.View.{datum};
ghost use Rattle.lua_scope.specs.Globals.{with_global};

use lua_value::{Key, Table, Value};
use rocks_bytes::Bytes;
use std::alloc::{AllocError, Global};
use std::collections::BTreeMap;
use std::marker::Model;

/// The globals of a chunk, seen as the pairs of a table whose keys are texts
/// (Lua 5.4 manual, section 2.2, as far as served).
#[derive(Debug, Drop)]
pub struct Globals {
    alloc: Global,
    // A global that was taken away may stay, with Nil.
    map: BTreeMap<Bytes, Value>,
}

impl Model for Globals {
    ghost use Rattle.lua_value.specs.Pairs.{Pairs};
    ghost use Rattle.lua_value.specs.Code.{coded_pairs};

    ghost Value = { Pairs };

    ghost coded = { coded_pairs };

    ghost use Rattle.lua_scope.specs.Views.{globals_of, IsGlobals};

    ghost view = { λ g. globals_of g.map.entries };

    ghost invariant = { λ g. IsGlobals g.map };
}

impl Globals {
    /// No globals. It takes no memory.
    pub fn new(alloc: Global) -> Globals
        ensures { result ≡ no_pairs }
    {
        Globals {
            alloc,
            map: BTreeMap::new(alloc),
        }
    }

    /// The value of the global. None where there is none, and so it's never Nil.
    pub fn get(&self, name: &Bytes) -> Option<&Value>
        ensures value { option_map (λ value. datum value.now) result
            ≡ value_at (Text name.now) self.now }
        ensures not_nil { IfSome result (λ value. value.now ≢ Value.Nil) }
        ensures served { IfSome result (λ value. IsServed (datum value.now)) }
    {
        let value = self.map.get(name)?;
        match value {
            Value::Nil => None,
            _ => Some(value),
        }
    }

    /// Sets the global, or takes it away where the value is Nil (Lua 5.4 manual, sections 2.2 and 3.3.3).
    /// The only error is want of memory, and it leaves the globals as they were.
    pub fn set(&mut self, name: &Bytes, value: Value) -> Result<(), AllocError>
        requires { IsServed (datum value) }
        ensures ok { OnOk result (self.new ≡ with_global name.now (datum value) self.old) }
        ensures err { OnErr result (self.new ≡ self.old) }
    {
        let copied = name.copy(self.alloc)?;
        self.map.insert(copied, value)?;
        Ok(())
    }

    /// The globals as a table. It moves their values there. The only error is want of memory.
    pub fn into_table(self) -> Result<Table, AllocError>
        ensures same { IfOk result (λ table. table ≡ self) }
        ensures ordered { IfOk result (λ table. IsOrdered table) }
    {
        let mut table = Table::new(self.alloc);
        for (name, value) in self.map {
            match value {
                Value::Nil => {}
                value => {
                    table.insert(Key::Text(name), value)?;
                }
            }
        }
        Ok(table)
    }
}
