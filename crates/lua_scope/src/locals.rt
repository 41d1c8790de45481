ghost use Rattle.std.specs.Prelude.{◌≡◌, [], ◌∷◌, ◌++◌, IsSome, IfSome, IfNone, OnOk, OnErr, option_map, None};
ghost use Rattle.lua_value.specs.Ordered.{IsServed};
ghost use Rattle.lua_value.specs.View.{datum};
ghost use Rattle.lua_scope.specs.Locals.{latest, reset};

use lua_value::Value;
use rocks_bytes::Bytes;
use std::alloc::{AllocError, Global};
use std::collections::BTreeMap;
use std::marker::Model;

/// The locals of a chunk, seen as the list of their names and values, the latest last
/// (Lua 5.4 manual, sections 3.3.7 and 3.5, as far as served).
#[derive(Debug, Drop)]
pub struct Locals {
    alloc: Global,
    list: Vec<(Bytes, Value)>,
    // The place in the list of the latest local of each name.
    latest: BTreeMap<Bytes, usize>,
}

impl Model for Locals {
    ghost use Rattle.std.specs.Prelude.{List, ℕ};
    ghost use Rattle.lua_value.specs.Pairs.{Datum};
    ghost use Rattle.lua_scope.specs.Code.{coded_locals};

    ghost Value = { List (List ℕ × Datum) };

    ghost coded = { coded_locals };

    ghost use Rattle.lua_scope.specs.Views.{locals_of};
    ghost use Rattle.lua_scope.specs.Places.{IsIndexed};

    ghost view = { λ l. locals_of l.list.items };

    ghost invariant = { λ l. IsIndexed l.list.items l.latest };
}

impl Locals {
    /// No locals. It takes no memory.
    pub fn new(alloc: Global) -> Locals
        ensures { result ≡ [] }
    {
        Locals {
            alloc,
            list: Vec::new(alloc),
            latest: BTreeMap::new(alloc),
        }
    }

    /// The value of the latest local of that name. None where there is none
    /// (Lua 5.4 manual, section 3.5).
    pub fn get(&self, name: &Bytes) -> Option<&Value>
        ensures value { option_map (λ value. datum value.now) result ≡ latest name.now self.now }
        ensures served { IfSome result (λ value. IsServed (datum value.now)) }
    {
        match self.latest.get(name) {
            Some(place) => Some(&self.list[*place].1),
            None => None,
        }
    }

    /// Declares a local, which hides the earlier ones of that name (Lua 5.4 manual, sections 3.3.7 and 3.5).
    /// The only error is want of memory, and it leaves the locals as they were.
    pub fn push(&mut self, name: &Bytes, value: Value) -> Result<(), AllocError>
        requires { IsServed (datum value) }
        ensures ok { OnOk result (self.new ≡ self.old ++ (name.now, datum value) ∷ []) }
        ensures err { OnErr result (self.new ≡ self.old) }
    {
        let name_in_index = name.copy(self.alloc)?;
        let name_in_list = name.copy(self.alloc)?;
        let place = self.list.len();
        self.list.push((name_in_list, value))?;
        match self.latest.insert(name_in_index, place) {
            Ok(_) => Ok(()),
            Err(_) => {
                self.list.pop();
                Err(AllocError)
            }
        }
    }

    /// Gives the latest local of that name another value (Lua 5.4 manual, section 3.3.3).
    /// Where no local has the name it gives the value back. It takes no memory.
    pub fn set(&mut self, name: &Bytes, value: Value) -> Option<Value>
        requires { IsServed (datum value) }
        ensures found { IfNone result (IsSome (latest name.now self.old)) }
        ensures set { IfNone result (self.new ≡ reset name.now (datum value) self.old) }
        ensures value { IfSome result (λ back. back ≡ value) }
        ensures missing { IfSome result (λ back. latest name.now self.old ≡ None) }
        ensures same { IfSome result (λ back. self.new ≡ self.old) }
    {
        match self.latest.get(name) {
            Some(place) => {
                let local = &mut self.list[*place];
                local.1 = value;
                None
            }
            None => Some(value),
        }
    }
}
