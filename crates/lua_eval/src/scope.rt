ghost use Rattle.std.specs.Prelude.{◌≡◌, ℕ, IfSome, OnOk};
ghost use Rattle.lua_value.specs.Ordered.{IsServed};
ghost use Rattle.lua_value.specs.View.{datum};
ghost use Rattle.lua_eval.specs.Names.{given, shown};
ghost use Rattle.lua_eval.specs.Running.{state_of};
ghost use Rattle.lua_eval.specs.Values.{assigned};

use lua_scope::{Globals, Locals};
use lua_value::Value;
use rocks_bytes::Bytes;
use std::alloc::AllocError;

/// What names stand for, while a chunk is evaluated.
#[derive(Debug, Drop)]
pub(crate) struct Scope {
    pub locals: Locals,
    pub globals: Globals,
}

impl Scope {
    /// The value of the latest local of the name, or else of the global. None where there is neither.
    pub fn value_of(&self, name: &Bytes) -> Option<&Value>
        ensures value { shown result ≡ given self.now.locals self.now.globals name.now }
        ensures served { IfSome result (λ value. IsServed (datum value.now)) }
    {
        match self.locals.get(name) {
            Some(value) => Some(value),
            None => self.globals.get(name),
        }
    }

    /// Sets the latest local of the name, or else the global. The only error is want of memory.
    pub fn assign(&mut self, name: &Bytes, value: Value) -> Result<(), AllocError>
        requires { IsServed (datum value) }
        ensures { (sum : ℕ) → OnOk result (state_of self.new sum
            ≡ assigned name.now (datum value) (state_of self.old sum)) }
    {
        match self.locals.set(name, value) {
            None => Ok(()),
            Some(value) => self.globals.set(name, value),
        }
    }
}
