//! Laws of locals and globals, as contracts of functions that do nothing.
ghost use Rattle.std.specs.Prelude.{◌≡◌, ◌≢◌, [], ◌∷◌, ◌++◌, IsSome, Some, None};
ghost use Rattle.lua_value.specs.declared.key.Key.TheVariants.{Text};
ghost use Rattle.lua_value.specs.Ordered.{IsOrdered, IsServed};
ghost use Rattle.lua_value.specs.Pairs.{nil, value_at};
ghost use Rattle.lua_value.specs.View.{datum};
ghost use Rattle.lua_scope.specs.Globals.{with_global};
ghost use Rattle.lua_scope.specs.Locals.{latest, reset};

use crate::globals::Globals;
use crate::locals::Locals;
use lua_value::{Key, Value};
use rocks_bytes::Bytes;

/// A local that was just declared is the latest of its name.
pub fn declared(locals: &Locals, name: &Bytes, value: &Value)
    ensures { latest name.now (locals.now ++ (name.now, datum value.now) ∷ [])
        ≡ Some (datum value.now) }
{}

/// A local that was just declared hides none of another name.
pub fn declared_other(locals: &Locals, name: &Bytes, value: &Value, other: &Bytes)
    requires { other.now ≢ name.now }
    ensures { latest other.now (locals.now ++ (name.now, datum value.now) ∷ [])
        ≡ latest other.now locals.now }
{}

/// A local that was given a value has it.
pub fn reset_name(locals: &Locals, name: &Bytes, value: &Value)
    requires { IsSome (latest name.now locals.now) }
    ensures { latest name.now (reset name.now (datum value.now) locals.now)
        ≡ Some (datum value.now) }
{}

/// The locals of other names keep their values when one is given a value.
pub fn reset_other(locals: &Locals, name: &Bytes, value: &Value, other: &Bytes)
    requires { other.now ≢ name.now }
    ensures { latest other.now (reset name.now (datum value.now) locals.now)
        ≡ latest other.now locals.now }
{}

/// A global that was set to a value that isn't nil has it.
pub fn global_name(globals: &Globals, name: &Bytes, value: &Value)
    requires { datum value.now ≢ nil }
    ensures { value_at (Text name.now) (with_global name.now (datum value.now) globals.now)
        ≡ Some (datum value.now) }
{}

/// A global that was set to nil is absent.
pub fn global_nil(globals: &Globals, name: &Bytes)
    requires { IsOrdered globals.now }
    ensures { value_at (Text name.now) (with_global name.now nil globals.now) ≡ None }
{}

/// The other keys keep their values when a global is set.
pub fn global_other(globals: &Globals, name: &Bytes, value: &Value, other: &Key)
    requires { other.now ≢ Text name.now }
    ensures { value_at other.now (with_global name.now (datum value.now) globals.now)
        ≡ value_at other.now globals.now }
{}

/// Globals stay in key order, at every depth, when one is set.
pub fn global_order(globals: &Globals, name: &Bytes, value: &Value)
    requires ordered { IsOrdered globals.now }
    requires value { IsServed (datum value.now) }
    ensures { IsOrdered (with_global name.now (datum value.now) globals.now) }
{}
