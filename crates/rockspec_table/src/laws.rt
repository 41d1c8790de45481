//! Laws of globals and of fields, as contracts of functions that do nothing.
ghost use Rattle.std.specs.Prelude.{◌≡◌, ◌≢◌};
ghost use Rattle.lua_value.specs.Ordered.{IsOrdered};
ghost use Rattle.lua_value.specs.Pairs.{Pairs, keys};
ghost use Rattle.schema_table.specs.declared.row.Format.{Format};
ghost use Rattle.rockspec_table.specs.declared.fault.TableFault.{TableFault};
ghost use Rattle.rockspec_table.specs.declared.fault.TableFault.TheVariants.{NoMemory};
ghost use Rattle.rockspec_table.specs.Fields.{HasFields, IsTableFault};
ghost use Rattle.rockspec_table.specs.Platforms.{merged_fields};

use lua_value::Table;

/// Globals are the fields of a rockspec in one way at most, and else have one fault at most, besides want of memory.
pub fn one_answer(globals: &Table)
    ensures fields { (format other : Format) (table found : Pairs)
        → HasFields globals.now format table → HasFields globals.now other found
        → (format ≡ other) × (table ≡ found) }
    ensures fault { (fault other : TableFault) → fault ≢ NoMemory → other ≢ NoMemory
        → IsTableFault globals.now fault → IsTableFault globals.now other → fault ≡ other }
    ensures apart { (format : Format) (table : Pairs) (fault : TableFault) → fault ≢ NoMemory
        → HasFields globals.now format table → ¬ IsTableFault globals.now fault }
{}

/// The globals with the tables for platforms merged have the keys of the globals, and are ordered where these are.
pub fn platforms_go(globals: &Table)
    requires { IsOrdered globals.now }
    ensures ordered { IsOrdered (merged_fields globals.now) }
    ensures keys { keys (merged_fields globals.now) ≡ keys globals.now }
{}
