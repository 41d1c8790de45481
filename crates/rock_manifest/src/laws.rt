//! Laws of records, as contracts of functions that do nothing.
ghost use Rattle.std.specs.Prelude.{◌≡◌};
ghost use Rattle.lua_print.specs.Printed.{HasNames};
ghost use Rattle.lua_value.specs.Ordered.{IsOrdered};
ghost use Rattle.rock_manifest.specs.Records.{IsRecord};
ghost use Rattle.rock_manifest.specs.Text.{record_pairs, record_text};
ghost use Rattle.rock_manifest.specs.declared.record.Record.{Record};

/// Two records with one text are equal.
pub fn one_record()
    ensures { (left right : Record) → IsRecord left → IsRecord right
        → record_text left ≡ record_text right → left ≡ right }
{}

/// The table whose text is the text of a record is one that `lua_print::print` takes.
pub fn printed_table()
    ensures { (whole : Record) → IsRecord whole
        → IsOrdered (record_pairs whole) × HasNames (record_pairs whole) }
{}
