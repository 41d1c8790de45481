//! Laws of the records of rocks, as contracts of functions that do nothing.
ghost use Rattle.rock_manifest.specs.Records.{IsRecord};
ghost use Rattle.rock_record.specs.Rocks.{record_of, HasPaths, IsInOrder};
ghost use Rattle.rock_record.specs.declared.rock.Rock.{Rock};

/// The record of a rock whose files are in order is a record.
pub fn record_of_a_rock()
    ensures { (rock : Rock) → HasPaths rock → IsInOrder rock → IsRecord (record_of rock) }
{}
