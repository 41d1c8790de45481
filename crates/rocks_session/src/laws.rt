//! A law of the model's answers, as the contract of a function that does nothing.
ghost use Rattle.std.specs.Prelude.{◌≡◌, List};
ghost use Rattle.rocks_text.specs.Files.{Files};
ghost use Rattle.rock_record.specs.declared.rock.Rock.{Rock};
ghost use Rattle.rocks_session.specs.Step.{ReadsNoRockspec, IsStep, Outcome};

use crate::Command;

/// A command has one outcome over what the servers hold, and no other. That `add`, `install` and `lint` have one too isn't
/// proved: nothing proves yet that the check of a table against rows comes to something for every table.
pub fn one_step()
    ensures some { (servers : List Files) (set : List Rock) (command : Command)
        → ReadsNoRockspec command → (outcome : Outcome) × IsStep servers set command outcome }
    ensures only { (servers : List Files) (set : List Rock) (command : Command)
        (one other : Outcome) → IsStep servers set command one
        → IsStep servers set command other → one ≡ other }
{}
