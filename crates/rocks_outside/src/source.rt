ghost use Rattle.std.specs.Prelude.{◌≡◌, ◌≤◌, ℕ, List, Option, length, IfOk, OnErr};
ghost use Rattle.rocks_outside.specs.Counts.{HasRisen};
ghost use Rattle.rocks_outside.specs.Told.{WhereTold};
ghost use Rattle.rocks_outside.specs.Source.{Gives};

use crate::SourceError;

/// A stream of bytes to read (this project's own).
pub trait Source {
    /// The bytes that weren't read yet, where the source tells them.
    ghost left: { Self → Option (List ℕ) };

    /// How often the source has failed.
    ghost faults: { Self → ℕ };

    /// Puts the next bytes at the front of the piece and answers how many. It is 0 where the piece is empty or the
    /// stream has ended, and only there.
    ///
    /// `Failed` takes nothing, and comes only where the count of faults rose in the call.
    fn read(&mut self, into: &mut [u8]) -> Result<usize, SourceError>
        ensures within { IfOk result (λ n. n ≤ length into.old) }
        ensures given { IfOk result
            (λ n. WhereTold (Gives n into.old into.new) (left self.old) (left self.new)) }
        ensures failed { OnErr result (left self.new ≡ left self.old) }
        ensures faults { faults self.old ≤ faults self.new }
        ensures cause { OnErr result (HasRisen (faults self.old) (faults self.new)) };
}
