ghost use Rattle.std.specs.Prelude.{◌≡◌, ◌≤◌};

use rocks_outside::{Source, SourceError};
use std::io::Read;

/// Standard input. It tells nothing of what it has left.
#[derive(Drop)]
pub struct StdSource<R: Input + Drop> {
    rt: R,
    faults: u64,
}

impl<R: Input + Drop> StdSource<R> {
    /// The standard input of the program.
    pub fn new(rt: R) -> StdSource<R>
        ensures { result.faults ≡ 0 }
    {
        StdSource { rt, faults: 0 }
    }
}

impl<R: Input + Drop> Source for StdSource<R> {
    ghost use Rattle.std.specs.Prelude.{None};

    ghost left = { λ _. None };

    ghost faults = { λ s. s.faults };

    fn read(&mut self, into: &mut [u8]) -> Result<usize, SourceError> {
        match self.rt.reader().read(into) {
            Ok(n) => Ok(n),
            Err(_) => {
                self.faults = self.faults.saturating_add(1);
                Err(SourceError::Failed)
            }
        }
    }
}
