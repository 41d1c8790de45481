ghost use Rattle.std.specs.Prelude.{◌≡◌, ◌≤◌, ◌<◌, ◌++◌, Some, length, min, take, drop};
ghost use Rattle.std.specs.Prelude.{IfOk, OnErr, if◌then◌else◌};
ghost use Rattle.rocks_outside.specs.Counts.{HasRisen};
ghost use Rattle.rocks_outside.specs.Source.{Gives};
ghost use Rattle.rocks_outside.specs.Stream.{is_failing, given, after_call};

use crate::{Source, SourceError};
use std::marker::Model;

/// A stream of bytes in memory: for tests, and for laws about a stream that tells everything.
///
/// It tells what is left. It gives a few bytes a call, and one chosen call fails. Contracts see it as a `Stream`.
#[derive(Drop)]
pub struct MemorySource {
    bytes: Vec<u8>,
    taken: usize,
    step: usize,
    calls_left: Option<u64>,
    faults: u64,
}

impl Model for MemorySource {
    ghost use Rattle.std.specs.Prelude.{◌≤◌, length, drop};
    ghost use Rattle.rocks_outside.specs.Stream.{Stream};

    ghost Value = { Stream };

    ghost view = { λ s. record {
      left = drop s.taken s.bytes.items;
      step = s.step;
      calls_left = s.calls_left;
      faults = s.faults;
    } };

    ghost invariant = { λ s. (s.taken ≤ length s.bytes.items) × (1 ≤ s.step) };
}

impl MemorySource {
    /// A stream of these bytes, of which a call gives at most `step`, 1 or more. The call with the number `fail_at`
    /// fails, counted from 0, and no other. It takes no memory.
    pub fn new(bytes: Vec<u8>, step: usize, fail_at: Option<u64>) -> MemorySource
        requires { 1 ≤ step }
        ensures { result
            ≡ record { left = bytes.items; step = step; calls_left = fail_at; faults = 0 } }
    {
        MemorySource {
            bytes,
            taken: 0,
            step,
            calls_left: fail_at,
            faults: 0,
        }
    }
}

/// It tells what is left, and fails at the chosen call and nowhere else. `faults` stands still at the end of a `u64`.
impl Source for MemorySource {
    ghost left = { λ source. Some source.left };

    ghost faults = { λ source. source.faults };

    fn read(&mut self, into: &mut [u8]) -> Result<usize, SourceError>
        ensures within { IfOk result (λ n. n ≤ length into.old) }
        ensures given { IfOk result (λ n. Gives n into.old into.new self.old.left self.new.left) }
        ensures rest { IfOk result (λ n. drop n into.new ≡ drop n into.old) }
        ensures failed { OnErr result (Some self.new.left ≡ Some self.old.left) }
        ensures faults { self.old.faults ≤ self.new.faults }
        ensures cause { OnErr result (HasRisen self.old.faults self.new.faults) }

        // Which call fails, how many bytes each gives, and what comes after, exactly.
        ensures answer { result ≡ (if is_failing self.old.calls_left then Err SourceError.Failed
            else Ok (given (length into.old) self.old)) }
        ensures after { self.new ≡ after_call (length into.old) self.old }
        ensures untouched { OnErr result (into.new ≡ into.old) }
    {
        match self.calls_left {
            Some(0) => {
                self.calls_left = None;
                self.faults = self.faults.saturating_add(1);
                return Err(SourceError::Failed);
            }
            Some(calls) => self.calls_left = Some(calls - 1),
            None => {}
        }
        let count = hand_out(&self.bytes[self.taken..], self.step, into);
        self.taken += count;
        Ok(count)
    }
}

/// Copies at most `step` of the bytes to the front of the piece, and answers how many.
fn hand_out(bytes: &[u8], step: usize, into: &mut [u8]) -> usize
    ensures count { result ≡ min (min step (length into.old)) (length bytes.now) }
    ensures given { into.new ≡ take result bytes.now ++ drop result into.old }
{
    let count = step.min(into.len()).min(bytes.len());
    into[..count].copy_from_slice(&bytes[..count]);
    count
}
