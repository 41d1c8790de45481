use std::alloc::AllocError;

/// Why words say no command.
#[derive(Clone, Copy, Debug, PartialEq, Eq)]
pub enum WordsFault {
    /// The options are not `--tree DIR` and then `--from DIR` at most 8 times.
    Options,
    /// The word with this number fits no command. Words are counted from 0, without the options; where words are
    /// missing, it is their count.
    BadWords { which: u32 },
    /// Memory ran out.
    NoMemory,
}

impl From<AllocError> for WordsFault {
    ghost use Rattle.std.specs.Prelude.{◌≡◌};
    ghost use Rattle.rocks_command.specs.declared.fault.WordsFault.TheVariants.{NoMemory};

    ghost from_gives = { λ _ fault. fault ≡ NoMemory };

    fn from(_: AllocError) -> WordsFault {
        WordsFault::NoMemory
    }
}
