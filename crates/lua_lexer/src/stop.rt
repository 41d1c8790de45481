ghost use Rattle.std.specs.Prelude.{◌≡◌};
ghost use Rattle.lua_lexer.specs.declared.stop.Stop.TheVariants.{NoMemory};

use std::alloc::{AllocError, AllocFailed};

/// What is wrong with a token.
#[derive(Clone, Copy, Debug, PartialEq, Eq)]
pub enum Cause {
    BadByte,
    OpenString,
    OpenBracket,
    BadEscape,
    BadNumeral,
    NumberTooLarge,
}

/// Why reading stopped: for want of memory, or at a fault, with the number of bytes that are left at its
/// place, the byte there included.
#[derive(Debug, Drop)]
pub enum Stop {
    NoMemory,
    At(Cause, usize),
}

impl From<AllocError> for Stop {
    ghost from_gives = { λ _ stop. stop ≡ NoMemory };

    fn from(_error: AllocError) -> Stop {
        Stop::NoMemory
    }
}

impl<T: Drop> From<AllocFailed<T>> for Stop {
    ghost from_gives = { λ _ stop. stop ≡ NoMemory };

    fn from(_error: AllocFailed<T>) -> Stop {
        Stop::NoMemory
    }
}
