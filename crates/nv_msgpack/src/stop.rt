//! Why a reading gives no value.
ghost use Rattle.std.specs.Prelude.{◌≡◌};
ghost use Rattle.nv_msgpack.specs.declared.stop.Stop.TheVariants.{NoMemory};

use std::alloc::{AllocError, AllocFailed};

/// Why no spelling begins so.
#[derive(Clone, Copy, Debug, PartialEq, Eq)]
pub enum Fault {
    /// An unused first byte.
    Bad,
    /// A list or map in too many others.
    TooDeep,
    /// A value that would pass the greatest number of bytes.
    TooLong,
}

#[derive(Debug, Drop)]
pub enum Stop {
    NoMemory,
    /// The bytes end before the value does.
    NeedsMore,
    /// The fault, and the byte at which the faulty value begins.
    Flawed(Fault, usize),
}

impl From<AllocError> for Stop {
    ghost from_gives = { λ _ stop. stop ≡ NoMemory };

    fn from(_error: AllocError) -> Stop {
        Stop::NoMemory
    }
}

impl<T: Drop> From<AllocFailed<T>> for Stop {
    ghost from_gives = { λ _ stop. stop ≡ NoMemory };

    fn from(_error: AllocFailed<T>) -> Stop {
        Stop::NoMemory
    }
}
