//! Why a book isn't written, or isn't read.
ghost use Rattle.std.specs.Prelude.{◌≡◌};

use std::alloc::AllocError;
use thiserror::Error;

/// Why a book is written in part.
#[derive(Debug, Drop, Error)]
pub enum BookFault {
    #[error("out of memory")]
    NoMemory,
    #[error("write fault")]
    WriteFault,
    /// The entry of this number has no spelling within the bounds of a book.
    #[error("no spelling of entry {0}")]
    Unfit(u64),
}

/// Why a book isn't read.
#[derive(Debug, Drop, Error)]
pub enum Unread {
    #[error("out of memory")]
    NoMemory,
    #[error("read fault")]
    ReadFault,
    /// At this byte a value begins, or is missing, by which the bytes are no book.
    #[error("malformed at {0}")]
    Malformed(u64),
}

impl From<AllocError> for BookFault {
    ghost use Rattle.nv_book.specs.declared.faults.BookFault.{BookFault};

    ghost from_gives = { λ _ fault. fault ≡ BookFault.NoMemory };

    fn from(_error: AllocError) -> Self {
        BookFault::NoMemory
    }
}

impl From<AllocError> for Unread {
    ghost use Rattle.nv_book.specs.declared.faults.Unread.{Unread};

    ghost from_gives = { λ _ fault. fault ≡ Unread.NoMemory };

    fn from(_error: AllocError) -> Self {
        Unread::NoMemory
    }
}
