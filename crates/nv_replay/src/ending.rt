//! How what is done with books ends.
ghost use Rattle.std.specs.Prelude.{◌≡◌};
ghost use Rattle.nv_replay.specs.inside.Endings.{end_of_unread};

use nv_book::Unread;

/// How a replay ends.
#[derive(Clone, Copy, PartialEq, Eq, Debug)]
pub enum ReplayEnd {
    Done,
    NoMemory,
    ReadFault,
    WriteFault,
    /// What was read is no book, by the value at this byte.
    Malformed(u64),
    /// The book's output of this entry isn't the one that the entry gives.
    Differs(u64),
    /// The watcher at this place, from 0, says no at this entry.
    Objects { watcher: u64, entry: u64 },
}

/// How the writing of a book ends.
#[derive(Clone, Copy, PartialEq, Eq, Debug)]
pub enum WriteEnd {
    Done,
    NoMemory,
    WriteFault,
}

/// The end where no book is read.
pub fn end_of_unread(fault: Unread) -> ReplayEnd
    ensures { result ≡ end_of_unread fault }
{
    match fault {
        Unread::NoMemory => ReplayEnd::NoMemory,
        Unread::ReadFault => ReplayEnd::ReadFault,
        Unread::Malformed(place) => ReplayEnd::Malformed(place),
    }
}
