//! What an event does to a world, and why it does nothing.
ghost use Rattle.std.specs.Prelude.{◌≡◌};
ghost use Rattle.nv_history.specs.Events.{entry_of};
ghost use Rattle.nv_core.specs.Contents.{plain_cause};
ghost use Rattle.nv_core.specs.declared.effect.Stop.TheVariants.{NoMemory};

use crate::shared::SharedMessage;
use nv_screen::HeldScene;
use std::alloc::AllocError;

/// Why a session is closed, each with the number of the entry that closed it, from 0.
#[derive(Clone, Copy, Debug, PartialEq, Eq)]
pub enum Cause {
    /// Its own Close.
    Closed(u64),
    /// A message was due to its outbox, which was full.
    Overflowed(u64),
    /// The world ended.
    Quit(u64),
}

/// What a Take gives: messages in the order in which they became due, and then what is seen, where
/// the session's UI is to show it.
#[derive(Drop)]
pub struct Batch {
    pub messages: Vec<SharedMessage>,
    pub scene: Option<HeldScene>,
}

/// What an event does. It enters the history where it is one of `Opened`, `Done`, `Items` and
/// `Closed`; with `Nothing` and `Over` the world stays as it was.
#[derive(Drop)]
pub enum Effect {
    /// A session began, with this number.
    Opened(u64),
    /// A call was made.
    Done,
    /// What was due.
    Items(Batch),
    /// Nothing is due.
    Nothing,
    /// Nothing is due, and nothing will be: the session is closed.
    Over(Cause),
    /// The session is closed now.
    Closed,
}

/// Why an event is refused.
#[derive(Clone, Copy, Debug, PartialEq, Eq)]
pub enum Stop {
    /// Memory was wanting. The world is spent by it.
    NoMemory,
    /// There is no session of this number.
    Stranger(u64),
    /// The session, or for an `Open` the world, was ended by the entry of this number.
    Gone(u64),
    /// So many messages wait for the session of a Request that it is to take them first.
    Held(u32),
}

impl Cause {
    /// The entry that closed the session.
    pub fn entry(self) -> u64
        ensures { result ≡ entry_of (plain_cause self) }
    {
        match self {
            Cause::Closed(entry) | Cause::Overflowed(entry) | Cause::Quit(entry) => entry,
        }
    }
}

impl From<AllocError> for Stop {
    ghost from_gives = { λ _ stop. stop ≡ NoMemory };

    fn from(_error: AllocError) -> Self {
        Stop::NoMemory
    }
}
