//! What the four calls of a world answer: each has an answer of its own kind.
ghost use Rattle.std.specs.Prelude.{◌≡◌};
ghost use Rattle.nv_core.specs.Outcomes.{effect_of_taken, stop_of_unasked, stop_of_unclosed, stop_of_unopened, stop_of_untaken};

use crate::effect::{Batch, Cause, Effect, Stop};

/// What a take of a session comes to. It enters the history where something was due.
#[derive(Drop)]
pub enum Taken {
    /// What was due.
    Items(Batch),
    /// Nothing is due.
    Nothing,
    /// Nothing is due, and nothing will be: this closed the session.
    Over(Cause),
}

/// Why no session is opened.
#[derive(Clone, Copy, Debug, PartialEq, Eq)]
pub enum Unopened {
    /// Memory was wanting. The world is spent by it.
    NoMemory,
    /// The entry of this number has ended the world.
    Ended(u64),
}

/// Why a call isn't made.
#[derive(Clone, Copy, Debug, PartialEq, Eq)]
pub enum Unasked {
    /// Memory was wanting. The world is spent by it.
    NoMemory,
    /// There is no session of this number.
    Stranger,
    /// This closed the session.
    Gone(Cause),
    /// So many messages wait for the session that it is to take them first.
    Held(u32),
}

/// Why nothing can be taken.
#[derive(Clone, Copy, Debug, PartialEq, Eq)]
pub enum Untaken {
    /// Memory was wanting. The world is spent by it.
    NoMemory,
    /// There is no session of this number.
    Stranger,
}

/// Why a session can't be closed.
#[derive(Clone, Copy, Debug, PartialEq, Eq)]
pub enum Unclosed {
    /// Memory was wanting. The world is spent by it.
    NoMemory,
    /// There is no session of this number.
    Stranger,
    /// This has closed the session.
    Gone(Cause),
}

impl Taken {
    // The effect of it.
    pub fn effect(self) -> Effect
        ensures { result ≡ effect_of_taken self }
    {
        match self {
            Taken::Items(batch) => Effect::Items(batch),
            Taken::Nothing => Effect::Nothing,
            Taken::Over(cause) => Effect::Over(cause),
        }
    }
}

impl Unopened {
    // The stop of an Open.
    pub fn stop(self) -> Stop
        ensures { result ≡ stop_of_unopened self }
    {
        match self {
            Unopened::NoMemory => Stop::NoMemory,
            Unopened::Ended(entry) => Stop::Gone(entry),
        }
    }
}

impl Unasked {
    // The stop of a Request of this session.
    pub fn stop(self, session: u64) -> Stop
        ensures { result ≡ stop_of_unasked session self }
    {
        match self {
            Unasked::NoMemory => Stop::NoMemory,
            Unasked::Stranger => Stop::Stranger(session),
            Unasked::Gone(cause) => Stop::Gone(cause.entry()),
            Unasked::Held(waiting) => Stop::Held(waiting),
        }
    }
}

impl Untaken {
    // The stop of a Take of this session.
    pub fn stop(self, session: u64) -> Stop
        ensures { result ≡ stop_of_untaken session self }
    {
        match self {
            Untaken::NoMemory => Stop::NoMemory,
            Untaken::Stranger => Stop::Stranger(session),
        }
    }
}

impl Unclosed {
    // The stop of a Close of this session.
    pub fn stop(self, session: u64) -> Stop
        ensures { result ≡ stop_of_unclosed session self }
    {
        match self {
            Unclosed::NoMemory => Stop::NoMemory,
            Unclosed::Stranger => Stop::Stranger(session),
            Unclosed::Gone(cause) => Stop::Gone(cause.entry()),
        }
    }
}
