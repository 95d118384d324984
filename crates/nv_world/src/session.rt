//! One session of a world: what waits for it, and why it is closed.
ghost use Rattle.std.specs.Prelude.{◌≡◌, ◌<◌, ◌≤◌, ◌==◌, ◌^◌, ◌++◌, ◌∷◌, [], ℕ, ℤ, List, Option, length, map, not, false, IsTrue, IfOk, OnOk};
ghost use Rattle.nv_core.specs.declared.effect.Cause.{Cause};
ghost use Rattle.nv_rpc.specs.Messages.{IsSendable};
ghost use Rattle.nv_history.specs.Sessions.{Session as ModelSession, fresh_session, session_closed_by, session_emptied, session_quit};
ghost use Rattle.nv_core.specs.Contents.{plain_cause, sent_of_shared};
ghost use Rattle.nv_core.specs.Sizes.{bytes_unless_closed};
ghost use Rattle.nv_world.specs.inside.Sessions.{IsOutbox, IsSession, messages_waiting};
ghost use Rattle.nv_world.specs.inside.Tellings.{session_put};

use circular_buffer::HeapCircularBuffer;
use nv_core::{Cause, SharedMessage, size_of_message};
use std::alloc::{AllocError, Global};

/// A session. A closed one for which nothing waits has given its outbox up.
#[derive(Drop)]
pub struct Session {
    pub outbox: Option<HeapCircularBuffer<SharedMessage>>,
    pub closed: Option<Cause>,
    /// The stamp of the world when its UI was last given the editor to show, 0 before.
    pub shown: u64,
    /// How many bytes what waits for it takes.
    pub bytes: u64,
}

/// A session that begins.
pub fn new_session(alloc: Global, capacity: u32) -> Result<Session, AllocError>
    ensures { IfOk result (λ x. IsSession capacity x fresh_session) }
{
    let outbox = HeapCircularBuffer::with_capacity(alloc, capacity as usize)?;
    Ok(Session {
        outbox: Some(outbox),
        closed: None,
        shown: 0,
        bytes: 0,
    })
}

/// How many messages wait for a session.
pub fn waiting(session: &Session) -> usize
    ensures value { result ≡ length (messages_waiting session.now.outbox) }
    ensures small { result < 2 ^ 63 }
    ensures within { (capacity : ℕ) → IsOutbox capacity session.now.outbox session.now.closed
        → result ≤ capacity }
{
    match &session.outbox {
        Some(outbox) => outbox.len(),
        None => 0,
    }
}

/// How many bytes what waits for a session takes; 0 where it is closed.
pub fn bytes_due(session: &Session) -> u64
    ensures { (capacity : ℕ) (y : ModelSession) → IsSession capacity session.now y
        → result ≡ bytes_unless_closed y.closed y.waiting }
{
    match session.closed {
        None => session.bytes,
        Some(_) => 0,
    }
}

// Puts a message into an outbox. `false` where it was full, and then nothing changes.
fn was_put(outbox: &mut HeapCircularBuffer<SharedMessage>, message: SharedMessage) -> bool
    ensures full { result ≡ not (length outbox.old.items == outbox.old.capacity) }
    ensures put { IsTrue result → map sent_of_shared outbox.new.items
        ≡ map sent_of_shared outbox.old.items ++ sent_of_shared message ∷ [] }
    ensures kept { result ≡ false → outbox.new ≡ outbox.old }
    ensures capacity { outbox.new.capacity ≡ outbox.old.capacity }
{
    outbox.len() < outbox.capacity() && outbox.try_push_back(message).is_ok()
}

/// Puts a message into the outbox of a session, where the session isn't closed. A full outbox
/// closes it.
pub fn put(session: &mut Session, at: u64, message: SharedMessage)
    requires sendable { IsSendable (sent_of_shared message) }
    ensures { (capacity : ℕ) (y : ModelSession) (following : ModelSession → List ℤ)
        → IsSession capacity session.old y
        → IsSession capacity session.new (session_put at capacity (sent_of_shared message)
        following y) }
{
    if session.closed.is_some() {
        return;
    }
    let Some(outbox) = &mut session.outbox else {
        return;
    };
    let size = size_of_message(&message);
    if !was_put(outbox, message) {
        session.closed = Some(Cause::Overflowed(at));
        return;
    }
    session.bytes = session.bytes.saturating_add(size);
}

/// Closes a session that isn't closed. Its outbox is given up where nothing waits.
pub fn close(session: &mut Session, cause: Cause)
    ensures { (capacity : ℕ) (y : ModelSession) → IsSession capacity session.old y
        → IsSession capacity session.new (session_closed_by (plain_cause cause) y) }
{
    session.closed = Some(cause);
    if waiting(session) == 0 {
        session.outbox = None;
    }
}

/// The world ends for a session: it is closed, where it isn't.
pub fn quit(session: &mut Session, at: u64)
    ensures { (capacity : ℕ) (y : ModelSession) → IsSession capacity session.old y
        → IsSession capacity session.new (session_quit at y) }
{
    if session.closed.is_none() {
        close(session, Cause::Quit(at));
    }
}

// All messages of an outbox, in their order.
fn drained(
    alloc: Global,
    outbox: &mut HeapCircularBuffer<SharedMessage>,
) -> Result<Vec<SharedMessage>, AllocError>
    ensures messages { IfOk result (λ messages. messages.items ≡ outbox.old.items) }
    ensures empty { OnOk result (outbox.new.items ≡ []) }
    ensures capacity { outbox.new.capacity ≡ outbox.old.capacity }
{
    // Taken from the back, they leave the outbox where it began. Each that is taken from the front
    // moves its beginning on, and an outbox that is emptied again and again then goes through all
    // of its memory.
    let mut messages = Vec::with_capacity(alloc, outbox.len())?;
    'all: while let Some(message) = outbox.pop_back() {
        messages.push(message)?;
    }
    messages.reverse();
    Ok(messages)
}

// All messages of an outbox, where it wasn't given up.
fn drained_where_kept(
    alloc: Global,
    outbox: &mut Option<HeapCircularBuffer<SharedMessage>>,
) -> Result<Vec<SharedMessage>, AllocError>
    ensures messages { IfOk result (λ messages. map sent_of_shared messages.items
        ≡ messages_waiting outbox.old) }
    ensures empty { OnOk result (messages_waiting outbox.new ≡ []) }
    ensures capacity { OnOk result ((capacity : ℕ) (closed : Option Cause)
        → IsOutbox capacity outbox.old closed → IsOutbox capacity outbox.new closed) }
{
    match outbox {
        Some(outbox) => drained(alloc, outbox),
        None => Ok(Vec::new(alloc)),
    }
}

/// All that waits for a session, which was last shown this stamp. A closed one gives its outbox up.
pub fn taken(
    alloc: Global,
    session: &mut Session,
    shown: u64,
) -> Result<Vec<SharedMessage>, AllocError>
    ensures messages { IfOk result (λ messages. map sent_of_shared messages.items
        ≡ messages_waiting session.old.outbox) }
    ensures session { OnOk result ((capacity : ℕ) (y : ModelSession)
        → IsSession capacity session.old y
        → IsSession capacity session.new (session_emptied shown y)) }
{
    let messages = drained_where_kept(alloc, &mut session.outbox)?;
    if session.closed.is_some() {
        session.outbox = None;
    }
    session.shown = shown;
    session.bytes = 0;
    Ok(messages)
}
