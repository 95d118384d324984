//! What a call tells, put into the outboxes of those to whom it is due.
ghost use Rattle.std.specs.Prelude.{◌≡◌, ◌+◌, ◌<◌, ◌≤◌, ◌⊎◌, ℕ, ℤ, List, filter, length, nat_abs, option_map, IfOk, IfSome, OnOk, MatchOption, if◌then◌else◌};
ghost use Rattle.std.specs.List.{AllZip};
ghost use Rattle.nv_rpc.specs.Messages.{IsSendable};
ghost use Rattle.nv_rpc.specs.MessageView.{sent_of};
ghost use Rattle.nv_model.specs.Answers.{attached, detached, edited, deleted};
ghost use Rattle.nv_editor.specs.Facts.{fact_of, facts_of};
ghost use Rattle.nv_subs.specs.Attachments.{AreRising, sessions_of, without_session, without_sessions};
ghost use Rattle.nv_history.specs.Sessions.{Session as ModelSession};
ghost use Rattle.nv_core.specs.Contents.{sent_of_shared};
ghost use Rattle.nv_world.specs.inside.Notices.{sent_of_notice};
ghost use Rattle.nv_world.specs.inside.Sessions.{AreSessions, IsSession};
ghost use Rattle.nv_world.specs.inside.Tellings.{is_closed_at, session_put, session_updated, sessions_hear, sessions_hear_all, sessions_replied, sessions_updated};

use crate::answering::Answered;
use crate::notices::{Notice, first_shared, splice_notice};
use crate::session::{Session, put};
use nv_buffer::Spliced;
use nv_core::SharedMessage;
use nv_editor::Fact;
use nv_lines::Excerpt;
use nv_rpc::Message;
use nv_subs::Subs;
use std::alloc::{AllocError, Global};

/// The place of a session by its number, which is from 1.
pub fn place_of(session: u64, count: usize) -> Option<usize>
    ensures { MatchOption result ((session ≡ 0) ⊎ (count < session))
        (λ place. (session ≡ place + 1) × (place < count)) }
{
    if session == 0 || session > count as u64 {
        return None;
    }
    Some((session - 1) as usize)
}

// Puts a message into the outbox of the session of a number, where it is there and isn't closed.
fn put_at(sessions: &mut [Session], session: u64, at: u64, message: SharedMessage)
    requires sendable { IsSendable (sent_of_shared message) }
    ensures { (capacity : ℕ) (ys : List ModelSession) (following : ModelSession → List ℤ)
        → AllZip (IsSession capacity) sessions.old ys
        → AllZip (IsSession capacity) sessions.new (session_updated (session_put at capacity
        (sent_of_shared message) following) session ys) }
{
    match place_of(session, sessions.len()) {
        Some(place) => put(&mut sessions[place], at, message),
        None => drop(message),
    }
}

// Puts a message into the outboxes of several sessions, of those that aren't closed.
fn put_each(
    sessions: &mut [Session],
    several: &[u64],
    at: u64,
    notice: &Notice,
) -> Result<(), AllocError>
    requires sendable { IsSendable (sent_of_notice notice.now) }
    ensures { OnOk result ((capacity : ℕ) (ys : List ModelSession)
        (following : ModelSession → List ℤ)
        → AllZip (IsSession capacity) sessions.old ys
        → AllZip (IsSession capacity) sessions.new (sessions_updated (session_put at capacity
        (sent_of_notice notice.now) following) several.now ys)) }
{
    for session in several {
        let message = notice.message()?;
        put_at(sessions, *session, at, message);
    }
    Ok(())
}

// Whether the session of a number is closed.
fn is_closed(sessions: &[Session], session: u64) -> bool
    ensures { result ≡ is_closed_at sessions.now session }
{
    match place_of(session, sessions.len()) {
        Some(place) => sessions[place].closed.is_some(),
        None => false,
    }
}

// Those of several sessions that are closed.
fn closed_among(
    alloc: Global,
    sessions: &[Session],
    several: &[u64],
) -> Result<Vec<u64>, AllocError>
    ensures { IfOk result (λ closed. closed.items
        ≡ filter (is_closed_at sessions.now) several.now) }
{
    let mut closed = Vec::new(alloc);
    for session in several {
        if is_closed(sessions, *session) {
            closed.push(*session)?;
        }
    }
    Ok(closed)
}

// Tells all who are attached to a buffer. Those whose outboxes were full are attached to nothing
// from then on.
fn tell_all(
    alloc: Global,
    subs: &mut Subs,
    sessions: &mut [Session],
    buffer: i64,
    at: u64,
    notice: &Notice,
) -> Result<(), AllocError>
    requires sendable { IsSendable (sent_of_notice notice.now) }
    ensures sessions { OnOk result ((capacity : ℕ) (ys : List ModelSession)
        (following : ModelSession → List ℤ)
        → AllZip (IsSession capacity) sessions.old ys
        → AllZip (IsSession capacity) sessions.new (sessions_updated (session_put at capacity
        (sent_of_notice notice.now) following) (sessions_of subs.old buffer) ys)) }
    ensures told { OnOk result ((n : ℤ) → sessions_of subs.new n ≡ without_sessions
        (filter (is_closed_at sessions.new) (sessions_of subs.old buffer))
        (sessions_of subs.old n)) }
    ensures rising { AreRising (sessions_of subs.old buffer) }
{
    put_each(sessions, subs.of(buffer), at, notice)?;
    let closed = closed_among(alloc, sessions, subs.of(buffer))?;
    subs.leave_all(&closed);
    Ok(())
}

// A splice of a buffer's text is told to all who are attached to it.
fn tell_splice(
    alloc: Global,
    subs: &mut Subs,
    sessions: &mut [Session],
    at: u64,
    buffer: i64,
    spliced: Spliced,
) -> Result<(), AllocError>
    ensures { OnOk result ((capacity caller : ℕ) (ys : List ModelSession)
        → AreSessions capacity subs.old sessions.old ys
        → AreSessions capacity subs.new sessions.new
        (sessions_hear at capacity caller (edited buffer spliced) ys)) }
{
    if subs.of(buffer).is_empty() {
        return Ok(());
    }
    let notice = splice_notice(alloc, buffer, spliced)?;
    tell_all(alloc, subs, sessions, buffer, at, &notice)?;
    Ok(())
}

// A buffer is deleted: who is attached to it is told so, and is attached to it no more.
fn tell_deleted(
    alloc: Global,
    subs: &mut Subs,
    sessions: &mut [Session],
    at: u64,
    buffer: i64,
) -> Result<(), AllocError>
    ensures { OnOk result ((capacity caller : ℕ) (ys : List ModelSession)
        → AreSessions capacity subs.old sessions.old ys
        → AreSessions capacity subs.new sessions.new
        (sessions_hear at capacity caller (deleted buffer) ys)) }
{
    tell_all(alloc, subs, sessions, buffer, at, &Notice::Detach(buffer))?;
    subs.gone(buffer);
    Ok(())
}

// Tells one session. Where its outbox was full it is attached to nothing from then on.
fn tell_one(
    subs: &mut Subs,
    sessions: &mut [Session],
    session: u64,
    at: u64,
    message: SharedMessage,
)
    requires sendable { IsSendable (sent_of_shared message) }
    ensures sessions { (capacity : ℕ) (ys : List ModelSession)
        (following : ModelSession → List ℤ)
        → AllZip (IsSession capacity) sessions.old ys
        → AllZip (IsSession capacity) sessions.new (session_updated (session_put at capacity
        (sent_of_shared message) following) session ys) }
    ensures told { (n : ℤ) → sessions_of subs.new n ≡ (if is_closed_at sessions.new session
        then without_session session (sessions_of subs.old n) else sessions_of subs.old n) }
{
    put_at(sessions, session, at, message);
    if is_closed(sessions, session) {
        subs.leave(session);
    }
}

// The session of a call attaches to a buffer. Nothing is told where it was attached, nor where it
// is closed.
fn tell_attached(
    subs: &mut Subs,
    sessions: &mut [Session],
    caller: u64,
    at: u64,
    buffer: i64,
    tick: i64,
    whole: Option<Excerpt>,
) -> Result<(), AllocError>
    requires caller { (0 < caller) × (caller ≤ length sessions.old) }
    ensures { OnOk result ((capacity : ℕ) (ys : List ModelSession)
        → AreSessions capacity subs.old sessions.old ys
        → AreSessions capacity subs.new sessions.new
        (sessions_hear at capacity caller (attached buffer (nat_abs tick) whole) ys)) }
{
    if is_closed(sessions, caller) {
        return Ok(());
    }
    if !subs.attach(caller, buffer)? {
        return Ok(());
    }
    let message = first_shared(subs.alloc(), buffer, tick, whole)?;
    tell_one(subs, sessions, caller, at, message);
    Ok(())
}

// The session of a call detaches from a buffer. Nothing is told where it wasn't attached.
fn tell_detached(subs: &mut Subs, sessions: &mut [Session], caller: u64, at: u64, buffer: i64)
    requires caller { (0 < caller) × (caller ≤ length sessions.old) }
    ensures { (capacity : ℕ) (ys : List ModelSession)
        → AreSessions capacity subs.old sessions.old ys
        → AreSessions capacity subs.new sessions.new
        (sessions_hear at capacity caller (detached buffer) ys) }
{
    if subs.detach(caller, buffer) {
        tell_one(
            subs,
            sessions,
            caller,
            at,
            SharedMessage::Own(Message::Detach { buffer }),
        );
    }
}

// Tells one fact of a call.
fn tell_fact(
    alloc: Global,
    subs: &mut Subs,
    sessions: &mut [Session],
    caller: u64,
    at: u64,
    fact: Fact,
) -> Result<(), AllocError>
    requires caller { (0 < caller) × (caller ≤ length sessions.old) }
    ensures { OnOk result ((capacity : ℕ) (ys : List ModelSession)
        → AreSessions capacity subs.old sessions.old ys
        → AreSessions capacity subs.new sessions.new
        (sessions_hear at capacity caller (fact_of fact) ys)) }
{
    match fact {
        Fact::Attached {
            buffer,
            tick,
            whole,
        } => tell_attached(subs, sessions, caller, at, buffer, tick, whole),
        Fact::Detached { buffer } => {
            tell_detached(subs, sessions, caller, at, buffer);
            Ok(())
        }
        Fact::Edited { buffer, spliced } => {
            tell_splice(alloc, subs, sessions, at, buffer, spliced)?;
            Ok(())
        }
        Fact::Deleted { buffer } => {
            tell_deleted(alloc, subs, sessions, at, buffer)?;
            Ok(())
        }
        Fact::Quit => Ok(()),
    }
}

// Tells the facts of a call, in their order.
fn tell_facts(
    alloc: Global,
    subs: &mut Subs,
    sessions: &mut [Session],
    caller: u64,
    at: u64,
    facts: Vec<Fact>,
) -> Result<(), AllocError>
    requires caller { (0 < caller) × (caller ≤ length sessions.old) }
    ensures { OnOk result ((capacity : ℕ) (ys : List ModelSession)
        → AreSessions capacity subs.old sessions.old ys
        → AreSessions capacity subs.new sessions.new
        (sessions_hear_all at capacity caller (facts_of facts.items) ys)) }
{
    for fact in facts {
        tell_fact(alloc, subs, sessions, caller, at, fact)?;
    }
    Ok(())
}

// Tells the session of a call what answers it, if anything does.
fn tell_answer(
    subs: &mut Subs,
    sessions: &mut [Session],
    caller: u64,
    at: u64,
    answer: Option<Message>,
)
    requires caller { (0 < caller) × (caller ≤ length sessions.old) }
    requires sendable { IfSome answer (λ message. IsSendable (sent_of message)) }
    ensures { (capacity : ℕ) (ys : List ModelSession)
        → AreSessions capacity subs.old sessions.old ys
        → AreSessions capacity subs.new sessions.new
        (sessions_replied at capacity caller (option_map sent_of answer) ys) }
{
    match answer {
        Some(message) => tell_one(subs, sessions, caller, at, SharedMessage::Own(message)),
        None => {}
    }
}

/// Tells what a call came to: its facts to those who are attached, and then what answers it to its
/// session.
pub fn tell_call(
    alloc: Global,
    subs: &mut Subs,
    sessions: &mut [Session],
    caller: u64,
    at: u64,
    answered: Answered,
) -> Result<(), AllocError>
    requires caller { (0 < caller) × (caller ≤ length sessions.old) }
    requires sendable { IfSome answered.answer (λ message. IsSendable (sent_of message)) }
    ensures { OnOk result ((capacity : ℕ) (ys : List ModelSession)
        → AreSessions capacity subs.old sessions.old ys
        → AreSessions capacity subs.new sessions.new
        (sessions_replied at capacity caller (option_map sent_of answered.answer)
        (sessions_hear_all at capacity caller (facts_of answered.facts.items) ys))) }
{
    let Answered { answer, facts, .. } = answered;
    tell_facts(alloc, subs, sessions, caller, at, facts)?;
    tell_answer(subs, sessions, caller, at, answer);
    Ok(())
}
