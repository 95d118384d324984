//! Messages as they wait, whose lines are shared by all who are told them.
ghost use Rattle.std.specs.Prelude.{◌≡◌, ◌++◌, map, All, IfOk, IfSome, OnOk};
ghost use Rattle.nv_msgpack.specs.Shortest.{shortest};
ghost use Rattle.nv_rpc.specs.Messages.{IsSendable, message_tree};
ghost use Rattle.nv_rpc.specs.Outcomes.{AreSpellable, bytes_left};
ghost use Rattle.nv_history.specs.Spoken.{bytes_of_messages};
ghost use Rattle.nv_core.specs.Contents.{sent_of_lines, sent_of_shared};

use crate::measuring::SizedLines;
use nv_rpc::{AtomicResults, Message, put_front, put_lines_event, put_message};
use std::alloc::{AllocError, Global};
use std::sync::Arc;

/// Lines of a buffer that stand in place of others (Neovim help `nvim_buf_lines_event`).
#[derive(Drop)]
pub struct LinesEvent {
    pub buffer: i64,
    /// The buffer's changedtick after the change.
    pub tick: i64,
    /// The first line that was replaced, counted from 0.
    pub first: i64,
    /// The line after the last one that was replaced; -1 where the lines are all those of the
    /// buffer, sent for the first time.
    pub last: i64,
    /// The lines that stand there now.
    pub lines: SizedLines,
}

/// A message that is due to a session. A lines event is one for all sessions that are told of it:
/// each has it shared, and it is spelled from where its lines stand.
#[derive(Drop)]
pub enum SharedMessage {
    Own(Message),
    Lines(Arc<LinesEvent, Global>),
}

// Puts a lines event behind what `into` holds: its lines are written from where they stand.
fn put_event(alloc: Global, event: &LinesEvent, into: &mut Vec<u8>) -> Result<(), AllocError>
    requires { IsSendable (sent_of_lines event.now) }
    ensures { OnOk result (into.new.items
        ≡ into.old.items ++ shortest (message_tree (sent_of_lines event.now))) }
{
    put_lines_event(
        alloc,
        event.buffer,
        event.tick,
        event.first,
        event.last,
        event.lines.lines(),
        into,
    )
}

// Puts a message behind what `into` holds, in its shortest spelling.
fn put_shared(alloc: Global, message: SharedMessage, into: &mut Vec<u8>) -> Result<(), AllocError>
    requires { IsSendable (sent_of_shared message) }
    ensures { OnOk result (into.new.items
        ≡ into.old.items ++ shortest (message_tree (sent_of_shared message))) }
{
    match message {
        SharedMessage::Own(message) => put_message(alloc, message, into),
        SharedMessage::Lines(event) => put_event(alloc, &event, into),
    }
}

/// Puts messages behind what `into` holds, each in its shortest spelling.
pub fn put_messages(
    alloc: Global,
    messages: Vec<SharedMessage>,
    into: &mut Vec<u8>,
) -> Result<(), AllocError>
    requires { All IsSendable (map sent_of_shared messages.items) }
    ensures { OnOk result (into.new.items ≡ into.old.items
        ++ bytes_of_messages (map sent_of_shared messages.items)) }
{
    for message in messages {
        put_shared(alloc, message, into)?;
    }
    Ok(())
}

/// Puts the front of a message behind what `into` holds, in its shortest spelling, and gives what
/// is left: nothing, or results of calls one after another, and then where they stopped, each of
/// which may be put by itself.
pub fn put_shared_front(
    alloc: Global,
    message: SharedMessage,
    into: &mut Vec<u8>,
) -> Result<Option<AtomicResults>, AllocError>
    requires { IsSendable (sent_of_shared message) }
    ensures put { IfOk result (λ left. into.new.items ++ bytes_left left
        ≡ into.old.items ++ shortest (message_tree (sent_of_shared message))) }
    ensures spellable { IfOk result (λ left. IfSome left AreSpellable) }
{
    match message {
        SharedMessage::Own(message) => put_front(alloc, message, into),
        SharedMessage::Lines(event) => put_event_front(alloc, &event, into),
    }
}

// Puts a lines event behind what `into` holds. Nothing is left of it.
fn put_event_front(
    alloc: Global,
    event: &LinesEvent,
    into: &mut Vec<u8>,
) -> Result<Option<AtomicResults>, AllocError>
    requires { IsSendable (sent_of_lines event.now) }
    ensures put { IfOk result (λ left. into.new.items ++ bytes_left left
        ≡ into.old.items ++ shortest (message_tree (sent_of_lines event.now))) }
    ensures spellable { IfOk result (λ left. IfSome left AreSpellable) }
{
    put_event(alloc, event, into)?;
    Ok(None)
}
