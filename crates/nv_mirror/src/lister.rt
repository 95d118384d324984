//! What a client knows of its buffer, and how it lists it.
ghost use Rattle.std.specs.Prelude.{◌≡◌, ℕ, ◌^◌, ◌<◌, ◌≤◌, List, [], is_some, IsSome, Some, None, Err, OnOk, IfOk};
ghost use Rattle.std.specs.Bool.{OnTrue, OnFalse};
ghost use Rattle.std.specs.Io.KnownBytes.{append_known};
ghost use Rattle.nv_io.specs.Faults.{Rose};
ghost use Rattle.nv_rpc.specs.MessageView.{sent_of};
ghost use Rattle.nv_mirror.specs.Listings.{is_detach_of, is_lines_of, refusal_in, text_listed};
ghost use Rattle.nv_mirror.specs.inside.Incoming.{received_of};
ghost use Rattle.nv_mirror.specs.inside.Pages.{GoesPartly};
ghost use Rattle.nv_mirror.specs.inside.Steps.{IsFreshLister, IsSteady, TakesMessage, TakesReceived, known_of};

use crate::followed::Followed;
use crate::incoming::Incoming;
use crate::page::Page;
use nv_io::{Flaw, Sink};
use nv_rpc::Message;
use nv_subs::Follower;
use nv_value::Bytes;
use std::alloc::{AllocError, Global};

/// What a client knows of its buffer, and what it lists of it.
#[derive(Drop)]
pub struct Lister {
    buffer: i64,
    follower: Follower,
    // The values looked at so far.
    number: u64,
    page: Page,
}

// Whether a message refuses the request.
fn is_refusal(message: &Message) -> bool
    ensures { result ≡ is_some (refusal_in (sent_of message.now)) }
{
    match message {
        Message::Reply { msgid, fault, .. } => *msgid == 1 && fault.is_some(),
        _ => false,
    }
}

// What a message says that refuses the request.
fn refusal_of(message: Message) -> Bytes
    requires { IsSome (refusal_in (sent_of message)) }
    ensures { refusal_in (sent_of message) ≡ Some result }
{
    match message {
        Message::Reply { fault, .. } => match fault {
            Some(fault) => fault.words,
            None => unreachable!(),
        },
        _ => unreachable!(),
    }
}

// Whether a message ends the events of a buffer.
fn is_detach_of(message: &Message, buffer: i64) -> bool
    ensures { result ≡ is_detach_of buffer (sent_of message.now) }
{
    match message {
        Message::Detach { buffer: about } => *about == buffer,
        _ => false,
    }
}

// Whether a message tells lines of a buffer.
fn is_lines_of(message: &Message, buffer: i64) -> bool
    ensures { result ≡ is_lines_of buffer (sent_of message.now) }
{
    match message {
        Message::Lines { buffer: about, .. } => *about == buffer,
        _ => false,
    }
}

// Writes the text that a follower knows, where nothing waits. `false` is a fault.
fn list<R, O: Sink>(rt: &R, output: &mut O, follower: &Follower, page: &mut Page) -> bool
    requires { page.old ≡ [] }
    ensures all { OnTrue result ((O.words output.new).taken
        ≡ append_known (O.words output.old).taken (text_listed follower.now.mirror)) }
    ensures nothing { OnTrue result (page.new ≡ []) }
    ensures part { OnFalse result (GoesPartly (text_listed follower.now.mirror)
        (O.words output.old).taken (O.words output.new).taken) }
    ensures later { (O.words output.old).faults ≤ (O.words output.new).faults }
    ensures failed { OnFalse result (Rose (O.words output.old).faults (O.words output.new).faults) }
{
    let Some(text) = follower.text() else {
        return true;
    };
    let Some(tick) = follower.tick() else {
        return true;
    };
    page.put_text(rt, output, tick, text)
}

impl Lister {
    /// One that knows nothing of the buffer of this handle.
    pub fn new(alloc: Global, buffer: i64) -> Result<Lister, AllocError>
        ensures { IfOk result (λ lister. IsFreshLister buffer lister) }
    {
        Ok(Lister {
            buffer,
            follower: Follower::new(buffer),
            number: 0,
            page: Page::new(alloc)?,
        })
    }

    // Takes a message that doesn't refuse the request, and lists what it tells.
    fn take_event<R, O: Sink>(
        &mut self,
        rt: &R,
        output: &mut O,
        message: &Message,
    ) -> Result<(), Followed>
        requires steady { IsSteady self.old }
        requires accepted { refusal_in (sent_of message.now) ≡ None }
        ensures takes { (out : List ℕ)
            × ((O.words output.new).taken ≡ append_known (O.words output.old).taken out)
            × TakesMessage result (known_of self.old) (sent_of message.now)
            (known_of self.new) out }
        ensures steady { OnOk result (IsSteady self.new) }
        ensures later { (O.words output.old).faults ≤ (O.words output.new).faults }
        ensures fault { result ≡ Err Followed.OutputFault
            → Rose (O.words output.old).faults (O.words output.new).faults }
    {
        if is_detach_of(message, self.buffer) {
            return Err(Followed::Detached);
        }
        let Ok(fits) = self.follower.take(message) else {
            return Err(Followed::NoMemory);
        };
        if !fits {
            return Err(Followed::Unfit(self.number));
        }
        if !is_lines_of(message, self.buffer) {
            return Ok(());
        }
        if !list(rt, output, &self.follower, &mut self.page) {
            return Err(Followed::OutputFault);
        }
        Ok(())
    }

    // Takes a message, and lists what it tells.
    fn take_message<R, O: Sink>(
        &mut self,
        rt: &R,
        output: &mut O,
        message: Message,
    ) -> Result<(), Followed>
        requires steady { IsSteady self.old }
        ensures takes { (out : List ℕ)
            × ((O.words output.new).taken ≡ append_known (O.words output.old).taken out)
            × TakesMessage result (known_of self.old) (sent_of message) (known_of self.new) out }
        ensures steady { OnOk result (IsSteady self.new) }
        ensures later { (O.words output.old).faults ≤ (O.words output.new).faults }
        ensures fault { result ≡ Err Followed.OutputFault
            → Rose (O.words output.old).faults (O.words output.new).faults }
    {
        if is_refusal(&message) {
            return Err(Followed::Refused(refusal_of(message)));
        }
        let taken = self.take_event(rt, output, &message);
        drop(message);
        taken
    }

    /// Takes the next value.
    pub fn take<R, O: Sink>(
        &mut self,
        rt: &R,
        output: &mut O,
        incoming: Incoming,
    ) -> Result<(), Followed>
        requires steady { IsSteady self.old }
        requires counted { self.old.number < 2 ^ 63 }
        ensures takes { (out : List ℕ)
            × ((O.words output.new).taken ≡ append_known (O.words output.old).taken out)
            × TakesReceived result (known_of self.old) (received_of incoming)
            (known_of self.new) out }
        ensures steady { OnOk result (IsSteady self.new) }
        ensures later { (O.words output.old).faults ≤ (O.words output.new).faults }
        ensures fault { result ≡ Err Followed.OutputFault
            → Rose (O.words output.old).faults (O.words output.new).faults }
    {
        match incoming {
            Incoming::Message(message) => {
                self.take_message(rt, output, message)?;
                self.number += 1;
                Ok(())
            }
            Incoming::Other => {
                self.number += 1;
                Ok(())
            }
            Incoming::Neither => Err(Followed::Malformed(Flaw::NoCall(self.number))),
        }
    }
}
