//! The bytes that tell messages.
ghost use Rattle.std.specs.Prelude.{◌≡◌, ◌++◌, IfOk, IfSome, OnOk};
ghost use Rattle.nv_value.specs.Content.{nil};
ghost use Rattle.nv_msgpack.specs.Shortest.{HasSpelling, shortest};
ghost use Rattle.nv_rpc.specs.Messages.{IsSendable, message_tree, response};
ghost use Rattle.nv_rpc.specs.MessageView.{sent_of};
ghost use Rattle.nv_rpc.specs.Outcomes.{AreSpellable, bytes_left, outcome_content};
ghost use Rattle.nv_rpc.specs.inside.Fronts.{response_head};

use crate::message::Message;
use crate::outcome::{AtomicResults, Outcome, put_atomic_head};
use crate::sending::into_value;
use nv_msgpack::{encode, put_unsigned};
use std::alloc::{AllocError, Global};

/// Adds the shortest spelling of a message at the end of `into`.
#[tactic(auto, unfolding(crate::specs::Messages::message_tree))]
pub fn put_message(alloc: Global, message: Message, into: &mut Vec<u8>) -> Result<(), AllocError>
    requires { IsSendable (sent_of message) }
    ensures { OnOk result (into.new.items
        ≡ into.old.items ++ shortest (message_tree (sent_of message))) }
{
    match message {
        Message::Reply {
            msgid,
            fault: None,
            result,
        } => put_result(msgid, &result, into),
        other => put_whole(alloc, other, into),
    }
}

// Any message, by way of its value.
fn put_whole(alloc: Global, message: Message, into: &mut Vec<u8>) -> Result<(), AllocError>
    requires { IsSendable (sent_of message) }
    ensures { OnOk result (into.new.items
        ≡ into.old.items ++ shortest (message_tree (sent_of message))) }
{
    let value = into_value(alloc, message)?;
    encode(&value, into)
}

// `[1, msgid, nil, outcome]` without the outcome.
fn put_response_head(msgid: u32, into: &mut Vec<u8>) -> Result<(), AllocError>
    ensures { OnOk result (into.new.items ≡ into.old.items ++ response_head msgid) }
{
    into.extend_from_slice(&[0x94, 0x01])?;
    put_unsigned(u64::from(msgid), into)?;
    into.extend_from_slice(&[0xc0])
}

// `[1, msgid, nil, outcome]`
fn put_result(msgid: u32, outcome: &Outcome, into: &mut Vec<u8>) -> Result<(), AllocError>
    requires { HasSpelling (outcome_content outcome.now) }
    ensures { OnOk result (into.new.items ≡ into.old.items
        ++ shortest (response msgid nil (outcome_content outcome.now))) }
{
    put_response_head(msgid, into)?;
    outcome.put(into)
}

// The front of `[1, msgid, nil, outcome]`, and what is left of it.
fn put_result_front(
    msgid: u32,
    outcome: Outcome,
    into: &mut Vec<u8>,
) -> Result<Option<AtomicResults>, AllocError>
    requires { HasSpelling (outcome_content outcome) }
    ensures put { IfOk result (λ left. into.new.items ++ bytes_left left ≡ into.old.items
        ++ shortest (response msgid nil (outcome_content outcome))) }
    ensures spellable { IfOk result (λ left. IfSome left AreSpellable) }
{
    put_response_head(msgid, into)?;
    match outcome {
        Outcome::Atomic(atomic) => {
            put_atomic_head(atomic.results.len(), into)?;
            Ok(Some(Box::into_inner(atomic)))
        }
        Outcome::One(one) => {
            one.put(into)?;
            Ok(None)
        }
    }
}

// Any message, by way of its value. Nothing is left of it.
fn put_whole_front(
    alloc: Global,
    message: Message,
    into: &mut Vec<u8>,
) -> Result<Option<AtomicResults>, AllocError>
    requires { IsSendable (sent_of message) }
    ensures put { IfOk result (λ left. into.new.items ++ bytes_left left
        ≡ into.old.items ++ shortest (message_tree (sent_of message))) }
    ensures spellable { IfOk result (λ left. IfSome left AreSpellable) }
{
    put_whole(alloc, message, into)?;
    Ok(None)
}

/// Adds the front of the shortest spelling of a message at the end of `into`, and gives what is
/// left: nothing, or results of calls one after another, and then where they stopped, each of which
/// may be put by itself.
#[tactic(auto, unfolding(crate::specs::Messages::message_tree))]
pub fn put_front(
    alloc: Global,
    message: Message,
    into: &mut Vec<u8>,
) -> Result<Option<AtomicResults>, AllocError>
    requires { IsSendable (sent_of message) }
    ensures put { IfOk result (λ left. into.new.items ++ bytes_left left
        ≡ into.old.items ++ shortest (message_tree (sent_of message))) }
    ensures spellable { IfOk result (λ left. IfSome left AreSpellable) }
{
    match message {
        Message::Reply {
            msgid,
            fault: None,
            result,
        } => put_result_front(msgid, result, into),
        other => put_whole_front(alloc, other, into),
    }
}
