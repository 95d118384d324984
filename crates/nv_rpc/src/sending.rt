//! The values that tell messages.
ghost use Rattle.std.specs.Prelude.{◌≡◌, [], ◌∷◌, pos, map, IfOk};
ghost use Rattle.nv_value.specs.Content.{integer, text};
ghost use Rattle.nv_value.specs.View.{content, contents};
ghost use Rattle.nv_msgpack.specs.Shortest.{HasSpelling};
ghost use Rattle.nv_rpc.specs.Messages.{reply, message_tree, IsSendable, items, error, response, notification};
ghost use Rattle.nv_rpc.specs.MessageView.{sent_of};
ghost use Rattle.nv_rpc.specs.Outcomes.{outcome_content};

use crate::message::{BUFFER, Message};
use crate::outcome::Outcome;
use nv_msgpack::handle;
use nv_value::{ApiFault, Bytes, Items, Value};
use std::alloc::{AllocError, Global};

/// The value that tells a message. What the message holds is moved into it.
#[tactic(auto, unfolding(crate::specs::Messages::message_tree))]
pub fn into_value(alloc: Global, message: Message) -> Result<Value, AllocError>
    ensures told { IfOk result (λ value. content value ≡ message_tree (sent_of message)) }
    ensures spelled { IsSendable (sent_of message)
        → IfOk result (λ value. HasSpelling (content value)) }
{
    match message {
        Message::Reply {
            msgid,
            fault,
            result,
        } => reply(alloc, msgid, fault, result),
        Message::Lines {
            buffer,
            tick,
            first,
            last,
            lines,
        } => {
            let arguments = vec![in alloc;
                handle(alloc, BUFFER, buffer)?,
                Value::Int(tick),
                Value::Int(first),
                Value::Int(last),
                Value::List(lines),
                Value::Truth(false),
            ]?;
            notification(alloc, b"nvim_buf_lines_event", arguments)
        }
        Message::Tick { buffer, tick } => {
            let arguments = vec![in alloc; handle(alloc, BUFFER, buffer)?, Value::Int(tick)]?;
            notification(alloc, b"nvim_buf_changedtick_event", arguments)
        }
        Message::Detach { buffer } => {
            let arguments = vec![in alloc; handle(alloc, BUFFER, buffer)?]?;
            notification(alloc, b"nvim_buf_detach_event", arguments)
        }
        Message::Fault { fault } => {
            let arguments = error_items(alloc, fault)?;
            notification(alloc, b"nvim_error_event", arguments)
        }
    }
}

/// The value that tells a message that is lent. What the message holds is copied.
pub fn value_of(alloc: Global, message: &Message) -> Result<Value, AllocError>
    ensures told { IfOk result (λ value. content value ≡ message_tree (sent_of message.now)) }
    ensures spelled { IsSendable (sent_of message.now)
        → IfOk result (λ value. HasSpelling (content value)) }
{
    let copy = copy_of(alloc, message)?;
    into_value(alloc, copy)
}

fn copy_of(alloc: Global, message: &Message) -> Result<Message, AllocError>
    ensures { IfOk result (λ copy. sent_of copy ≡ sent_of message.now) }
{
    match message {
        Message::Reply {
            msgid,
            fault,
            result,
        } => Ok(Message::Reply {
            msgid: *msgid,
            fault: copy_of_cause(fault)?,
            result: result.copy(alloc)?,
        }),
        Message::Lines {
            buffer,
            tick,
            first,
            last,
            lines,
        } => Ok(Message::Lines {
            buffer: *buffer,
            tick: *tick,
            first: *first,
            last: *last,
            lines: copy_of_lines(alloc, lines)?,
        }),
        Message::Tick { buffer, tick } => Ok(Message::Tick {
            buffer: *buffer,
            tick: *tick,
        }),
        Message::Detach { buffer } => Ok(Message::Detach { buffer: *buffer }),
        Message::Fault { fault } => Ok(Message::Fault {
            fault: copy_of_fault(fault)?,
        }),
    }
}

fn copy_of_cause(cause: &Option<ApiFault>) -> Result<Option<ApiFault>, AllocError>
    ensures { IfOk result (λ copy. copy ≡ cause.now) }
{
    match cause {
        None => Ok(None),
        Some(fault) => Ok(Some(copy_of_fault(fault)?)),
    }
}

fn copy_of_fault(fault: &ApiFault) -> Result<ApiFault, AllocError>
    ensures { IfOk result (λ copy. copy ≡ fault.now) }
{
    Ok(ApiFault {
        kind: fault.kind,
        code: fault.code,
        words: fault.words.share()?,
    })
}

fn copy_of_lines(alloc: Global, lines: &Items) -> Result<Items, AllocError>
    ensures { IfOk result (λ copies. contents copies.items ≡ contents lines.now.items) }
{
    let mut copies = Vec::with_capacity(alloc, lines.len())?;
    for line in lines {
        copies.push(line.copy(alloc)?)?;
    }
    Ok(copies)
}

#[tactic(auto, unfolding(crate::specs::Messages::message_tree))]
fn reply(
    alloc: Global,
    msgid: u32,
    fault: Option<ApiFault>,
    outcome: Outcome,
) -> Result<Value, AllocError>
    ensures { IfOk result (λ value. content value ≡ message_tree
        (reply msgid fault (outcome_content outcome))) }
{
    match fault {
        None => response(alloc, msgid, Value::Nil, outcome.into_value(alloc)?),
        Some(fault) => {
            let error = error(alloc, fault)?;
            response(alloc, msgid, error, Value::Nil)
        }
    }
}

// `[1, msgid, error, result]`
fn response(alloc: Global, msgid: u32, error: Value, outcome: Value) -> Result<Value, AllocError>
    ensures { IfOk result (λ value. content value ≡ response msgid (content error)
        (content outcome)) }
{
    let items = vec![in alloc; Value::Int(1), Value::Int(i64::from(msgid)), error, outcome]?;
    Ok(Value::List(items))
}

// `[2, name, arguments]`
fn notification(alloc: Global, name: &[u8], arguments: Items) -> Result<Value, AllocError>
    ensures { IfOk result (λ value. content value ≡ notification name.now
        (map content arguments.items)) }
{
    let name = Bytes::from_slice(alloc, name)?;
    let items = vec![in alloc; Value::Int(2), Value::Text(name), Value::List(arguments)]?;
    Ok(Value::List(items))
}

// `[kind, words]`
fn error(alloc: Global, fault: ApiFault) -> Result<Value, AllocError>
    ensures { IfOk result (λ value. content value ≡ error fault) }
{
    let items = error_items(alloc, fault)?;
    Ok(Value::List(items))
}

fn error_items(alloc: Global, fault: ApiFault) -> Result<Items, AllocError>
    ensures { IfOk result (λ found. map content found.items ≡ integer (pos fault.kind)
        ∷ text fault.words ∷ []) }
{
    let ApiFault {
        kind,
        code: _,
        words,
    } = fault;
    Ok(vec![in alloc; Value::Int(i64::from(kind)), Value::Text(words)]?)
}
