//! The messages that values tell.
ghost use Rattle.std.specs.Prelude.{◌≡◌, Some, None, pos, if◌then◌else◌, option_map, bytes_eq, IfOk, IfErr, OnErr};
ghost use Rattle.nv_value.specs.Content.{list};
ghost use Rattle.nv_value.specs.View.{content, contents};
ghost use Rattle.nv_msgpack.specs.Handle.{handle_in};
ghost use Rattle.nv_rpc.specs.Calls.{is_number};
ghost use Rattle.nv_rpc.specs.MessageView.{sent_of};
ghost use Rattle.nv_rpc.specs.Messages.{Sent, message_tree, detach_event, lines_name, detach_name};
ghost use Rattle.nv_rpc.specs.inside.Outlines.{outline_of};
ghost use Rattle.nv_rpc.specs.Received.{message_in, IsTyped, reply_in, event_in, event_of, lines_in, event_of_two, buffer_in, fault_in, error_in};

use crate::message::{BUFFER, Message};
use crate::outcome::{CallResult, Outcome};
use crate::parts::{
    argument_of, integer_of, is_false, is_list, is_nil, is_number, is_text, item_of, kind_of,
    msgid_of, params_of, words_of,
};
use crate::shortest::if_shortest;
use nv_msgpack::handle_of;
use nv_value::{ApiFault, Value};

// A message without the values that it holds.
#[derive(Drop)]
enum Outline {
    Success(u32),
    Failure(u32, u8),
    Lines(i64, i64, i64, i64),
    Tick(i64, i64),
    Detach(i64),
    Fault(u8),
}

/// The message that a value tells. A value that tells none comes back.
///
/// The code of an error isn't told, and is 0. A value whose parts are spelled otherwise than the
/// server sends them, as a name that is a binary, the handle of a buffer in a longer spelling, or a
/// result beside an error, tells none (own rule).
pub fn message_of(value: Value) -> Result<Message, Value>
    ensures ok { IfOk result (λ message. message_in (content value) ≡ Some (sent_of message)) }
    ensures told { IfOk result (λ message. message_tree (sent_of message) ≡ content value) }
    ensures value_back { IfErr result (λ back. content back ≡ content value) }
    ensures no_message { OnErr result (message_in (content value) ≡ None) }
    ensures none_tells { OnErr result
        ((s : Sent) → IsTyped s → message_tree s ≡ content value → ⊥) }
{
    match outline_of(&value) {
        Some(outline) => Ok(filled(outline, value)),
        None => Err(value),
    }
}

#[tactic(auto, unfolding(crate::specs::Received::message_in))]
fn outline_of(value: &Value) -> Option<Outline>
    ensures { result ≡ option_map outline_of (message_in (content value.now)) }
{
    match value {
        Value::List(items) => items_outline(items.as_slice()),
        _ => None,
    }
}

#[tactic(auto, unfolding(crate::specs::Received::message_in))]
fn items_outline(items: &[Value]) -> Option<Outline>
    ensures { result ≡ option_map outline_of (message_in (list (contents items.now))) }
{
    match items {
        [kind, msgid, cause, outcome] => reply_outline(kind, msgid, cause, outcome),
        [kind, name, arguments] => event_outline(kind, name, arguments),
        _ => None,
    }
}

fn reply_outline(kind: &Value, msgid: &Value, cause: &Value, outcome: &Value) -> Option<Outline>
    ensures { result ≡ option_map outline_of (if is_number (pos 1) (content kind.now)
        then reply_in (content msgid.now) (content cause.now) (content outcome.now) else None) }
{
    if !is_number(kind, 1) {
        return None;
    }
    let msgid = msgid_of(msgid)?;
    if is_nil(cause) {
        Some(Outline::Success(msgid))
    } else if is_nil(outcome) {
        let kind = error_of(cause)?;
        Some(Outline::Failure(msgid, kind))
    } else {
        None
    }
}

// The kind of an error.
fn error_of(cause: &Value) -> Option<u8>
    ensures { result ≡ option_map (λ fault. fault.kind) (error_in (content cause.now)) }
{
    match cause {
        Value::List(items) => items_error(items.as_slice()),
        _ => None,
    }
}

fn items_error(items: &[Value]) -> Option<u8>
    ensures { result ≡ option_map (λ fault. fault.kind) (error_in (list (contents items.now))) }
{
    match items {
        [kind, words] => fault_of(kind, words),
        _ => None,
    }
}

fn fault_of(kind: &Value, words: &Value) -> Option<u8>
    ensures { result ≡ option_map (λ fault. fault.kind)
        (fault_in (content kind.now) (content words.now)) }
{
    if is_text(words) { kind_of(kind) } else { None }
}

fn event_outline(kind: &Value, name: &Value, arguments: &Value) -> Option<Outline>
    ensures { result ≡ option_map outline_of (if is_number (pos 2) (content kind.now)
        then event_in (content name.now) (content arguments.now) else None) }
{
    if !is_number(kind, 2) {
        return None;
    }
    match (name, arguments) {
        (Value::Text(name), Value::List(arguments)) => {
            arguments_outline(name.as_slice(), arguments.as_slice())
        }
        _ => None,
    }
}

fn arguments_outline(name: &[u8], arguments: &[Value]) -> Option<Outline>
    ensures { result ≡ option_map outline_of (event_of name.now (contents arguments.now)) }
{
    match arguments {
        [buffer, tick, first, last, lines, more] => {
            if is_false(more) {
                lines_outline(name, buffer, tick, first, last, lines)
            } else {
                None
            }
        }
        [first, second] => two_outline(name, first, second),
        [buffer] => detach_outline(name, buffer),
        _ => None,
    }
}

fn lines_outline(
    name: &[u8],
    buffer: &Value,
    tick: &Value,
    first: &Value,
    last: &Value,
    lines: &Value,
) -> Option<Outline>
    ensures { result ≡ option_map outline_of (if bytes_eq name.now lines_name
        then lines_in (content buffer.now) (content tick.now) (content first.now) (content last.now)
        (content lines.now) else None) }
{
    if name != b"nvim_buf_lines_event".as_slice() {
        return None;
    }
    let buffer = buffer_of(buffer)?;
    let tick = integer_of(tick)?;
    let first = integer_of(first)?;
    let last = integer_of(last)?;
    if is_list(lines) {
        Some(Outline::Lines(buffer, tick, first, last))
    } else {
        None
    }
}

fn detach_outline(name: &[u8], buffer: &Value) -> Option<Outline>
    ensures { result ≡ option_map outline_of (if bytes_eq name.now detach_name
        then option_map detach_event (buffer_in (content buffer.now)) else None) }
{
    if name != b"nvim_buf_detach_event".as_slice() {
        return None;
    }
    let buffer = buffer_of(buffer)?;
    Some(Outline::Detach(buffer))
}

// The outline of an event of two arguments.
fn two_outline(name: &[u8], first: &Value, second: &Value) -> Option<Outline>
    ensures { result ≡ option_map outline_of (event_of_two name.now (content first.now)
        (content second.now)) }
{
    if name == b"nvim_buf_changedtick_event".as_slice() {
        let buffer = buffer_of(first)?;
        let tick = integer_of(second)?;
        Some(Outline::Tick(buffer, tick))
    } else if name == b"nvim_error_event".as_slice() {
        let kind = fault_of(first, second)?;
        Some(Outline::Fault(kind))
    } else {
        None
    }
}

// The buffer whose handle a value is, spelled as short as can be.
fn buffer_of(value: &Value) -> Option<i64>
    ensures { result ≡ buffer_in (content value.now) }
{
    match value {
        Value::Ext(_, bytes) => {
            let buffer = number_of(value)?;
            if_shortest(buffer, bytes.as_slice())
        }
        _ => None,
    }
}

// The buffer whose handle a value is, in any spelling.
fn number_of(value: &Value) -> Option<i64>
    ensures { result ≡ handle_in (pos 0) (content value.now) }
{
    handle_of(value, BUFFER)
}

// The message of an outline, with what the value holds.
fn filled(outline: Outline, value: Value) -> Message
    requires { option_map outline_of (message_in (content value)) ≡ Some outline }
    ensures { message_in (content value) ≡ Some (sent_of result) }
{
    match outline {
        Outline::Success(msgid) => Message::Reply {
            msgid,
            fault: None,
            result: Outcome::One(CallResult::Value(item_of(value, 3))),
        },
        Outline::Failure(msgid, kind) => Message::Reply {
            msgid,
            fault: Some(ApiFault {
                kind,
                code: 0,
                words: words_of(argument_of(value, 1)),
            }),
            result: Outcome::One(CallResult::Value(Value::Nil)),
        },
        Outline::Lines(buffer, tick, first, last) => Message::Lines {
            buffer,
            tick,
            first,
            last,
            lines: params_of(argument_of(value, 4)),
        },
        Outline::Tick(buffer, tick) => Message::Tick { buffer, tick },
        Outline::Detach(buffer) => Message::Detach { buffer },
        Outline::Fault(kind) => Message::Fault {
            fault: ApiFault {
                kind,
                code: 0,
                words: words_of(argument_of(value, 1)),
            },
        },
    }
}
