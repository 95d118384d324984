//! What the bytes that a session is sent are read as.
ghost use Rattle.std.specs.Prelude.{◌≡◌, ◌≤◌, ◌&&◌, ◌++◌, [], ◌∷◌, pos, length, drop, map, IfOk, OnOk};
ghost use Rattle.nv_value.specs.View.{content, contents};
ghost use Rattle.nv_rpc.specs.Calls.{is_number};
ghost use Rattle.nv_rpc.specs.MessageView.{sent_of};
ghost use Rattle.nv_watch.specs.SentParts.{is_list_tree, is_redraw, is_redraw_call, is_redraw_name, is_told, messages_among, others_among, values_read};
ghost use Rattle.nv_watch.specs.inside.Parts.{ArePartsOf, IsFirstValue};

use nv_msgpack::{Bounds, Decoded, decode};
use nv_rpc::{Message, message_of};
use nv_value::Value;
use std::alloc::{AllocError, Global};

/// What a session was sent.
#[derive(Drop)]
pub struct Parts {
    pub messages: Vec<Message>,
    /// The values that are no messages.
    pub others: Vec<Value>,
    /// Whether each of them is a redraw notification, and no bytes are left behind the values.
    pub is_whole: bool,
}

// Values, and how many bytes they take.
#[derive(Drop)]
struct Found {
    values: Vec<Value>,
    taken: usize,
}

const BOUNDS: Bounds = Bounds {
    depth: 100,
    bytes: 4611686018427387904,
};

// The value at the front of bytes, and how many bytes it takes, where there is one.
fn first_value(alloc: Global, bytes: &[u8]) -> Result<Option<(Value, usize)>, AllocError>
    ensures { IfOk result (IsFirstValue bytes.now) }
{
    match decode(alloc, bytes, BOUNDS)? {
        Decoded::Whole(value, len) => Ok(Some((value, len))),
        Decoded::NeedsMore => Ok(None),
        Decoded::Bad(_) => Ok(None),
        Decoded::TooDeep(_) => Ok(None),
        Decoded::TooLong(_) => Ok(None),
    }
}

// The values at the front of bytes.
#[tactic(auto, unfolding(crate::specs::SentParts::values_read))]
fn values_of(alloc: Global, bytes: &[u8]) -> Result<Found, AllocError>
    ensures values { IfOk result (λ found. map content found.values.items
        ≡ (values_read bytes.now).values) }
    ensures rest { IfOk result (λ found. drop found.taken bytes.now
        ≡ (values_read bytes.now).rest) }
    ensures within { IfOk result (λ found. found.taken ≤ length bytes.now) }
{
    let mut values = Vec::new(alloc);
    let mut taken = 0;
    for _ in 0..bytes.len() {
        let Some((value, len)) = first_value(alloc, &bytes[taken..])? else {
            return Ok(Found { values, taken });
        };
        values.push(value)?;
        taken += len;
    }
    Ok(Found { values, taken })
}

fn is_redraw_name(name: &Value) -> bool
    ensures { result ≡ is_redraw_name (content name.now) }
{
    match name {
        Value::Text(bytes) => bytes.as_slice() == b"redraw".as_slice(),
        _ => false,
    }
}

fn is_two(value: &Value) -> bool
    ensures { result ≡ is_number (pos 2) (content value.now) }
{
    matches!(value, Value::Int(2))
}

fn is_list(value: &Value) -> bool
    ensures { result ≡ is_list_tree (content value.now) }
{
    matches!(value, Value::List(_))
}

fn is_redraw_call(items: &[Value]) -> bool
    ensures { result ≡ is_redraw_call (contents items.now) }
{
    match items {
        [kind, name, entries] => is_two(kind) && is_redraw_name(name) && is_list(entries),
        _ => false,
    }
}

fn is_redraw(value: &Value) -> bool
    ensures { result ≡ is_redraw (content value.now) }
{
    match value {
        Value::List(items) => is_redraw_call(items.as_slice()),
        _ => false,
    }
}

// Puts a value behind the parts.
fn put(parts: &mut Parts, value: Value) -> Result<(), AllocError>
    ensures messages { OnOk result (map sent_of parts.new.messages.items
        ≡ map sent_of parts.old.messages.items ++ messages_among (content value ∷ [])) }
    ensures others { OnOk result (map content parts.new.others.items
        ≡ map content parts.old.others.items ++ others_among (content value ∷ [])) }
    ensures is_whole { OnOk result (parts.new.is_whole
        ≡ (parts.old.is_whole && is_told (content value))) }
{
    match message_of(value) {
        Ok(message) => {
            parts.messages.push(message)?;
            Ok(())
        }
        Err(value) => {
            if !is_redraw(&value) {
                parts.is_whole = false;
            }
            parts.others.push(value)?;
            Ok(())
        }
    }
}

/// The parts of the bytes that a session was sent.
pub fn parts_of(alloc: Global, bytes: &[u8]) -> Result<Parts, AllocError>
    ensures { IfOk result (ArePartsOf bytes.now) }
{
    let Found { values, taken } = values_of(alloc, bytes)?;
    let mut parts = Parts {
        messages: Vec::new(alloc),
        others: Vec::new(alloc),
        is_whole: taken == bytes.len(),
    };
    for value in values {
        put(&mut parts, value)?;
    }
    Ok(parts)
}
