//! What the types of entries say of them.
ghost use Rattle.std.specs.List.{AllByRecursion};
ghost use Rattle.nv_value.specs.View.{content, contents, pair_contents};
ghost use Rattle.nv_msgpack.specs.Shortest.{AreInRange, IsInRange};
ghost use Rattle.nv_rpc.specs.Frames.{call_of_frame};
ghost use Rattle.nv_core.specs.Contents.{plain_entries, plain_entry};
ghost use Rattle.nv_book.specs.Books.{HasSmallMsgid};
ghost use Rattle.nv_book_laws.specs.Laws.{HasTypedArguments, IsTypedEntry};

use nv_core::{Entry, Event};
use nv_rpc::Frame;
use nv_value::{Fields, Items, Value};

// Each number in a value is in the range of its type.
#[cycle(known)]
fn known_value(value: &Value)
    ensures { IsInRange (content value.now) }
{
    match value {
        Value::Nil | Value::Truth(_) | Value::Text(_) | Value::Bin(_) | Value::Opaque(_) => {}
        Value::Int(number) => {
            let _number = *number;
        }
        Value::Big(number) => {
            let _number = *number;
        }
        Value::Ext(kind, _) => {
            let _kind = *kind;
        }
        Value::List(items) => known_items(items),
        Value::Pairs(fields) => known_fields(fields),
    }
}

// The same of values.
#[cycle(known)]
fn known_items(items: &Items)
    ensures { AreInRange (contents items.now.items) }
{
    for item in items {
        known_value(item);
    }
}

// The same of the keys and values of a map.
#[cycle(known)]
fn known_fields(fields: &Fields)
    ensures { AreInRange (pair_contents fields.now.items) }
{
    for pair in fields {
        known_value(&pair.key);
        known_value(&pair.value);
    }
}

// The same of the arguments of a call. Its msgid is a number of 32 bits.
fn known_frame(frame: &Frame)
    ensures msgid { HasSmallMsgid (call_of_frame frame.now) }
    ensures arguments { HasTypedArguments (call_of_frame frame.now) }
{
    match frame {
        Frame::Request { msgid, params, .. } => {
            let _msgid = *msgid;
            known_items(params);
        }
        Frame::Notice { params, .. } => known_items(params),
    }
}

// The same of an entry.
fn known_entry(entry: &Entry)
    ensures { IsTypedEntry (plain_entry entry.now) }
{
    let _caller = entry.caller;
    match &entry.event {
        Event::Open => {}
        Event::Request { session, frame } => {
            let _session = *session;
            known_frame(frame);
        }
        Event::Take { session } | Event::Close { session } => {
            let _session = *session;
        }
    }
}

/// The numbers of entries have their types: a caller and a msgid 32 bits, a session 64, and each
/// number in an argument is in the range of its own. Nothing is done.
pub fn known_entries(entries: &[Entry])
    ensures { AllByRecursion IsTypedEntry (plain_entries entries.now) }
{
    for entry in entries {
        known_entry(entry);
    }
}
