//! The values of a book.
ghost use Rattle.std.specs.Prelude.{◌≡◌, ◌∷◌, ℕ, [], IfOk};
ghost use Rattle.nv_value.specs.Content.{bin, list, text, trees_of};
ghost use Rattle.nv_value.specs.View.{content, contents};
ghost use Rattle.nv_msgpack.specs.Spelling.{unsigned_number};
ghost use Rattle.nv_rpc.specs.Frames.{call_of_frame};
ghost use Rattle.nv_history.specs.Events.{request_of};
ghost use Rattle.nv_core.specs.Contents.{plain_entry};
ghost use Rattle.nv_book.specs.Books.{book_end, book_head, entry_head, event_values, letter};

use crate::copying::copy_of_values;
use nv_core::{Entry, Event};
use nv_rpc::Frame;
use nv_value::{Bytes, Items, Value};
use std::alloc::{AllocError, Global};

// A string.
fn text(alloc: Global, bytes: &[u8]) -> Result<Value, AllocError>
    ensures { IfOk result (λ v. content v ≡ text bytes.now) }
{
    Ok(Value::Text(Bytes::from_slice(alloc, bytes)?))
}

// A number.
fn number(number: u64) -> Value
    ensures { content result ≡ unsigned_number number }
{
    match i64::try_from(number) {
        Ok(number) => Value::Int(number),
        Err(_) => Value::Big(number),
    }
}

// The values of a call of a session.
fn call_values(
    alloc: Global,
    caller: u32,
    session: u64,
    msgid: Value,
    method: &Bytes,
    params: &Items,
) -> Result<Items, AllocError>
    ensures { IfOk result (λ vs. contents vs.items ≡ trees_of (letter 114 ∷ unsigned_number caller
        ∷ unsigned_number session ∷ content msgid ∷ text method.now
        ∷ list (contents params.now.items) ∷ [])) }
{
    let kind = text(alloc, b"r")?;
    let method = method.share()?;
    let params = copy_of_values(alloc, params)?;
    let items = vec![in alloc;
        kind,
        number(u64::from(caller)),
        number(session),
        msgid,
        Value::Text(method),
        Value::List(params),
    ]?;
    Ok(items)
}

// The values of what a frame asks for.
fn frame_values(
    alloc: Global,
    caller: u32,
    session: u64,
    frame: &Frame,
) -> Result<Items, AllocError>
    ensures { IfOk result (λ vs. (count : ℕ) → contents vs.items
        ≡ trees_of (event_values caller count (request_of session (call_of_frame frame.now)))) }
{
    match frame {
        Frame::Request {
            msgid,
            method,
            params,
        } => {
            let msgid = number(u64::from(*msgid));
            call_values(alloc, caller, session, msgid, method, params)
        }
        Frame::Notice { method, params } => {
            call_values(alloc, caller, session, Value::Nil, method, params)
        }
    }
}

// The values of an entry whose output is so many pieces.
fn entry_values(alloc: Global, entry: &Entry, count: u64) -> Result<Items, AllocError>
    ensures { IfOk result (λ vs. contents vs.items
        ≡ trees_of (event_values entry.now.caller count (plain_entry entry.now).event)) }
{
    let caller = entry.caller;
    match &entry.event {
        Event::Open => {
            let kind = text(alloc, b"o")?;
            Ok(vec![in alloc; kind, number(u64::from(caller))]?)
        }
        Event::Request { session, frame } => frame_values(alloc, caller, *session, frame),
        Event::Take { session } => {
            let kind = text(alloc, b"t")?;
            Ok(vec![in alloc;
                kind,
                number(u64::from(caller)),
                number(*session),
                number(count),
            ]?)
        }
        Event::Close { session } => {
            let kind = text(alloc, b"c")?;
            Ok(vec![in alloc; kind, number(u64::from(caller)), number(*session)]?)
        }
    }
}

/// What tells of an entry whose output is so many pieces.
pub fn entry_head(alloc: Global, entry: &Entry, count: u64) -> Result<Value, AllocError>
    ensures { IfOk result (λ v. content v ≡ entry_head (plain_entry entry.now) count) }
{
    Ok(Value::List(entry_values(alloc, entry, count)?))
}

/// The first value of a book, whose outbox holds so many messages.
pub fn book_head(alloc: Global, outbox: u32) -> Result<Value, AllocError>
    ensures { IfOk result (λ v. content v ≡ book_head outbox) }
{
    let name = text(alloc, b"nvimd-book")?;
    let items = vec![in alloc; name, number(1), number(u64::from(outbox))]?;
    Ok(Value::List(items))
}

/// The last value of a book of so many entries.
pub fn book_end(alloc: Global, count: u64) -> Result<Value, AllocError>
    ensures { IfOk result (λ v. content v ≡ book_end count) }
{
    let name = text(alloc, b"end")?;
    let items = vec![in alloc; name, number(count)]?;
    Ok(Value::List(items))
}

/// A piece of an output.
pub fn piece(alloc: Global, bytes: &[u8]) -> Result<Value, AllocError>
    ensures { IfOk result (λ v. content v ≡ bin bytes.now) }
{
    Ok(Value::Bin(Bytes::from_slice(alloc, bytes)?))
}

/// A piece of an output, with the entry and the session whose output it is.
pub fn numbered_piece(
    alloc: Global,
    entry: u64,
    session: u64,
    bytes: &[u8],
) -> Result<Value, AllocError>
    ensures { IfOk result (λ v. content v ≡ list (trees_of
        (unsigned_number entry ∷ unsigned_number session ∷ bin bytes.now ∷ []))) }
{
    let piece = piece(alloc, bytes)?;
    let items = vec![in alloc; number(entry), number(session), piece]?;
    Ok(Value::List(items))
}
