//! What the values of a book tell.
ghost use Rattle.std.specs.Prelude.{◌≡◌, ◌^◌, ◌∷◌, [], nat_lt, if◌then◌else◌, Some, None, IfOk, option_map, option_and_then};
ghost use Rattle.nv_value.specs.Content.{list};
ghost use Rattle.nv_value.specs.View.{content, contents};
ghost use Rattle.nv_rpc.specs.Calls.{params_in, request};
ghost use Rattle.nv_rpc.specs.Frames.{call_of_frame};
ghost use Rattle.nv_rpc.specs.Received.{text_in};
ghost use Rattle.nv_book.specs.Books.{book_name};
ghost use Rattle.nv_book.specs.Headings.{asked_in, asking_in, call_in_parts, closing_in, entry_count_in, heading_in, if_fair, is_letter, is_text, opening_in, outbox_in, outbox_in_parts, short_in, taking_in, unsigned32_in, unsigned_in};
ghost use Rattle.nv_book.specs.inside.Heads.{plain_heading};

use crate::copying::copy_of_values;
use nv_core::{Entry, Event};
use nv_rpc::Frame;
use nv_value::{Bytes, Items, Value};
use nv_world::{LEAST_OUTBOX, MOST_OUTBOX};
use std::alloc::{AllocError, Global};

/// An entry of a book, and of how many pieces its output is.
#[derive(Drop)]
pub struct Heading {
    pub entry: Entry,
    pub count: u64,
}

// An unsigned number.
fn unsigned_of(value: &Value) -> Option<u64>
    ensures { result ≡ unsigned_in (content value.now) }
{
    match value {
        Value::Int(number) => u64::try_from(*number).ok(),
        Value::Big(number) => big_of(*number),
        _ => None,
    }
}

// A number above the greatest `i64`.
fn big_of(number: u64) -> Option<u64>
    ensures { result ≡ (if nat_lt number (2 ^ 63) then None else Some number) }
{
    if number < 1 << 63 { None } else { Some(number) }
}

// An unsigned number of 32 bits.
fn unsigned32_of(value: &Value) -> Option<u32>
    ensures { result ≡ unsigned32_in (content value.now) }
{
    let number = unsigned_of(value)?;
    u32::try_from(number).ok()
}

// Whether a value is this string.
fn is_text(value: &Value, wanted: &[u8]) -> bool
    ensures { result ≡ is_text wanted.now (content value.now) }
{
    match value {
        Value::Text(bytes) => bytes.as_slice() == wanted,
        _ => false,
    }
}

// The bytes of a string.
fn text_of(value: &Value) -> Option<&Bytes>
    ensures { option_map (λ b. b.now) result ≡ text_in (content value.now) }
{
    match value {
        Value::Text(bytes) => Some(bytes),
        _ => None,
    }
}

// The values of a list.
fn list_of(value: &Value) -> Option<&Items>
    ensures { option_map (λ items. contents items.now.items) result
        ≡ params_in (content value.now) }
{
    match value {
        Value::List(items) => Some(items),
        _ => None,
    }
}

// A call of a method.
fn frame_of(
    alloc: Global,
    msgid: &Value,
    method: &Bytes,
    params: &Items,
) -> Result<Option<Frame>, AllocError>
    ensures { IfOk result (λ found. option_map call_of_frame found
        ≡ call_in_parts (content msgid.now) method.now (contents params.now.items)) }
{
    match msgid {
        Value::Nil => Ok(Some(Frame::Notice {
            method: method.share()?,
            params: copy_of_values(alloc, params)?,
        })),
        _ => request_of(alloc, unsigned32_of(msgid), method, params),
    }
}

// A request of this msgid, where there is one.
fn request_of(
    alloc: Global,
    msgid: Option<u32>,
    method: &Bytes,
    params: &Items,
) -> Result<Option<Frame>, AllocError>
    ensures { IfOk result (λ found. option_map call_of_frame found ≡ option_and_then
        (λ id. Some (request id method.now (contents params.now.items))) msgid) }
{
    match msgid {
        None => Ok(None),
        Some(msgid) => Ok(Some(Frame::Request {
            msgid,
            method: method.share()?,
            params: copy_of_values(alloc, params)?,
        })),
    }
}

// The heading of a session's opening.
fn opening(kind: &Value, caller: &Value) -> Option<Heading>
    ensures { option_map plain_heading result ≡ (if is_letter 111 (content kind.now)
        then opening_in (content caller.now) else None) }
{
    if !is_text(kind, b"o") {
        return None;
    }
    let caller = unsigned32_of(caller)?;
    let event = Event::Open;
    Some(Heading {
        entry: Entry { caller, event },
        count: 0,
    })
}

// That of its close.
fn closing(kind: &Value, caller: &Value, session: &Value) -> Option<Heading>
    ensures { option_map plain_heading result ≡ (if is_letter 99 (content kind.now)
        then closing_in (content caller.now) (content session.now) else None) }
{
    if !is_text(kind, b"c") {
        return None;
    }
    let caller = unsigned32_of(caller)?;
    let session = unsigned_of(session)?;
    let event = Event::Close { session };
    Some(Heading {
        entry: Entry { caller, event },
        count: 0,
    })
}

// That of a take.
fn taking(kind: &Value, caller: &Value, session: &Value, count: &Value) -> Option<Heading>
    ensures { option_map plain_heading result ≡ (if is_letter 116 (content kind.now)
        then taking_in (content caller.now) (content session.now) (content count.now)
        else None) }
{
    if !is_text(kind, b"t") {
        return None;
    }
    let caller = unsigned32_of(caller)?;
    let session = unsigned_of(session)?;
    let count = unsigned_of(count)?;
    let event = Event::Take { session };
    Some(Heading {
        entry: Entry { caller, event },
        count,
    })
}

// That of a call.
fn asking(
    alloc: Global,
    caller: &Value,
    session: &Value,
    msgid: &Value,
    method: &Value,
    params: &Value,
) -> Result<Option<Heading>, AllocError>
    ensures { IfOk result (λ found. option_map plain_heading found ≡ asking_in
        (content caller.now) (content session.now) (content msgid.now) (content method.now)
        (content params.now)) }
{
    let Some(caller) = unsigned32_of(caller) else {
        return Ok(None);
    };
    let Some(session) = unsigned_of(session) else {
        return Ok(None);
    };
    let Some(method) = text_of(method) else {
        return Ok(None);
    };
    let Some(params) = list_of(params) else {
        return Ok(None);
    };
    let Some(frame) = frame_of(alloc, msgid, method, params)? else {
        return Ok(None);
    };
    let event = Event::Request { session, frame };
    Ok(Some(Heading {
        entry: Entry { caller, event },
        count: 0,
    }))
}

// The heading of an opening, a close or a take.
fn short_heading(items: &[Value]) -> Option<Heading>
    ensures { option_map plain_heading result ≡ short_in (list (contents items.now)) }
{
    if items.len() == 2 {
        return opening(&items[0], &items[1]);
    }
    if items.len() == 3 {
        return closing(&items[0], &items[1], &items[2]);
    }
    if items.len() == 4 {
        return taking(&items[0], &items[1], &items[2], &items[3]);
    }
    None
}

// The heading of a call.
fn asked_heading(alloc: Global, items: &[Value]) -> Result<Option<Heading>, AllocError>
    ensures { IfOk result (λ found. option_map plain_heading found
        ≡ asked_in (list (contents items.now))) }
{
    if items.len() != 6 {
        return Ok(None);
    }
    if !is_text(&items[0], b"r") {
        return Ok(None);
    }
    asking(alloc, &items[1], &items[2], &items[3], &items[4], &items[5])
}

/// The heading of an entry, where values are those of one. Its strings are shared.
pub fn heading_of_items(alloc: Global, items: &[Value]) -> Result<Option<Heading>, AllocError>
    ensures { IfOk result (λ found. option_map plain_heading found
        ≡ heading_in (list (contents items.now))) }
{
    match short_heading(items) {
        Some(heading) => Ok(Some(heading)),
        None => asked_heading(alloc, items),
    }
}

/// The heading of an entry, where a value is one.
#[tactic(auto, unfolding(crate::specs::Headings::short_in, crate::specs::Headings::asked_in))]
pub fn heading_of(alloc: Global, value: &Value) -> Result<Option<Heading>, AllocError>
    ensures { IfOk result (λ found. option_map plain_heading found
        ≡ heading_in (content value.now)) }
{
    match value {
        Value::List(items) => heading_of_items(alloc, items.as_slice()),
        _ => Ok(None),
    }
}

// How many entries two values tell of, where they are the parts of the last value of a book.
fn end_of_parts(name: &Value, count: &Value) -> Option<u64>
    ensures { result ≡ (if is_text (101 ∷ 110 ∷ 100 ∷ []) (content name.now)
        then unsigned_in (content count.now) else None) }
{
    if is_text(name, b"end") {
        unsigned_of(count)
    } else {
        None
    }
}

#[tactic(auto, unfolding(crate::specs::Headings::entry_count_in))]
fn end_of_items(items: &[Value]) -> Option<u64>
    ensures { result ≡ entry_count_in (list (contents items.now)) }
{
    match items {
        [name, count] => end_of_parts(name, count),
        _ => None,
    }
}

/// How many entries the last value of a book tells of, where a value is that.
#[tactic(auto, unfolding(crate::specs::Headings::entry_count_in))]
pub fn end_of(value: &Value) -> Option<u64>
    ensures { result ≡ entry_count_in (content value.now) }
{
    match value {
        Value::List(items) => end_of_items(items.as_slice()),
        _ => None,
    }
}

// How many messages an outbox holds, where it may hold so many.
fn fair(outbox: u64) -> Option<u32>
    ensures { result ≡ if_fair outbox }
{
    if outbox < LEAST_OUTBOX || outbox > MOST_OUTBOX {
        return None;
    }
    Some(outbox as u32)
}

// What the parts of the first value of a book tell.
fn outbox_of_parts(name: &Value, version: &Value, outbox: &Value) -> Option<u32>
    ensures { result ≡ (if is_text book_name (content name.now)
        then outbox_in_parts (content version.now) (content outbox.now) else None) }
{
    if !is_text(name, b"nvimd-book") {
        return None;
    }
    let version = unsigned_of(version)?;
    let outbox = unsigned_of(outbox)?;
    if version != 1 {
        return None;
    }
    fair(outbox)
}

#[tactic(auto, unfolding(crate::specs::Headings::outbox_in))]
fn outbox_of_items(items: &[Value]) -> Option<u32>
    ensures { result ≡ outbox_in (list (contents items.now)) }
{
    match items {
        [name, version, outbox] => outbox_of_parts(name, version, outbox),
        _ => None,
    }
}

/// How many messages an outbox holds, where a value is the first of a book.
#[tactic(auto, unfolding(crate::specs::Headings::outbox_in))]
pub fn outbox_of(value: &Value) -> Option<u32>
    ensures { result ≡ outbox_in (content value.now) }
{
    match value {
        Value::List(items) => outbox_of_items(items.as_slice()),
        _ => None,
    }
}
