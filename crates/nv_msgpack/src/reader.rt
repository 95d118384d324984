//! The value at the front of a text.
ghost use Rattle.std.specs.Prelude.{◌≡◌, ◌+◌, ◌-◌, ◌*◌, ◌<◌, ◌≤◌, [], ◌∷◌, length, drop, IfOk};
ghost use Rattle.nv_value.specs.View.{content, contents, pair_contents, pair_content};
ghost use Rattle.nv_value.specs.Content.{in_turn};
ghost use Rattle.nv_msgpack.specs.Spelling.{number_in, width, raw_value, of_ext, of_list, of_map, unsigned_number};
ghost use Rattle.nv_msgpack.specs.FirstByte.{size_of, form_seen};
ghost use Rattle.nv_msgpack.specs.Decoded.{decoded_seen, HasSpellingIfWhole, IsRight, ReadsEach, AsksForMore};
ghost use Rattle.nv_msgpack.specs.Reading.{after, none, flawed, read_by, many_at, items_at, value_at};
ghost use Rattle.nv_msgpack.specs.inside.Steps.{Gives, Adds, flaw_of, payload_at, head_at};

use crate::decoded::{Bounds, Decoded};
use crate::first_bytes::{FirstByte, Length, first_byte};
use crate::numbers::{one_at, signed_of, unsigned_of};
use crate::stop::{Fault, Stop};
use nv_value::{Bytes, Pair, Value};
use std::alloc::{AllocError, Global};

/// How many entries room is made for before the first is read.
const FEW: u64 = 8;

/// The bytes behind a length, and `extra` more. The value begins at `at` and ends before `limit`.
#[inline(always)]
pub fn payload_of(
    bytes: &[u8],
    at: usize,
    size: Length,
    extra: u8,
    limit: u64,
) -> Result<(&[u8], usize), Stop>
    requires within { at < length bytes.now }
    requires fits { at < limit }
    ensures gives { Gives (λ payload. payload.now) result
        (after at (payload_at (size_of size) extra (limit - at) (drop (at + 1) bytes.now))) }
    ensures long { IfOk result (λ found. length found.0.now
        ≡ number_in (size_of size) (drop (at + 1) bytes.now) + extra) }
{
    let start = at + 1 + size.width() as usize;
    let end = start as u64 + u64::from(size.number(bytes, at + 1)) + u64::from(extra);
    if limit < end {
        return Err(Stop::Flawed(Fault::TooLong, at));
    }
    if (bytes.len() as u64) < end {
        return Err(Stop::NeedsMore);
    }
    let end = end as usize;
    Ok((&bytes[start..end], end))
}

/// The length of a list or map, whose every entry is `each` values, and where the values begin.
#[inline(always)]
pub fn head_of(
    bytes: &[u8],
    at: usize,
    size: Length,
    each: u8,
    limit: u64,
) -> Result<(u64, usize), Stop>
    requires within { at < length bytes.now }
    requires fits { at < limit }
    requires few { each ≤ 2 }
    ensures gives { Gives (λ count. count) result
        (after at (head_at each (size_of size) (limit - at) (drop (at + 1) bytes.now))) }
    ensures within { IfOk result (λ head. head.1 ≤ length bytes.now) }
    ensures fits { IfOk result (λ head. head.1 + each * head.0 ≤ limit) }
{
    let start = at + 1 + size.width() as usize;
    let count = u64::from(size.number(bytes, at + 1));
    if limit < start as u64 + u64::from(each) * count {
        return Err(Stop::Flawed(Fault::TooLong, at));
    }
    if bytes.len() < start {
        return Err(Stop::NeedsMore);
    }
    Ok((count, start))
}

/// An unsigned number as a value.
fn integer(number: u64) -> Value
    ensures { content result ≡ unsigned_number number }
{
    if number <= i64::MAX as u64 {
        Value::Int(number as i64)
    } else {
        Value::Big(number)
    }
}

/// An ext value of its type and its data.
fn ext_of(alloc: Global, payload: &[u8]) -> Result<Value, AllocError>
    requires { 0 < length payload.now }
    ensures { IfOk result (λ value. content value ≡ raw_value of_ext payload.now) }
{
    let data = Bytes::from_slice(alloc, &payload[1..])?;
    Ok(Value::Ext(one_at(payload, 0).cast_signed(), data))
}

/// The value at `at`, which may not be a list or map.
#[inline(always)]
fn plain_of(
    alloc: Global,
    first: FirstByte,
    bytes: &[u8],
    at: usize,
    limit: u64,
) -> Result<(Value, usize), Stop>
    requires within { at < length bytes.now }
    requires fits { at < limit }
    ensures { Gives content result
        (after at (read_by none (form_seen first) (limit - at) (drop (at + 1) bytes.now))) }
{
    match first {
        FirstByte::Unused => Err(Stop::Flawed(Fault::Bad, at)),
        FirstByte::List(_) | FirstByte::Map(_) => Err(Stop::Flawed(Fault::TooDeep, at)),
        FirstByte::Nil => Ok((Value::Nil, at + 1)),
        FirstByte::Truth(truth) => Ok((Value::Truth(truth), at + 1)),
        FirstByte::Small(number) => Ok((Value::Int(i64::from(number)), at + 1)),
        FirstByte::Text(size) => {
            let (payload, end) = payload_of(bytes, at, size, 0, limit)?;
            Ok((Value::Text(Bytes::from_slice(alloc, payload)?), end))
        }
        FirstByte::Bin(size) => {
            let (payload, end) = payload_of(bytes, at, size, 0, limit)?;
            Ok((Value::Bin(Bytes::from_slice(alloc, payload)?), end))
        }
        FirstByte::Ext(size) => {
            let (payload, end) = payload_of(bytes, at, size, 1, limit)?;
            Ok((ext_of(alloc, payload)?, end))
        }
        FirstByte::Unsigned(width) => {
            let (payload, end) = payload_of(bytes, at, Length::Fixed(width.bytes()), 0, limit)?;
            Ok((integer(unsigned_of(payload, width)), end))
        }
        FirstByte::Signed(width) => {
            let (payload, end) = payload_of(bytes, at, Length::Fixed(width.bytes()), 0, limit)?;
            Ok((Value::Int(signed_of(payload, width)), end))
        }
        FirstByte::Float(width) => {
            let (payload, end) = payload_of(bytes, at, Length::Fixed(width.bytes()), 0, limit)?;
            Ok((Value::Opaque(Bytes::from_slice(alloc, payload)?), end))
        }
    }
}

/// How many entries to make room for at first: no more than there are, or bytes left to spell them.
fn first_room(count: u64, left: usize) -> usize
    ensures counted { result ≤ count }
    ensures spelled { result ≤ left }
{
    count.min(FEW).min(left as u64) as usize
}

/// The value at `at`, which ends before `limit`, with at most `depth` lists and maps one in
/// another.
#[cycle(decode)]
#[inline(always)]
fn value_of(
    alloc: Global,
    bytes: &[u8],
    at: usize,
    limit: u64,
    depth: u32,
) -> Result<(Value, usize), Stop>
    requires within { at ≤ length bytes.now }
    requires fits { at < limit }
    ensures { Gives content result (after at (value_at depth (limit - at) (drop at bytes.now))) }
{
    if at >= bytes.len() {
        return Err(Stop::NeedsMore);
    }
    let first = first_byte(bytes[at]);
    match first {
        FirstByte::List(size) if depth > 0 => list_of(alloc, size, bytes, at, limit, depth - 1),
        FirstByte::Map(size) if depth > 0 => map_of(alloc, size, bytes, at, limit, depth - 1),
        _ => plain_of(alloc, first, bytes, at, limit),
    }
}

/// The list at `at`, with at most `depth` lists and maps one in another inside it.
#[cycle(decode)]
fn list_of(
    alloc: Global,
    size: Length,
    bytes: &[u8],
    at: usize,
    limit: u64,
    depth: u32,
) -> Result<(Value, usize), Stop>
    requires within { at < length bytes.now }
    requires fits { at < limit }
    ensures { Gives content result
        (after at (many_at (items_at (value_at depth)) of_list (size_of size) (limit - at)
        (drop (at + 1) bytes.now))) }
{
    let (count, start) = head_of(bytes, at, size, 1, limit)?;
    let (items, end) = items_of(alloc, bytes, start, count, limit, depth)?;
    Ok((Value::List(items), end))
}

/// The map at `at`, with at most `depth` lists and maps one in another inside it.
#[cycle(decode)]
fn map_of(
    alloc: Global,
    size: Length,
    bytes: &[u8],
    at: usize,
    limit: u64,
    depth: u32,
) -> Result<(Value, usize), Stop>
    requires within { at < length bytes.now }
    requires fits { at < limit }
    ensures { Gives content result
        (after at (many_at (items_at (value_at depth)) of_map (size_of size) (limit - at)
        (drop (at + 1) bytes.now))) }
{
    let (count, start) = head_of(bytes, at, size, 2, limit)?;
    let (fields, end) = fields_of(alloc, bytes, start, count, limit, depth)?;
    Ok((Value::Pairs(fields), end))
}

/// So many values from `start` on.
#[cycle(decode)]
pub fn items_of(
    alloc: Global,
    bytes: &[u8],
    start: usize,
    count: u64,
    limit: u64,
    depth: u32,
) -> Result<(Vec<Value>, usize), Stop>
    requires within { start ≤ length bytes.now }
    requires fits { start + count ≤ limit }
    ensures { Gives (λ items. contents items.items) result
        (after start (items_at (value_at depth) count (limit - start) (drop start bytes.now))) }
{
    let mut items = Vec::with_capacity(alloc, first_room(count, bytes.len() - start))?;
    let mut at = start;
    let mut owed = count;
    while owed > 0 {
        owed -= 1;
        at = put_item(alloc, bytes, at, limit - owed, depth, &mut items)?;
    }
    Ok((items, at))
}

/// Adds the value at `at` at the end of `items`, and gives the place behind it.
#[cycle(decode)]
fn put_item(
    alloc: Global,
    bytes: &[u8],
    at: usize,
    limit: u64,
    depth: u32,
    items: &mut Vec<Value>,
) -> Result<usize, Stop>
    requires within { at ≤ length bytes.now }
    requires fits { at < limit }
    ensures { Adds items.old.items items.new.items result
        (after at (value_at depth (limit - at) (drop at bytes.now))) }
{
    if at < bytes.len() && bytes[at] < 0x80 {
        items.push(Value::Int(i64::from(bytes[at])))?;
        return Ok(at + 1);
    }
    let (item, end) = value_of(alloc, bytes, at, limit, depth)?;
    items.push(item)?;
    Ok(end)
}

/// So many pairs from `start` on.
#[cycle(decode)]
fn fields_of(
    alloc: Global,
    bytes: &[u8],
    start: usize,
    count: u64,
    limit: u64,
    depth: u32,
) -> Result<(Vec<Pair>, usize), Stop>
    requires within { start ≤ length bytes.now }
    requires fits { start + 2 * count ≤ limit }
    ensures { Gives (λ fields. pair_contents fields.items) result
        (after start (items_at (value_at depth) (2 * count) (limit - start)
        (drop start bytes.now))) }
{
    let mut fields = Vec::with_capacity(alloc, first_room(count, bytes.len() - start))?;
    let mut at = start;
    let mut owed = count;
    while owed > 0 {
        owed -= 1;
        let (pair, end) = pair_of(alloc, bytes, at, limit - 2 * owed, depth)?;
        fields.push(pair)?;
        at = end;
    }
    Ok((fields, at))
}

/// The key at `at`, and the value behind it.
#[cycle(decode)]
fn pair_of(
    alloc: Global,
    bytes: &[u8],
    at: usize,
    limit: u64,
    depth: u32,
) -> Result<(Pair, usize), Stop>
    requires within { at ≤ length bytes.now }
    requires fits { at + 2 ≤ limit }
    ensures { Gives (λ pair. in_turn (pair_content pair ∷ [])) result
        (after at (items_at (value_at depth) 2 (limit - at) (drop at bytes.now))) }
{
    let (key, middle) = value_of(alloc, bytes, at, limit - 1, depth)?;
    let (value, end) = value_of(alloc, bytes, middle, limit, depth)?;
    Ok((Pair { key, value }, end))
}

/// The answer for a fault.
fn flaw_at(fault: Fault, place: usize) -> Decoded
    ensures { decoded_seen result ≡ flawed (flaw_of fault) place }
{
    match fault {
        Fault::Bad => Decoded::Bad(place),
        Fault::TooDeep => Decoded::TooDeep(place),
        Fault::TooLong => Decoded::TooLong(place),
    }
}

/// The answer of the reading from the left.
fn read(alloc: Global, bytes: &[u8], bounds: Bounds) -> Result<Decoded, AllocError>
    requires { 1 ≤ bounds.bytes }
    ensures { IfOk result (λ answer. decoded_seen answer
        ≡ value_at bounds.depth bounds.bytes bytes.now) }
{
    match value_of(alloc, bytes, 0, bounds.bytes, bounds.depth) {
        Ok((value, length)) => Ok(Decoded::Whole(value, length)),
        Err(Stop::NoMemory) => Err(AllocError),
        Err(Stop::NeedsMore) => Ok(Decoded::NeedsMore),
        Err(Stop::Flawed(fault, place)) => Ok(flaw_at(fault, place)),
    }
}

/// The value at the front of the bytes (MessagePack specification, "Formats"). Bytes may follow it.
/// Memory is taken only for bytes that have come.
pub fn decode(alloc: Global, bytes: &[u8], bounds: Bounds) -> Result<Decoded, AllocError>
    requires { 1 ≤ bounds.bytes }

    // The answer is true of the bytes, and a value and the wish for more are answered wherever they
    // are true.
    ensures right { IfOk result (IsRight bounds.depth bounds.bytes bytes.now) }
    ensures reads_each { IfOk result (ReadsEach bounds.depth bounds.bytes bytes.now) }
    ensures asks_for_more { IfOk result (AsksForMore bounds.depth bounds.bytes bytes.now) }

    // Which flaw it is, and of which byte.
    ensures exact { IfOk result (λ answer. decoded_seen answer
        ≡ value_at bounds.depth bounds.bytes bytes.now) }

    // A value may be encoded again.
    ensures has_spelling { IfOk result HasSpellingIfWhole }
{
    read(alloc, bytes, bounds)
}
