//! Values of one form, read without those of other forms. Each begins at a place of a text and ends
//! before a limit.
ghost use Rattle.std.specs.Prelude.{◌≡◌, ◌+◌, ◌-◌, ◌<◌, ◌≤◌, ℕ, pos, length, drop, IfOk, IfSome};
ghost use Rattle.nv_value.specs.Content.{integer, text, list};
ghost use Rattle.nv_value.specs.View.{contents};
ghost use Rattle.nv_msgpack.specs.Spelling.{of_list};
ghost use Rattle.nv_msgpack.specs.FirstByte.{size_of, form_seen};
ghost use Rattle.nv_msgpack.specs.Reading.{after, none, some, whole, read_by, many_at, items_at, value_at, IsReadAt};
ghost use Rattle.nv_msgpack.specs.inside.Steps.{Gives};

use crate::first_bytes::{FirstByte, Length, first_byte};
use crate::numbers::unsigned_of;
use crate::reader::{head_of, items_of, payload_of};
use crate::stop::Stop;
use nv_value::Items;
use std::alloc::{AllocError, Global};

/// The number that begins so, where it is one of 32 bits.
#[inline(always)]
fn number_of(first: FirstByte, bytes: &[u8], at: usize, limit: u64) -> Option<(u32, usize)>
    requires within { at < length bytes.now }
    requires fits { at < limit }
    ensures { IfSome result (λ found. after at (read_by none (form_seen first) (limit - at)
        (drop (at + 1) bytes.now)) ≡ whole (integer (pos found.0)) found.1) }
{
    match first {
        FirstByte::Small(number) => match u32::try_from(number) {
            Ok(number) => Some((number, at + 1)),
            Err(_) => None,
        },
        FirstByte::Unsigned(width) => {
            match payload_of(bytes, at, Length::Fixed(width.bytes()), 0, limit) {
                Ok((payload, end)) => match u32::try_from(unsigned_of(payload, width)) {
                    Ok(number) => Some((number, end)),
                    Err(_) => None,
                },
                Err(_) => None,
            }
        }
        _ => None,
    }
}

/// The bytes of the string that begins so.
#[inline(always)]
fn text_of(first: FirstByte, bytes: &[u8], at: usize, limit: u64) -> Option<(&[u8], usize)>
    requires within { at < length bytes.now }
    requires fits { at < limit }
    ensures { IfSome result (λ found. after at (read_by none (form_seen first) (limit - at)
        (drop (at + 1) bytes.now)) ≡ whole (text found.0.now) found.1) }
{
    match first {
        FirstByte::Text(size) => match payload_of(bytes, at, size, 0, limit) {
            Ok(found) => Some(found),
            Err(_) => None,
        },
        _ => None,
    }
}

/// The values of the list at `at`, with at most `depth` lists and maps one in another inside it.
#[inline(always)]
fn listed(
    alloc: Global,
    size: Length,
    bytes: &[u8],
    at: usize,
    limit: u64,
    depth: u32,
) -> Result<(Items, usize), Stop>
    requires within { at < length bytes.now }
    requires fits { at < limit }
    ensures { Gives (λ items. list (contents items.items)) result
        (after at (many_at (items_at (value_at depth)) of_list (size_of size) (limit - at)
        (drop (at + 1) bytes.now))) }
{
    let (count, start) = head_of(bytes, at, size, 1, limit)?;
    let (items, end) = items_of(alloc, bytes, start, count, limit, depth)?;
    Ok((items, end))
}

/// The list that begins so.
#[inline(always)]
fn list_of(
    alloc: Global,
    first: FirstByte,
    bytes: &[u8],
    at: usize,
    limit: u64,
    depth: u32,
) -> Result<Option<(Items, usize)>, AllocError>
    requires within { at < length bytes.now }
    requires fits { at < limit }
    ensures { IfOk result (λ answer. IfSome answer (λ found. after at
        (read_by (some (items_at (value_at depth))) (form_seen first) (limit - at)
        (drop (at + 1) bytes.now)) ≡ whole (list (contents found.0.items)) found.1)) }
{
    match first {
        FirstByte::List(size) => match listed(alloc, size, bytes, at, limit, depth) {
            Ok(found) => Ok(Some(found)),
            Err(Stop::NoMemory) => Err(AllocError),
            Err(_) => Ok(None),
        },
        _ => Ok(None),
    }
}

/// The number of 32 bits at `at`, where one stands there, and the place behind it.
#[inline(always)]
pub fn number_at(bytes: &[u8], at: usize, limit: u64) -> Option<(u32, usize)>
    requires within { at ≤ length bytes.now }
    requires fits { at < limit }
    ensures stands { IfSome result (λ found. (depth : ℕ)
        → IsReadAt depth limit bytes.now at (integer (pos found.0)) found.1) }
    ensures within { IfSome result (λ found. found.1 ≤ length bytes.now) }
    ensures fits { IfSome result (λ found. found.1 ≤ limit) }
{
    if at >= bytes.len() {
        return None;
    }
    number_of(first_byte(bytes[at]), bytes, at, limit)
}

/// The bytes of the string at `at`, where one stands there, and the place behind it.
#[inline(always)]
pub fn text_at(bytes: &[u8], at: usize, limit: u64) -> Option<(&[u8], usize)>
    requires within { at ≤ length bytes.now }
    requires fits { at < limit }
    ensures stands { IfSome result (λ found. (depth : ℕ)
        → IsReadAt depth limit bytes.now at (text found.0.now) found.1) }
    ensures within { IfSome result (λ found. found.1 ≤ length bytes.now) }
    ensures fits { IfSome result (λ found. found.1 ≤ limit) }
{
    if at >= bytes.len() {
        return None;
    }
    text_of(first_byte(bytes[at]), bytes, at, limit)
}

/// The list at `at`, where one stands there, with at most `depth` lists and maps one in another
/// from it on, and the place behind it.
#[inline(always)]
pub fn list_at(
    alloc: Global,
    bytes: &[u8],
    at: usize,
    limit: u64,
    depth: u32,
) -> Result<Option<(Items, usize)>, AllocError>
    requires within { at ≤ length bytes.now }
    requires fits { at < limit }
    ensures stands { IfOk result (λ answer. IfSome answer (λ found.
        IsReadAt depth limit bytes.now at (list (contents found.0.items)) found.1)) }
    ensures within { IfOk result (λ answer. IfSome answer (λ found.
        found.1 ≤ length bytes.now)) }
    ensures fits { IfOk result (λ answer. IfSome answer (λ found. found.1 ≤ limit)) }
{
    if at >= bytes.len() || depth == 0 {
        return Ok(None);
    }
    list_of(alloc, first_byte(bytes[at]), bytes, at, limit, depth - 1)
}
