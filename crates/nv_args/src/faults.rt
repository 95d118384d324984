//! The faults that a call is refused with.
ghost use Rattle.std.specs.Prelude.{◌≡◌, ◌++◌, string_bytes};
ghost use Rattle.nv_args.specs.declared.faults.Fail.TheVariants.{NoMemory};
ghost use Rattle.nv_args.specs.Refusals.{Refuses};
ghost use Rattle.nv_args.specs.Faults.{unknown_method, wrong_count, wrong_type, no_buffer, invalid_key, invalid_value, out_of_bounds, start_after_end, newline_inside, not_modifiable, unknown_name, limit_reached, no_window, no_tabpage, no_id_left, no_room, last_one, name_in_use, unsaved_changes, not_attached, already_attached};

use nv_value::{ApiFault, Bytes};
use std::alloc::{AllocError, Global};

/// Why a call gives no result.
#[derive(Drop)]
pub enum Fail {
    /// The call is refused, and changed nothing.
    Api(ApiFault),
    /// Memory was wanting.
    NoMemory,
}

impl From<AllocError> for Fail {
    ghost from_gives = { λ _ fail. fail ≡ NoMemory };

    fn from(_error: AllocError) -> Self {
        Fail::NoMemory
    }
}

// A fault with these words, whose memory it takes over.
fn fault(kind: u8, code: u16, words: String) -> Fail
    ensures { Refuses result (record { kind = kind; code = code; words = string_bytes words }) }
{
    match Bytes::from_vec(words.into_bytes()) {
        Ok(words) => Fail::Api(ApiFault { kind, code, words }),
        Err(_) => Fail::NoMemory,
    }
}

fn fixed(alloc: Global, kind: u8, code: u16, words: &str) -> Fail
    ensures { Refuses result (record { kind = kind; code = code; words = words.now }) }
{
    match Bytes::from_slice(alloc, words.as_bytes()) {
        Ok(words) => Fail::Api(ApiFault { kind, code, words }),
        Err(_) => Fail::NoMemory,
    }
}

// A fault whose words end in bytes that were given.
fn named(alloc: Global, kind: u8, code: u16, front: &str, name: &[u8]) -> Fail
    ensures { Refuses result (record { kind = kind; code = code; words = front.now ++ name.now }) }
{
    let Ok(mut words) = Vec::from_slice(alloc, front.as_bytes()) else {
        return Fail::NoMemory;
    };
    if words.extend_from_slice(name).is_err() {
        return Fail::NoMemory;
    }
    match Bytes::from_vec(words) {
        Ok(words) => Fail::Api(ApiFault { kind, code, words }),
        Err(_) => Fail::NoMemory,
    }
}

/// No method has this name.
pub fn unknown_method(alloc: Global, name: &[u8]) -> Fail
    ensures { Refuses result (unknown_method name.now) }
{
    named(alloc, 0, 1, "Invalid method: ", name)
}

/// The number of arguments differs from that of the method's parameters.
pub fn wrong_count(alloc: Global, expected: usize, found: usize) -> Fail
    ensures { Refuses result (wrong_count expected found) }
{
    match format!(in alloc; "Wrong number of arguments: expecting {expected} but got {found}") {
        Ok(words) => fault(1, 2, words),
        Err(_) => Fail::NoMemory,
    }
}

/// The argument of this number, from 1, isn't of its parameter's type.
pub fn wrong_type(alloc: Global, number: u8, method: &str, kind: &str) -> Fail
    ensures { Refuses result (wrong_type number method.now kind.now) }
{
    match format!(in alloc;
        "Wrong type for argument {number} when calling {method}, expecting {kind}"
    ) {
        Ok(words) => fault(1, 3, words),
        Err(_) => Fail::NoMemory,
    }
}

/// The handle names no buffer.
pub fn no_buffer(alloc: Global, handle: i64) -> Fail
    ensures { Refuses result (no_buffer handle) }
{
    match format!(in alloc; "Invalid buffer id: {handle}") {
        Ok(words) => fault(1, 4, words),
        Err(_) => Fail::NoMemory,
    }
}

/// The method takes no such key. The key is empty where it is no string.
pub fn invalid_key(alloc: Global, key: &[u8]) -> Fail
    ensures { Refuses result (invalid_key key.now) }
{
    named(alloc, 1, 7, "Invalid key: ", key)
}

/// The value of the key isn't one that it takes, or the key is missing.
pub fn invalid_value(alloc: Global, key: &[u8]) -> Fail
    ensures { Refuses result (invalid_value key.now) }
{
    named(alloc, 1, 8, "Invalid value for key: ", key)
}

/// An index, a place or the number of a change lies outside its range.
pub fn out_of_bounds(alloc: Global) -> Fail
    ensures { Refuses result out_of_bounds }
{
    fixed(alloc, 1, 9, "Index out of bounds")
}

/// The start lies after the end.
pub fn start_after_end(alloc: Global) -> Fail
    ensures { Refuses result start_after_end }
{
    fixed(alloc, 1, 10, "'start' is higher than 'end'")
}

/// A new line holds a line feed.
pub fn newline_inside(alloc: Global) -> Fail
    ensures { Refuses result newline_inside }
{
    fixed(alloc, 1, 11, "String cannot contain newlines")
}

/// The text is to change, and the buffer isn't modifiable.
pub fn not_modifiable(alloc: Global) -> Fail
    ensures { Refuses result not_modifiable }
{
    fixed(alloc, 0, 13, "Buffer is not 'modifiable'")
}

/// No command has this text.
pub fn unknown_name(alloc: Global, name: &[u8]) -> Fail
    ensures { Refuses result (unknown_name name.now) }
{
    named(alloc, 0, 18, "Unknown name: ", name)
}

/// A limit of the editor would be passed.
pub fn limit_reached(alloc: Global) -> Fail
    ensures { Refuses result limit_reached }
{
    fixed(alloc, 0, 19, "Limit reached")
}

/// The handle names no window.
pub fn no_window(alloc: Global, handle: i64) -> Fail
    ensures { Refuses result (no_window handle) }
{
    match format!(in alloc; "Invalid window id: {handle}") {
        Ok(words) => fault(1, 5, words),
        Err(_) => Fail::NoMemory,
    }
}

/// The handle names no tabpage.
pub fn no_tabpage(alloc: Global, handle: i64) -> Fail
    ensures { Refuses result (no_tabpage handle) }
{
    match format!(in alloc; "Invalid tabpage id: {handle}") {
        Ok(words) => fault(1, 6, words),
        Err(_) => Fail::NoMemory,
    }
}

/// The next number would pass the last one.
pub fn no_id_left(alloc: Global) -> Fail
    ensures { Refuses result no_id_left }
{
    fixed(alloc, 0, 12, "No id left")
}

/// The windows wouldn't fit the screen.
pub fn no_room(alloc: Global) -> Fail
    ensures { Refuses result no_room }
{
    fixed(alloc, 0, 14, "Not enough room")
}

/// The last window or tabpage is to close.
pub fn last_one(alloc: Global) -> Fail
    ensures { Refuses result last_one }
{
    fixed(alloc, 0, 15, "Cannot close the last one")
}

/// Another buffer has the name.
pub fn name_in_use(alloc: Global) -> Fail
    ensures { Refuses result name_in_use }
{
    fixed(alloc, 0, 16, "Name already in use")
}

/// A modified buffer is deleted without force.
pub fn unsaved_changes(alloc: Global) -> Fail
    ensures { Refuses result unsaved_changes }
{
    fixed(alloc, 0, 17, "Unsaved changes, use force")
}

/// The session has no UI.
pub fn not_attached(alloc: Global) -> Fail
    ensures { Refuses result not_attached }
{
    fixed(alloc, 0, 20, "UI not attached")
}

/// The session has a UI.
pub fn already_attached(alloc: Global) -> Fail
    ensures { Refuses result already_attached }
{
    fixed(alloc, 0, 20, "UI already attached")
}
