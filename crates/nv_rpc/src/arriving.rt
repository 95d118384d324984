//! Calls read from the bytes that spell them, without the list of their parts.
ghost use Rattle.std.specs.Prelude.{◌≡◌, ◌≤◌, pos, length, slice_index, Some, IfOk, IfSome, IsTrue};
ghost use Rattle.nv_value.specs.Content.{integer, text, list};
ghost use Rattle.nv_value.specs.View.{contents};
ghost use Rattle.nv_rpc.specs.Arrivals.{BeginsWithCall};
ghost use Rattle.nv_rpc.specs.Calls.{call_in};
ghost use Rattle.nv_rpc.specs.Frames.{call_of_frame};
ghost use Rattle.nv_rpc.specs.inside.Parts.{four};

use crate::frame::Frame;
use crate::names::Names;
use nv_msgpack::{Bounds, list_at, number_at, text_at};
use nv_value::{Bytes, Items};
use std::alloc::{AllocError, Global};

/// The call at the front of the bytes, and how many bytes spell it, where it is a request whose
/// name is a string, which is shared with earlier calls. `None` says nothing of the bytes: they may
/// begin with another call, with a part of one, or with none.
pub fn decode_call(
    alloc: Global,
    bytes: &[u8],
    bounds: Bounds,
    names: &mut Names,
) -> Result<Option<(Frame, usize)>, AllocError>
    ensures { IfOk result (λ answer. IfSome answer (λ found.
        BeginsWithCall bounds.depth bounds.bytes bytes.now (call_of_frame found.0) found.1)) }
{
    if !may_be_request(bytes, bounds) {
        return Ok(None);
    }
    let Some((msgid, at)) = number_at(bytes, 2, bounds.bytes - 2) else {
        return Ok(None);
    };
    let Some((name, at)) = text_at(bytes, at, bounds.bytes - 1) else {
        return Ok(None);
    };
    let Some((params, end)) = list_at(alloc, bytes, at, bounds.bytes, bounds.depth - 1)? else {
        return Ok(None);
    };
    let method = names.shared(alloc, name)?;
    Ok(Some((request_of(msgid, method, params), end)))
}

// Whether the bytes begin as those of a request: a list of four values, the first of which is 0.
fn may_be_request(bytes: &[u8], bounds: Bounds) -> bool
    ensures bounds { IsTrue result → (1 ≤ bounds.depth) × (5 ≤ bounds.bytes) }
    ensures begins { IsTrue result → (2 ≤ length bytes.now) × (slice_index bytes.now 0 ≡ 0x94)
        × (slice_index bytes.now 1 ≡ 0) }
{
    bounds.depth >= 1 && bounds.bytes >= 5 && bytes.len() >= 2 && bytes[0] == 0x94 && bytes[1] == 0
}

// The request of these parts.
fn request_of(msgid: u32, method: Bytes, params: Items) -> Frame
    ensures { call_in (list (four (integer (pos 0)) (integer (pos msgid)) (text method)
        (list (contents params.items)))) ≡ Some (call_of_frame result) }
{
    Frame::Request {
        msgid,
        method,
        params,
    }
}
