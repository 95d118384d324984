//! The next call of a stream.
ghost use Rattle.std.specs.Prelude.{◌≡◌, IfOk, IfSome, IfNone, OnErr};
ghost use Rattle.nv_rpc.specs.Frames.{call_of_frame};
ghost use Rattle.nv_calls.specs.Reading.{most_depth, most_bytes};
ghost use Rattle.nv_calls.specs.inside.Given.{IsGiven, TakesCall};

use nv_io::Flaw;
use nv_msgpack::Bounds;
use nv_rpc::{Frame, Names, call_of, decode_call};
use nv_stream::{Next, Stream};
use std::alloc::{AllocError, Global};

/// What bounds a message: at most so many lists and maps one in another, and at most so many bytes.
pub const BOUNDS: Bounds = Bounds {
    depth: 64,
    bytes: 67_108_864,
};

/// What a stream has next.
#[derive(Drop)]
pub enum Given {
    /// The next call, whole.
    Call(Frame),
    /// The next value is whole, and no call.
    NoCall,
    /// No value is whole before more bytes come.
    More,
    /// Here the bytes stop being values within the bounds.
    Flaw(Flaw),
}

// The next call of a stream, where it is read without the value that it is. Else nothing is taken.
fn request_at_once(
    alloc: Global,
    stream: &mut Stream,
    names: &mut Names,
) -> Result<Option<Frame>, AllocError>
    requires depth { stream.old.depth ≡ most_depth }
    requires most { stream.old.most ≡ most_bytes }
    ensures takes { IfOk result (λ answer. IfSome answer
        (λ call. TakesCall (call_of_frame call) stream.old stream.new)) }
    ensures stays { IfOk result (λ answer. IfNone answer (stream.new ≡ stream.old)) }
    ensures err { OnErr result (stream.new ≡ stream.old) }
{
    let Some(bytes) = stream.untried() else {
        return Ok(None);
    };
    let Some((call, length)) = decode_call(alloc, bytes, BOUNDS, names)? else {
        return Ok(None);
    };
    stream.skip(length);
    Ok(Some(call))
}

/// The next call of a stream, which is taken. Where memory is wanting, nothing is.
pub fn next_given(
    alloc: Global,
    stream: &mut Stream,
    names: &mut Names,
) -> Result<Given, AllocError>
    requires depth { stream.old.depth ≡ most_depth }
    requires most { stream.old.most ≡ most_bytes }
    ensures ok { IfOk result (λ given. IsGiven given stream.old stream.new) }
    ensures err { OnErr result (stream.new ≡ stream.old) }
{
    if let Some(call) = request_at_once(alloc, stream, names)? {
        return Ok(Given::Call(call));
    }
    match stream.next()? {
        Next::Value(value) => match call_of(value) {
            Ok(call) => Ok(Given::Call(call)),
            Err(_) => Ok(Given::NoCall),
        },
        Next::More => Ok(Given::More),
        Next::Flaw(flaw) => Ok(Given::Flaw(flaw)),
    }
}
