//! Events made anew, whose strings are shared.
ghost use Rattle.std.specs.Prelude.{◌≡◌, IfOk};
ghost use Rattle.nv_value.specs.View.{contents};
ghost use Rattle.nv_rpc.specs.Frames.{call_of_frame};
ghost use Rattle.nv_core.specs.Contents.{plain_event};

use nv_core::Event;
use nv_rpc::Frame;
use nv_value::Items;
use std::alloc::{AllocError, Global};

/// The same values.
pub fn copy_of_values(alloc: Global, values: &Items) -> Result<Items, AllocError>
    ensures { IfOk result (λ copies. contents copies.items ≡ contents values.now.items) }
{
    let mut copies = Vec::with_capacity(alloc, values.len())?;
    for value in values {
        copies.push(value.copy(alloc)?)?;
    }
    Ok(copies)
}

// The same call.
fn copy_of_frame(alloc: Global, frame: &Frame) -> Result<Frame, AllocError>
    ensures { IfOk result (λ copy. call_of_frame copy ≡ call_of_frame frame.now) }
{
    match frame {
        Frame::Request {
            msgid,
            method,
            params,
        } => Ok(Frame::Request {
            msgid: *msgid,
            method: method.share()?,
            params: copy_of_values(alloc, params)?,
        }),
        Frame::Notice { method, params } => Ok(Frame::Notice {
            method: method.share()?,
            params: copy_of_values(alloc, params)?,
        }),
    }
}

/// The same event.
pub fn copy_of_event(alloc: Global, event: &Event) -> Result<Event, AllocError>
    ensures { IfOk result (λ copy. plain_event copy ≡ plain_event event.now) }
{
    match event {
        Event::Open => Ok(Event::Open),
        Event::Request { session, frame } => Ok(Event::Request {
            session: *session,
            frame: copy_of_frame(alloc, frame)?,
        }),
        Event::Take { session } => Ok(Event::Take { session: *session }),
        Event::Close { session } => Ok(Event::Close { session: *session }),
    }
}
