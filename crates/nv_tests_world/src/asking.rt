//! Requests of sessions.
ghost use Rattle.std.specs.Prelude.{◌<◌, ◌^◌, length, IfOk};
ghost use Rattle.nv_value.specs.View.{contents};
ghost use Rattle.nv_args.specs.Weight.{AreLight};
ghost use Rattle.nv_core.specs.Contents.{plain_event};
ghost use Rattle.nv_core.specs.Bounds.{IsLightEvent};

use nv_core::Event;
use nv_rpc::Frame;
use nv_value::{Bytes, Items, Pair, Value};
use std::alloc::{AllocError, Global};

// A request of a session.
pub(crate) fn request(
    alloc: Global,
    session: u64,
    name: &str,
    params: Items,
) -> Result<Event, AllocError>
    requires name { length name.now < 2 ^ 16 }
    requires light { AreLight (contents params.items) }
    ensures { IfOk result (λ event. IsLightEvent (plain_event event)) }
{
    let method = Bytes::from_slice(alloc, name.as_bytes())?;
    Ok(Event::Request {
        session,
        frame: Frame::Request {
            msgid: 1,
            method,
            params,
        },
    })
}

// A session puts a line in place of the rows of buffer 1 from 0 to before `end`.
pub(crate) fn put_line(
    alloc: Global,
    session: u64,
    end: i64,
    line: &[u8],
) -> Result<Event, AllocError>
    requires { length line.now < 2 ^ 16 }
    ensures { IfOk result (λ event. IsLightEvent (plain_event event)) }
{
    let lines = vec![in alloc; Value::Text(Bytes::from_slice(alloc, line)?)]?;
    let params = vec![in alloc;
        Value::Int(1),
        Value::Int(0),
        Value::Int(end),
        Value::Truth(true),
        Value::List(lines),
    ]?;
    request(alloc, session, "nvim_buf_set_lines", params)
}

// Session 1 puts text at a column of the first row.
pub(crate) fn put_text(alloc: Global, col: i64, text: &[u8]) -> Result<Event, AllocError>
    requires { length text.now < 2 ^ 16 }
    ensures { IfOk result (λ event. IsLightEvent (plain_event event)) }
{
    let lines = vec![in alloc; Value::Text(Bytes::from_slice(alloc, text)?)]?;
    let params = vec![in alloc;
        Value::Int(1),
        Value::Int(0),
        Value::Int(col),
        Value::Int(0),
        Value::Int(col),
        Value::List(lines),
    ]?;
    request(alloc, 1, "nvim_buf_set_text", params)
}

// A session calls a method that takes a string.
pub(crate) fn name_one(
    alloc: Global,
    session: u64,
    method: &str,
    name: &[u8],
) -> Result<Event, AllocError>
    requires method { length method.now < 2 ^ 16 }
    requires name { length name.now < 2 ^ 16 }
    ensures { IfOk result (λ event. IsLightEvent (plain_event event)) }
{
    let params = vec![in alloc; Value::Text(Bytes::from_slice(alloc, name)?)]?;
    request(alloc, session, method, params)
}

// A session attaches to buffer 1.
pub(crate) fn attach(alloc: Global, session: u64, lines: bool) -> Result<Event, AllocError>
    ensures { IfOk result (λ event. IsLightEvent (plain_event event)) }
{
    let params = vec![in alloc;
        Value::Int(1),
        Value::Truth(lines),
        Value::Pairs(Vec::new(alloc)),
    ]?;
    request(alloc, session, "nvim_buf_attach", params)
}

// A session attaches a UI of this size.
pub(crate) fn attach_ui(
    alloc: Global,
    session: u64,
    width: i64,
    height: i64,
) -> Result<Event, AllocError>
    ensures { IfOk result (λ event. IsLightEvent (plain_event event)) }
{
    let options = vec![in alloc;
        Pair {
            key: Value::Text(Bytes::from_slice(alloc, b"ext_linegrid")?),
            value: Value::Truth(true),
        },
    ]?;
    let params = vec![in alloc;
        Value::Int(width),
        Value::Int(height),
        Value::Pairs(options),
    ]?;
    request(alloc, session, "nvim_ui_attach", params)
}
