//! What the values are that a client is sent.
ghost use Rattle.std.specs.Prelude.{◌≡◌, if◌then◌else◌};
ghost use Rattle.nv_value.specs.View.{content};
ghost use Rattle.nv_rpc.specs.Calls.{call_in};
ghost use Rattle.nv_mirror.specs.Listings.{is_event_name, neither, other_notice, received_as_call, received_in};
ghost use Rattle.nv_mirror.specs.inside.Incoming.{received_of};

use nv_rpc::{Frame, Message, call_of, message_of};
use nv_value::Value;

/// What a value is to a client.
#[derive(Drop)]
pub enum Incoming {
    Message(Message),
    /// A notification of another name, which is left out of account.
    Other,
    /// Neither.
    Neither,
}

// Whether a name is that of one of the events.
fn is_event_name(name: &[u8]) -> bool
    ensures { result ≡ is_event_name name.now }
{
    name == b"nvim_buf_lines_event".as_slice()
        || name == b"nvim_buf_changedtick_event".as_slice()
        || name == b"nvim_buf_detach_event".as_slice()
        || name == b"nvim_error_event".as_slice()
}

// Whether a value that tells no message is a notification of another name.
fn is_other(value: Value) -> bool
    ensures { received_as_call (call_in (content value))
        ≡ (if result then other_notice else neither) }
{
    match call_of(value) {
        Ok(Frame::Notice { method, .. }) => !is_event_name(method.as_slice()),
        Ok(Frame::Request { .. }) | Err(_) => false,
    }
}

/// What a value is to a client.
pub fn received(value: Value) -> Incoming
    ensures { received_of result ≡ received_in (content value) }
{
    match message_of(value) {
        Ok(message) => Incoming::Message(message),
        Err(value) => {
            if is_other(value) {
                Incoming::Other
            } else {
                Incoming::Neither
            }
        }
    }
}
