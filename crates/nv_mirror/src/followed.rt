//! How following a buffer ends.
use nv_io::Flaw;
use nv_value::Bytes;

/// How following a buffer ends. Values count from 0.
#[derive(Drop)]
pub enum Followed {
    /// The server sent no more, and its bytes ended between two values.
    Ended,
    /// The buffer sends no more events.
    Detached,
    /// The server's bytes were malformed: `NoCall` has the number of a value that is neither a
    /// message nor a notification.
    Malformed(Flaw),
    /// The server refused the request, with this message.
    Refused(Bytes),
    /// The value of this number is an event that doesn't fit those before it.
    Unfit(u64),
    /// A read from the server failed.
    ReadFault,
    /// A write to the server failed.
    ServerFault,
    /// A write of the listing failed.
    OutputFault,
    /// Out of memory.
    NoMemory,
}
