// How each half of a session ends.

use nv_core::Cause;
use nv_io::Flaw;

/// How the half that reads ended.
#[derive(Clone, Copy, Debug, PartialEq, Eq)]
pub enum ReaderEnd {
    /// Its bytes came to their end.
    Closed,
    /// Its bytes were malformed.
    Malformed(Flaw),
    /// A read failed.
    ReadFault,
    /// The session was closed for this cause, and not by this half.
    Gone(Cause),
    /// Memory was wanting.
    NoMemory,
}

/// How the half that writes ended.
#[derive(Clone, Copy, Debug, PartialEq, Eq)]
pub enum WriterEnd {
    /// The session was closed for this cause, and all that was due went out.
    Over(Cause),
    /// A write failed.
    WriteFault,
    /// Memory was wanting.
    NoMemory,
}
