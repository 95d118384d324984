//! A step of a history that is gone over, entry by entry.

use nv_value::Bytes;

/// A splice of the flat text of a buffer, in bytes, as a part of one of its changes.
#[derive(Clone, Copy, Debug, PartialEq, Eq)]
pub struct Moved {
    pub buffer: i64,
    /// Where it begins, from 0.
    pub at: u64,
    /// How many bytes it takes out there.
    pub old: u64,
    /// How many it puts in their place.
    pub new: u64,
    /// The change that it belongs to, from 1: that which is open, or the one that is undone or made
    /// again.
    pub change: u64,
    /// Which part of that change it is, from 0.
    pub part: u64,
    /// Whether the part is taken back, and not made.
    pub back: bool,
}

/// An entry of a history, with what it gave and what it spliced.
#[derive(Drop)]
pub struct Step {
    /// The number of the entry, from 0.
    pub at: u64,
    pub caller: u32,
    /// The session of the entry; that of an Open is the new one.
    pub session: u64,
    /// What a Take gave, as bytes; nothing for any other entry.
    pub sent: Bytes,
    /// The splices that the entry made, in their order.
    pub splices: Vec<Moved>,
}
