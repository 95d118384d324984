//! The two halves of a session under the turn: one reads calls and makes them, one takes what is
//! due and writes it.
//!
//! Each half has a pass of its own. It decodes, speaks and writes outside the turn, and comes in
//! for one event at a time.
#![tactic(auto)]

mod bells;
mod ends;
mod insisting;
mod laws;
mod opening;
mod reader;
mod sending;
mod steps;
mod writer;

pub use bells::Bell;
pub use ends::{ReaderEnd, WriterEnd};
pub use laws::{asking_law, quitting_law};
pub use opening::open;
pub use reader::{ReaderHalf, reader_half, unread_half};
pub use writer::{WriterHalf, writer_half};
