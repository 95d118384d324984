//! What happens to a world, and what is kept of it.

use nv_rpc::Frame;

/// What happens to a world.
#[derive(Drop)]
pub enum Event {
    /// A session begins. Sessions are numbered from 1, in the order of these events.
    Open,
    /// A session makes a call.
    Request { session: u64, frame: Frame },
    /// All that waits for a session is handed over.
    Take { session: u64 },
    /// A session ends.
    Close { session: u64 },
}

/// An event that entered the history, with the number of who brought it.
#[derive(Drop)]
pub struct Entry {
    pub caller: u32,
    pub event: Event,
}
