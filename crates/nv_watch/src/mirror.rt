//! What a session makes of a buffer.
ghost use Rattle.std.specs.Prelude.{◌≡◌};

use nv_subs::Follower;

/// Whose mirror of which buffer.
#[derive(Clone, Copy)]
pub struct Owner {
    pub session: u64,
    pub buffer: i64,
}

/// How many rows at the front of two texts are known to be the same, and how many at their ends.
#[derive(Clone, Copy)]
pub struct Ends {
    pub front: usize,
    pub back: usize,
}

/// What a session makes of a buffer, and which of its rows are known to be the buffer's.
#[derive(Drop)]
pub struct Followed {
    pub session: u64,
    pub buffer: i64,
    pub follower: Follower,
    pub ends: Ends,
    ghost about: { follower.buffer ≡ buffer },
}
