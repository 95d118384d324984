//! What a core begins with.

use nv_model::Limits;

/// What a world begins with, which no event changes.
#[derive(Clone, Copy)]
pub struct Start {
    /// How many messages an outbox holds.
    pub outbox: u32,
    pub limits: Limits,
}
