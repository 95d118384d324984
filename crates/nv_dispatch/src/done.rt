//! What a call gives.

use nv_rpc::Outcome;

/// The result of a call, and whether the call may have changed what is seen on a screen.
#[derive(Drop)]
pub struct Done {
    pub result: Outcome,
    pub is_seen: bool,
}
