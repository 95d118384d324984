//! Who is told of which buffer, and what a client makes of what it is told.
#![tactic(auto)]

mod follower;
mod laws;
mod received;
mod sessions;
mod state;
mod subs;
mod table;

pub use follower::Follower;
pub use laws::{mirror_laws, session_laws, worked_mirrors};
pub use subs::Subs;
