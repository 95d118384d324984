//! The world: one editor, the sessions that call it, and one history of all events.
#![tactic(auto)]

mod answering;
mod finishing;
mod laws;
mod machine;
mod notices;
mod session;
mod showing;
mod splicing;
mod state;
mod step;
mod story;
mod telling;
mod world;

pub use laws::world_laws;
pub use machine::Machine;
pub use state::Numbers;
pub use step::{Moved, Step};
pub use world::{LEAST_OUTBOX, MOST_OUTBOX, World};
