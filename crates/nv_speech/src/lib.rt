//! What is due to a client, spelled and sent: messages, and then the scene that its UI is to show.
#![tactic(auto)]

mod saying;
mod voice;

pub use saying::{Unsaid, say};
pub use voice::Voice;
