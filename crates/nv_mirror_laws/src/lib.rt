//! Laws of a client that follows a buffer of a server.
#![tactic(auto)]

mod laws;

pub use laws::{refusals_are_told, request_is_call, served_bytes_are_followed, worked_story};
