//! Sessions: one that is alone in its world, and one of many, over a connection.
#![tactic(auto)]

mod asking;
mod connection;
mod session;

pub use connection::{Served, serve_one};
pub use session::alone;
