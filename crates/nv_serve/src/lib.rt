//! The server: connections of several lanes, served at once on one world.
//!
//! Each lane has a thread and two passes of its own, and serves one connection after another. Where
//! all lanes have ended, their passes are joined, the turn is closed, and the core comes back.
#![tactic(auto)]

mod dealing;
mod job;
mod lane;
mod serving;

pub use job::Job;
pub use serving::{Left, serve};
