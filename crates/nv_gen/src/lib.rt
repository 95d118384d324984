//! Scripts of events that are drawn from a number.
#![tactic(auto)]

mod asking;
mod draws;
mod rounds;
mod scripts;

pub use scripts::script;
