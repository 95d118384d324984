//! Laws of what a session answers.
#![tactic(auto)]

mod laws;

pub use laws::whole_inputs;
