//! The calls in a stream of bytes that comes in pieces, within the bounds of a message.
//!
//! An [`Intake`] reads pieces from a source and gives the calls in them, one after another. It
//! knows nothing of what is done with a call.
#![tactic(auto)]

mod calls;
mod intake;
mod laws;

pub use intake::{Intake, NextCall, Unfed};
pub use laws::reads_once;
