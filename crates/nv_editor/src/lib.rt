//! The editor that all sessions share: buffers under handles, windows and tabpages, namespaces,
//! highlight groups and UIs.
//!
//! Each call that changes it says which operations of the model it makes, and the editor goes on
//! standing for each model editor that it stood for. Want of memory in such a call may leave the
//! editor between two operations.
#![tactic(auto)]

mod answering;
mod buffers;
mod editor;
mod grouping;
mod happened;
mod making;
mod marks;
mod names;
mod naming;
mod noting;
mod sealing;
mod stage;
mod text;
mod uis;
mod undoing;
mod views;
mod windows;

pub use answering::as_outcome;
pub use editor::Editor;
pub use happened::{Fact, Happened};
pub use naming::Namespaces;
