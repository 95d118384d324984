//! The methods of UIs, and the cells of a text.
//!
//! What each answers, and what it leaves, is one definition for each method, of what is seen of the
//! editor. The definitions stand in `specs/`. A row reads like its line in a table of methods: its
//! faults, the least number first, and then the reply and the operations.
#![tactic(auto)]

pub mod attaching;
mod laws;
mod options;
mod putting;
mod table;
pub mod telling;
mod values;

pub use laws::{telling_laws, worked_uis};
pub use table::call;
