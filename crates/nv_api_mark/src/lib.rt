//! What each method on namespaces, extmarks and highlight groups answers, and what it leaves: one
//! definition for each method, of what is seen of the editor.
//!
//! The definitions stand in `specs/`. A row reads like its line in a table of methods: its faults,
//! the least number first, and then the reply and the operations.
#![tactic(auto)]

pub mod clearing;
mod details;
pub mod grouping;
mod laws;
pub mod listing;
pub mod marks;
pub mod naming;
mod painting;
mod places;
mod setting;
mod table;
pub mod telling;
mod values;

pub use laws::telling_laws;
pub use table::call;
