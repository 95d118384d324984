//! The methods on windows and tabpages.
//!
//! What each answers, and what it leaves, is one definition for each method, of what is seen of the
//! editor. The definitions stand in `specs/`. A row reads like its line in a table of methods: its
//! faults, the least number first, and then the reply and the operations.
#![tactic(auto)]

pub mod changing;
mod cursors;
mod finding;
mod laws;
pub mod opening;
pub mod reading;
mod table;
pub mod tabpages;
mod values;

pub use laws::telling_laws;
pub use table::call;
