//! The methods on buffers, options and commands, and those that tell of the API (help: api-buffer,
//! nvim_command(), api-metadata).
//!
//! What each method answers, and what it leaves, is its row: one definition for each method, in
//! `specs/`, of what is seen of the editor. A row reads like its line in a table of methods: its
//! faults, the least number first, and then the reply, the operations and what others are told. It
//! speaks of arguments that were read for the method, so their number and their types are behind
//! it.
//!
//! A method decides first, over what is kept, and each step of that is said of the row: the step is
//! refused as the row is, or the row is what is left. Then it does what is left. A call that is
//! refused leaves the editor as it was.
#![tactic(auto)]

pub mod buffers;
mod calling;
pub mod commands;
pub mod counts;
mod finding;
pub mod following;
pub mod information;
mod joining;
mod laws;
mod limits;
pub mod lines;
mod metadata;
pub mod options;
mod replacement;
pub mod text;
mod told;

pub use calling::call;
pub use laws::telling_laws;
