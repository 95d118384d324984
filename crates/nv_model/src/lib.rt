//! The editor as a model: what every answer of a call, and all that a call leaves behind, is said
//! of.
//!
//! A model editor keeps each buffer as its first text with all splices made since, and its marks as
//! they were set. A call reads what is seen of it and answers with a fault, or with a reply, a list
//! of operations and the facts that others are told.
#![tactic(auto)]

mod laws;
mod parts;

pub use laws::{
    answer_laws, buffer_laws, edit_laws, editor_laws, handle_laws, mark_laws, seen_law,
    splice_laws, text_laws,
};
pub use parts::{Limits, Ui};
