//! The lines of a buffer: a list of lines that is never empty, and its flat text, in which each
//! line is followed by the byte 10.
#![tactic(auto)]

mod chunk;
mod cutting;
mod editing;
mod excerpt;
mod exchange;
mod finding;
mod gathering;
mod held;
mod listing;
mod measuring;
mod reading;
mod region;
mod single;
mod starting;
mod taking;
mod whole;

pub use chunk::Chunk;
pub use excerpt::Excerpt;
pub use listing::LineList;
pub use single::{Line, is_line};
pub use whole::Lines;
