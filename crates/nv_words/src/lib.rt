//! The words of the command line, read by `clap`.
#![tactic(auto)]

mod command;
mod reading;

pub use command::{Command, Notice, Refusal};
pub use reading::read_words;
