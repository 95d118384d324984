//! Books: the history of a world with the outputs of its takes, written to a stream, read from one
//! and replayed.
#![tactic(auto)]

mod copying;
mod faults;
mod fitness;
mod form;
mod headings;
mod intake;
mod parts;
mod pieces;
mod player;
mod replay;
mod speaking;
mod values;
mod writing;

pub use faults::{BookFault, Unread};
pub use headings::Heading;
pub use replay::{Book, Replay, Upcoming, read_book};
pub use writing::{write_book, write_replay};
