//! The program over its devices: what it does for the words of its command line.
#![tactic(auto)]

mod command;
mod lanes;
mod mirroring;
mod notices;
mod replaying;
mod serving;
mod telling;
mod watching;
mod whole;

pub use command::run;
pub use mirroring::FollowEnd;
pub use serving::ServerEnd;
pub use telling::{status_of, tell_end};
pub use watching::all_watchers;
pub use whole::answer_all;
