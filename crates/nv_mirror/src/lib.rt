//! A client that follows a buffer of a server: it attaches to the buffer, folds the events that it
//! is sent, and lists the text at each of them.
#![tactic(auto)]

mod asking;
mod client;
mod followed;
mod following;
mod incoming;
mod laws;
mod lister;
mod page;

pub use followed::Followed;
pub use following::follow;
pub use laws::{ends_are_one, listing_grows, stops_for_good, worked_listings};
