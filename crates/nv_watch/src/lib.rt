//! Watchers of a history that is gone over: each knows a rule, and tells the least entry after
//! which it is broken.
#![tactic(auto)]

mod any_watcher;
mod buffer_fold;
mod comparing;
mod counter;
mod counts;
mod editors;
mod followed;
mod followed_mark;
mod following;
mod grid_client;
mod grid_fold;
mod mark_check;
mod mirror;
mod placing;
mod reading;
mod touching;
mod verdict;
mod watcher;

pub use any_watcher::AnyWatcher;
pub use buffer_fold::BufferFold;
pub use counter::Counter;
pub use grid_fold::GridFold;
pub use mark_check::MarkCheck;
pub use verdict::Verdict;
pub use watcher::{Watcher, catch_up, drive, glance};
