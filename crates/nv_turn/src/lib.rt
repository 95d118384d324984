//! One value behind a lock that tells one story.
//!
//! A `Turn` has a value whose meaning is a list of entries, its story. A thread comes in by a
//! `Pass`, which it trades for a `Held`, the value in hand, and gets back by `Held::leave`. While
//! it holds the value it may add one entry, with its own number. What a pass has seen is a
//! beginning of the story, and its own entries stand there in the order in which it added them.
//! Passes that are joined have seen beginnings of one story.
//!
//! Nothing is said of time: not who comes next, and not that a call which waits returns.
#![tactic(auto)]

mod held;
mod make;
mod pass;
mod plays;
mod rule;
mod story;
mod turn;
mod value;
mod view;

pub use held::Held;
pub use make::take_pass;
pub use pass::Pass;
pub use story::Story;
pub use turn::Turn;
