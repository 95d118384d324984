//! Books played again, compared and watched, and books that are made of a number.
#![tactic(auto)]

mod checking;
mod ending;
mod generating;
mod replaying;
mod saying;
mod summary;
mod tallying;
mod watching;

pub use checking::check;
pub use ending::{ReplayEnd, WriteEnd};
pub use generating::{generate, keep_book};
pub use replaying::replay;
