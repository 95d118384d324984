//! The values of a stream of MessagePack that comes in pieces.
//!
//! A [`Stream`] is fed pieces as they come and asked for values. However the bytes were cut into
//! pieces, the values, and the flaw or the unfinished value at the end, are the same.
#![tactic(auto)]

mod laws;
mod scan;
mod stream;

pub use laws::{answers_are_one, flaws_stay, pieces_do_not_matter};
pub use stream::{Next, Stream};
