//! Laws of books.
#![tactic(auto)]

mod known;
mod laws;

pub use known::known_entries;
pub use laws::{
    books_are_one, outputs_are_of_takes, outputs_are_one, written_is_book, wrote_is_book,
};
