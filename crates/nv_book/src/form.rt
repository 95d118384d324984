//! What is written of each entry.

/// What is written of each entry.
#[derive(Clone, Copy, Debug, PartialEq, Eq)]
pub enum Form {
    /// The entry, and then its output: so a book has it.
    Book,
    /// The output alone, each piece with the entry and its session.
    Outputs,
}
