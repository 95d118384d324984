//! One step through the tree.

/// One step from the number that the text is at.
#[derive(Clone, Copy, Debug, PartialEq, Eq)]
pub enum Leg {
    /// The change of this number, at which the text is, is left for its parent.
    Back(u64),
    /// The change of this number, a child of the number that the text is at, is entered.
    Ahead(u64),
}
