// What a seat at the table behind a turn knows. These types are for contracts: no value of `Note`
// or `View` is made.
use std::collections::LinkedList;

/// A beginning of the story, and numbers of which all entries stand in it.
pub struct Note<E> {
    pub seen: LinkedList<E>,
    pub numbers: LinkedList<u64>,
}

/// A pass at rest and a holder have one note, a seat that has drawn no number yet has none.
pub struct View<E, D> {
    /// It holds the turn.
    pub holds: bool,
    /// The next number, where this view has the right to draw it, and else 0.
    pub due: u64,
    pub notes: LinkedList<Note<E>>,
    /// The start of the value, and `None` in a view that was joined into another.
    pub start: Option<D>,
}
