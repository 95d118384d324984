//! Laws of books, each the contract of a function that does nothing.
ghost use Rattle.nv_book_laws.specs.Laws.{BooksAreOne, OutputsAreOfTakes, OutputsAreOne, WrittenIsBook, WroteIsBook};

/// Bytes are one book at most: its outbox, its entries and their outputs are one alone.
pub fn books_are_one()
    ensures { BooksAreOne }
{}

/// A history decides the output of each of its entries.
pub fn outputs_are_one()
    ensures { OutputsAreOne }
{}

/// Takes alone have outputs.
pub fn outputs_are_of_takes()
    ensures { OutputsAreOfTakes }
{}

/// The bytes that are written of a book are that book.
pub fn written_is_book()
    ensures { WrittenIsBook }
{}

/// What goes out as the book of a history is a book of it.
pub fn wrote_is_book()
    ensures { WroteIsBook }
{}
