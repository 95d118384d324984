//! The law of the rows, as the contract of a function that does nothing.

ghost use Rattle.nv_linedraw.specs.Laws.{RowsAreWhole};

/// The cells of a line fill whole rows, at least one, whatever its spans and looks are.
pub fn row_laws()
    ensures { RowsAreWhole }
{}
