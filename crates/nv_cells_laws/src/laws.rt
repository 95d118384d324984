//! Laws of the cells of a line, each the contract of a function that does nothing.
ghost use Rattle.nv_cells_laws.specs.Laws.{BytesPastLinesStandFirst, ColumnsAreCells, EmptyLinesAreBlank, FirstPiecesStandFirst, NoRowBeginsWithHalf, PiecesFollow, PiecesSpellLines, PiecesStand, RestsAreBlank, TabsEndAtStops};

/// The texts of a line's pieces, in order, are the line.
pub fn piece_laws()
    ensures { PiecesSpellLines }
{}

/// Each piece shows its cells from the cell of each of its bytes on, one piece after another, with
/// a filler only where one column is left for a pair, and then spaces.
pub fn place_laws()
    ensures stand { PiecesStand }
    ensures first { FirstPiecesStandFirst }
    ensures follow { PiecesFollow }
    ensures rest { RestsAreBlank }
    ensures empty { EmptyLinesAreBlank }
    ensures past { BytesPastLinesStandFirst }
{}

/// A Tab ends at a multiple of the tabstop, counted in the cells of the pieces without fillers.
pub fn tab_laws()
    ensures stops { TabsEndAtStops }
    ensures columns { ColumnsAreCells }
{}

/// No row begins with the right half of a pair.
pub fn half_law()
    ensures { NoRowBeginsWithHalf }
{}
