//! Laws of linegrid, each the contract of a function that does nothing.

ghost use Rattle.nv_linegrid.specs.Laws.{BatchShows, BatchesShowTheLast, LinesBeginAndEndDue, NoDueNoLine, SameIsFlush, ScrollCountsRows, ScrollMoves};
ghost use Rattle.nv_linegrid.specs.Worked.{EmptyScreenIsTold, ScrollDownIsTold, ScrollUpIsTold};

/// Folding the events of a batch over what was told shows what is wanted, with no cell unknown, and
/// so does folding any list of batches from nothing on, through resizes and scrolls. What is shown
/// already is told by a flush alone.
pub fn batch_laws()
    ensures shows { BatchShows }
    ensures last { BatchesShowTheLast }
    ensures same { SameIsFlush }
{}

/// A row without a due cell isn't told, and a line that is told begins and ends at a due cell.
pub fn line_laws()
    ensures ends { LinesBeginAndEndDue }
    ensures none { NoDueNoLine }
{}

/// A scroll moves the cells of its rectangle and leaves all others, and the rows by which a text is
/// scrolled are those of the lines between.
pub fn scroll_laws()
    ensures moves { ScrollMoves }
    ensures counts { ScrollCountsRows }
{}

/// The first batch of an empty screen, and batches that scroll down and up.
pub fn worked_batches()
    ensures empty { EmptyScreenIsTold }
    ensures down { ScrollDownIsTold }
    ensures up { ScrollUpIsTold }
{}
