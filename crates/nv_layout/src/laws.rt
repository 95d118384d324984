// What the definitions of this crate have in common, whatever the tree: laws of their own.

ghost use Rattle.nv_layout.specs.Kept.{SplitAddsBeside, CloseTakesAway, ChangesKeepForm, SplitAsksForTwo, CloseAsksForNoMore, WishKeepsForm};
ghost use Rattle.nv_layout.specs.Shares.{DivisionIsWhole};
ghost use Rattle.nv_layout.specs.Tiling.{RectsNameWindows, RectsLieInArea, RectsAreApart, RectsTile, RectsHaveLeastSize};

/// A division gives away all of the room, and each child at least its least size.
pub fn division_is_whole()
    ensures { DivisionIsWhole }
{}

/// There is one rectangle for each window, in tree order.
pub fn rects_name_windows()
    ensures { RectsNameWindows }
{}

/// The rectangles of a tree lie in its area.
pub fn rects_lie_in_area()
    ensures { RectsLieInArea }
{}

/// No two rectangles of a tree overlap.
pub fn rects_are_apart()
    ensures { RectsAreApart }
{}

/// The rectangles of a tree and its separators fill the area: each cell of it lies in exactly one.
pub fn rects_tile()
    ensures { RectsTile }
{}

/// Each rectangle has a column and two rows.
pub fn rects_have_least_size()
    ensures { RectsHaveLeastSize }
{}

/// `split` adds one leaf beside the named one, and keeps the order of the others.
pub fn split_adds_beside()
    ensures { SplitAddsBeside }
{}

/// `close` takes the named leaf away, and keeps the order of the others.
pub fn close_takes_away()
    ensures { CloseTakesAway }
{}

/// Neither leaves an empty row or column, one with a single child, a row in a row or a column in a
/// column, where none was.
pub fn changes_keep_form()
    ensures { ChangesKeepForm }
{}

/// Opening a window asks each way for two cells more at most, closing one for no more, and a wish
/// changes neither the windows, nor the least size, nor which rows and columns there are.
pub fn changes_keep_room()
    ensures split { SplitAsksForTwo }
    ensures close { CloseAsksForNoMore }
    ensures wish { WishKeepsForm }
{}
