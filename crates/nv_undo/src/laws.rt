//! Laws of the definitions, each the contract of a function that does nothing.

ghost use Rattle.nv_undo.specs.Laws.{ChildIsThere, EnteringStands, LastIsLast, NothingIsLost, PathArrives, PathIsDirect, PathIsOnly, PathIsShort, PathLeads, PushStands, RunsStay, StaysTree, UndoneAndRedone, WaysArrive};

/// Each step keeps the tree one, a change that is made or entered is the child last entered of its
/// parent, and what was made can be undone and redone.
pub fn tree_laws<E>()
    ensures stays { StaysTree E }
    ensures child { ChildIsThere E }
    ensures push { PushStands E }
    ensures entering { EnteringStands E }
    ensures undone { UndoneAndRedone E }
{}

/// The path between two numbers leads from the one to the other, is the only way on which no change
/// is both left and entered, is no longer than the way by the text at first, and going by it comes
/// to its number.
pub fn path_laws<E>()
    ensures leads { PathLeads E }
    ensures direct { PathIsDirect E }
    ensures only { PathIsOnly E }
    ensures short { PathIsShort E }
    ensures arrives { WaysArrive E }
    ensures there { PathArrives E }
{}

/// Whatever is made, undone, redone and entered, in any order: no change is lost, and the child
/// last entered of a number is the one that was entered last.
pub fn run_laws<E>()
    ensures stays { RunsStay E }
    ensures kept { NothingIsLost E }
    ensures last { LastIsLast E }
{}
