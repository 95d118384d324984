//! Laws of the definitions, each the contract of a function that does nothing.

ghost use Rattle.nv_windows.specs.Laws.{HandlesRise, SoundnessStays, ViewsStay};

/// Each operation keeps it that each window is in one tabpage, once, that each tree has its least
/// size on the screen, and that handles differ.
pub fn soundness_laws()
    ensures { SoundnessStays }
{}

/// No handle is given twice.
pub fn handle_laws()
    ensures { HandlesRise }
{}

/// A splice leaves cursors and first rows in the text, and moves them with left gravity.
pub fn view_laws()
    ensures { ViewsStay }
{}
