//! Laws of edits and changes, each the contract of a function that does nothing.

ghost use Rattle.nv_buffer.specs.Laws.{InverseUndoes, InverseFits, InversesUndo, SealedOnce, TextsOfChanges, TextsStay};

/// An edit's inverse takes it back and can be made; the inverses of many, the last one's first,
/// take them all back.
pub fn edit_laws()
    ensures undoes { InverseUndoes }
    ensures fits { InverseFits }
    ensures all { InversesUndo }
{}

/// A buffer is sealed once. Each change's text is its parent's with its edits, and stays when a
/// change is made.
pub fn change_laws()
    ensures sealed { SealedOnce }
    ensures texts { TextsOfChanges }
    ensures stay { TextsStay }
{}
