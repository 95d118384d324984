//! The law of the pieces, as the contract of a function that does nothing.
ghost use Rattle.nv_text.specs.Laws.{LinesAreCovered};

/// The pieces of a line cover it from its first byte to its last in order, without gap or overlap,
/// and none is empty.
pub fn cover_laws()
    ensures { LinesAreCovered }
{}
