//! Laws of the definitions, each the contract of a function that does nothing.

ghost use Rattle.nv_hl.specs.Laws.{CellsStandByRows, CombiningIsAssociative, EmptyChangesNothing, SameAttrsAreEqual};

/// `combine` is associative, and the empty attribute is its unit.
pub fn combine_laws()
    ensures associative { CombiningIsAssociative }
    ensures unit { EmptyChangesNothing }
{}

/// Attributes are the same field by field exactly where they are equal.
pub fn sameness_laws()
    ensures { SameAttrsAreEqual }
{}

/// The cells of a screen one row behind another: each stands where its row and column say.
pub fn screen_laws()
    ensures { CellsStandByRows }
{}
