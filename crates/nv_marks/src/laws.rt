//! Laws of the definitions, each the contract of a function that does nothing.

ghost use Rattle.nv_marks.specs.Laws.{BoundedMoves, CostOfThousand, OrderIsUnique};

/// Marks of different namespaces or ids can be put in order in one way only.
pub fn order_laws()
    ensures { OrderIsUnique }
{}

/// Marks and splices whose rows and columns are all below a third of 2^32 meet the condition of
/// `MarkSet::splice`.
pub fn bound_laws()
    ensures { BoundedMoves }
{}

/// Among a thousand starts and ends a splice takes at most 192 steps beside those for what stands
/// in the replaced part.
pub fn cost_laws()
    ensures { CostOfThousand }
{}
