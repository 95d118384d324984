//! Laws of the rows, each the contract of a function that does nothing.

ghost use Rattle.nv_api_mark.specs.Laws.{MarkRowsHaveEffects, MarkRowsTell};

/// Whatever a method on marks or groups answers, it makes no splice and tells of none.
pub fn telling_laws()
    ensures effects { MarkRowsHaveEffects }
    ensures told { MarkRowsTell }
{}
