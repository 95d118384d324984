//! Laws of the rows, each the contract of a function that does nothing.

ghost use Rattle.nv_api_win.specs.Laws.{WindowRowsHaveEffects, WindowRowsTell};

/// Whatever a method on windows or tabpages answers, it makes no splice and tells of none.
pub fn telling_laws()
    ensures effects { WindowRowsHaveEffects }
    ensures told { WindowRowsTell }
{}
