//! Laws of the rows, each the contract of a function that does nothing.

ghost use Rattle.nv_api_ui.specs.Laws.{UiRowsHaveEffects, UiRowsTell};
ghost use Rattle.nv_api_ui.specs.WorkedUis.{OneUiIsAllowed, OptionFaults, ScreenIsShared, SizeFaults, UisAreListed};

/// Whatever a method of UIs answers, it makes no splice and tells of none.
pub fn telling_laws()
    ensures effects { UiRowsHaveEffects }
    ensures told { UiRowsTell }
{}

/// What calls of sessions with UIs answer in a fresh editor, by the definitions alone.
pub fn worked_uis()
    ensures listed { UisAreListed }
    ensures options { OptionFaults }
    ensures sizes { SizeFaults }
    ensures limit { OneUiIsAllowed }
    ensures screen { ScreenIsShared }
{}
