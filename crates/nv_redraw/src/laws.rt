//! Laws of the definitions that the contracts cite.

ghost use Rattle.nv_redraw.specs.Reading.{OneValueOneBatch};
ghost use Rattle.nv_redraw.specs.WorkedValues.{EmptyScreenHasValue, ScrollDownHasValue, ScrollUpHasValue};

/// Two batches differ in their values.
pub fn batches_differ()
    ensures { OneValueOneBatch }
{}

/// The values of the first batch of an empty screen, and of batches that scroll down and up.
pub fn worked_values()
    ensures empty { EmptyScreenHasValue }
    ensures down { ScrollDownHasValue }
    ensures up { ScrollUpHasValue }
{}
