//! Laws of bytes that hold calls, each the contract of a function that does nothing.
ghost use Rattle.nv_calls.specs.Reading.{ReadsOnce};

/// A stream of bytes holds one list of calls alone, and one end.
pub fn reads_once()
    ensures { ReadsOnce }
{}
