//! Laws of the rows, each the contract of a function that does nothing.

ghost use Rattle.nv_api_buf.specs.Laws.{BufferRowsHaveEffects, EachSpliceIsTold};

/// Whatever a method on buffers answers, it tells of each buffer exactly the splices that it makes
/// in it: one event for each, in order, with the changedtick counted up.
pub fn telling_laws()
    ensures effects { BufferRowsHaveEffects }
    ensures told { EachSpliceIsTold }
{}
