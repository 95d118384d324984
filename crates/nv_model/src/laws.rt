//! Laws of the definitions, each the contract of a function that does nothing.

ghost use Rattle.nv_model.specs.Keeping.{SeenIsSame, MarksAreInOrder, MarksStepAlike, SpliceIsKept, SpliceTellsText, RowsAreSpliced, TextIsSpliced, LegLeadsToKept, SealIsKept, LegIsKept, MarkIsKept, UnmarkIsKept, ClearIsKept, OptionsAreKept, FreshIsKept, BufferUpdateIsKept, EditorSpliceIsKept, StageUpdateIsKept, NewBufferIsKept, DroppedBufferIsKept, EditorLegIsKept, FreshEditorIsKept};
ghost use Rattle.nv_model.specs.Laws.{OperationsAddSplices, SpliceRaisesOneTick, OperationsMakeTexts, DeletedAreKept, HandlesStayBelow, NoHandleTwice, RefusedKeepsEditor, FirstIsAnswered, EventsCountUp, InversesTakeBack};

/// An operation adds to each buffer the splices that it makes in it and no other, each splice
/// raises the changedtick of its buffer by one and that of no other, and after operations one after
/// another a buffer's text is that before with all of these. A deleted buffer is kept as it was.
pub fn text_laws()
    ensures splices { OperationsAddSplices }
    ensures ticks { SpliceRaisesOneTick }
    ensures texts { OperationsMakeTexts }
    ensures deleted { DeletedAreKept }
{}

/// All that has a handle has one below the next one, and operations one after another give no
/// handle twice.
pub fn handle_laws()
    ensures below { HandlesStayBelow }
    ensures once { NoHandleTwice }
{}

/// A refused call leaves the editor as it was, and of some conditions the first that holds is
/// answered.
pub fn answer_laws()
    ensures unchanged { RefusedKeepsEditor }
    ensures first { FirstIsAnswered }
{}

/// Splices are told one by one with the changedtick counted up, inverses in reverse order take
/// splices back, and a leg in the tree of changes leads to the text that is kept of its number.
pub fn splice_laws()
    ensures told { EventsCountUp }
    ensures back { InversesTakeBack }
    ensures kept { LegLeadsToKept }
{}

/// The marks told of a buffer are those set that are there, in order, and what a splice keeps of
/// each, strikes of it and how it moves it is the same by offsets and by places.
pub fn mark_laws()
    ensures order { MarksAreInOrder }
    ensures steps { MarksStepAlike }
{}

/// What is seen of an editor is what is seen of each model editor that it stands for.
pub fn seen_law()
    ensures { SeenIsSame }
{}

/// What is kept of a buffer goes on standing for the model: after a splice, which is told as the
/// model tells it, once the open change is closed, after a leg in the tree of changes, after a mark
/// is set, or some are removed, and after a name or an option is put. So does a fresh buffer.
pub fn buffer_laws()
    ensures splice { SpliceIsKept }
    ensures seal { SealIsKept }
    ensures leg { LegIsKept }
    ensures mark { MarkIsKept }
    ensures unmark { UnmarkIsKept }
    ensures clear { ClearIsKept }
    ensures options { OptionsAreKept }
    ensures fresh { FreshIsKept }
{}

/// Edits of a buffer by lines and between places are splices of its flat text, and what is told of
/// a splice, applied to the lines before, gives the lines after.
pub fn edit_laws()
    ensures rows { RowsAreSpliced }
    ensures text { TextIsSpliced }
    ensures told { SpliceTellsText }
{}

/// What is kept of an editor goes on standing for the model: after an update of one buffer, after a
/// splice of one with the windows that show it, after a leg in the tree of changes of one, after an
/// update of all but the buffers, and once a buffer is made or deleted. So does a fresh editor.
pub fn editor_laws()
    ensures buffer { BufferUpdateIsKept }
    ensures splice { EditorSpliceIsKept }
    ensures stage { StageUpdateIsKept }
    ensures made { NewBufferIsKept }
    ensures dropped { DroppedBufferIsKept }
    ensures leg { EditorLegIsKept }
    ensures fresh { FreshEditorIsKept }
{}
