//! Laws of calls, each the contract of a function that does nothing.

ghost use Rattle.nv_dispatch.specs.Effects.{RowsHaveEffects};
ghost use Rattle.nv_dispatch.specs.Laws.{AtomicIsOneByOne, AtomicStops, EachSpliceIsOneFact, FactsTellPasts, MethodsHaveRows, NamesStandOnce, RefusedLeavesAll, SoundnessIsKept, TicksCountFacts};
ghost use Rattle.nv_dispatch.specs.WorkedFacts.{FollowingAnswers, FollowingTells, FollowingFaults, RefusedTellNothing, FactsInOne, DeletionAnswers, DeletionTells};
ghost use Rattle.nv_dispatch.specs.WorkedMarks.{MarksMoveWithText, MarksPastEnd, MarksReverse, MarkDetails, MarkFaults, Namespaces, HighlightGroups};
ghost use Rattle.nv_dispatch.specs.WorkedWindows.{SplitRight, WidthWish, CloseSplit, TabNewClose, CursorMoves, OpeningFaults};
ghost use Rattle.nv_dispatch.specs.Worked.{EmptyText, IndexBounds, StartAboveEnd, TextPlaces, UndoBranches, SecondBuffer, NotModifiable, FaultTexts, CallsInOne};

/// What calls to a fresh editor answer, by the definitions alone.
pub fn worked_runs()
    ensures empty_text { EmptyText }
    ensures index_bounds { IndexBounds }
    ensures start_above_end { StartAboveEnd }
    ensures text_places { TextPlaces }
    ensures undo_branches { UndoBranches }
    ensures second_buffer { SecondBuffer }
    ensures not_modifiable { NotModifiable }
    ensures fault_texts { FaultTexts }
    ensures calls_in_one { CallsInOne }
{}

/// What calls by which a session follows a buffer of a fresh editor answer, and what they and the
/// calls between them tell, by the definitions alone.
pub fn worked_facts()
    ensures following_answers { FollowingAnswers }
    ensures following_tells { FollowingTells }
    ensures following_faults { FollowingFaults }
    ensures refused_tell_nothing { RefusedTellNothing }
    ensures facts_in_one { FactsInOne }
    ensures deletion_answers { DeletionAnswers }
    ensures deletion_tells { DeletionTells }
{}

/// What calls on namespaces, marks and highlight groups of a fresh editor answer, by the
/// definitions alone.
pub fn worked_marks()
    ensures marks_move { MarksMoveWithText }
    ensures marks_past_end { MarksPastEnd }
    ensures marks_reverse { MarksReverse }
    ensures mark_details { MarkDetails }
    ensures mark_faults { MarkFaults }
    ensures namespaces { Namespaces }
    ensures highlight_groups { HighlightGroups }
{}

/// What calls on windows and tabpages of a fresh editor answer, by the definitions alone.
pub fn worked_windows()
    ensures split_right { SplitRight }
    ensures width_wish { WidthWish }
    ensures close_split { CloseSplit }
    ensures tab_new_close { TabNewClose }
    ensures cursor_moves { CursorMoves }
    ensures opening_faults { OpeningFaults }
{}

/// Each name stands at one place of the tables, and each method but that of calls in one has a row,
/// which makes operations and tells facts of the kinds that are said of its method.
pub fn table_laws()
    ensures once { NamesStandOnce }
    ensures rows { MethodsHaveRows }
    ensures effects { RowsHaveEffects }
{}

/// A refused call leaves the editor as it was and tells nothing; each splice that a call makes is
/// one fact, and raises the changedtick of its buffer by one.
pub fn call_laws()
    ensures refused { RefusedLeavesAll }
    ensures facts { EachSpliceIsOneFact }
    ensures ticks { TicksCountFacts }
{}

/// The facts of a call, one after another, tell exactly what becomes of each buffer: each splice in
/// the text and at the changedtick of its moment, with lines that fit there, and its end; attaching
/// tells the lines and the changedtick of its moment. So it is in each sound model editor; a fresh
/// one is sound, and each call leaves it so.
pub fn telling_laws()
    ensures sound { SoundnessIsKept }
    ensures told { FactsTellPasts }
{}

/// Calls in one are those calls one after another, up to the first that is refused.
pub fn atomic_laws()
    ensures all { AtomicIsOneByOne }
    ensures stops { AtomicStops }
{}
