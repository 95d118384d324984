//! Laws of histories, each the contract of a function that does nothing.

ghost use Rattle.nv_history.specs.Examples.{AttachAtomic, AttachTicking, DeletedBuffer, Held, LastEntry, LineCount, Notifications, OutboxOverflow, QuitAll};
ghost use Rattle.nv_history.specs.MarkPlaces.{EachMarkStands};
ghost use Rattle.nv_history.specs.Laws.{CausesStay, DueOnlyGrows, FoldsToText, FrontsRun, HistoriesCount, LinesNowAreSeen, NumbersAreSessions, SoloRuns, TextsAtTicksStay};
ghost use Rattle.nv_history.specs.UiExamples.{QuitWithUi, ShownOnce, TwoUis};
ghost use Rattle.nv_history.specs.UiLaws.{BytesAreOne, EditorsAreSettled, FoldsToScreen, NothingMeansShown, OpeningsAndTakesLeave, PicturesAreOne, RequestsAndClosesSettle, SameStampSameScenes, ScenesFoldToScreen, StampsOnlyRise, UisAreOfLive, WindowsAreSound};

/// The world after a history has counted its entries, from 0, and its sessions, from 1.
pub fn count_laws()
    ensures histories { HistoriesCount }
    ensures numbers { NumbersAreSessions }
{}

/// Each front of what is due to a session fits a client that folds it, and shows the buffer's
/// lines at the changedtick of its last lines event: through undo, several buffers, calls in one,
/// overflow, detaching, attaching again and the deletion of a buffer. The lines at the changedtick
/// of now are those that are seen.
pub fn fold_law()
    ensures folds { FoldsToText }
    ensures now { LinesNowAreSeen }
{}

/// The world after a history is on the way of each longer one. There what was due to a session is
/// due still, with more behind it, a session that is closed stays closed by the same cause and is
/// told nothing more, and a buffer's lines at a changedtick stay what they are.
pub fn due_laws()
    ensures fronts { FrontsRun }
    ensures grows { DueOnlyGrows }
    ensures causes { CausesStay }
    ensures texts { TextsAtTicksStay }
{}

/// After each entry of a history the marks of a buffer that is live stand where its splices left
/// them: each of those that the entry doesn't set or remove is there, from where it stood before,
/// and one that it sets from where it was set.
pub fn mark_law()
    ensures { EachMarkStands }
{}

/// Whatever calls a session makes alone, with a take after each, it is never refused one, and ends
/// closed with nothing left to take.
pub fn solo_law()
    ensures { SoloRuns }
{}

/// A client that folds the events of what a session is sent shows, after each batch with a scene,
/// the screen that is drawn of the editor of that take's moment, with its colours and its cursor,
/// and no cell is unknown.
pub fn screen_law()
    ensures folds { FoldsToScreen }
    ensures scenes { ScenesFoldToScreen }
{}

/// After each entry no session that is closed has a UI. The stamp never falls, and as long as it
/// stays a scene of the editor stays one. Where there is nothing to take for a session with a UI,
/// it was given an editor whose scenes are those of the present one.
pub fn ui_laws()
    ensures live { UisAreOfLive }
    ensures rise { StampsOnlyRise }
    ensures same { SameStampSameScenes }
    ensures nothing { NothingMeansShown }
{}

/// The editor of a history has one picture, and so the history decides the bytes that each session
/// is sent.
pub fn bytes_law()
    ensures pictures { PicturesAreOne }
    ensures bytes { BytesAreOne }
{}

/// After each entry the windows are sound and settled. An opening and a take leave the editor as it
/// is, unless it ended; a request and a close settle it.
pub fn settling_law()
    ensures sound { WindowsAreSound }
    ensures settled { EditorsAreSettled }
    ensures leave { OpeningsAndTakesLeave }
    ensures settle { RequestsAndClosesSettle }
{}

/// What sessions are told and given, by the definitions alone.
pub fn worked_histories()
    ensures line_count { LineCount }
    ensures quit_all { QuitAll }
    ensures attach_atomic { AttachAtomic }
    ensures attach_ticking { AttachTicking }
    ensures notifications { Notifications }
    ensures deleted_buffer { DeletedBuffer }
    ensures outbox_overflow { OutboxOverflow }
    ensures held { Held }
    ensures last_entry { LastEntry }
{}

/// What sessions with UIs are given, by the definitions alone.
pub fn worked_uis()
    ensures two_uis { TwoUis }
    ensures shown_once { ShownOnce }
    ensures quit_with_ui { QuitWithUi }
{}
