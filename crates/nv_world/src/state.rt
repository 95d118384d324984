//! The state of a world, and what each event makes of it.
ghost use Rattle.std.specs.Prelude.{◌≡◌, ◌≢◌, suc, ◌++◌, ◌∷◌, [], ◌<◌, ◌≤◌, ℕ, length, map, slice_get, false, None, Some, IsTrue, IfErr, IfOk, IfNone, IfSome, OnOk, option_map};
ghost use Rattle.std.specs.List.{AllZip};
ghost use Rattle.std.specs.Vec.{vec_len};
ghost use Rattle.nv_rpc.specs.Calls.{Call};
ghost use Rattle.nv_rpc.specs.Frames.{call_of_frame};
ghost use Rattle.nv_model.specs.Standing.{seen_now};
ghost use Rattle.nv_editor.specs.Facts.{fact_of, facts_of};
ghost use Rattle.nv_editor.specs.Sound.{AllSealed};
ghost use Rattle.nv_scene.specs.Settling.{IsSettled};
ghost use Rattle.nv_history.specs.Events.{close_of, closed_at};
ghost use Rattle.nv_history.specs.Sessions.{Session as ModelSession, has_quit, is_quit, session_closed_by, session_emptied, shown_after};
ghost use Rattle.nv_history.specs.Spoken.{ShowsIfGiven};
ghost use Rattle.nv_history.specs.Worlds.{World, close_outcome, editor_due, empty_take_outcome, fresh_world, idles, live_request_outcome, opening_outcome, outcome_of_frame, request_outcome, session_of, some_take_outcome, take_outcome, with_session_at, world_after_call};
ghost use Rattle.nv_world.specs.Steps.{splices_by};
ghost use Rattle.nv_core.specs.Contents.{plain_cause, plain_effect, scene_given, sent_of_shared};
ghost use Rattle.nv_core.specs.Outcomes.{IsUnaskedBy, IsUnclosedBy, effect_of_taken, stop_of_unasked};
ghost use Rattle.nv_world.specs.Worlds.{ClosesNoUi};
ghost use Rattle.nv_core.specs.Bounds.{GivesFewCells, GivesSendable, IsLightCall};
ghost use Rattle.nv_core.specs.declared.effect.Effect.TheVariants.{Items};
ghost use Rattle.nv_world.specs.inside.Sessions.{IsSession};
ghost use Rattle.nv_world.specs.inside.Showings.{HasFewCells};
ghost use Rattle.nv_world.specs.inside.States.{Changes, IsAt, IsStopOf, StandsForWorld, StepsState, called_as, called_outcome};
ghost use Rattle.nv_core.specs.Outcomes.{closed_as, opened_as, taken_as};

use crate::answering::answer;
use crate::finishing::{end_if, finish, finish_settled};
use crate::session::{Session, close, new_session, taken, waiting};
use crate::showing::{is_any_due, is_scene_due, scene_if, shown_after};
use crate::splicing::put_splices;
use crate::step::Moved;
use crate::telling::{place_of, tell_call};
use nv_core::{Batch, Cause, Taken, Unasked, Unclosed, Unopened, Untaken};
use nv_editor::{Editor, Fact};
use nv_model::Limits;
use nv_rpc::Frame;
use nv_subs::Subs;
use std::alloc::{AllocError, Global};

/// The state of a world: its editor, who is told of what, its sessions by their numbers, the entry
/// that ended it, and its stamp, which rises with each entry that may have changed what UIs show.
#[derive(Drop)]
pub struct State {
    pub editor: Editor,
    pub subs: Subs,
    pub sessions: Vec<Session>,
    pub ended: Option<u64>,
    pub stamp: u64,
}

/// The numbers beside a state: how many messages an outbox holds, the number of the last entry that
/// the limits allow, and that of the present one.
#[derive(Clone, Copy)]
pub struct Numbers {
    pub capacity: u32,
    pub last: u64,
    pub at: u64,
}

impl State {
    /// A fresh editor and nobody.
    pub fn new(alloc: Global, limits: Limits) -> Result<State, AllocError>
        ensures stands { IfOk result (λ state. (capacity : ℕ)
            → StandsForWorld state (fresh_world capacity limits)) }
        ensures settled { IfOk result (λ state. IsSettled (seen_now state.editor)) }
    {
        let editor = Editor::new(alloc, limits)?;
        Ok(State {
            editor,
            subs: Subs::new(alloc),
            sessions: Vec::new(alloc),
            ended: None,
            stamp: 1,
        })
    }
}

// Puts a session behind the others. `false` where memory was wanting.
fn was_added(sessions: &mut Vec<Session>, session: Session) -> bool
    ensures { IsTrue result → sessions.new.items ≡ sessions.old.items ++ session ∷ [] }
{
    sessions.push(session).is_ok()
}

/// A session is opened.
pub fn open_session(alloc: Global, state: &mut State, numbers: Numbers) -> Result<u64, Unopened>
    ensures { StepsState state.old state.new numbers (opened_as result)
        (λ w. opening_outcome w.ended w) }
{
    if let Some(entry) = state.ended {
        return Err(Unopened::Ended(entry));
    }
    let Ok(session) = new_session(alloc, numbers.capacity) else {
        return Err(Unopened::NoMemory);
    };
    if !was_added(&mut state.sessions, session) {
        return Err(Unopened::NoMemory);
    }
    let number = state.sessions.len() as u64;
    let Ok(()) = finish(alloc, state, numbers) else {
        return Err(Unopened::NoMemory);
    };
    Ok(number)
}

// Whether a fact tells that the editor ends.
fn is_quit(fact: &Fact) -> bool
    ensures { result ≡ is_quit (fact_of fact.now) }
{
    matches!(fact, Fact::Quit)
}

// Whether facts tell that the editor ends.
fn has_quit(facts: &[Fact]) -> bool
    ensures { result ≡ has_quit (facts_of facts.now) }
{
    for fact in facts {
        if is_quit(fact) {
            return true;
        }
    }
    false
}

// A session that isn't held makes its call, whose splices are put behind others. Tells whether it
// may have changed what is seen.
fn make_call(
    alloc: Global,
    state: &mut State,
    at: u64,
    session: u64,
    frame: &Frame,
    splices: &mut Vec<Moved>,
) -> Result<bool, AllocError>
    requires session { (0 < session) × (session ≤ vec_len state.old.sessions) }
    requires light { IsLightCall (call_of_frame frame.now) }
    requires sealed { AllSealed state.old.editor }
    ensures stands { OnOk result ((w : World) → StandsForWorld state.old w → w.entries ≡ at
        → StandsForWorld state.new (world_after_call w session (call_of_frame frame.now)
        (outcome_of_frame w.editor session (call_of_frame frame.now)))) }
    ensures seen { IfOk result (λ is_seen. (w : World) → StandsForWorld state.old w
        → is_seen ≡ (outcome_of_frame w.editor session (call_of_frame frame.now)).is_seen) }
    ensures splices { OnOk result ((w : World) → StandsForWorld state.old w → splices.new.items
        ≡ splices.old.items ++ splices_by
        (outcome_of_frame w.editor session (call_of_frame frame.now)).operations) }
{
    let answered = answer(alloc, &mut state.editor, session, frame)?;
    let quits = has_quit(&answered.facts);
    put_splices(&answered.facts, splices)?;
    let is_seen = answered.is_seen;
    tell_call(
        alloc,
        &mut state.subs,
        &mut state.sessions,
        session,
        at,
        answered,
    )?;
    end_if(alloc, state, at, quits);
    Ok(is_seen)
}

// Why a session that is there can't make a call now, if it can't.
fn live_stop(session: &Session, capacity: u32) -> Option<Unasked>
    ensures stop { (w : World) (s : ℕ) (call : Call) (y : ModelSession) → w.capacity ≡ capacity
        → IsSession capacity session.now y
        → IsStopOf (option_map (stop_of_unasked s) result) (called_outcome w s call)
        (live_request_outcome y.closed w s y call) }
    ensures gone { (y : ModelSession) → IsSession capacity session.now y
        → IfSome result (IsUnaskedBy (Some y)) }
{
    if let Some(cause) = session.closed {
        return Some(Unasked::Gone(cause));
    }
    let waiting = waiting(session);
    if 2 * waiting >= capacity as usize {
        return Some(Unasked::Held(waiting.min(capacity as usize) as u32));
    }
    None
}

// Why a session can't make a call now, if it can't.
fn request_stop(sessions: &[Session], capacity: u32, session: u64) -> Option<Unasked>
    ensures stop { (w : World) (call : Call) → w.capacity ≡ capacity
        → AllZip (IsSession capacity) sessions.now w.sessions
        → IsStopOf (option_map (stop_of_unasked session) result) (called_outcome w session call)
        (request_outcome (session_of w session) w session call) }
    ensures gone { (w : World) → AllZip (IsSession capacity) sessions.now w.sessions
        → IfSome result (IsUnaskedBy (session_of w session)) }
    ensures found { IfNone result ((0 < session) × (session ≤ length sessions.now)) }
{
    match place_of(session, sessions.len()) {
        Some(place) => live_stop(&sessions[place], capacity),
        None => Some(Unasked::Stranger),
    }
}

/// A session makes a call. The splices that it makes are put behind others.
pub fn request(
    alloc: Global,
    state: &mut State,
    numbers: Numbers,
    session: u64,
    frame: &Frame,
    splices: &mut Vec<Moved>,
) -> Result<(), Unasked>
    requires light { IsLightCall (call_of_frame frame.now) }
    requires sealed { AllSealed state.old.editor }
    ensures steps { StepsState state.old state.new numbers (called_as session result)
        (λ w. request_outcome (session_of w session) w session (call_of_frame frame.now)) }
    ensures gone { IfErr result (λ why. (w : World) → IsAt state.old numbers w
        → IsUnaskedBy (session_of w session) why) }
    ensures splices { OnOk result ((w : World) → IsAt state.old numbers w → splices.new.items
        ≡ splices.old.items ++ splices_by
        (outcome_of_frame w.editor session (call_of_frame frame.now)).operations) }
{
    if let Some(stop) = request_stop(&state.sessions, numbers.capacity, session) {
        return Err(stop);
    }
    let Ok(is_seen) = make_call(alloc, state, numbers.at, session, frame, splices) else {
        return Err(Unasked::NoMemory);
    };
    let Ok(()) = finish_settled(alloc, state, numbers, is_seen) else {
        return Err(Unasked::NoMemory);
    };
    Ok(())
}

// What a take of a session to which nothing is due comes to.
fn empty_take(session: &Session) -> Taken
    ensures effect { idles (plain_effect None (effect_of_taken result))
        ≡ empty_take_outcome (option_map plain_cause session.now.closed) }
    ensures scene { scene_given (effect_of_taken result) ≡ None }
    ensures sendable { GivesSendable (effect_of_taken result) }
{
    match session.closed {
        Some(cause) => Taken::Over(cause),
        None => Taken::Nothing,
    }
}

// What is due to a session: all that waits, and the scene, where it is due.
fn batch_of(
    alloc: Global,
    state: &mut State,
    place: usize,
    is_due: bool,
) -> Result<Batch, AllocError>
    requires place { place < vec_len state.old.sessions }
    requires settled { IsSettled (seen_now state.old.editor) }
    ensures world { OnOk result ((w : World) (y : ModelSession) → StandsForWorld state.old w
        → slice_get w.sessions place ≡ Some y
        → StandsForWorld state.new (with_session_at w (suc place)
        (session_emptied (shown_after is_due w.stamp y.shown) y))) }
    ensures editor { state.new.editor ≡ state.old.editor }
    ensures messages { IfOk result (λ batch. (w : World) (y : ModelSession)
        → StandsForWorld state.old w → slice_get w.sessions place ≡ Some y
        → map sent_of_shared batch.messages.items ≡ y.waiting) }
    ensures sendable { IfOk result (λ batch. (w : World) → StandsForWorld state.old w
        → GivesSendable (Items batch)) }
    ensures shows { IfOk result (λ batch. (w : World) → StandsForWorld state.old w
        → ShowsIfGiven (editor_due is_due w.editor) batch.scene) }
    ensures cells { IfOk result (λ batch. HasFewCells batch.scene) }
{
    let scene = scene_if(&state.editor, is_due)?;
    let shown = shown_after(is_due, state.stamp, state.sessions[place].shown);
    let messages = taken(alloc, &mut state.sessions[place], shown)?;
    Ok(Batch { messages, scene })
}

// Takes what is due to a session, where something is.
fn take_some(
    alloc: Global,
    state: &mut State,
    numbers: Numbers,
    place: usize,
    is_due: bool,
) -> Result<Taken, Untaken>
    requires place { place < vec_len state.old.sessions }
    requires settled { IsSettled (seen_now state.old.editor) }
    ensures steps { (w : World) (y : ModelSession) → IsAt state.old numbers w
        → slice_get w.sessions place ≡ Some y
        → Changes state.old state.new numbers (taken_as (suc place) result)
        (some_take_outcome false is_due w (suc place) y) }
    ensures sendable { IfOk result (λ taken. (w : World) → IsAt state.old numbers w
        → GivesSendable (effect_of_taken taken)) }
    ensures cells { IfOk result (λ taken. GivesFewCells (effect_of_taken taken)) }
{
    let Ok(batch) = batch_of(alloc, state, place, is_due) else {
        return Err(Untaken::NoMemory);
    };
    let Ok(()) = finish(alloc, state, numbers) else {
        return Err(Untaken::NoMemory);
    };
    Ok(Taken::Items(batch))
}

/// What is due to a session is taken.
pub fn take(
    alloc: Global,
    state: &mut State,
    numbers: Numbers,
    session: u64,
) -> Result<Taken, Untaken>
    requires settled { IsSettled (seen_now state.old.editor) }
    ensures steps { StepsState state.old state.new numbers (taken_as session result)
        (λ w. take_outcome (session_of w session) w session) }
    ensures sendable { IfOk result (λ taken. (w : World) → IsAt state.old numbers w
        → GivesSendable (effect_of_taken taken)) }
    ensures cells { IfOk result (λ taken. GivesFewCells (effect_of_taken taken)) }
{
    let Some(place) = place_of(session, state.sessions.len()) else {
        return Err(Untaken::Stranger);
    };
    let found = &state.sessions[place];
    let is_due = is_scene_due(state.editor.uis(), state.stamp, session, found.shown);
    if !is_any_due(found, is_due) {
        return Ok(empty_take(found));
    }
    take_some(alloc, state, numbers, place, is_due)
}

// A session is closed, and is told of nothing any more.
fn close_at(state: &mut State, at: u64, place: usize)
    requires place { place < vec_len state.old.sessions }
    ensures world { (w : World) (y : ModelSession) → StandsForWorld state.old w
        → w.entries ≡ at → slice_get w.sessions place ≡ Some y
        → StandsForWorld state.new (with_session_at w (suc place)
        (session_closed_by (closed_at w.entries) y)) }
    ensures editor { state.new.editor ≡ state.old.editor }
{
    close(&mut state.sessions[place], Cause::Closed(at));
    state.subs.leave(place as u64 + 1);
}

/// A session is closed. Where no UI goes by it, no memory is taken.
pub fn close_session(
    alloc: Global,
    state: &mut State,
    numbers: Numbers,
    session: u64,
) -> Result<(), Unclosed>
    requires settled { IsSettled (seen_now state.old.editor) }
    ensures steps { StepsState state.old state.new numbers (closed_as session result)
        (λ w. close_outcome (session_of w session) w session) }
    ensures gone { IfErr result (λ why. (w : World) → IsAt state.old numbers w
        → IsUnclosedBy (session_of w session) why) }
    ensures memory { IfErr result (λ why. (w : World) → IsAt state.old numbers w
        → ClosesNoUi w (close_of session) → why ≢ Unclosed.NoMemory) }
{
    let Some(place) = place_of(session, state.sessions.len()) else {
        return Err(Unclosed::Stranger);
    };
    if let Some(cause) = state.sessions[place].closed {
        return Err(Unclosed::Gone(cause));
    }
    close_at(state, numbers.at, place);
    let Ok(()) = finish_settled(alloc, state, numbers, false) else {
        return Err(Unclosed::NoMemory);
    };
    Ok(())
}
