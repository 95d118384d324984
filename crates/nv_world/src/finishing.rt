//! The end of each entry: the world may end, UIs go with their sessions, and views settle.
ghost use Rattle.std.specs.Prelude.{◌≡◌, ◌-◌, ◌<◌, ◌==◌, ◌^◌, ℕ, List, map, false, true, IfErr, IfOk, OnOk};
ghost use Rattle.std.specs.List.{AllZip};
ghost use Rattle.nv_model.specs.Standing.{seen_now};
ghost use Rattle.nv_scene.specs.Settling.{IsSettled};
ghost use Rattle.nv_history.specs.Sessions.{Session as ModelSession, session_quit};
ghost use Rattle.nv_history.specs.Worlds.{World, after_entry, after_settled_entry, first_end, world_ended_if, world_with_uis_of_live};
ghost use Rattle.nv_world.specs.inside.Sessions.{IsSession};
ghost use Rattle.nv_world.specs.inside.Showings.{has_any, losing_sessions};
ghost use Rattle.nv_world.specs.inside.States.{AreNumbers, IsAt, StandsNumbered, StandsForWorld, with_next};

use crate::session::{Session, quit};
use crate::showing::{drop_uis_of, losing_sessions, raised_if, settle_if};
use crate::state::{Numbers, State};
use nv_subs::Subs;
use std::alloc::{AllocError, Global};

// Closes each session that isn't closed.
fn quit_each(sessions: &mut [Session], at: u64)
    ensures { (capacity : ℕ) (ys : List ModelSession)
        → AllZip (IsSession capacity) sessions.old ys
        → AllZip (IsSession capacity) sessions.new (map (session_quit at) ys) }
{
    for place in 0..sessions.len() {
        quit(&mut sessions[place], at);
    }
}

// The entry that ended the world, once the present one ends it: the first one that did.
fn first_end(ended: Option<u64>, at: u64) -> Option<u64>
    ensures { result ≡ first_end true at ended }
{
    match ended {
        Some(entry) => Some(entry),
        None => Some(at),
    }
}

// The world ends.
fn end(alloc: Global, state: &mut State, at: u64)
    ensures world { (w : World) → StandsForWorld state.old w → w.entries ≡ at
        → StandsForWorld state.new (world_ended_if true w) }
    ensures editor { state.new.editor ≡ state.old.editor }
{
    quit_each(&mut state.sessions, at);
    state.subs = Subs::new(alloc);
    state.ended = first_end(state.ended, at);
}

/// The world ends where this holds.
pub fn end_if(alloc: Global, state: &mut State, at: u64, ends: bool)
    ensures world { (w : World) → StandsForWorld state.old w → w.entries ≡ at
        → StandsForWorld state.new (world_ended_if ends w) }
    ensures editor { state.new.editor ≡ state.old.editor }
    ensures same { ends ≡ false → state.new ≡ state.old }
{
    if ends {
        end(alloc, state, at);
    }
}

// UIs go whose sessions are closed, all together: then the stamp rises, as it does where the entry
// is seen. Tells whether there were any; no memory is taken where there are none.
fn drop_uis_of_closed(alloc: Global, state: &mut State, is_seen: bool) -> Result<bool, AllocError>
    ensures world { OnOk result ((w : World) → StandsForWorld state.old w → w.stamp < 2 ^ 64 - 1
        → StandsForWorld state.new (world_with_uis_of_live is_seen w)) }
    ensures editor { IfOk result (λ any. any ≡ false → state.new.editor ≡ state.old.editor) }
    ensures memory { IfErr result (λ e. has_any (losing_sessions state.old.sessions.items
        state.old.editor.stage.uis) ≡ true) }
    ensures any { IfOk result (λ any. any ≡ has_any (losing_sessions state.old.sessions.items
        state.old.editor.stage.uis)) }
{
    let losing = losing_sessions(alloc, &state.sessions, state.editor.uis())?;
    let any = !losing.is_empty();
    drop_uis_of(&mut state.editor, losing.as_slice());
    state.stamp = raised_if(is_seen, any, state.stamp);
    Ok(any)
}

/// An entry has entered behind which no view can be unsettled: the last one that the limits allow
/// ends the world.
pub fn finish(alloc: Global, state: &mut State, numbers: Numbers) -> Result<(), AllocError>
    ensures { OnOk result ((w : World) → IsAt state.old numbers w
        → StandsNumbered state.new (with_next numbers) (after_entry w)) }
{
    end_if(alloc, state, numbers.at, numbers.at == numbers.last);
    drop_uis_of_closed(alloc, state, false)?;
    Ok(())
}

/// The same for an entry behind which views settle: a request, which may be seen, or a close. Views
/// are looked at where they may be unsettled: where the entry is seen, or UIs go by it. Where it
/// isn't seen, memory is taken only where UIs go.
pub fn finish_settled(
    alloc: Global,
    state: &mut State,
    numbers: Numbers,
    is_seen: bool,
) -> Result<(), AllocError>
    ensures world { OnOk result ((w : World) → StandsForWorld state.old w → AreNumbers numbers w
        → numbers.at < 2 ^ 63 → (is_seen ≡ false → IsSettled (seen_now state.old.editor))
        → StandsNumbered state.new (with_next numbers) (after_settled_entry is_seen w)) }
    ensures memory { IfErr result (λ e. is_seen ≡ false
        → (numbers.at == numbers.last) ≡ false → has_any (losing_sessions
        state.old.sessions.items state.old.editor.stage.uis) ≡ true) }
{
    end_if(alloc, state, numbers.at, numbers.at == numbers.last);
    let any = drop_uis_of_closed(alloc, state, is_seen)?;
    settle_if(&mut state.editor, is_seen, any)
}
