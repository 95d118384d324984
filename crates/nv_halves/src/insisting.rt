//! The calls of a session and its close, each made again until it is taken: where the session is
//! held, or too much waits for it, or it isn't there yet, the half waits.
ghost use Rattle.std.specs.Prelude.{◌≡◌};
ghost use Rattle.nv_turn.specs.Story.{Has};
ghost use Rattle.nv_rpc.specs.Frames.{call_of_frame};
ghost use Rattle.nv_core.specs.Bounds.{IsLightCall};
ghost use Rattle.nv_core.specs.Gains.{GainsIn};
ghost use Rattle.nv_halves.specs.inside.Insisting.{CallsWith, ClosesWith, what_was_asked, what_was_shut, AsksOnce, Shuts, Stays, TriesCall, TriesClose};
ghost use Rattle.nv_halves.specs.Passes.{plain_pass};

use crate::bells::{
    Bell, Lanes, begin_call, end_call, lanes_behind, lanes_to_wake, ring, takes_heard,
    wait_for_take,
};
use nv_core::{Cause, Core, Unasked, Unclosed};
use nv_rpc::Frame;
use nv_turn::{Pass, Turn};
use std::sync::Wait;

/// How many bytes are due at most, about, to a session that makes a call.
const MOST_DUE: u64 = 8 << 20;

// How many bytes are due to a session whose writer is woken though more of its calls are at hand.
const MANY_DUE: u64 = 65_536;

/// What a half asked of the world.
#[derive(Clone, Copy, Debug, PartialEq, Eq)]
pub enum Asked {
    Done,
    /// The session is closed for this cause.
    Gone(Cause),
    NoMemory,
}

// How many bytes are due to a session. In a spent world none, since each event is refused there.
fn bytes_due<C: Core>(world: &C, session: u64) -> u64 {
    if world.spent() {
        return 0;
    }
    world.bytes_due(session)
}

// What a call came to. It comes back if it is to be made again.
fn asked_by(met: Result<(), (Frame, Unasked)>) -> Result<Asked, Frame>
    ensures { result ≡ what_was_asked met }
{
    match met {
        Ok(()) => Ok(Asked::Done),
        Err((call, why)) => match why {
            Unasked::NoMemory => Ok(Asked::NoMemory),
            Unasked::Gone(cause) => Ok(Asked::Gone(cause)),
            Unasked::Stranger => Err(call),
            Unasked::Held(_) => Err(call),
        },
    }
}

// Makes a call in the world in hand.
fn call_in<R, C: Core>(
    rt: &R,
    world: &mut C,
    caller: u32,
    session: u64,
    call: Frame,
) -> Result<Asked, Frame>
    requires { IsLightCall (call_of_frame call) }
    ensures { GainsIn C.Story.stands C.Story.start world.old world.new caller
        (CallsWith result session (call_of_frame call)) }
{
    let met = world.request(rt, caller, session, call);
    asked_by(met)
}

// Whether a call is the last one for now, though others are at hand: its session is closed, or the
// world is spent. Or it made so much due to its session that this is to be taken at once.
fn is_urgent<C: Core>(world: &C, session: u64, before: u64) -> bool {
    world.spent()
        || world.closed_by(session).is_some()
        || (before <= MANY_DUE && world.bytes_due(session) > MANY_DUE)
}

// Makes a call in the world in hand if no more than 8 MB is due to its session, and tells whom to
// wake: nobody where it was made and others are at hand that came with it.
fn call_within<R, C: Core>(
    rt: &R,
    world: &mut C,
    caller: u32,
    session: u64,
    call: Frame,
    bells: &[Bell],
    lane: usize,
    more: bool,
) -> (Result<Asked, Frame>, Lanes)
    requires { IsLightCall (call_of_frame call) }
    ensures { GainsIn C.Story.stands C.Story.start world.old world.new caller
        (CallsWith result.0 session (call_of_frame call)) }
{
    let before = bytes_due(world, session);
    if before > MOST_DUE {
        return (Err(call), lanes_behind(world, bells, lane, false));
    }
    let tried = call_in(rt, world, caller, session, call);
    let goes_on = more && tried.is_ok() && !is_urgent(world, session, before);
    (tried, lanes_behind(world, bells, lane, goes_on))
}

// Makes a call once. It comes back if it is to be made again.
fn try_call<R: Wait, C: Core>(
    rt: &R,
    turn: &Turn<C>,
    bells: &[Bell],
    lane: usize,
    pass: Pass<C>,
    session: u64,
    call: Frame,
    at_hand: usize,
) -> (Pass<C>, Result<Asked, Frame>)
    requires turn { pass.turn ≡ turn.now.turn }
    requires light { IsLightCall (call_of_frame call) }
    ensures { TriesCall result.1 (plain_pass pass) (plain_pass result.0) session
        (call_of_frame call) }
{
    begin_call(rt, bells, lane, at_hand);
    let more = at_hand != 0;
    let mut held = turn.enter(rt, pass);
    let number = held.number();
    let (tried, lanes) = call_within(rt, held.value(), number, session, call, bells, lane, more);
    let pass = held.leave(rt);
    end_call(bells, lane);
    ring(bells, lanes);
    (pass, tried)
}

// Waits until what is due to a session was taken, where that wasn't since this was heard, for some
// seconds at most. Where nothing was heard, doesn't wait; where no bell is the session's own, waits
// for an entry.
fn pause<R: Wait, C: Core>(
    rt: &R,
    turn: &Turn<C>,
    bells: &[Bell],
    pass: Pass<C>,
    session: u64,
    heard: Option<u32>,
) -> Pass<C>
    requires { pass.turn ≡ turn.now.turn }
    ensures { Has pass.number pass.numbers → Stays (plain_pass pass) (plain_pass result) }
{
    let Some(heard) = heard else { return pass };
    if wait_for_take(rt, bells, session, heard) {
        return pass;
    }
    turn.wait(rt, pass)
}

/// Makes a call of a session, once that isn't held any more and no more than 8 MB is due to it: its
/// writer takes that, and rings. Where bytes are at hand behind it, bells are rung behind these.
pub(crate) fn ask<R: Wait, C: Core>(
    rt: &R,
    turn: &Turn<C>,
    bells: &[Bell],
    lane: usize,
    pass: Pass<C>,
    session: u64,
    call: Frame,
    at_hand: usize,
) -> (Pass<C>, Asked)
    requires turn { pass.turn ≡ turn.now.turn }
    requires light { IsLightCall (call_of_frame call) }
    ensures { AsksOnce result.1 (plain_pass pass) (plain_pass result.0) session
        (call_of_frame call) }
{
    let mut pass = pass;
    let mut call = call;
    // It is read before each try but the first, which thus is never the one to wait after.
    let mut heard = None;
    'tries: for _ in rt.forever() {
        let (next, tried) = try_call(rt, turn, bells, lane, pass, session, call, at_hand);
        match tried {
            Ok(asked) => return (next, asked),
            Err(back) => {
                pass = pause(rt, turn, bells, next, session, heard);
                call = back;
                heard = Some(takes_heard(bells, session));
            }
        }
    }
    unreachable!()
}

// What a close came to. `None` says that it is to be tried again.
fn shut_by(met: Result<(), Unclosed>) -> Option<Asked>
    ensures { result ≡ what_was_shut met }
{
    match met {
        Ok(()) => Some(Asked::Done),
        Err(why) => match why {
            Unclosed::NoMemory => Some(Asked::NoMemory),
            Unclosed::Gone(cause) => Some(Asked::Gone(cause)),
            Unclosed::Stranger => None,
        },
    }
}

// Closes a session in the world in hand.
fn close_in<R, C: Core>(rt: &R, world: &mut C, caller: u32, session: u64) -> Option<Asked>
    ensures { GainsIn C.Story.stands C.Story.start world.old world.new caller
        (ClosesWith result session) }
{
    let met = world.close(rt, caller, session);
    shut_by(met)
}

// Closes a session in the world in hand if no more bytes are due to it than `most`, and tells whom
// that wakes.
fn close_within<R, C: Core>(
    rt: &R,
    world: &mut C,
    caller: u32,
    session: u64,
    bells: &[Bell],
    most: u64,
) -> (Option<Asked>, Lanes)
    ensures { GainsIn C.Story.stands C.Story.start world.old world.new caller
        (ClosesWith result.0 session) }
{
    if bytes_due(world, session) > most {
        return (None, Lanes::none());
    }
    let tried = close_in(rt, world, caller, session);
    (tried, lanes_to_wake(world, bells))
}

/// Closes a session once, if no more bytes are due to it than `most` and nothing else has closed
/// it. `None` says that this is to be tried again.
pub(crate) fn try_close<R: Wait, C: Core>(
    rt: &R,
    turn: &Turn<C>,
    bells: &[Bell],
    pass: Pass<C>,
    session: u64,
    most: u64,
) -> (Pass<C>, Option<Asked>)
    requires { pass.turn ≡ turn.now.turn }
    ensures { TriesClose result.1 (plain_pass pass) (plain_pass result.0) session }
{
    let mut held = turn.enter(rt, pass);
    let number = held.number();
    let (tried, lanes) = close_within(rt, held.value(), number, session, bells, most);
    let pass = held.leave(rt);
    ring(bells, lanes);
    (pass, tried)
}

/// Wakes those for whom the world has something, behind calls that came together, where so many
/// bytes are still at hand, a part of the next: else that was done with the last one.
pub(crate) fn wake_behind<R: Wait, C: Core>(
    rt: &R,
    turn: &Turn<C>,
    bells: &[Bell],
    lane: usize,
    pass: Pass<C>,
    at_hand: usize,
) -> Pass<C>
    requires { pass.turn ≡ turn.now.turn }
    ensures { Stays (plain_pass pass) (plain_pass result) }
{
    if at_hand == 0 {
        return pass;
    }
    let mut held = turn.enter(rt, pass);
    let lanes = lanes_behind(held.value(), bells, lane, false);
    let pass = held.leave(rt);
    end_call(bells, lane);
    ring(bells, lanes);
    pass
}

/// Closes a session, where nothing else has.
pub(crate) fn shut<R: Wait, C: Core>(
    rt: &R,
    turn: &Turn<C>,
    bells: &[Bell],
    pass: Pass<C>,
    session: u64,
) -> (Pass<C>, Asked)
    requires { pass.turn ≡ turn.now.turn }
    ensures { Shuts result.1 (plain_pass pass) (plain_pass result.0) session }
{
    let mut pass = pass;
    'tries: for _ in rt.forever() {
        let heard = takes_heard(bells, session);
        let (next, tried) = try_close(rt, turn, bells, pass, session, u64::MAX);
        match tried {
            Some(asked) => return (next, asked),
            None => pass = pause(rt, turn, bells, next, session, Some(heard)),
        }
    }
    unreachable!()
}
