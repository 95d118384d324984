//! The half that writes: it takes what is due to its session and writes it, until the session is
//! over.
ghost use Rattle.std.specs.Prelude.{◌≡◌, ◌<◌, ◌≤◌, length};
ghost use Rattle.nv_io.specs.Faults.{Rose};
ghost use Rattle.nv_linegrid.specs.Told.{nothing_told};
ghost use Rattle.nv_turn.specs.Passes.{IsSamePass};
ghost use Rattle.nv_core.specs.Gains.{GainsIn};
ghost use Rattle.nv_halves.specs.inside.Taking.{TakesWith, Drops, TakesOnce, WritesOnce};
ghost use Rattle.nv_halves.specs.Passes.{plain_pass};
ghost use Rattle.nv_halves.specs.Halves.{WritesHalf};

use crate::bells::{Bell, Lanes, lanes_if_closed, ring};
use crate::ends::WriterEnd;
use crate::insisting::try_close;
use crate::sending::send;
use nv_core::{Core, Taken, Untaken};
use nv_io::Sink;
use nv_speech::Voice;
use nv_turn::{Pass, Turn};
use std::alloc::Global;
use std::sync::Wait;

/// The half that writes, once it ended.
#[derive(Drop)]
pub struct WriterHalf<C: Core, S> {
    pub pass: Pass<C>,
    pub output: S,
    pub end: WriterEnd,
}

/// What came of one take.
#[derive(Clone, Copy, Debug, PartialEq, Eq)]
pub enum Written {
    /// What was due, if anything was, went out.
    On,
    Ends(WriterEnd),
}

// Takes what is due to a session in the world in hand, and tells whom that wakes: where the session
// is closed its own writer too, which takes once more.
fn take_in<R, C: Core>(
    rt: &R,
    world: &mut C,
    caller: u32,
    session: u64,
    bells: &[Bell],
) -> (Result<Taken, Untaken>, Lanes)
    ensures { GainsIn C.Story.stands C.Story.start world.old world.new caller
        (TakesWith result.0 session) }
{
    let taken = world.take(rt, caller, session);
    (taken, lanes_if_closed(world, bells, session))
}

// Takes what is due to a session.
fn take_due<R: Wait, C: Core>(
    rt: &R,
    turn: &Turn<C>,
    bells: &[Bell],
    pass: Pass<C>,
    session: u64,
) -> (Pass<C>, Result<Taken, Untaken>)
    requires { pass.turn ≡ turn.now.turn }
    ensures { TakesOnce result.1 (plain_pass pass) (plain_pass result.0) session }
{
    let mut held = turn.enter(rt, pass);
    let number = held.number();
    let (taken, lanes) = take_in(rt, held.value(), number, session, bells);
    let pass = held.leave(rt);
    ring(bells, lanes);
    (pass, taken)
}

// Closes a session for which no message waits. Where one does the session stays open.
fn shut_idle<R: Wait, C: Core>(
    rt: &R,
    turn: &Turn<C>,
    bells: &[Bell],
    pass: Pass<C>,
    session: u64,
) -> Pass<C>
    requires { pass.turn ≡ turn.now.turn }
    ensures { Drops (plain_pass pass) (plain_pass result) session }
{
    let (pass, _) = try_close(rt, turn, bells, pass, session, 0);
    pass
}

// Whether a take found its session over, or out of memory.
fn is_over(taken: Result<Taken, Untaken>) -> bool {
    matches!(taken, Ok(Taken::Over(_)) | Err(Untaken::NoMemory))
}

// Takes all that is due to a session, which nobody is sent, and closes the session, unless
// something else has: nothing stays in the world for it.
fn drop_due<R: Wait, C: Core>(
    rt: &R,
    turn: &Turn<C>,
    bells: &[Bell],
    pass: Pass<C>,
    session: u64,
) -> Pass<C>
    requires { pass.turn ≡ turn.now.turn }
    ensures { Drops (plain_pass pass) (plain_pass result) session }
{
    let mut pass = pass;
    'takes: for _ in rt.forever() {
        let (next, taken) = take_due(rt, turn, bells, pass, session);
        if is_over(taken) {
            return next;
        }
        pass = shut_idle(rt, turn, bells, next, session);
    }
    unreachable!()
}

// Takes what is due to a session, and writes it. Where that fails all that is due is dropped, and
// the session is closed.
fn write_once<R: Wait, C: Core, S: Sink, V: Voice>(
    rt: &R,
    alloc: Global,
    turn: &Turn<C>,
    bells: &[Bell],
    bell: &Bell,
    pass: Pass<C>,
    session: u64,
    voice: &mut V,
    room: &mut Vec<u8>,
    output: &mut S,
) -> (Pass<C>, Written)
    requires { pass.turn ≡ turn.now.turn }
    ensures turn { result.0.turn ≡ pass.turn }
    ensures writes { WritesOnce result.1 (plain_pass pass) (plain_pass result.0) session
        (V.told voice.old) (V.told voice.new) (S.words output.old).taken
        (S.words output.new).taken }
    ensures later { (S.words output.old).faults ≤ (S.words output.new).faults }
    ensures fault { result.1 ≡ Written.Ends WriterEnd.WriteFault
        → Rose (S.words output.old).faults (S.words output.new).faults }
{
    let (pass, taken) = take_due(rt, turn, bells, pass, session);
    match taken {
        Ok(Taken::Items(batch)) => {
            bell.tell_taken();
            match send(rt, alloc, batch, voice, room, output) {
                Ok(()) => (pass, Written::On),
                Err(end) => {
                    let pass = drop_due(rt, turn, bells, pass, session);
                    (pass, Written::Ends(end))
                }
            }
        }
        Ok(Taken::Nothing) => (pass, Written::On),
        Ok(Taken::Over(cause)) => (pass, Written::Ends(WriterEnd::Over(cause))),
        Err(Untaken::Stranger) => (pass, Written::On),
        Err(Untaken::NoMemory) => (pass, Written::Ends(WriterEnd::NoMemory)),
    }
}

// Takes and writes what is due to a session, and sleeps until more is, until the session is over or
// writing fails.
fn write_all<R: Wait, C: Core, S: Sink, V: Voice>(
    rt: &R,
    alloc: Global,
    turn: &Turn<C>,
    bells: &[Bell],
    lane: usize,
    pass: Pass<C>,
    session: u64,
    voice: &mut V,
    output: &mut S,
) -> (Pass<C>, WriterEnd)
    requires turn { pass.turn ≡ turn.now.turn }
    requires lane { lane < length bells.now }
    requires told { V.told voice.old ≡ nothing_told }
    ensures wrote { WritesHalf result.1 (plain_pass pass) (plain_pass result.0) session
        (S.words output.old).taken (S.words output.new).taken }
    ensures later { (S.words output.old).faults ≤ (S.words output.new).faults }
    ensures fault { result.1 ≡ WriterEnd.WriteFault
        → Rose (S.words output.old).faults (S.words output.new).faults }
{
    let mut pass = pass;
    let mut room = Vec::new(alloc);
    let bell = &bells[lane];
    'takes: for _ in rt.forever() {
        let heard = bell.heard();
        let (next, written) = write_once(
            rt, alloc, turn, bells, bell, pass, session, voice, &mut room, output,
        );
        pass = next;
        match written {
            Written::On => bell.sleep(rt, heard),
            Written::Ends(end) => return (pass, end),
        }
    }
    unreachable!()
}

/// Takes what is due to a session, one batch after another, and writes each to `output` as the
/// voice speaks it, until the session is over. Each batch is taken under the turn; it is spoken and
/// written outside it. Then the half sleeps on the bell of its lane, until that is rung. After a
/// fault of `output`, or want of memory, it takes what is due without writing it, and closes the
/// session. On every way out `output` is finished, so that the half that reads from the same
/// connection finds its end.
pub fn writer_half<R: Wait, C: Core, S: Sink, V: Voice + Drop>(
    rt: &R,
    alloc: Global,
    turn: &Turn<C>,
    bells: &[Bell],
    lane: usize,
    pass: Pass<C>,
    session: u64,
    mut output: S,
    mut voice: V,
) -> WriterHalf<C, S>
    requires turn { pass.turn ≡ turn.now.turn }
    requires lane { lane < length bells.now }
    requires told { V.told voice ≡ nothing_told }
    ensures pass { IsSamePass (plain_pass pass) (plain_pass result.pass) }
    ensures wrote { WritesHalf result.end (plain_pass pass) (plain_pass result.pass) session
        (S.words output).taken (S.words result.output).taken }
    ensures later { (S.words output).faults ≤ (S.words result.output).faults }
    ensures fault { result.end ≡ WriterEnd.WriteFault
        → Rose (S.words output).faults (S.words result.output).faults }
{
    let (pass, end) = write_all(
        rt,
        alloc,
        turn,
        bells,
        lane,
        pass,
        session,
        &mut voice,
        &mut output,
    );
    bells[lane].tell_taken();
    output.finish(rt);
    WriterHalf { pass, output, end }
}
