//! The half that reads: it decodes calls and makes them, up to the end of its bytes.
ghost use Rattle.std.specs.Prelude.{◌≡◌, ◌≢◌, ◌≤◌};
ghost use Rattle.nv_io.specs.Faults.{Rose};
ghost use Rattle.nv_turn.specs.Passes.{IsSamePass};
ghost use Rattle.nv_halves.specs.Passes.{plain_pass};
ghost use Rattle.nv_halves.specs.Halves.{LeavesClosed, ReadsHalf};
ghost use Rattle.nv_calls.specs.Intakes.{fresh_intake};
ghost use Rattle.nv_halves.specs.inside.Intakes.{ClosesAfter, end_after_close};

use crate::bells::{Bell, end_call, lane_of, set_asking};
use crate::ends::ReaderEnd;
use crate::insisting::{Asked, shut};
use crate::steps::{end_of, make_piece};
use nv_calls::Intake;
use nv_core::Core;
use nv_io::Source;
use nv_turn::{Pass, Turn};
use std::alloc::Global;
use std::sync::Wait;

/// The half that reads, once it ended.
#[derive(Drop)]
pub struct ReaderHalf<C: Core, I> {
    pub pass: Pass<C>,
    pub input: I,
    pub end: ReaderEnd,
}

// Takes bytes from `input` and makes the calls in them, up to its end.
fn read_all<R: Wait, C: Core, I: Source>(
    rt: &R,
    turn: &Turn<C>,
    bells: &[Bell],
    lane: usize,
    pass: Pass<C>,
    session: u64,
    mut intake: Intake,
    input: &mut I,
) -> (Pass<C>, ReaderEnd)
    requires turn { pass.turn ≡ turn.now.turn }
    requires fresh { intake ≡ fresh_intake }
    ensures read { ReadsHalf result.1 (plain_pass pass) (plain_pass result.0) session
        (I.words input.old).taken (I.words input.new).taken (I.words input.old).left
        (I.words input.new).left }
    ensures later { (I.words input.old).faults ≤ (I.words input.new).faults }
    ensures fault { result.1 ≡ ReaderEnd.ReadFault
        → Rose (I.words input.old).faults (I.words input.new).faults }
{
    let mut pass = pass;
    'pieces: while intake.is_open() {
        let (next, made) = make_piece(rt, turn, bells, lane, pass, session, &mut intake, input);
        pass = next;
        match made {
            Ok(()) => {}
            Err(end) => return (pass, end),
        }
    }
    (pass, end_of(&intake))
}

// Takes the memory that reading needs, and reads.
fn read_session<R: Wait, C: Core, I: Source>(
    rt: &R,
    alloc: Global,
    turn: &Turn<C>,
    bells: &[Bell],
    pass: Pass<C>,
    session: u64,
    input: &mut I,
) -> (Pass<C>, ReaderEnd)
    requires { pass.turn ≡ turn.now.turn }
    ensures read { ReadsHalf result.1 (plain_pass pass) (plain_pass result.0) session
        (I.words input.old).taken (I.words input.new).taken (I.words input.old).left
        (I.words input.new).left }
    ensures later { (I.words input.old).faults ≤ (I.words input.new).faults }
    ensures fault { result.1 ≡ ReaderEnd.ReadFault
        → Rose (I.words input.old).faults (I.words input.new).faults }
{
    let Ok(intake) = Intake::new(alloc) else {
        return (pass, ReaderEnd::NoMemory);
    };
    let lane = lane_of(bells, session);
    let (pass, end) = read_all(rt, turn, bells, lane, pass, session, intake, input);
    set_asking(bells, lane, false);
    end_call(bells, lane);
    (pass, end)
}

// How a reader ends that was to close its session.
fn end_after(end: ReaderEnd, asked: Asked) -> ReaderEnd
    ensures { result ≡ end_after_close end asked }
{
    match (end, asked) {
        (ReaderEnd::NoMemory, _) => ReaderEnd::NoMemory,
        (_, Asked::Done) => end,
        (_, Asked::Gone(cause)) => ReaderEnd::Gone(cause),
        (_, Asked::NoMemory) => ReaderEnd::NoMemory,
    }
}

// Closes the session of a reader that ended, unless it is gone.
fn close<R: Wait, C: Core>(
    rt: &R,
    turn: &Turn<C>,
    bells: &[Bell],
    pass: Pass<C>,
    session: u64,
    end: ReaderEnd,
) -> (Pass<C>, ReaderEnd)
    requires { pass.turn ≡ turn.now.turn }
    ensures { ClosesAfter end result.1 (plain_pass pass) (plain_pass result.0) session }
{
    if let ReaderEnd::Gone(_) = end {
        return (pass, end);
    }
    let (pass, asked) = shut(rt, turn, bells, pass, session);
    (pass, end_after(end, asked))
}

/// Reads the bytes of a session from `input`, and makes each call in them as soon as it is whole,
/// by one event under the turn; it decodes outside the turn. A call that is held waits, and is made
/// before the next one. After a flaw, the end of the bytes, a fault of `input` or want of memory
/// the half closes the session, unless that was closed before.
pub fn reader_half<R: Wait, C: Core, I: Source>(
    rt: &R,
    alloc: Global,
    turn: &Turn<C>,
    bells: &[Bell],
    pass: Pass<C>,
    session: u64,
    mut input: I,
) -> ReaderHalf<C, I>
    requires { pass.turn ≡ turn.now.turn }
    ensures pass { IsSamePass (plain_pass pass) (plain_pass result.pass) }
    ensures read { ReadsHalf result.end (plain_pass pass) (plain_pass result.pass) session
        (I.words input).taken (I.words result.input).taken (I.words input).left
        (I.words result.input).left }
    ensures closes { LeavesClosed result.end (plain_pass result.pass) session }
    ensures later { (I.words input).faults ≤ (I.words result.input).faults }
    ensures fault { result.end ≡ ReaderEnd.ReadFault
        → Rose (I.words input).faults (I.words result.input).faults }
{
    let (pass, end) = read_session(rt, alloc, turn, bells, pass, session, &mut input);
    let (pass, end) = close(rt, turn, bells, pass, session, end);
    ReaderHalf { pass, input, end }
}

/// The half that reads where no thread could be had for it: it reads nothing, and closes the
/// session, unless that was closed before.
pub fn unread_half<R: Wait, C: Core, I: Source>(
    rt: &R,
    turn: &Turn<C>,
    bells: &[Bell],
    pass: Pass<C>,
    session: u64,
    input: I,
) -> ReaderHalf<C, I>
    requires { pass.turn ≡ turn.now.turn }
    ensures pass { IsSamePass (plain_pass pass) (plain_pass result.pass) }
    ensures read { ReadsHalf result.end (plain_pass pass) (plain_pass result.pass) session
        (I.words input).taken (I.words result.input).taken (I.words input).left
        (I.words result.input).left }
    ensures closes { LeavesClosed result.end (plain_pass result.pass) session }
    ensures nothing { (result.input ≡ input) × (result.end ≢ ReaderEnd.ReadFault) }
{
    let (pass, end) = close(rt, turn, bells, pass, session, ReaderEnd::NoMemory);
    ReaderHalf { pass, input, end }
}
