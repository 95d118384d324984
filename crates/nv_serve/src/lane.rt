// One lane: one connection after another.
ghost use Rattle.std.specs.Prelude.{◌≡◌, ◌<◌, ◌≤◌, length, true};
ghost use Rattle.nv_io.specs.Known.{IsOut};
ghost use Rattle.nv_turn.specs.Passes.{IsSamePass};
ghost use Rattle.nv_halves.specs.Passes.{plain_pass};
ghost use Rattle.nv_serve.specs.inside.Lanes.{ArePassesOf, IfLast, ReturnsLink, LooksOnly, ServesAll, StepsLane};

use crate::job::LaneEnd;
use nv_core::Core;
use nv_halves::Bell;
use nv_io::{Accepted, Ended, Lane};
use nv_session::serve_one;
use nv_turn::{Pass, Turn};
use std::alloc::Global;
use std::net::{Net, TcpListener, TcpStream};
use std::sync::Wait;
use std::thread::Threads;

// Whether memory was wanting to the world.
fn is_spent<R: Wait, C: Core>(rt: &R, turn: &Turn<C>, pass: Pass<C>) -> (Pass<C>, bool)
    requires { pass.turn ≡ turn.now.turn }
    ensures { LooksOnly (plain_pass pass) (plain_pass result.0) }
{
    let mut held = turn.enter(rt, pass);
    let spent = held.value().spent();
    let pass = held.leave(rt);
    (pass, spent)
}

// How a lane ends whose connection ended so, where it does: with the world, or where memory was
// wanting to the world.
fn end_after<R: Wait, C: Core>(
    rt: &R,
    turn: &Turn<C>,
    pass: Pass<C>,
    how: Ended,
) -> (Pass<C>, Option<LaneEnd>)
    requires { pass.turn ≡ turn.now.turn }
    ensures looks { LooksOnly (plain_pass pass) (plain_pass result.0) }
    ensures last { IfLast result.1 how }
{
    match how {
        Ended::Quit(_) => (pass, Some(LaneEnd::Quit)),
        Ended::NoMemory => match is_spent(rt, turn, pass) {
            (pass, true) => (pass, Some(LaneEnd::Spent)),
            (pass, false) => (pass, None),
        },
        _ => (pass, None),
    }
}

// Serves one connection of a lane, and gives it back. Where it is the last one, another lane that
// waits is woken, so that it ends too.
fn serve_link<
    R: Net<Listener = TcpListener, Stream = TcpStream> + Threads + Wait + Sync,
    C: Core + Send,
    L: Lane,
>(
    rt: &R,
    alloc: Global,
    turn: &Turn<C>,
    bells: &[Bell],
    number: usize,
    lane: &mut L,
    passes: (Pass<C>, Pass<C>),
    input: L::In,
    output: L::Out,
) -> ((Pass<C>, Pass<C>), Option<LaneEnd>)
    requires turn { (passes.0.turn ≡ turn.now.turn) × (passes.1.turn ≡ turn.now.turn) }
    requires start { passes.1.start ≡ passes.0.start }
    requires number { number < length bells.now }
    requires out { IsOut (L.words lane.old).lent }
    ensures { ReturnsLink (record {
      input = L.In.words;
      output = L.Out.words;
      lane = L.words;
    }) passes.0.start result.1 (plain_pass passes.0) (plain_pass passes.1)
        (plain_pass result.0.0) (plain_pass result.0.1) lane.old lane.new input output }
{
    let served = serve_one(rt, alloc, turn, bells, number, passes, input, output);
    let (first, second) = served.passes;
    let (first, end) = end_after(rt, turn, first, served.how);
    lane.ended(served.input, served.output, served.session, served.how);
    if end.is_some() {
        lane.wake(rt);
        return ((first, second), end);
    }
    ((first, second), end)
}

// Waits for the next connection of a lane, and serves it.
fn serve_next<
    R: Net<Listener = TcpListener, Stream = TcpStream> + Threads + Wait + Sync,
    C: Core + Send,
    L: Lane,
>(
    rt: &R,
    alloc: Global,
    turn: &Turn<C>,
    bells: &[Bell],
    number: usize,
    lane: &mut L,
    passes: (Pass<C>, Pass<C>),
) -> ((Pass<C>, Pass<C>), Option<LaneEnd>)
    requires turn { (passes.0.turn ≡ turn.now.turn) × (passes.1.turn ≡ turn.now.turn) }
    requires start { passes.1.start ≡ passes.0.start }
    requires number { number < length bells.now }
    ensures { StepsLane (record {
      input = L.In.words;
      output = L.Out.words;
      lane = L.words;
    }) passes.0.start result.1 (plain_pass passes.0) (plain_pass passes.1)
        (plain_pass result.0.0) (plain_pass result.0.1) lane.old lane.new }
{
    match lane.accept(rt) {
        Accepted::Conn(input, output) => serve_link(
            rt, alloc, turn, bells, number, lane, passes, input, output,
        ),
        Accepted::Done => (passes, Some(LaneEnd::Done)),
        Accepted::Failed => (passes, Some(LaneEnd::Failed)),
    }
}

/// Serves the connections of a lane, which has the bell of its number, one after another, until
/// none is to come, its accept fails, or the world has ended or is spent. Gives its passes, and how
/// it ended.
pub(crate) fn serve_lane<
    R: Net<Listener = TcpListener, Stream = TcpStream> + Threads + Wait + Sync,
    C: Core + Send,
    L: Lane,
>(
    rt: &R,
    alloc: Global,
    turn: &Turn<C>,
    bells: &[Bell],
    number: usize,
    lane: &mut L,
    passes: (Pass<C>, Pass<C>),
) -> ((Pass<C>, Pass<C>), LaneEnd)
    requires passes { ArePassesOf turn.now.turn passes.0 passes.1 }
    requires number { number < length bells.now }
    ensures first { IsSamePass passes.0 result.0.0 }
    ensures second { IsSamePass passes.1 result.0.1 }
    ensures serves { ServesAll (record {
      input = L.In.words;
      output = L.Out.words;
      lane = L.words;
    }) passes.0.start passes.0.number passes.1.number result.1 lane.old lane.new
        (plain_pass result.0.0).seen (plain_pass result.0.1).seen }
{
    let mut passes = passes;
    'links: for _ in rt.forever() {
        let (next, end) = serve_next(rt, alloc, turn, bells, number, lane, passes);
        passes = next;
        match end {
            None => {}
            Some(end) => return (passes, end),
        }
    }
    unreachable!()
}
