//! Connections over devices in memory, with running threads: halves that wait for each other.
ghost use Rattle.std.specs.Prelude.{◌≡◌, ◌<◌, ◌≤◌, [], ◌∷◌, ◌++◌, length, vec_len, IfOk};
ghost use Rattle.std.specs.declared.option.Option.{Option};
ghost use Rattle.std.specs.Thread.{IsSend, IsSync};
ghost use Rattle.nv_linegrid.specs.Told.{nothing_told};
ghost use Rattle.nv_turn.specs.Passes.{IsSamePass, first_passes};
ghost use Rattle.nv_core.specs.declared.start.Start.{Start};
ghost use Rattle.nv_halves.specs.Passes.{plain_pass};

use crate::held_devices::{
    Asker, COUNT, Counter, LIMITS, Mute, QUIT, Slow, Speech, make_page, make_speech,
};
use nv_core::Cause;
use nv_halves::{
    Bell, ReaderEnd, ReaderHalf, WriterEnd, WriterHalf, open, reader_half, writer_half,
};
use nv_io::{Ended, Flaw, Sink, Source};
use nv_painter::Painter;
use nv_session::serve_one;
use nv_speech::Voice;
use nv_turn::{Pass, Turn, take_pass};
use nv_world::World;
use std::alloc::{AllocError, Global};
use std::sync::Wait;
use std::sync::atomic::{AtomicU64, Ordering};
use std::test::Fail;
use std::thread::{Threads, join};

// The beginning of a request that follows the text and then puts a line into it 17 times, and one
// of the 17.
const EDITS: &[u8] = b"\x94\x00\x01\xb0nvim_call_atomic\x91\xdc\x00\x12\
    \x92\xafnvim_buf_attach\x93\x00\xc2\x80";

const EDIT: &[u8] = b"\x92\xb2nvim_buf_set_lines\x95\x00\x00\x00\xc3\x91\xa0";

// A source that asks so often, and waits with all but the first few reads until a word isn't 0.
fn ask_so_often(count: u64, free: u64, word: &AtomicU64) -> Asker {
    Asker {
        message: COUNT,
        count,
        free,
        word,
        least: 1,
        given: 0,
        faults: 0,
    }
}

// A turn around a world in which nothing has happened, and so many passes.
fn make_turn(alloc: Global, count: u32) -> Result<(Turn<World>, Vec<Pass<World>>), AllocError>
    requires { (0 < count) × (count ≤ 512) }
    ensures turn { IfOk result (λ made. made.0.passes ≡ count) }
    ensures passes { IfOk result (λ made. (start : Option Start)
        × (made.1.items ≡ first_passes made.0.turn start count)) }
    ensures count { IfOk result (λ made. vec_len made.1 ≡ count) }
{
    let world = World::new(alloc, LIMITS, 16)?;
    let Ok(made) = Turn::make(alloc, world, count) else {
        return Err(AllocError);
    };
    Ok(made)
}

// How a connection ends that is served alone in its turn.
fn end_in_turn<R: Threads + Wait + Sync, I: Source + Send + Drop, S: Sink + Send + Drop>(
    rt: &R,
    alloc: Global,
    turn: Turn<World>,
    mut passes: Vec<Pass<World>>,
    input: I,
    output: S,
) -> (Ended, u64)
    requires two { turn.passes ≡ 2 }
    requires passes { ((start : Option Start) × (passes.items ≡ first_passes turn.turn start 2))
        × (vec_len passes ≡ 2) }
{
    let second = take_pass(&mut passes);
    let first = take_pass(&mut passes);
    let bells = [Bell::new()];
    let served = serve_one(rt, alloc, &turn, &bells, 0, (first, second), input, output);
    let how = served.how;
    let session = served.session;
    let (first, second) = served.passes;
    let last = turn.join(first, second);
    let _world = turn.close(last);
    (how, session)
}

// How a connection ends over these devices, alone in a world of its own, and the number of its
// session.
fn end_alone<R: Threads + Wait + Sync, I: Source + Send + Drop, S: Sink + Send + Drop>(
    rt: &R,
    alloc: Global,
    input: I,
    output: S,
) -> Result<(Ended, u64), AllocError> {
    let (turn, passes) = make_turn(alloc, 2)?;
    Ok(end_in_turn(rt, alloc, turn, passes, input, output))
}

// How the second of two connections ends that are served one after the other.
fn end_of_second<R: Threads + Wait + Sync, I: Source + Send + Drop, S: Sink + Send + Drop>(
    rt: &R,
    alloc: Global,
    turn: Turn<World>,
    mut passes: Vec<Pass<World>>,
    inputs: (I, I),
    outputs: (S, S),
) -> (Ended, u64)
    requires two { turn.passes ≡ 2 }
    requires passes { ((start : Option Start) × (passes.items ≡ first_passes turn.turn start 2))
        × (vec_len passes ≡ 2) }
{
    let second = take_pass(&mut passes);
    let first = take_pass(&mut passes);
    let bells = [Bell::new()];
    let (input, next_input) = inputs;
    let (output, next_output) = outputs;
    let served = serve_one(rt, alloc, &turn, &bells, 0, (first, second), input, output);
    let passes = served.passes;
    let served = serve_one(rt, alloc, &turn, &bells, 0, passes, next_input, next_output);
    let how = served.how;
    let session = served.session;
    let (first, second) = served.passes;
    let last = turn.join(first, second);
    let _world = turn.close(last);
    (how, session)
}

// Opens the first session.
fn open_first<R: Wait>(rt: &R, turn: &Turn<World>, bells: &[Bell], pass: Pass<World>) -> Pass<World>
    requires turn { pass.turn ≡ turn.now.turn }
    requires lane { 0 < length bells.now }
    ensures turn { result.turn ≡ pass.turn }
    ensures numbers { result.numbers ≡ pass.numbers }
{
    let (pass, _) = open(rt, turn, bells, pass);
    bells[0].serve(1);
    pass
}

// How a connection ends beside others.
fn end_beside<R: Threads + Wait + Sync, I: Source + Send + Drop, S: Sink + Send + Drop>(
    rt: &R,
    alloc: Global,
    turn: &Turn<World>,
    bells: &[Bell],
    passes: (Pass<World>, Pass<World>),
    input: I,
    output: S,
) -> (Pass<World>, Ended)
    requires turn { (passes.0.turn ≡ turn.now.turn) × (passes.1.turn ≡ turn.now.turn) }
    requires start { passes.1.start ≡ passes.0.start }
    requires lane { 1 < length bells.now }
    ensures turn { result.0.turn ≡ turn.now.turn }
    ensures numbers { result.0.numbers ≡ passes.0.numbers ++ passes.1.numbers }
{
    let served = serve_one(rt, alloc, turn, bells, 1, passes, input, output);
    let how = served.how;
    let (first, second) = served.passes;
    (turn.join(first, second), how)
}

// Runs both halves of a session, each in a thread of its own.
fn run_halves<
    R: Threads + Wait + Sync,
    I: Source + Send + Drop,
    S: Sink + Send + Drop,
    V: Voice + Drop,
>(
    rt: &R,
    alloc: Global,
    turn: &Turn<World>,
    bells: &[Bell],
    lane: usize,
    first: Pass<World>,
    second: Pass<World>,
    session: u64,
    input: I,
    output: S,
    voice: V,
) -> (ReaderHalf<World, I>, WriterHalf<World, S>)
    requires turn { (first.turn ≡ turn.now.turn) × (second.turn ≡ turn.now.turn) }
    requires lane { lane < length bells.now }
    requires told { V.told voice ≡ nothing_told }
    ensures first { IsSamePass (plain_pass first) (plain_pass result.0.pass) }
    ensures second { IsSamePass (plain_pass second) (plain_pass result.1.pass) }
{
    join(
        rt,
        || -> ReaderHalf<World, I>
            requires { IsSync R.row × IsSend I.row × (first.turn ≡ turn.now.turn) }
            ensures { IsSamePass (plain_pass first) (plain_pass result.pass) }
        { reader_half(rt, alloc, turn, bells, first, session, input) },
        || -> WriterHalf<World, S>
            requires { (second.turn ≡ turn.now.turn) × (lane < length bells.now)
                × (V.told voice ≡ nothing_told) }
            ensures { IsSamePass (plain_pass second) (plain_pass result.pass) }
        { writer_half(rt, alloc, turn, bells, lane, second, session, output, voice) },
    )
}

// How the halves of the first session end.
fn end_first<
    R: Threads + Wait + Sync,
    I: Source + Send + Drop,
    S: Sink + Send + Drop,
    V: Voice + Drop,
>(
    rt: &R,
    alloc: Global,
    turn: &Turn<World>,
    bells: &[Bell],
    passes: (Pass<World>, Pass<World>),
    streams: (I, S),
    voice: V,
) -> (Pass<World>, (ReaderEnd, WriterEnd))
    requires turn { (passes.0.turn ≡ turn.now.turn) × (passes.1.turn ≡ turn.now.turn) }
    requires lane { 0 < length bells.now }
    requires told { V.told voice ≡ nothing_told }
    ensures turn { result.0.turn ≡ turn.now.turn }
    ensures numbers { result.0.numbers ≡ passes.0.numbers ++ passes.1.numbers }
{
    let (first, second) = passes;
    let (input, output) = streams;
    let first = open_first(rt, turn, bells, first);
    let (reader, writer) = run_halves(
        rt, alloc, turn, bells, 0, first, second, 1, input, output, voice,
    );
    (
        turn.join(reader.pass, writer.pass),
        (reader.end, writer.end),
    )
}

// How the halves of a session end that are alone in their turn.
fn halves_in_turn<
    R: Threads + Wait + Sync,
    I: Source + Send + Drop,
    S: Sink + Send + Drop,
    V: Voice + Drop,
>(
    rt: &R,
    alloc: Global,
    turn: Turn<World>,
    mut passes: Vec<Pass<World>>,
    input: I,
    output: S,
    voice: V,
) -> (ReaderEnd, WriterEnd)
    requires two { turn.passes ≡ 2 }
    requires passes { ((start : Option Start) × (passes.items ≡ first_passes turn.turn start 2))
        × (vec_len passes ≡ 2) }
    requires told { V.told voice ≡ nothing_told }
{
    let second = take_pass(&mut passes);
    let first = take_pass(&mut passes);
    let bells = [Bell::new()];
    let (last, ends) = end_first(
        rt,
        alloc,
        &turn,
        &bells,
        (first, second),
        (input, output),
        voice,
    );
    let _world = turn.close(last);
    ends
}

// How the halves of the first session end, and a connection beside it.
fn ends_of_both<
    R: Threads + Wait + Sync,
    I: Source + Send + Drop,
    S: Sink + Send + Drop,
    V: Voice + Drop,
>(
    rt: &R,
    alloc: Global,
    turn: Turn<World>,
    one: (Pass<World>, Pass<World>),
    other: (Pass<World>, Pass<World>),
    streams: ((I, S), (I, S)),
    voice: V,
) -> ((ReaderEnd, WriterEnd), Ended)
    requires four { turn.passes ≡ 4 }
    requires one { (one.0.turn ≡ turn.turn) × (one.1.turn ≡ turn.turn) }
    requires other { (other.0.turn ≡ turn.turn) × (other.1.turn ≡ turn.turn)
        × (other.1.start ≡ other.0.start) }
    requires numbers { (one.0.numbers ≡ 1 ∷ []) × (one.1.numbers ≡ 2 ∷ [])
        × (other.0.numbers ≡ 3 ∷ []) × (other.1.numbers ≡ 4 ∷ []) }
    requires told { V.told voice ≡ nothing_told }
{
    let bells = [Bell::new(), Bell::new()];
    let shared = &turn;
    let all = &bells[..];
    let ((input, output), (other_input, other_output)) = streams;
    let ((cd, how), (ab, ends)) = join(
        rt,
        || -> (Pass<World>, Ended)
            requires { IsSync R.row × IsSend I.row × IsSend S.row
                × (other.0.turn ≡ shared.now.turn) × (other.1.turn ≡ shared.now.turn)
                × (other.1.start ≡ other.0.start) × (1 < length all.now) }
            ensures turn { result.0.turn ≡ shared.entry.now.turn }
            ensures numbers { result.0.numbers ≡ other.0.numbers ++ other.1.numbers }
        { end_beside(rt, alloc, shared, all, other, other_input, other_output) },
        || -> (Pass<World>, (ReaderEnd, WriterEnd))
            requires { IsSync R.row × IsSend I.row × IsSend S.row
                × (one.0.turn ≡ shared.now.turn) × (one.1.turn ≡ shared.now.turn)
                × (0 < length all.now) × (V.told voice ≡ nothing_told) }
            ensures turn { result.0.turn ≡ shared.entry.now.turn }
            ensures numbers { result.0.numbers ≡ one.0.numbers ++ one.1.numbers }
        { end_first(rt, alloc, shared, all, one, (input, output), voice) },
    );
    let last = turn.join(ab, cd);
    let _world = turn.close(last);
    (ends, how)
}

// And as the passes were made.
fn ends_of_four<
    R: Threads + Wait + Sync,
    I: Source + Send + Drop,
    S: Sink + Send + Drop,
    V: Voice + Drop,
>(
    rt: &R,
    alloc: Global,
    turn: Turn<World>,
    mut passes: Vec<Pass<World>>,
    streams: ((I, S), (I, S)),
    voice: V,
) -> ((ReaderEnd, WriterEnd), Ended)
    requires four { turn.passes ≡ 4 }
    requires passes { ((start : Option Start) × (passes.items ≡ first_passes turn.turn start 4))
        × (vec_len passes ≡ 4) }
    requires told { V.told voice ≡ nothing_told }
{
    let d = take_pass(&mut passes);
    let c = take_pass(&mut passes);
    let b = take_pass(&mut passes);
    let a = take_pass(&mut passes);
    ends_of_both(rt, alloc, turn, (a, b), (c, d), streams, voice)
}

// How the only connection of a world ends whose second request comes only once a reply went out,
// and how many writes its sink took.
fn end_of_meeting<R: Threads + Wait + Sync>(
    rt: &R,
    alloc: Global,
) -> Result<((Ended, u64), u64), AllocError> {
    let replies = AtomicU64::new(0);
    let input = ask_so_often(2, 1, &replies);
    let output = Counter { word: &replies };
    let met = end_alone(rt, alloc, input, output)?;
    Ok((met, replies.load(Ordering::SeqCst)))
}

#[test]
fn halves_meet(rt: HostRuntime) -> Result<(), Fail> {
    let met = end_of_meeting(&rt, rt.alloc())?;
    assert!(rt; met == ((Ended::Closed, 1), 2));
    Ok(())
}

// How the halves of the first session end, whose voice waits in its first batch for a reply to a
// connection beside it, and how that one ends, which asks once the voice has begun.
fn ends_of_slow<R: Threads + Wait + Sync>(
    rt: &R,
    alloc: Global,
) -> Result<((ReaderEnd, WriterEnd), Ended), AllocError> {
    let painter = Painter::new(alloc)?;
    let (turn, passes) = make_turn(alloc, 4)?;
    let replies = AtomicU64::new(0);
    let others = AtomicU64::new(0);
    let begun = AtomicU64::new(0);
    let first = (ask_so_often(1, 2, &begun), Counter { word: &replies });
    let other = (ask_so_often(1, 0, &begun), Counter { word: &others });
    let voice = Slow {
        painter,
        spoke: false,
        begun: &begun,
        word: &others,
    };
    Ok(ends_of_four(rt, alloc, turn, passes, (first, other), voice))
}

#[test]
fn speaks_outside(rt: HostRuntime) -> Result<(), Fail> {
    let ((reader, writer), beside) = ends_of_slow(&rt, rt.alloc())?;
    assert!(rt; reader == ReaderEnd::Closed && beside == Ended::Closed);
    assert!(rt; matches!(writer, WriterEnd::Over(Cause::Closed(_))));
    Ok(())
}

// How a connection ends over this source, and how often its sink was finished, which takes so many
// writes.
fn end_of<R: Threads + Wait + Sync>(
    rt: &R,
    alloc: Global,
    input: Speech,
    writes: u64,
) -> Result<(Ended, u64), AllocError> {
    let finished = AtomicU64::new(0);
    let output = make_page(writes, &finished);
    let (how, _) = end_alone(rt, alloc, input, output)?;
    Ok((how, finished.load(Ordering::SeqCst)))
}

// A source that ends, a sink that fails, a source that fails, bytes that are malformed, an
// overflow, and the end of the world.
fn ends_of_each<R: Threads + Wait + Sync>(
    rt: &R,
    alloc: Global,
) -> Result<[(Ended, u64); 6], AllocError> {
    Ok([
        end_of(rt, alloc, make_speech(COUNT, COUNT, 1), 9)?,
        end_of(rt, alloc, make_speech(COUNT, COUNT, 1), 0)?,
        end_of(rt, alloc, make_speech(&[], COUNT, 0), 9)?,
        end_of(rt, alloc, make_speech(b"\xc1", COUNT, 1), 9)?,
        end_of(rt, alloc, make_speech(EDITS, EDIT, 17), 9)?,
        end_of(rt, alloc, make_speech(QUIT, COUNT, 1), 9)?,
    ])
}

// And one that comes after the world has ended.
fn end_of_late<R: Threads + Wait + Sync>(
    rt: &R,
    alloc: Global,
) -> Result<((Ended, u64), u64), AllocError> {
    let (turn, passes) = make_turn(alloc, 2)?;
    let finished = [AtomicU64::new(0), AtomicU64::new(0)];
    let inputs = (make_speech(QUIT, QUIT, 0), make_speech(COUNT, COUNT, 0));
    let outputs = (make_page(9, &finished[0]), make_page(9, &finished[1]));
    let met = end_of_second(rt, alloc, turn, passes, inputs, outputs);
    Ok((met, finished[1].load(Ordering::SeqCst)))
}

// How the half that writes ends where its voice finds no memory, and how often its sink was
// finished.
fn end_of_mute<R: Threads + Wait + Sync>(
    rt: &R,
    alloc: Global,
) -> Result<(WriterEnd, u64), AllocError> {
    let (turn, passes) = make_turn(alloc, 2)?;
    let finished = AtomicU64::new(0);
    let input = make_speech(COUNT, COUNT, 0);
    let output = make_page(9, &finished);
    let (_, end) = halves_in_turn(rt, alloc, turn, passes, input, output, Mute);
    Ok((end, finished.load(Ordering::SeqCst)))
}

#[test]
fn each_end_finishes(rt: HostRuntime) -> Result<(), Fail> {
    let alloc = rt.alloc();
    let met = ends_of_each(&rt, alloc)?;
    let late = end_of_late(&rt, alloc)?;
    let mute = end_of_mute(&rt, alloc)?;
    assert!(rt;
        met == [
            (Ended::Closed, 1),
            (Ended::WriteFault, 1),
            (Ended::ReadFault, 1),
            (Ended::Malformed(Flaw::Bad(0)), 1),
            (Ended::Overflowed(1), 1),
            (Ended::Quit(1), 1),
        ]
    );
    assert!(rt; late == ((Ended::Quit(1), 0), 1) && mute == (WriterEnd::NoMemory, 1));
    Ok(())
}
