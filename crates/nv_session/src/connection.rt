//! A connection that is served beside others: its session is opened under the turn, and then both
//! of its halves run, each in a thread of its own.
ghost use Rattle.std.specs.Prelude.{◌≡◌, ◌≢◌, ◌<◌, ◌≤◌, length, Ok, Err};
ghost use Rattle.std.specs.Thread.{IsSync};
ghost use denote.Param.Send.{IsSend};
ghost use Rattle.nv_io.specs.Faults.{Rose};
ghost use Rattle.nv_linegrid.specs.Told.{nothing_told};
ghost use Rattle.nv_turn.specs.Passes.{IsSamePass};
ghost use Rattle.nv_halves.specs.Passes.{plain_pass};
ghost use Rattle.nv_halves.specs.Halves.{LeavesClosed, ReadsHalf, WritesHalf};
ghost use Rattle.nv_session.specs.Openings.{Opens};
ghost use Rattle.nv_session.specs.Joined.{end_by_cause, end_beside, end_beside_gone, end_of_halves};
ghost use Rattle.nv_session.specs.Connections.{ServesSession, ServesNone};
ghost use Rattle.nv_session.specs.inside.Opened.{ServesHalves, what_was_opened};

use nv_core::{Cause, Core, Unopened};
use nv_halves::{
    Bell, ReaderEnd, ReaderHalf, WriterEnd, WriterHalf, open, reader_half, unread_half, writer_half,
};
use nv_io::{Ended, Sink, Source};
use nv_painter::Painter;
use nv_speech::Voice;
use nv_turn::{Pass, Turn};
use std::alloc::Global;
use std::snapshot::Snapshot;
use std::sync::Wait;
use std::sync::atomic::{AtomicBool, Ordering};
use std::thread::{self, Promise, Threads, join};

/// A connection that was served: how it ended, the number of its session, or 0 where it had none,
/// its passes, and its two ends.
#[derive(Drop)]
pub struct Served<C: Core, I, S> {
    pub how: Ended,
    pub session: u64,
    pub passes: (Pass<C>, Pass<C>),
    pub input: I,
    pub output: S,
}

// The session that was opened, or the end of the connection.
fn opened_by(met: Result<u64, Unopened>) -> Result<u64, Ended>
    ensures { result ≡ what_was_opened met }
{
    match met {
        Ok(session) => Ok(session),
        Err(why) => match why {
            Unopened::Ended(entry) => Err(Ended::Quit(entry)),
            Unopened::NoMemory => Err(Ended::NoMemory),
        },
    }
}

// Opens a session.
fn open_session<R: Wait, C: Core>(
    rt: &R,
    turn: &Turn<C>,
    bells: &[Bell],
    pass: Pass<C>,
) -> (Pass<C>, Result<u64, Ended>)
    requires { pass.turn ≡ turn.now.turn }
    ensures { Opens result.1 (plain_pass pass) (plain_pass result.0) }
{
    let (pass, met) = open(rt, turn, bells, pass);
    (pass, opened_by(met))
}

// An overflow or the end of the world, where that closed the session, and else `other`.
fn by_cause(cause: Cause, other: Ended) -> Ended
    ensures { result ≡ end_by_cause cause other }
{
    match cause {
        Cause::Closed(_) => other,
        Cause::Overflowed(entry) => Ended::Overflowed(entry),
        Cause::Quit(entry) => Ended::Quit(entry),
    }
}

// The end of a connection whose reader would end it so.
fn beside(by_reader: Ended, writer: WriterEnd) -> Ended
    ensures { result ≡ end_beside by_reader writer }
{
    match writer {
        WriterEnd::Over(cause) => by_cause(cause, by_reader),
        WriterEnd::WriteFault => Ended::WriteFault,
        WriterEnd::NoMemory => Ended::NoMemory,
    }
}

// The end of a connection whose reader found its session closed for `gone`.
fn beside_gone(gone: Cause, writer: WriterEnd) -> Ended
    ensures { result ≡ end_beside_gone gone writer }
{
    match writer {
        WriterEnd::Over(cause) => by_cause(gone, by_cause(cause, Ended::NoMemory)),
        WriterEnd::WriteFault => by_cause(gone, Ended::WriteFault),
        WriterEnd::NoMemory => Ended::NoMemory,
    }
}

// The end of a connection, by those of its halves.
fn joined(reader: ReaderEnd, writer: WriterEnd) -> Ended
    ensures { result ≡ end_of_halves reader writer }
{
    match reader {
        ReaderEnd::Closed => beside(Ended::Closed, writer),
        ReaderEnd::Malformed(flaw) => beside(Ended::Malformed(flaw), writer),
        ReaderEnd::ReadFault => beside(Ended::ReadFault, writer),
        ReaderEnd::Gone(gone) => beside_gone(gone, writer),
        ReaderEnd::NoMemory => Ended::NoMemory,
    }
}

// Runs the half that writes, in a thread of its own where one can be made. That ends with its
// session, and so does what it kept of the memory that the half freed, as of screens.
fn write_apart<
    R: Threads + Wait + Sync,
    C: Core + Send,
    S: Sink + Send + Drop,
    V: Voice + Send + Drop,
>(
    rt: &R,
    alloc: Global,
    turn: &Turn<C>,
    bells: &[Bell],
    lane: usize,
    pass: Pass<C>,
    session: u64,
    output: S,
    voice: V,
) -> WriterHalf<C, S>
    requires turn { pass.turn ≡ turn.now.turn }
    requires lane { lane < length bells.now }
    requires told { V.told voice ≡ nothing_told }
    ensures pass { IsSamePass (plain_pass pass) (plain_pass result.pass) }
    ensures wrote { WritesHalf result.end (plain_pass pass) (plain_pass result.pass) session
        (S.words output).taken (S.words result.output).taken }
    ensures later { (S.words output).faults ≤ (S.words result.output).faults }
    ensures fault { result.end ≡ WriterEnd.WriteFault
        → Rose (S.words output).faults (S.words result.output).faults }
{
    join(
        rt,
        || -> WriterHalf<C, S>
            requires { IsSync R.row × IsSend C.row × IsSend S.row × IsSend V.row
                × (pass.turn ≡ turn.now.turn) × (lane < length bells.now)
                × (V.told voice ≡ nothing_told) }
            ensures pass { IsSamePass (plain_pass pass) (plain_pass result.pass) }
            ensures wrote { WritesHalf result.end (plain_pass pass) (plain_pass result.pass)
                session (S.words output).taken (S.words result.output).taken }
            ensures later { (S.words output).faults ≤ (S.words result.output).faults }
            ensures fault { result.end ≡ WriterEnd.WriteFault
                → Rose (S.words output).faults (S.words result.output).faults }
        { writer_half(rt, alloc, turn, bells, lane, pass, session, output, voice) },
        || (),
    )
    .0
}

// Runs the half that reads, unless no thread could be had for it.
fn read_if<R: Wait, C: Core, I: Source>(
    rt: &R,
    alloc: Global,
    turn: &Turn<C>,
    bells: &[Bell],
    pass: Pass<C>,
    session: u64,
    input: I,
    has_thread: &AtomicBool,
) -> ReaderHalf<C, I>
    requires { pass.turn ≡ turn.now.turn }
    ensures pass { IsSamePass (plain_pass pass) (plain_pass result.pass) }
    ensures read { ReadsHalf result.end (plain_pass pass) (plain_pass result.pass) session
        (I.words input).taken (I.words result.input).taken (I.words input).left
        (I.words result.input).left }
    ensures closes { LeavesClosed result.end (plain_pass result.pass) session }
    ensures later { (I.words input).faults ≤ (I.words result.input).faults }
    ensures fault { result.end ≡ ReaderEnd.ReadFault
        → Rose (I.words input).faults (I.words result.input).faults }
{
    if has_thread.load(Ordering::SeqCst) {
        reader_half(rt, alloc, turn, bells, pass, session, input)
    } else {
        unread_half(rt, turn, bells, pass, session, input)
    }
}

// What is known of a half that reads, once it ended: it began with this pass and this source.
#[derive(Drop)]
struct Reading<C: Core, I> {
    pass: Snapshot<Pass<C>>,
    session: u64,
    input: Snapshot<I>,
}

impl<C: Core, I: Source> Promise<ReaderHalf<C, I>> for Reading<C, I> {
    ghost use Rattle.nv_halves.specs.declared.ends.ReaderEnd.TheVariants.{ReadFault};

    ghost kept_by = { λ p r. IsSamePass (plain_pass p.pass.value) (plain_pass r.pass)
        × ReadsHalf r.end (plain_pass p.pass.value) (plain_pass r.pass) p.session
        (I.words p.input.value).taken (I.words r.input).taken (I.words p.input.value).left
        (I.words r.input).left
        × LeavesClosed r.end (plain_pass r.pass) p.session
        × ((I.words p.input.value).faults ≤ (I.words r.input).faults)
        × (r.end ≡ ReadFault → Rose (I.words p.input.value).faults (I.words r.input).faults) };
}

// Runs both halves of a session, each in a thread of its own. Where no thread can be had for the
// half that reads, that reads nothing, and closes the session.
pub(crate) fn run_halves<
    R: Threads + Wait + Sync,
    C: Core + Send,
    I: Source + Send + Drop,
    S: Sink + Send + Drop,
    V: Voice + Send + Drop,
>(
    rt: &R,
    alloc: Global,
    turn: &Turn<C>,
    bells: &[Bell],
    lane: usize,
    first: Pass<C>,
    second: Pass<C>,
    session: u64,
    input: I,
    output: S,
    voice: V,
) -> (ReaderHalf<C, I>, WriterHalf<C, S>)
    requires turn { (first.turn ≡ turn.now.turn) × (second.turn ≡ turn.now.turn) }
    requires lane { lane < length bells.now }
    requires told { V.told voice ≡ nothing_told }
    ensures first { IsSamePass (plain_pass first) (plain_pass result.0.pass) }
    ensures read { ReadsHalf result.0.end (plain_pass first) (plain_pass result.0.pass) session
        (I.words input).taken (I.words result.0.input).taken (I.words input).left
        (I.words result.0.input).left }
    ensures closes { LeavesClosed result.0.end (plain_pass result.0.pass) session }
    ensures read_later { (I.words input).faults ≤ (I.words result.0.input).faults }
    ensures read_fault { result.0.end ≡ ReaderEnd.ReadFault
        → Rose (I.words input).faults (I.words result.0.input).faults }
    ensures second { IsSamePass (plain_pass second) (plain_pass result.1.pass) }
    ensures wrote { WritesHalf result.1.end (plain_pass second) (plain_pass result.1.pass) session
        (S.words output).taken (S.words result.1.output).taken }
    ensures write_later { (S.words output).faults ≤ (S.words result.1.output).faults }
    ensures write_fault { result.1.end ≡ WriterEnd.WriteFault
        → Rose (S.words output).faults (S.words result.1.output).faults }
{
    let has_thread = AtomicBool::new(true);
    let has_thread = &has_thread;
    thread::scope(
        thread::scope_env(),
        rt,
        |scope| -> (ReaderHalf<C, I>, WriterHalf<C, S>)
            requires { IsSync R.row × IsSend C.row × IsSend I.row × IsSend S.row × IsSend V.row
                × (first.turn ≡ turn.now.turn) × (second.turn ≡ turn.now.turn)
                × (lane < length bells.now) × (V.told voice ≡ nothing_told) }
            ensures first { IsSamePass (plain_pass first) (plain_pass result.0.pass) }
            ensures read { ReadsHalf result.0.end (plain_pass first) (plain_pass result.0.pass)
                session (I.words input).taken (I.words result.0.input).taken (I.words input).left
                (I.words result.0.input).left }
            ensures closes { LeavesClosed result.0.end (plain_pass result.0.pass) session }
            ensures read_later { (I.words input).faults ≤ (I.words result.0.input).faults }
            ensures read_fault { result.0.end ≡ ReaderEnd.ReadFault
                → Rose (I.words input).faults (I.words result.0.input).faults }
            ensures second { IsSamePass (plain_pass second) (plain_pass result.1.pass) }
            ensures wrote { WritesHalf result.1.end (plain_pass second)
                (plain_pass result.1.pass) session (S.words output).taken
                (S.words result.1.output).taken }
            ensures write_later { (S.words output).faults ≤ (S.words result.1.output).faults }
            ensures write_fault { result.1.end ≡ WriterEnd.WriteFault
                → Rose (S.words output).faults (S.words result.1.output).faults }
        {
            let promise = Reading {
                pass: Snapshot::of(&first),
                session,
                input: Snapshot::of(&input),
            };
            let reader = move || -> ReaderHalf<C, I>
                requires { IsSync R.row × IsSend C.row × IsSend I.row
                    × (first.turn ≡ turn.now.turn) }
                ensures pass { IsSamePass (plain_pass first) (plain_pass result.pass) }
                ensures read { ReadsHalf result.end (plain_pass first) (plain_pass result.pass)
                    session (I.words input).taken (I.words result.input).taken (I.words input).left
                    (I.words result.input).left }
                ensures closes { LeavesClosed result.end (plain_pass result.pass) session }
                ensures later { (I.words input).faults ≤ (I.words result.input).faults }
                ensures fault { result.end ≡ ReaderEnd.ReadFault
                    → Rose (I.words input).faults (I.words result.input).faults }
            { read_if(rt, alloc, turn, bells, first, session, input, has_thread) };
            match scope.spawn_with(promise, reader) {
                Ok(child) => {
                    let writer = write_apart(
                        rt, alloc, turn, bells, lane, second, session, output, voice,
                    );
                    (child.join(rt), writer)
                }
                Err(refused) => {
                    has_thread.store(false, Ordering::SeqCst);
                    let reader = (refused.value)();
                    let writer = write_apart(
                        rt, alloc, turn, bells, lane, second, session, output, voice,
                    );
                    (reader, writer)
                }
            }
        },
    )
}

// Serves a connection that was opened as a session.
fn serve_session<
    R: Threads + Wait + Sync,
    C: Core + Send,
    I: Source + Send + Drop,
    S: Sink + Send + Drop,
>(
    rt: &R,
    alloc: Global,
    turn: &Turn<C>,
    bells: &[Bell],
    lane: usize,
    first: Pass<C>,
    second: Pass<C>,
    session: u64,
    input: I,
    output: S,
    painter: Painter,
) -> Served<C, I, S>
    requires turn { (first.turn ≡ turn.now.turn) × (second.turn ≡ turn.now.turn) }
    requires start { second.start ≡ first.start }
    requires lane { lane < length bells.now }
    requires told { painter.told ≡ nothing_told }
    ensures session { result.session ≡ session }
    ensures serves { ServesHalves
        (record {
          input = I.words;
          output = S.words;
        })
        (plain_pass first) (plain_pass second) (plain_pass result.passes.0)
        (plain_pass result.passes.1) input result.input output result.output session result.how }
    ensures read_later { (I.words input).faults ≤ (I.words result.input).faults }
    ensures read_fault { result.how ≡ Ended.ReadFault
        → Rose (I.words input).faults (I.words result.input).faults }
    ensures write_later { (S.words output).faults ≤ (S.words result.output).faults }
    ensures write_fault { result.how ≡ Ended.WriteFault
        → Rose (S.words output).faults (S.words result.output).faults }
{
    bells[lane].serve(session);
    let (reader, writer) = run_halves(
        rt, alloc, turn, bells, lane, first, second, session, input, output, painter,
    );
    bells[lane].serve(0);
    let how = joined(reader.end, writer.end);
    Served {
        how,
        session,
        passes: (reader.pass, writer.pass),
        input: reader.input,
        output: writer.output,
    }
}

// Gives a connection back that had no session.
fn serve_none<R, C: Core, I: Source + Drop, S: Sink + Drop>(
    rt: &R,
    passes: (Pass<C>, Pass<C>),
    input: I,
    mut output: S,
    how: Ended,
) -> Served<C, I, S>
    ensures how { (result.how ≡ how) × (result.session ≡ 0) × (result.passes ≡ passes) }
    ensures input { result.input ≡ input }
    ensures sent { (S.words result.output).taken ≡ (S.words output).taken }
    ensures later { (S.words output).faults ≤ (S.words result.output).faults }
{
    output.finish(rt);
    Served {
        how,
        session: 0,
        passes,
        input,
        output,
    }
}

/// Serves one connection of a lane, whose bell is that of its number: opens its session by the
/// first pass, and then runs the half that reads by the first pass and the half that writes by the
/// second one, each in a thread of its own, until both ended. The connection is finished both ways.
/// Where the world had ended, or memory was wanting to begin, it has no session, and nothing is
/// read or written; where no thread can be had to read it, its session is closed at once, and it
/// ends out of memory.
pub fn serve_one<
    R: Threads + Wait + Sync,
    C: Core + Send,
    I: Source + Send + Drop,
    S: Sink + Send + Drop,
>(
    rt: &R,
    alloc: Global,
    turn: &Turn<C>,
    bells: &[Bell],
    lane: usize,
    passes: (Pass<C>, Pass<C>),
    input: I,
    output: S,
) -> Served<C, I, S>
    requires turn { (passes.0.turn ≡ turn.now.turn) × (passes.1.turn ≡ turn.now.turn) }
    requires start { passes.1.start ≡ passes.0.start }
    requires lane { lane < length bells.now }
    ensures first { IsSamePass (plain_pass passes.0) (plain_pass result.passes.0) }
    ensures second { IsSamePass (plain_pass passes.1) (plain_pass result.passes.1) }
    ensures served { result.session ≢ 0 → ServesSession
        (record {
          input = I.words;
          output = S.words;
        })
        (plain_pass passes.0) (plain_pass passes.1) (plain_pass result.passes.0)
        (plain_pass result.passes.1) input result.input output result.output result.session
        result.how }
    ensures unserved { result.session ≡ 0 → ServesNone
        (record {
          input = I.words;
          output = S.words;
        })
        (plain_pass passes.0) (plain_pass passes.1) (plain_pass result.passes.0)
        (plain_pass result.passes.1) input result.input output result.output result.how }
    ensures read_later { (I.words input).faults ≤ (I.words result.input).faults }
    ensures read_fault { result.how ≡ Ended.ReadFault
        → Rose (I.words input).faults (I.words result.input).faults }
    ensures write_later { (S.words output).faults ≤ (S.words result.output).faults }
    ensures write_fault { result.how ≡ Ended.WriteFault
        → Rose (S.words output).faults (S.words result.output).faults }
{
    let Ok(painter) = Painter::new(alloc) else {
        return serve_none(rt, passes, input, output, Ended::NoMemory);
    };
    let (first, second) = passes;
    let (first, opened) = open_session(rt, turn, bells, first);
    match opened {
        Ok(session) => serve_session(
            rt, alloc, turn, bells, lane, first, second, session, input, output, painter,
        ),
        Err(how) => serve_none(rt, (first, second), input, output, how),
    }
}
