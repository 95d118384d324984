//! A server: lanes are taken from the port and served, and go back; then its book is written.
ghost use Rattle.std.specs.Prelude.{◌≡◌, ◌⊎◌, ◌+◌, ◌<◌, ◌≤◌, ℕ, [], All, IfSome, IsSome, length, option_map, vec_capacity, vec_len, true, false};
ghost use Rattle.std.specs.Bool.{OnFalse, OnTrue};
ghost use Rattle.nv_io.specs.Faults.{Rose};
ghost use Rattle.nv_io.specs.Lanes.{IsFreshLane};
ghost use Rattle.nv_core.specs.Contents.{plain_entries};
ghost use Rattle.nv_serve.specs.Jobs.{lanes_of};
ghost use Rattle.nv_run.specs.Commands.{usual_start};
ghost use Rattle.nv_session.specs.Sending.{world_after};
ghost use Rattle.nv_run.specs.Serving.{IfBook, LeavesBook, LeavesLanes, ServerEnds, WritesBook};
ghost use Rattle.nv_run.specs.inside.Ends.{IsEndOfBook, IsLater};
ghost use Rattle.nv_world.specs.Worlds.{IsOutboxSize};

use crate::lanes::{give_back, take_lanes};
use nv_core::{History, Start};
use nv_dispatch::usual_limits;
use nv_io::{Files, Lane, Port, Sink, Source};
use nv_replay::{WriteEnd, keep_book};
use nv_serve::{Job, Left};
use nv_world::World;
use std::alloc::Global;
use std::fs::File;
use std::net::{Net, TcpListener, TcpStream};
use std::rt::Files as SystemFiles;
use std::sync::Wait;
use std::thread::Threads;

/// How a server ended.
#[derive(Clone, Copy, PartialEq, Eq, Debug)]
pub enum ServerEnd {
    /// Each lane has no connection to come, or a session ended the world.
    Done,
    NoMemory,
    /// The port failed, or a lane did.
    Failed,
    /// The file of the book failed.
    WriteFault,
}

// How a server ended whose lanes have ended.
fn end_of(left: &Left<World>) -> ServerEnd
    ensures done { result ≡ ServerEnd.Done
        → (left.now.spent ≡ false) × (left.now.failed ≡ false) }
    ensures failed { result ≡ ServerEnd.Failed
        → (left.now.spent ≡ false) × (left.now.failed ≡ true) }
    ensures other { result ≡ ServerEnd.WriteFault → ⊥ }
{
    if left.spent {
        ServerEnd::NoMemory
    } else if left.failed {
        ServerEnd::Failed
    } else {
        ServerEnd::Done
    }
}

// Serves lanes, and leaves the history in `kept`.
fn serve_lanes<
    R: Net<Listener = TcpListener, Stream = TcpStream> + Threads + Wait + Sync,
    L: Lane + Send,
>(rt: &R, alloc: Global, outbox: u32, jobs: &mut [Job<World, L>], kept: &mut History) -> ServerEnd
    requires lanes { (0 < length jobs.old) × (length jobs.old ≤ 256) }
    requires outbox { IsOutboxSize outbox }
    requires empty { kept.old.entries ≡ [] }
    ensures left { LeavesLanes (record {
      input = L.In.Source.words;
      output = L.Out.Sink.words;
      lane = L.Lane.words;
    }) (usual_start outbox) (length jobs.old) (plain_entries kept.new.entries) result ⊥
        (lanes_of jobs.old) (lanes_of jobs.new) }
    ensures other { result ≡ ServerEnd.WriteFault → ⊥ }
{
    let Ok(world) = World::new(alloc, usual_limits(), outbox) else {
        return ServerEnd::NoMemory;
    };
    let Ok(left) = nv_serve::serve(rt, alloc, world, jobs) else {
        return ServerEnd::NoMemory;
    };
    let ended = end_of(&left);
    *kept = left.core.into_history();
    ended
}

// Listens on an address, and takes so many lanes of it. `false` is a fault of the port.
fn open<R: SystemFiles<File = File> + Net<Listener = TcpListener, Stream = TcpStream>, P: Port>(
    rt: &R,
    port: &mut P,
    address: &str,
    count: usize,
    jobs: &mut Vec<Job<World, P::Line>>,
) -> bool
    requires may { P.may address.now }
    requires none { jobs.old.items ≡ [] }
    requires room { count ≤ vec_capacity jobs.old }
    ensures all { OnTrue result (vec_len jobs.new ≡ count) }
    ensures few { vec_len jobs.new ≤ count }
    ensures fresh { All (λ lane. IsFreshLane (P.Line.Lane.words lane).over
        (P.Line.Lane.words lane).lent
        (P.Line.Lane.words lane).faults) (lanes_of jobs.new.items) }
    ensures returned { (P.words port.new).returned ≡ (P.words port.old).returned }
    ensures lent { (P.words port.new).lent ≡ option_map (λ n. n + vec_len jobs.new)
        (P.words port.old).lent }
    ensures failed { OnFalse result (Rose (P.words port.old).faults (P.words port.new).faults) }
{
    if !port.listen(rt, address) {
        return false;
    }
    take_lanes(rt, port, count, jobs)
}

// Serves so many sessions at once on an address, from a fresh editor on, and leaves their history
// in `kept`. Each lane that was taken from the port goes back.
fn serve_port<
    R: SystemFiles<File = File>
        + Net<Listener = TcpListener, Stream = TcpStream>
        + Threads
        + Wait
        + Sync,
    P: Port,
>(
    rt: &R,
    alloc: Global,
    address: &str,
    sessions: usize,
    outbox: u32,
    port: &mut P,
    kept: &mut History,
) -> ServerEnd
    requires may { P.may address.now }
    requires sessions { (1 ≤ sessions) × (sessions ≤ 256) }
    requires outbox { IsOutboxSize outbox }
    requires empty { kept.old.entries ≡ [] }
    ensures ends { ServerEnds (record {
      input = P.Line.In.Source.words;
      output = P.Line.Out.Sink.words;
      lane = P.Line.Lane.words;
    }) (usual_start outbox) sessions (plain_entries kept.new.entries) result
        (Rose (P.words port.old).faults (P.words port.new).faults) (P.words port.old).returned
        (P.words port.new).returned }
    ensures lent { (P.words port.new).lent ≡ (P.words port.old).lent }
    ensures other { result ≡ ServerEnd.WriteFault → ⊥ }
{
    let Ok(mut jobs) = Vec::with_capacity(alloc, sessions) else {
        return ServerEnd::NoMemory;
    };
    if !open(rt, port, address, sessions, &mut jobs) {
        give_back(port, jobs);
        return ServerEnd::Failed;
    }
    let ended = serve_lanes(rt, alloc, outbox, jobs.as_mut_slice(), kept);
    give_back(port, jobs);
    ended
}

// How a server ended whose lanes ended so, and the writing of whose book did.
fn end_with(ended: ServerEnd, written: WriteEnd) -> ServerEnd
    ensures later { IsLater ended result }
    ensures end { IsEndOfBook written ended result }
{
    match written {
        WriteEnd::Done => ended,
        WriteEnd::NoMemory => ServerEnd::NoMemory,
        WriteEnd::WriteFault => match ended {
            ServerEnd::Done => ServerEnd::WriteFault,
            ServerEnd::NoMemory => ServerEnd::NoMemory,
            ServerEnd::Failed => ServerEnd::Failed,
            ServerEnd::WriteFault => ServerEnd::WriteFault,
        },
    }
}

// Writes the book of the history of a server whose lanes ended so, and tells how it ended then.
fn leave_book<R, S: Sink>(
    rt: &R,
    alloc: Global,
    outbox: u32,
    kept: &History,
    sink: &mut S,
    ended: ServerEnd,
) -> ServerEnd
    requires outbox { IsOutboxSize outbox }
    requires runs { IsSome (world_after (usual_start outbox) (plain_entries kept.now.entries)) }
    requires other { ended ≡ ServerEnd.WriteFault → ⊥ }
    ensures later { IsLater ended result }
    ensures writes { WritesBook S.words (usual_start outbox)
        (plain_entries kept.now.entries) result sink.old sink.new }
    ensures fault { result ≡ ServerEnd.WriteFault → Rose (S.words sink.old).faults
        (S.words sink.new).faults }
{
    let start = Start {
        outbox,
        limits: usual_limits(),
    };
    end_with(ended, keep_book(rt, alloc, start, kept, sink))
}

/// Serves so many sessions at once on an address, from a fresh editor on, and leaves their history
/// in `kept`. Each lane that was taken from the port goes back. Where a name is given the book of
/// the history is written there; where no file can be had for it, nobody is served.
pub fn serve<
    R: SystemFiles<File = File>
        + Net<Listener = TcpListener, Stream = TcpStream>
        + Threads
        + Wait
        + Sync,
    F: Files,
    P: Port,
>(
    rt: &R,
    alloc: Global,
    address: &str,
    sessions: usize,
    outbox: u32,
    book: Option<&str>,
    files: &mut F,
    port: &mut P,
    kept: &mut History,
) -> ServerEnd
    requires may { P.may address.now }
    requires open { IfSome book (λ name. F.may name.now) }
    requires sessions { (1 ≤ sessions) × (sessions ≤ 256) }
    requires outbox { IsOutboxSize outbox }
    requires empty { kept.old.entries ≡ [] }
    ensures ends { ServerEnds (record {
      input = P.Line.In.Source.words;
      output = P.Line.Out.Sink.words;
      lane = P.Line.Lane.words;
    }) (usual_start outbox) sessions (plain_entries kept.new.entries) result
        (Rose (P.words port.old).faults (P.words port.new).faults) (P.words port.old).returned
        (P.words port.new).returned }
    ensures lent { (P.words port.new).lent ≡ (P.words port.old).lent }
    ensures book { IfBook (option_map (λ name. name.now) book.entry)
        ((files.new ≡ files.old) × (result ≡ ServerEnd.WriteFault → ⊥))
        (LeavesBook F.To.Sink.words (usual_start outbox)
        (plain_entries kept.new.entries) result (Rose (F.words files.old).faults
        (F.words files.new).faults)
        (F.words files.old).returned_sinks (F.words files.new).returned_sinks) }
    ensures sources { (F.words files.new).returned_sources ≡ (F.words files.old).returned_sources }
    ensures all { ((F.words files.new).lent_sources ≡ (F.words files.old).lent_sources)
        × ((F.words files.new).lent_sinks ≡ (F.words files.old).lent_sinks) }
{
    let Some(name) = book else {
        return serve_port(rt, alloc, address, sessions, outbox, port, kept);
    };
    let Some(mut sink) = files.sink(rt, name) else {
        return ServerEnd::WriteFault;
    };
    let ended = serve_port(rt, alloc, address, sessions, outbox, port, kept);
    let ended = leave_book(rt, alloc, outbox, kept, &mut sink, ended);
    files.back(sink);
    ended
}
