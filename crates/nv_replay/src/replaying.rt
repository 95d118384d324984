//! A book that is played again, and its outputs written.
ghost use Rattle.std.specs.Prelude.{◌≡◌, ◌≤◌, ℕ, [], List, IsSome};
ghost use Rattle.nv_io.specs.Faults.{Rose};
ghost use Rattle.nv_io.specs.Streams.{Gave};
ghost use Rattle.nv_history.specs.Runs.{run};
ghost use Rattle.nv_dispatch.specs.Runs.{usual_limits};
ghost use Rattle.nv_core.specs.Contents.{plain_entries};
ghost use Rattle.nv_book.specs.Reading.{AreWritable};
ghost use Rattle.nv_replay.specs.Ends.{ReplayEnds};
ghost use Rattle.nv_replay.specs.inside.Endings.{WritesOutputs};
ghost use Rattle.nv_world.specs.Worlds.{IsOutboxSize};

use crate::ending::{ReplayEnd, end_of_unread};
use nv_book::{Book, BookFault, read_book, write_replay};
use nv_core::History;
use nv_dispatch::usual_limits;
use nv_io::{Sink, Source};
use std::alloc::Global;

// Writes the outputs of a book's history, which is kept.
fn write_outputs<R, S: Sink>(
    rt: &R,
    alloc: Global,
    book: Book,
    output: &mut S,
    kept: &mut History,
) -> ReplayEnd
    requires outbox { IsOutboxSize book.start.outbox }
    requires limits { 1 ≤ book.start.limits.entries }
    requires runs { IsSome (run book.start.outbox book.start.limits
        (plain_entries book.history.entries)) }
    requires fit { AreWritable (plain_entries book.history.entries) }
    ensures kept { kept.new.entries ≡ book.history.entries }
    ensures writes { WritesOutputs book.start result (plain_entries book.history.entries)
        (S.words output.old).taken (S.words output.new).taken }
    ensures later { (S.words output.old).faults ≤ (S.words output.new).faults }
    ensures fault { result ≡ ReplayEnd.WriteFault
        → Rose (S.words output.old).faults (S.words output.new).faults }
{
    let written = write_replay(rt, alloc, book.start, &book.history, output);
    *kept = book.history;
    match written {
        Ok(()) => ReplayEnd::Done,
        Err(BookFault::NoMemory) => ReplayEnd::NoMemory,
        Err(BookFault::WriteFault) => ReplayEnd::WriteFault,
        Err(BookFault::Unfit(_)) => unreachable!(),
    }
}

/// Reads a book whole and plays it, and then writes the outputs of its takes, each piece of them
/// with the number of its entry and its session; the book's history is left in `kept`. Nothing is
/// written where what was read is no book.
pub fn replay<R, I: Source, S: Sink>(
    rt: &R,
    alloc: Global,
    source: &mut I,
    output: &mut S,
    kept: &mut History,
) -> ReplayEnd
    ensures ends { (bytes : List ℕ)
        × Gave (I.words source.old).taken (I.words source.new).taken (I.words source.old).left
        (I.words source.new).left
        bytes
        × ReplayEnds usual_limits result bytes (I.words source.new).left
        (plain_entries kept.old.entries) (plain_entries kept.new.entries) (S.words output.old).taken
        (S.words output.new).taken }
    ensures read_later { (I.words source.old).faults ≤ (I.words source.new).faults }
    ensures read { result ≡ ReplayEnd.ReadFault → Rose (I.words source.old).faults
        (I.words source.new).faults }
    ensures write_later { (S.words output.old).faults ≤ (S.words output.new).faults }
    ensures write { result ≡ ReplayEnd.WriteFault
        → Rose (S.words output.old).faults (S.words output.new).faults }
{
    match read_book(rt, alloc, usual_limits(), source) {
        Ok(book) => write_outputs(rt, alloc, book, output, kept),
        Err(fault) => end_of_unread(fault),
    }
}
