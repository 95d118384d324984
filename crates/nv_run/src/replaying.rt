//! Files whose books are replayed.
ghost use Rattle.std.specs.Prelude.{◌≡◌, ℕ, List, length};
ghost use Rattle.nv_io.specs.Faults.{Rose};
ghost use Rattle.nv_io.specs.Streams.{Gave};
ghost use Rattle.nv_core.specs.Contents.{plain_entries};
ghost use Rattle.nv_replay.specs.Ends.{IsNothingDone};
ghost use Rattle.nv_run.specs.Replaying.{AreVerdicts, LeavesFile, PlaysBook};

use nv_core::History;
use nv_io::{Files, Sink, Source};
use nv_replay::ReplayEnd;
use nv_watch::Watcher;
use std::alloc::Global;
use std::fs::File;
use std::rt::Files as SystemFiles;

// Replays a book, or checks it.
fn play<R, I: Source, S: Sink, W: Watcher>(
    rt: &R,
    alloc: Global,
    is_check: bool,
    source: &mut I,
    output: &mut S,
    watchers: Vec<W>,
    kept: &mut History,
) -> ReplayEnd
    ensures plays { (bytes : List ℕ) × Gave (I.words source.old).taken (I.words source.new).taken
        (I.words source.old).left (I.words source.new).left bytes
        × PlaysBook is_check (length watchers.items)
        (AreVerdicts W.HasSeen W.Breaks watchers.items)
        result bytes (I.words source.new).left (plain_entries kept.old.entries)
        (plain_entries kept.new.entries) (S.words output.old).taken (S.words output.new).taken }
    ensures read { result ≡ ReplayEnd.ReadFault
        → Rose (I.words source.old).faults (I.words source.new).faults }
    ensures write { result ≡ ReplayEnd.WriteFault
        → Rose (S.words output.old).faults (S.words output.new).faults }
{
    if is_check {
        let mut watchers = watchers;
        nv_replay::check(rt, alloc, source, &mut watchers, output, kept)
    } else {
        nv_replay::replay(rt, alloc, source, output, kept)
    }
}

/// Replays the book in a file, or checks it, and leaves its history in `kept`. The source that was
/// given goes back.
pub fn replay<R: SystemFiles<File = File>, S: Sink, F: Files, W: Watcher>(
    rt: &R,
    alloc: Global,
    name: &str,
    is_check: bool,
    output: &mut S,
    files: &mut F,
    watchers: Vec<W>,
    kept: &mut History,
) -> ReplayEnd
    requires { F.may name.now }
    ensures file { LeavesFile F.From.Source.words result
        (Rose (F.words files.old).faults (F.words files.new).faults)
        (IsNothingDone (plain_entries kept.old.entries) (plain_entries kept.new.entries)
        (S.words output.old).taken (S.words output.new).taken)
        (λ bytes left. PlaysBook is_check (length watchers.items)
        (AreVerdicts W.HasSeen W.Breaks watchers.items)
        result bytes left (plain_entries kept.old.entries) (plain_entries kept.new.entries)
        (S.words output.old).taken (S.words output.new).taken)
        (F.words files.old).returned_sources (F.words files.new).returned_sources }
    ensures write { result ≡ ReplayEnd.WriteFault
        → Rose (S.words output.old).faults (S.words output.new).faults }
    ensures sinks { (F.words files.new).returned_sinks ≡ (F.words files.old).returned_sinks }
    ensures all { ((F.words files.new).lent_sources ≡ (F.words files.old).lent_sources)
        × ((F.words files.new).lent_sinks ≡ (F.words files.old).lent_sinks) }
{
    let Some(mut source) = files.source(rt, name) else {
        return ReplayEnd::ReadFault;
    };
    let ended = play(rt, alloc, is_check, &mut source, output, watchers, kept);
    files.back_source(source);
    ended
}
