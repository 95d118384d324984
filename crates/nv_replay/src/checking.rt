//! A book that is played again, compared and watched.
ghost use Rattle.std.specs.Prelude.{◌≡◌, ◌≤◌, ◌++◌, ◌↔◌, ℕ, [], List, length, slice_get, Some, IfOk, OnOk, Err};
ghost use Rattle.nv_io.specs.Faults.{Rose};
ghost use Rattle.nv_io.specs.Streams.{Gave};
ghost use Rattle.nv_dispatch.specs.Runs.{usual_limits};
ghost use Rattle.nv_core.specs.Contents.{plain_entries, plain_event};
ghost use Rattle.nv_core.specs.Bounds.{IsLightEvent};
ghost use Rattle.nv_book.specs.Books.{Recorded};
ghost use Rattle.nv_book.specs.Reading.{IsReplaying};
ghost use Rattle.nv_watch.specs.Verdicts.{IsVerdict, Sight, sight};
ghost use Rattle.nv_watch.specs.declared.verdict.Verdict.{Verdict as PlainVerdict};
ghost use Rattle.nv_replay.specs.Ends.{CheckEnds};
ghost use Rattle.nv_replay.specs.inside.Endings.{Concludes, SaysNoFirst};
ghost use Rattle.nv_replay.specs.inside.Tallies.{GoesOver, GoesOverAll, IsComing};
ghost use Rattle.nv_replay.specs.inside.Watching.{GoesAlong};

use crate::ending::{ReplayEnd, end_of_unread};
use crate::saying::first_no;
use crate::summary::summary;
use crate::tallying::{Tally, compare_next};
use crate::watching::{prepare, watch};
use nv_book::{Replay, Unread, Upcoming};
use nv_core::History;
use nv_dispatch::usual_limits;
use nv_io::{Sink, Source, put_all};
use nv_watch::{Watcher, catch_up};
use nv_world::Step;
use std::alloc::Global;

/// A book that was gone over: its history, and what was counted and compared.
#[derive(Drop)]
pub struct GoneOver {
    pub history: History,
    pub tally: Tally,
}

// Plays the entry of a book that was read, compares it, and shows its step to the watchers, who may
// have been shown those before it.
fn pass_one<R, I: Source, W: Watcher>(
    rt: &R,
    replay: &mut Replay,
    source: &mut I,
    watchers: &mut Vec<W>,
    tally: &mut Tally,
    upcoming: Upcoming,
    follows: bool,
) -> Result<Step, Unread>
    requires light { IsLightEvent (plain_event upcoming.heading.entry.event) }
    ensures goes { (bytes : List ℕ)
        × Gave (I.words source.old).taken (I.words source.new).taken (I.words source.old).left
        (I.words source.new).left
        bytes
        × ((fed : List ℕ) (records played : List Recorded) (seen : List Sight)
        → IsComing fed records played seen upcoming tally.old replay.old
        → GoesOver (fed ++ bytes) (I.words source.new).left records played seen result tally.new
        replay.new) }
    ensures count { OnOk result (length watchers.new.items ≡ length watchers.old.items) }
    ensures along { IfOk result (λ made. (i : ℕ) (old new : W)
        → slice_get watchers.old.items i ≡ Some old → slice_get watchers.new.items i ≡ Some new
        → GoesAlong follows replay.old.world (sight replay.new.world made) (W.HasSeen old)
        (W.IsBehind old) (W.HasSeen new) (W.IsBehind new) (W.Breaks old) (W.Breaks new)) }
    ensures same { replay.new.start ≡ replay.old.start }
    ensures later { (I.words source.old).faults ≤ (I.words source.new).faults }
    ensures fault { result ≡ Err Unread.ReadFault
        → Rose (I.words source.old).faults (I.words source.new).faults }
{
    prepare(watchers, replay.world(), &upcoming.heading.entry.event)?;
    let step = compare_next(rt, replay, source, upcoming, tally)?;
    watch(watchers, replay.world(), &step, follows)?;
    Ok(step)
}

// Goes over all entries of a book, from its first on.
fn go_over<R, I: Source, W: Watcher>(
    rt: &R,
    replay: &mut Replay,
    source: &mut I,
    watchers: &mut Vec<W>,
) -> Result<Tally, Unread>
    ensures goes { (bytes : List ℕ)
        × Gave (I.words source.old).taken (I.words source.new).taken (I.words source.old).left
        (I.words source.new).left
        bytes
        × (seen : List Sight)
        × ((fed : List ℕ) → IsReplaying fed [] [] replay.old
        → GoesOverAll (fed ++ bytes) (I.words source.new).left seen result replay.new)
        × OnOk result ((i : ℕ) (old new : W) (before : List Sight)
        → slice_get watchers.old.items i ≡ Some old → slice_get watchers.new.items i ≡ Some new
        → W.HasSeen old before → W.HasSeen new (before ++ seen)) }
    ensures count { OnOk result (length watchers.new.items ≡ length watchers.old.items) }
    ensures rule { OnOk result ((i : ℕ) (old new : W) (before : List Sight) (x : Sight)
        → slice_get watchers.old.items i ≡ Some old → slice_get watchers.new.items i ≡ Some new
        → W.Breaks old before x ↔ W.Breaks new before x) }
    ensures same { replay.new.start ≡ replay.old.start }
    ensures later { (I.words source.old).faults ≤ (I.words source.new).faults }
    ensures fault { result ≡ Err Unread.ReadFault
        → Rose (I.words source.old).faults (I.words source.new).faults }
{
    let mut tally = Tally {
        bytes: 0,
        differs: None,
    };
    let mut follows = false;
    for _round in 0..u64::MAX {
        match replay.read(rt, source)? {
            Some(upcoming) => {
                let step = pass_one(rt, replay, source, watchers, &mut tally, upcoming, follows)?;
                drop(step);
                follows = true;
            }
            None => {
                catch_up(watchers, replay.world())?;
                return Ok(tally);
            }
        }
    }
    Err(Unread::NoMemory)
}

// Tells what came of it, and keeps the history.
fn conclude<R, S: Sink>(
    rt: &R,
    alloc: Global,
    gone: GoneOver,
    no: Option<(u64, u64)>,
    output: &mut S,
    kept: &mut History,
) -> ReplayEnd
    ensures concludes { (count : ℕ) (verdicts : List PlainVerdict) → SaysNoFirst count verdicts no
        → Concludes gone result (plain_entries kept.old.entries) (plain_entries kept.new.entries)
        (S.words output.old).taken (S.words output.new).taken count verdicts }
    ensures later { (S.words output.old).faults ≤ (S.words output.new).faults }
    ensures fault { result ≡ ReplayEnd.WriteFault
        → Rose (S.words output.old).faults (S.words output.new).faults }
{
    let GoneOver { history, tally } = gone;
    let Ok(line) = summary(alloc, history.entries(), tally.bytes) else {
        return ReplayEnd::NoMemory;
    };
    *kept = history;
    if let Some(entry) = tally.differs {
        return ReplayEnd::Differs(entry);
    }
    if let Some((watcher, entry)) = no {
        return ReplayEnd::Objects { watcher, entry };
    }
    if put_all(rt, output, &line) {
        ReplayEnd::Done
    } else {
        ReplayEnd::WriteFault
    }
}

// Goes over a book from its first entry on, and tells what came of it.
fn check_replay<R, I: Source, S: Sink, W: Watcher>(
    rt: &R,
    alloc: Global,
    replay: Replay,
    source: &mut I,
    watchers: &mut Vec<W>,
    output: &mut S,
    kept: &mut History,
) -> ReplayEnd
    ensures ends { (bytes : List ℕ)
        × Gave (I.words source.old).taken (I.words source.new).taken (I.words source.old).left
        (I.words source.new).left
        bytes
        × (seen : List Sight) × (verdicts : List PlainVerdict)
        × ((fed : List ℕ) → IsReplaying fed [] [] replay
        → CheckEnds replay.start.limits result (fed ++ bytes) (I.words source.new).left
        (plain_entries kept.old.entries) (plain_entries kept.new.entries) (S.words output.old).taken
        (S.words output.new).taken (length watchers.old.items) seen verdicts)
        × ((i : ℕ) (w : W) (v : PlainVerdict) (before : List Sight)
        → slice_get watchers.old.items i ≡ Some w → slice_get verdicts i ≡ Some v
        → W.HasSeen w before → IsVerdict (W.Breaks w) (before ++ seen) v) }
    ensures read_later { (I.words source.old).faults ≤ (I.words source.new).faults }
    ensures read { result ≡ ReplayEnd.ReadFault → Rose (I.words source.old).faults
        (I.words source.new).faults }
    ensures write_later { (S.words output.old).faults ≤ (S.words output.new).faults }
    ensures write { result ≡ ReplayEnd.WriteFault
        → Rose (S.words output.old).faults (S.words output.new).faults }
{
    let mut replay = replay;
    match go_over(rt, &mut replay, source, watchers) {
        Ok(tally) => {
            let no = first_no(watchers);
            let history = replay.into_history();
            conclude(rt, alloc, GoneOver { history, tally }, no, output, kept)
        }
        Err(fault) => end_of_unread(fault),
    }
}

/// Plays a book again entry by entry, compares each output that it holds with the one that the
/// entry gives, and shows each step to all watchers, in their order. All of the book is read: a
/// malformed one is told before a difference, and a difference before what a watcher says. Where
/// all is well a line with what was counted is written. The book's history is left in `kept`.
pub fn check<R, I: Source, S: Sink, W: Watcher>(
    rt: &R,
    alloc: Global,
    source: &mut I,
    watchers: &mut Vec<W>,
    output: &mut S,
    kept: &mut History,
) -> ReplayEnd
    ensures ends { (bytes : List ℕ)
        × Gave (I.words source.old).taken (I.words source.new).taken (I.words source.old).left
        (I.words source.new).left
        bytes
        × (seen : List Sight) × (verdicts : List PlainVerdict)
        × CheckEnds usual_limits result bytes (I.words source.new).left
        (plain_entries kept.old.entries)
        (plain_entries kept.new.entries) (S.words output.old).taken (S.words output.new).taken
        (length watchers.old.items) seen verdicts
        × ((i : ℕ) (w : W) (v : PlainVerdict) (before : List Sight)
        → slice_get watchers.old.items i ≡ Some w → slice_get verdicts i ≡ Some v
        → W.HasSeen w before → IsVerdict (W.Breaks w) (before ++ seen) v) }
    ensures read_later { (I.words source.old).faults ≤ (I.words source.new).faults }
    ensures read { result ≡ ReplayEnd.ReadFault → Rose (I.words source.old).faults
        (I.words source.new).faults }
    ensures write_later { (S.words output.old).faults ≤ (S.words output.new).faults }
    ensures write { result ≡ ReplayEnd.WriteFault
        → Rose (S.words output.old).faults (S.words output.new).faults }
{
    match Replay::open(rt, alloc, usual_limits(), source) {
        Ok(replay) => check_replay(rt, alloc, replay, source, watchers, output, kept),
        Err(fault) => end_of_unread(fault),
    }
}
