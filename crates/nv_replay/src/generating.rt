//! Books that are written: of a history, and of the script of a number.
ghost use Rattle.std.specs.Prelude.{◌≡◌, ◌≤◌, IfOk, IsSome, OnOk};
ghost use Rattle.nv_io.specs.Faults.{Rose};
ghost use Rattle.nv_history.specs.Runs.{run};
ghost use Rattle.nv_history.specs.Worlds.{fresh_world};
ghost use Rattle.nv_core.specs.Contents.{plain_entries, plain_entry, plain_event};
ghost use Rattle.nv_core.specs.Bounds.{IsLightEvent};
ghost use Rattle.nv_world.specs.Worlds.{IsOutboxSize};
ghost use Rattle.nv_gen.specs.Story.{script_of};
ghost use Rattle.nv_replay.specs.Ends.{WriteEnds, start_within};
ghost use Rattle.nv_replay.specs.Entering.{entered};
ghost use Rattle.nv_replay.specs.inside.Offering.{Offers};

use crate::ending::WriteEnd;
use nv_book::{BookFault, write_book};
use nv_core::{Entry, History, Start, Stop};
use nv_gen::script;
use nv_io::Sink;
use nv_model::Limits;
use nv_world::World;
use std::alloc::{AllocError, Global};

/// Writes the book of a history, with the outputs of its takes. Want of memory is told, too, where
/// the history has an entry that no book can have; a program can bring such, and no connection.
pub fn keep_book<R, S: Sink>(
    rt: &R,
    alloc: Global,
    start: Start,
    history: &History,
    sink: &mut S,
) -> WriteEnd
    requires outbox { IsOutboxSize start.outbox }
    requires limits { 1 ≤ start.limits.entries }
    requires runs { IsSome (run start.outbox start.limits (plain_entries history.now.entries)) }
    ensures ends { WriteEnds start result (plain_entries history.now.entries)
        (S.words sink.old).taken
        (S.words sink.new).taken }
    ensures later { (S.words sink.old).faults ≤ (S.words sink.new).faults }
    ensures fault { result ≡ WriteEnd.WriteFault → Rose (S.words sink.old).faults
        (S.words sink.new).faults }
{
    match write_book(rt, alloc, start, history, sink) {
        Ok(()) => WriteEnd::Done,
        Err(BookFault::WriteFault) => WriteEnd::WriteFault,
        Err(BookFault::NoMemory | BookFault::Unfit(_)) => WriteEnd::NoMemory,
    }
}

// Whether an event is refused for another cause than want of memory.
fn unless_want(stop: Stop) -> Result<(), AllocError>
    ensures { OnOk result (stop ≡ Stop.NoMemory → ⊥) }
{
    match stop {
        Stop::NoMemory => Err(AllocError),
        Stop::Stranger(_) | Stop::Gone(_) | Stop::Held(_) => Ok(()),
    }
}

// Offers an entry to a world. One that is refused or idle leaves the world as it was.
fn offer(world: &mut World, entry: Entry) -> Result<(), AllocError>
    requires light { IsLightEvent (plain_event entry.event) }
    ensures { OnOk result (Offers (plain_entry entry) world.old world.new) }
{
    let Entry { caller, event } = entry;
    match world.apply(caller, event) {
        Ok(_) => Ok(()),
        Err((_, stop)) => unless_want(stop),
    }
}

// The history that the script of a number makes in a fresh world.
fn history_of_script(
    alloc: Global,
    limits: Limits,
    outbox: u32,
    number: u64,
) -> Result<History, AllocError>
    requires limits { 1 ≤ limits.entries }
    requires outbox { IsOutboxSize outbox }
    ensures entered { IfOk result (λ history. plain_entries history.entries
        ≡ entered (fresh_world outbox limits) (script_of number)) }
    ensures runs { IfOk result (λ history.
        IsSome (run outbox limits (plain_entries history.entries))) }
{
    let mut world = World::new(alloc, limits, outbox)?;
    for entry in script(alloc, number)? {
        offer(&mut world, entry)?;
    }
    Ok(world.into_history())
}

/// Writes the book of the script of a number: of those entries of it that enter a fresh world whose
/// outboxes hold so many messages.
pub fn generate<R, S: Sink>(
    rt: &R,
    alloc: Global,
    limits: Limits,
    outbox: u32,
    number: u64,
    output: &mut S,
) -> WriteEnd
    requires limits { 1 ≤ limits.entries }
    requires outbox { IsOutboxSize outbox }
    ensures ends { WriteEnds (start_within outbox limits) result
        (entered (fresh_world outbox limits) (script_of number)) (S.words output.old).taken
        (S.words output.new).taken }
    ensures later { (S.words output.old).faults ≤ (S.words output.new).faults }
    ensures fault { result ≡ WriteEnd.WriteFault
        → Rose (S.words output.old).faults (S.words output.new).faults }
{
    match history_of_script(alloc, limits, outbox, number) {
        Ok(history) => keep_book(rt, alloc, Start { outbox, limits }, &history, output),
        Err(_) => WriteEnd::NoMemory,
    }
}
