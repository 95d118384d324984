//! Books, and replays of them, written entry by entry.
ghost use Rattle.std.specs.Prelude.{◌≡◌, ◌≤◌, ◌<◌, ◌++◌, ◌^◌, ℕ, [], length, drop, take, map, IfErr, IfOk, IsSome, OnErr, OnOk, Err, Ok, Some, false, true};
ghost use Rattle.std.specs.Io.KnownBytes.{append_known};
ghost use Rattle.nv_io.specs.Faults.{Rose};
ghost use Rattle.nv_value.specs.View.{content};
ghost use Rattle.nv_msgpack.specs.Shortest.{HasSpelling, shortest};
ghost use Rattle.nv_args.specs.Weight.{weight};
ghost use Rattle.nv_history.specs.Runs.{run};
ghost use Rattle.nv_history.specs.Worlds.{World as ModelWorld, step, world_made};
ghost use Rattle.nv_core.specs.Contents.{plain_entries, plain_entry, plain_event};
ghost use Rattle.nv_core.specs.Bounds.{IsLightEvent};
ghost use Rattle.nv_world.specs.Worlds.{IsOutboxSize, model_of};
ghost use Rattle.nv_book.specs.Books.{IsFitEntry, IsFitValue, most_value, output_pieces, shortest_of_all};
ghost use Rattle.nv_book.specs.Outputs.{session_named};
ghost use Rattle.nv_book.specs.Writing.{IsUnfitAt, WroteBook, WroteBookFront, WroteReplay, WroteReplayFront};
ghost use Rattle.nv_book.specs.inside.Playing.{PlaysOne};
ghost use Rattle.nv_book.specs.inside.Steps.{StopsOne, WritesOne, WentOut, WentOutInPart, head_trees, piece_tree, trees_of_record};

use crate::copying::copy_of_event;
use crate::faults::BookFault;
use crate::fitness::is_tellable;
use crate::form::Form;
use crate::player::{Halt, Player, session_named};
use crate::values::{book_end, book_head, entry_head, numbered_piece, piece};
use nv_core::{Entry, Event, History, Start};
use nv_io::{Sink, put_all};
use nv_msgpack::encode;
use nv_value::Value;
use std::alloc::{AllocError, Global};

/// The most bytes of a piece of an output.
const PIECE: usize = 1_048_576;

/// The most lists and maps one in another in a book.
const DEPTH: u32 = 64;

/// The most bytes of a value of a book.
const MOST: usize = 67_109_120;

// Whether a value can be written, so that it can be read again. `room` is memory to try it in.
fn is_fit_value(value: &Value, room: &mut Vec<u8>) -> Result<bool, AllocError>
    ensures fit { result ≡ Ok true → IsFitValue (content value.now) }
    ensures unfit { result ≡ Ok false → IsFitValue (content value.now) → ⊥ }
    ensures light { result ≡ Ok true → weight (content value.now) ≤ most_value }
{
    if !is_tellable(value, DEPTH) {
        return Ok(false);
    }
    room.clear();
    encode(value, room)?;
    Ok(room.len() <= MOST)
}

// Whether an entry can.
fn is_fit(alloc: Global, entry: &Entry, room: &mut Vec<u8>) -> Result<bool, AllocError>
    ensures fit { result ≡ Ok true → IsFitEntry (plain_entry entry.now) }
    ensures unfit { result ≡ Ok false → IsFitEntry (plain_entry entry.now) → ⊥ }
    ensures light { result ≡ Ok true → IsLightEvent (plain_event entry.now.event) }
{
    let head = entry_head(alloc, entry, 0)?;
    is_fit_value(&head, room)
}

// The event of an entry, to be played.
fn fit_event(alloc: Global, at: u64, entry: &Entry, room: &mut Vec<u8>) -> Result<Event, BookFault>
    ensures fit { OnOk result (IsFitEntry (plain_entry entry.now)) }
    ensures light { IfOk result (λ event. IsLightEvent (plain_event event)) }
    ensures event { IfOk result (λ event. plain_event event ≡ plain_event entry.now.event) }
    ensures unfit { (n : ℕ) → result ≡ Err (BookFault.Unfit n)
        → (n ≡ at) × (IsFitEntry (plain_entry entry.now) → ⊥) }
    ensures no_write { result ≡ Err BookFault.WriteFault → ⊥ }
{
    if !is_fit(alloc, entry, room)? {
        return Err(BookFault::Unfit(at));
    }
    Ok(copy_of_event(alloc, &entry.event)?)
}

// A piece of an output as it is written.
fn piece_value(
    alloc: Global,
    form: Form,
    at: u64,
    session: u64,
    bytes: &[u8],
) -> Result<Value, AllocError>
    ensures { IfOk result (λ v. content v ≡ piece_tree form at session bytes.now) }
{
    match form {
        Form::Book => piece(alloc, bytes),
        Form::Outputs => numbered_piece(alloc, at, session, bytes),
    }
}

// Puts a piece of an output behind what `room` holds.
fn spell_piece(
    alloc: Global,
    form: Form,
    at: u64,
    session: u64,
    bytes: &[u8],
    room: &mut Vec<u8>,
) -> Result<(), AllocError>
    requires { length bytes.now ≤ PIECE }
    ensures { OnOk result (room.new.items ≡ room.old.items
        ++ shortest (piece_tree form at session bytes.now)) }
{
    let value = piece_value(alloc, form, at, session, bytes)?;
    encode(&value, room)
}

// Puts an output in pieces behind what `room` holds.
fn spell_output(
    alloc: Global,
    form: Form,
    at: u64,
    session: u64,
    output: &[u8],
    room: &mut Vec<u8>,
) -> Result<(), AllocError>
    ensures { OnOk result (room.new.items ≡ room.old.items
        ++ shortest_of_all (map (piece_tree form at session) (output_pieces output.now))) }
{
    let mut rest = output;
    while rest.len() > 0 {
        let (first, others) = rest.split_at(rest.len().min(PIECE));
        spell_piece(alloc, form, at, session, first, room)?;
        rest = others;
    }
    Ok(())
}

// How many pieces an output is.
fn count_of(output: &[u8]) -> u64
    ensures { result ≡ length (output_pieces output.now) }
{
    (output.len() as u64 + 1_048_575) / 1_048_576
}

// Puts what tells of an entry in place of what `room` held, where that is written.
fn spell_head(
    alloc: Global,
    form: Form,
    entry: &Entry,
    output: &[u8],
    room: &mut Vec<u8>,
) -> Result<(), AllocError>
    requires fit { IsFitEntry (plain_entry entry.now) }
    ensures { OnOk result (room.new.items ≡ shortest_of_all (head_trees form (plain_entry entry.now)
        (length (output_pieces output.now)))) }
{
    room.clear();
    match form {
        Form::Book => {
            let head = entry_head(alloc, entry, count_of(output))?;
            encode(&head, room)
        }
        Form::Outputs => Ok(()),
    }
}

// Puts what is written of an entry in place of what `room` held.
fn spell_entry(
    alloc: Global,
    form: Form,
    at: u64,
    entry: &Entry,
    output: &[u8],
    room: &mut Vec<u8>,
) -> Result<(), AllocError>
    requires fit { IsFitEntry (plain_entry entry.now) }
    ensures { OnOk result (room.new.items ≡ shortest_of_all (trees_of_record form at
        (record { entry = plain_entry entry.now; output = output.now }))) }
{
    spell_head(alloc, form, entry, output, room)?;
    spell_output(alloc, form, at, session_named(&entry.event), output, room)
}

// Writes all that `room` holds.
fn put<R, S: Sink>(rt: &R, room: &[u8], sink: &mut S) -> Result<(), BookFault>
    ensures ok { OnOk result ((S.words sink.new).taken ≡ append_known
        (S.words sink.old).taken room.now) }
    ensures err { IfErr result (λ fault. (fault ≡ BookFault.WriteFault) × ((n : ℕ)
        × ((S.words sink.new).taken ≡ append_known (S.words sink.old).taken (take n room.now)))) }
    ensures later { (S.words sink.old).faults ≤ (S.words sink.new).faults }
    ensures fault { result ≡ Err BookFault.WriteFault
        → Rose (S.words sink.old).faults (S.words sink.new).faults }
{
    if put_all(rt, sink, room) {
        Ok(())
    } else {
        Err(BookFault::WriteFault)
    }
}

// Plays the entry of this number. It enters.
fn play_entry(player: &mut Player, entry: &Entry, event: Event) -> Result<(), BookFault>
    requires light { IsLightEvent (plain_event event) }
    requires event { plain_event event ≡ plain_event entry.now.event }
    requires enters { (w : ModelWorld) → model_of player.old.world ≡ Some w
        → IsSome (world_made (step w (plain_event entry.now.event))) }
    requires runs { IsSome (model_of player.old.world) }
    ensures plays { OnOk result (PlaysOne player.old.world player.old.painters.items
        (plain_event entry.now.event) player.new.output.items player.new.world
        player.new.painters.items) }
    ensures err { IfErr result (λ fault. fault ≡ BookFault.NoMemory) }
{
    match player.play(entry.caller, event) {
        Ok(_) => Ok(()),
        Err(Halt::NoMemory) => Err(BookFault::NoMemory),
        Err(Halt::Refused) => unreachable!(),
    }
}

// Plays and writes the entry of this number.
fn write_entry<R, S: Sink>(
    rt: &R,
    player: &mut Player,
    form: Form,
    at: u64,
    entry: &Entry,
    room: &mut Vec<u8>,
    sink: &mut S,
) -> Result<(), BookFault>
    requires enters { (w : ModelWorld) → model_of player.old.world ≡ Some w
        → IsSome (world_made (step w (plain_event entry.now.event))) }
    requires runs { IsSome (model_of player.old.world) }
    ensures ok { OnOk result (WritesOne form at (plain_entry entry.now) player.old.world
        player.old.painters.items player.new.world player.new.painters.items
        (S.words sink.old).taken (S.words sink.new).taken) }
    ensures err { IfErr result (λ fault. StopsOne form at (plain_entry entry.now) fault
        player.old.world player.old.painters.items player.new.world player.new.painters.items
        (S.words sink.old).taken (S.words sink.new).taken) }
    ensures later { (S.words sink.old).faults ≤ (S.words sink.new).faults }
    ensures fault { result ≡ Err BookFault.WriteFault
        → Rose (S.words sink.old).faults (S.words sink.new).faults }
{
    let alloc = player.alloc;
    let event = fit_event(alloc, at, entry, room)?;
    play_entry(player, entry, event)?;
    spell_entry(alloc, form, at, entry, &player.output, room)?;
    put(rt, room, sink)
}

// Plays and writes all entries of a history, from a fresh world on.
fn write_entries<R, S: Sink>(
    rt: &R,
    alloc: Global,
    start: Start,
    form: Form,
    entries: &[Entry],
    sink: &mut S,
) -> Result<(), BookFault>
    requires outbox { IsOutboxSize start.outbox }
    requires limits { 1 ≤ start.limits.entries }
    requires runs { IsSome (run start.outbox start.limits (plain_entries entries.now)) }
    ensures ok { OnOk result (WentOut start form (plain_entries entries.now)
        (S.words sink.old).taken (S.words sink.new).taken) }
    ensures err { OnErr result (WentOutInPart start form (plain_entries entries.now)
        (S.words sink.old).taken (S.words sink.new).taken) }
    ensures unfit { (n : ℕ) → result ≡ Err (BookFault.Unfit n)
        → IsUnfitAt (plain_entries entries.now) n }
    ensures later { (S.words sink.old).faults ≤ (S.words sink.new).faults }
    ensures fault { result ≡ Err BookFault.WriteFault
        → Rose (S.words sink.old).faults (S.words sink.new).faults }
{
    let mut player = Player::new(alloc, start.limits, start.outbox)?;
    let mut room = Vec::new(alloc);
    let mut at = 0;
    for entry in entries {
        write_entry(rt, &mut player, form, at, entry, &mut room, sink)?;
        at += 1;
    }
    Ok(())
}

// Writes one value.
fn put_value<R, S: Sink>(
    rt: &R,
    alloc: Global,
    value: &Value,
    sink: &mut S,
) -> Result<(), BookFault>
    requires { HasSpelling (content value.now) }
    ensures ok { OnOk result ((S.words sink.new).taken
        ≡ append_known (S.words sink.old).taken (shortest (content value.now))) }
    ensures err { OnErr result ((n : ℕ) × ((S.words sink.new).taken
        ≡ append_known (S.words sink.old).taken (take n (shortest (content value.now))))) }
    ensures no_unfit { (n : ℕ) → result ≡ Err (BookFault.Unfit n) → ⊥ }
    ensures later { (S.words sink.old).faults ≤ (S.words sink.new).faults }
    ensures fault { result ≡ Err BookFault.WriteFault
        → Rose (S.words sink.old).faults (S.words sink.new).faults }
{
    let mut room = Vec::new(alloc);
    encode(value, &mut room)?;
    put(rt, &room, sink)
}

/// Writes the book of a history: its first value; each entry, and then the output of a take, in
/// pieces; and how many entries there are. The history is gone over in a world of its own, entry by
/// entry, and no more than one entry with its output is spelled at a time.
///
/// With an error a prefix of the book was written. `Unfit` comes only of an entry that no book can
/// have.
pub fn write_book<R, S: Sink>(
    rt: &R,
    alloc: Global,
    start: Start,
    history: &History,
    sink: &mut S,
) -> Result<(), BookFault>
    requires outbox { IsOutboxSize start.outbox }
    requires limits { 1 ≤ start.limits.entries }
    requires runs { IsSome (run start.outbox start.limits (plain_entries history.now.entries)) }
    ensures ok { OnOk result (WroteBook start (plain_entries history.now.entries)
        (S.words sink.old).taken (S.words sink.new).taken) }
    ensures err { OnErr result (WroteBookFront start (plain_entries history.now.entries)
        (S.words sink.old).taken (S.words sink.new).taken) }
    ensures unfit { (n : ℕ) → result ≡ Err (BookFault.Unfit n)
        → IsUnfitAt (plain_entries history.now.entries) n }
    ensures later { (S.words sink.old).faults ≤ (S.words sink.new).faults }
    ensures fault { result ≡ Err BookFault.WriteFault
        → Rose (S.words sink.old).faults (S.words sink.new).faults }
{
    let head = book_head(alloc, start.outbox)?;
    put_value(rt, alloc, &head, sink)?;
    write_entries(rt, alloc, start, Form::Book, history.entries(), sink)?;
    let end = book_end(alloc, history.len() as u64)?;
    put_value(rt, alloc, &end, sink)
}

/// Writes the outputs of the takes of a history, each piece of them with the number of its entry
/// and its session. With an error a prefix of them was written.
pub fn write_replay<R, S: Sink>(
    rt: &R,
    alloc: Global,
    start: Start,
    history: &History,
    sink: &mut S,
) -> Result<(), BookFault>
    requires outbox { IsOutboxSize start.outbox }
    requires limits { 1 ≤ start.limits.entries }
    requires runs { IsSome (run start.outbox start.limits (plain_entries history.now.entries)) }
    ensures ok { OnOk result (WroteReplay start (plain_entries history.now.entries)
        (S.words sink.old).taken (S.words sink.new).taken) }
    ensures err { OnErr result (WroteReplayFront start (plain_entries history.now.entries)
        (S.words sink.old).taken (S.words sink.new).taken) }
    ensures unfit { (n : ℕ) → result ≡ Err (BookFault.Unfit n)
        → IsUnfitAt (plain_entries history.now.entries) n }
    ensures later { (S.words sink.old).faults ≤ (S.words sink.new).faults }
    ensures fault { result ≡ Err BookFault.WriteFault
        → Rose (S.words sink.old).faults (S.words sink.new).faults }
{
    write_entries(rt, alloc, start, Form::Outputs, history.entries(), sink)
}
