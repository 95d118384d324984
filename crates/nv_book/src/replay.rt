//! A book that is read and replayed, entry by entry.
ghost use Rattle.std.specs.Prelude.{◌≡◌, ◌+◌, ◌^◌, ◌<◌, ◌≤◌, ℕ, true, List, ◌++◌, length, IfOk, IfSome, OnOk, IsSome, Ok, Err, Some, false};
ghost use Rattle.nv_io.specs.Faults.{Rose};
ghost use Rattle.nv_io.specs.Streams.{Gave};
ghost use Rattle.nv_history.specs.Runs.{run};
ghost use Rattle.nv_core.specs.Contents.{plain_entries, plain_event};
ghost use Rattle.nv_core.specs.Bounds.{IsLightEvent};
ghost use Rattle.nv_world.specs.Worlds.{IsOutboxSize, model_of};
ghost use Rattle.nv_world.specs.declared.step.Step.{Step as PlainStep};
ghost use Rattle.nv_core.specs.declared.start.Start.{Start as PlainStart};
ghost use Rattle.nv_book.specs.Books.{Recorded};
ghost use Rattle.nv_book.specs.Reading.{BeginsReplay, IsReplaying, ReadsBook, Replays};
ghost use Rattle.nv_book.specs.Upcoming.{HasEntered, IsUpcoming, PlaysNext, ReadsNext};
ghost use Rattle.nv_book.specs.inside.Entering.{is_there, Advances, IsEntering, EntersOne, IsStepMade, PlaysEntry};

use crate::faults::Unread;
use crate::headings::Heading;
use crate::intake::Intake;
use crate::parts::{Part, read_end, read_first, read_part};
use crate::pieces::read_output;
use crate::player::{Halt, Player};
use nv_core::{Entry, Event, History, Start};
use nv_io::Source;
use nv_model::Limits;
use nv_value::Bytes;
use nv_world::{Step, World};
use std::alloc::{AllocError, Global};
use std::marker::Model;

/// A book that is replayed in a world of its own, entry by entry, as it is read.
#[derive(Drop)]
pub struct Replay {
    start: Start,
    player: Player,
    intake: Intake,
    // The output of the last entry, as the book has it.
    recorded: Vec<u8>,
}

/// The next entry of a book, which was read and is yet to be played.
#[derive(Drop)]
pub struct Upcoming {
    /// Where its value stands in the book.
    pub place: u64,
    pub heading: Heading,
}

/// A book: what its world begins with, and its history.
#[derive(Drop)]
pub struct Book {
    pub start: Start,
    pub history: History,
}

impl Model for Replay {
    ghost use Rattle.std.specs.Prelude.{◌≡◌, ◌≤◌};
    ghost use Rattle.std.specs.Coded.{codes};
    ghost use Rattle.nv_world.specs.Worlds.{IsOutboxSize, world_code};
    ghost use Rattle.nv_book.specs.Reading.{Replaying};

    ghost Value = { Replaying };

    ghost coded = { Prim.hlevel (codes, world_code) };

    ghost view = { λ r. record {
      start = r.start;
      taken = r.intake.taken;
      stream = r.intake.stream;
      world = r.player.world;
      paintings = r.player.painters.items;
      recorded = r.recorded.items;
      output = r.player.output.items;
    } };

    ghost invariant = { λ r. IsOutboxSize r.start.outbox
        × (1 ≤ r.start.limits.entries) × (r.player.world.capacity ≡ r.start.outbox)
        × (r.player.world.limits ≡ r.start.limits) };
}

// Plays an entry, whose value stands at a place. Answers its session.
fn play_entry<R, S: Source>(
    rt: &R,
    source: &mut S,
    intake: &mut Intake,
    player: &mut Player,
    place: u64,
    caller: u32,
    event: Event,
) -> Result<u64, Unread>
    requires light { IsLightEvent (plain_event event) }
    ensures plays { (bytes : List ℕ)
        × Gave (S.words source.old).taken (S.words source.new).taken (S.words source.old).left
        (S.words source.new).left bytes
        × PlaysEntry bytes (S.words source.new).left place (record {
          caller = caller;
          event = event;
        })
        result intake.old intake.new player.old player.new }
    ensures known { OnOk result (player.old.world.spent ≡ false) }
    ensures begins { (player.new.world.capacity ≡ player.old.world.capacity)
        × (player.new.world.limits ≡ player.old.world.limits) }
    ensures later { (S.words source.old).faults ≤ (S.words source.new).faults }
    ensures fault { result ≡ Err Unread.ReadFault
        → Rose (S.words source.old).faults (S.words source.new).faults }
{
    match player.play(caller, event) {
        Ok(session) => Ok(session),
        Err(Halt::NoMemory) => Err(Unread::NoMemory),
        Err(Halt::Refused) => Err(intake.malformed(rt, source, place)),
    }
}

// The step of the entry that was played last.
fn step_of(player: &Player, at: u64, caller: u32, session: u64) -> Result<Step, AllocError>
    ensures made { IfOk result (IsStepMade at caller session player.now) }
    ensures runs { IsSome (model_of player.now.world) }
{
    let _ = player.world.history();
    let sent = Bytes::from_slice(player.alloc, &player.output)?;
    let splices = player.world.last_splices()?;
    Ok(Step {
        at,
        caller,
        session,
        sent,
        splices,
    })
}

// An entry, whose value stands at a place, is played, and its output is read.
fn enter<R, S: Source>(
    rt: &R,
    source: &mut S,
    intake: &mut Intake,
    player: &mut Player,
    place: u64,
    heading: Heading,
    recorded: &mut Vec<u8>,
) -> Result<Step, Unread>
    requires light { IsLightEvent (plain_event heading.entry.event) }
    ensures goes { (bytes : List ℕ)
        × Gave (S.words source.old).taken (S.words source.new).taken (S.words source.old).left
        (S.words source.new).left bytes
        × ((start : PlainStart) (fed : List ℕ) (records played : List Recorded)
        → IsEntering start fed records played place heading intake.old player.old
        → EntersOne start (fed ++ bytes) (S.words source.new).left records played result intake.new
        player.new recorded.new.items) }
    ensures begins { (player.new.world.capacity ≡ player.old.world.capacity)
        × (player.new.world.limits ≡ player.old.world.limits) }
    ensures enters { IfOk result
        (HasEntered heading.entry player.old.world player.new.world) }
    ensures grows { OnOk result ((length player.old.world.history < 2 ^ 63)
        × (length player.new.world.history ≡ length player.old.world.history + 1)) }
    ensures later { (S.words source.old).faults ≤ (S.words source.new).faults }
    ensures fault { result ≡ Err Unread.ReadFault
        → Rose (S.words source.old).faults (S.words source.new).faults }
{
    let Heading { entry, count } = heading;
    let Entry { caller, event } = entry;
    let at = player.world.history().len() as u64;
    let session = play_entry(rt, source, intake, player, place, caller, event)?;
    read_output(rt, source, intake, count, recorded)?;
    let step = step_of(player, at, caller, session)?;
    Ok(step)
}

// Whether there is a step.
fn is_there(step: Option<Step>) -> bool
    ensures { result ≡ is_there step }
{
    match step {
        Some(_) => true,
        None => false,
    }
}

impl Replay {
    /// Begins to replay the book that is left of a source, in a world with these limits.
    pub fn open<R, S: Source>(
        rt: &R,
        alloc: Global,
        limits: Limits,
        source: &mut S,
    ) -> Result<Replay, Unread>
        requires limits { 1 ≤ limits.entries }
        ensures begins { (bytes : List ℕ)
            × Gave (S.words source.old).taken (S.words source.new).taken (S.words source.old).left
            (S.words source.new).left bytes
            × BeginsReplay limits bytes (S.words source.new).left result }
        ensures later { (S.words source.old).faults ≤ (S.words source.new).faults }
        ensures fault { result ≡ Err Unread.ReadFault
            → Rose (S.words source.old).faults (S.words source.new).faults }
    {
        let mut intake = Intake::new(alloc)?;
        let outbox = read_first(rt, source, &mut intake)?;
        Ok(Replay {
            start: Start { outbox, limits },
            player: Player::new(alloc, limits, outbox)?,
            intake,
            recorded: Vec::new(alloc),
        })
    }

    /// Reads the next entry of the book, which is to be played next. `None` at the end of the book,
    /// where the source was read to its end; so it was where the book is told malformed. Behind an
    /// error or the end nothing more is promised.
    pub fn read<R, S: Source>(&mut self, rt: &R, source: &mut S) -> Result<Option<Upcoming>, Unread>
        ensures goes { (bytes : List ℕ)
            × Gave (S.words source.old).taken (S.words source.new).taken (S.words source.old).left
            (S.words source.new).left bytes
            × ((fed : List ℕ) (records played : List Recorded)
            → IsReplaying fed records played self.old
            → ReadsNext (fed ++ bytes) (S.words source.new).left records played result self.new) }
        ensures light { IfOk result (λ found. IfSome found
            (λ upcoming. IsLightEvent (plain_event upcoming.heading.entry.event))) }
        ensures same { self.new.start ≡ self.old.start }
        ensures world { self.new.world ≡ self.old.world }
        ensures later { (S.words source.old).faults ≤ (S.words source.new).faults }
        ensures fault { result ≡ Err Unread.ReadFault
            → Rose (S.words source.old).faults (S.words source.new).faults }
    {
        let place = self.intake.place();
        match read_part(rt, self.player.alloc, source, &mut self.intake)? {
            Part::Entry(heading) => Ok(Some(Upcoming { place, heading })),
            Part::End(told) => {
                let entries = self.player.world.history().len() as u64;
                read_end(rt, source, &mut self.intake, place, told, entries)?;
                Ok(None)
            }
        }
    }

    /// Plays the entry that was read last, and reads its output.
    pub fn play<R, S: Source>(
        &mut self,
        rt: &R,
        source: &mut S,
        upcoming: Upcoming,
    ) -> Result<Step, Unread>
        requires light { IsLightEvent (plain_event upcoming.heading.entry.event) }
        ensures goes { (bytes : List ℕ)
            × Gave (S.words source.old).taken (S.words source.new).taken (S.words source.old).left
            (S.words source.new).left bytes
            × ((fed : List ℕ) (records played : List Recorded)
            → IsUpcoming fed records played upcoming self.old
            → PlaysNext (fed ++ bytes) (S.words source.new).left records played result self.new) }
        ensures enters { IfOk result
            (HasEntered upcoming.heading.entry self.old.world self.new.world) }
        ensures same { self.new.start ≡ self.old.start }
        ensures grows { OnOk result ((length self.old.world.history < 2 ^ 63)
            × (length self.new.world.history ≡ length self.old.world.history + 1)) }
        ensures later { (S.words source.old).faults ≤ (S.words source.new).faults }
        ensures fault { result ≡ Err Unread.ReadFault
            → Rose (S.words source.old).faults (S.words source.new).faults }
    {
        let Upcoming { place, heading } = upcoming;
        let step = enter(
            rt,
            source,
            &mut self.intake,
            &mut self.player,
            place,
            heading,
            &mut self.recorded,
        )?;
        Ok(step)
    }

    /// Plays the next entry of the book and reads its output. `None` at the end of the book, where
    /// the source was read to its end; so it was where the book is told malformed. Behind an error
    /// or the end nothing more is promised.
    pub fn next<R, S: Source>(&mut self, rt: &R, source: &mut S) -> Result<Option<Step>, Unread>
        ensures goes { (bytes : List ℕ)
            × Gave (S.words source.old).taken (S.words source.new).taken (S.words source.old).left
            (S.words source.new).left bytes
            × ((fed : List ℕ) (records played : List Recorded)
            → IsReplaying fed records played self.old
            → Replays (fed ++ bytes) (S.words source.new).left records played result self.new) }
        ensures same { self.new.start ≡ self.old.start }
        ensures grows { (step : PlainStep) → result ≡ Ok (Some step)
            → (length self.old.world.history < 2 ^ 63)
            × (length self.new.world.history ≡ length self.old.world.history + 1) }
        ensures later { (S.words source.old).faults ≤ (S.words source.new).faults }
        ensures fault { result ≡ Err Unread.ReadFault
            → Rose (S.words source.old).faults (S.words source.new).faults }
    {
        match self.read(rt, source)? {
            Some(upcoming) => {
                let step = self.play(rt, source, upcoming)?;
                Ok(Some(step))
            }
            None => Ok(None),
        }
    }

    // Plays the next entry. `false` at the end of the book.
    fn advance<R, S: Source>(&mut self, rt: &R, source: &mut S) -> Result<bool, Unread>
        ensures goes { (bytes : List ℕ)
            × Gave (S.words source.old).taken (S.words source.new).taken (S.words source.old).left
            (S.words source.new).left bytes
            × ((fed : List ℕ) (records played : List Recorded)
            → IsReplaying fed records played self.old
            → Advances (fed ++ bytes) (S.words source.new).left result self.new) }
        ensures same { self.new.start ≡ self.old.start }
        ensures grows { result ≡ Ok true → (length self.old.world.history < 2 ^ 63)
            × (length self.new.world.history ≡ length self.old.world.history + 1) }
        ensures later { (S.words source.old).faults ≤ (S.words source.new).faults }
        ensures fault { result ≡ Err Unread.ReadFault
            → Rose (S.words source.old).faults (S.words source.new).faults }
    {
        let step = self.next(rt, source)?;
        Ok(is_there(step))
    }

    /// The output of the last entry, as the book has it.
    pub fn recorded(&self) -> &[u8]
        ensures { result.now ≡ self.now.recorded }
    {
        self.recorded.as_slice()
    }

    /// The world once the entries so far have entered.
    pub fn world(&self) -> &World
        ensures { result.now ≡ self.now.world }
    {
        &self.player.world
    }

    /// What the world begins with.
    pub fn start(&self) -> Start
        ensures start { result ≡ self.now.start }
        ensures outbox { IsOutboxSize result.outbox }
        ensures entries { 1 ≤ result.limits.entries }
    {
        self.start
    }

    /// The history of the entries so far, taken out.
    pub fn into_history(self) -> History
        ensures history { result.entries ≡ self.world.history }
        ensures runs { IsSome (run self.start.outbox self.start.limits
            (plain_entries result.entries)) }
    {
        self.player.world.into_history()
    }
}

/// All of the book that is left of a source, whose history runs in a world with these limits. The
/// source is read to its end, also where the book is told malformed.
pub fn read_book<R, S: Source>(
    rt: &R,
    alloc: Global,
    limits: Limits,
    source: &mut S,
) -> Result<Book, Unread>
    requires limits { 1 ≤ limits.entries }
    ensures reads { (bytes : List ℕ)
        × Gave (S.words source.old).taken (S.words source.new).taken (S.words source.old).left
        (S.words source.new).left bytes
        × ReadsBook limits bytes (S.words source.new).left result }
    ensures outbox { IfOk result (λ book. IsOutboxSize book.start.outbox) }
    ensures later { (S.words source.old).faults ≤ (S.words source.new).faults }
    ensures fault { result ≡ Err Unread.ReadFault
        → Rose (S.words source.old).faults (S.words source.new).faults }
{
    let mut replay = Replay::open(rt, alloc, limits, source)?;
    while replay.advance(rt, source)? {}
    Ok(Book {
        start: replay.start(),
        history: replay.into_history(),
    })
}
