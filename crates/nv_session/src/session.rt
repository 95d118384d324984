//! One session alone: its bytes are read piece by piece, and each call in them is answered before
//! the next.
ghost use Rattle.std.specs.Prelude.{◌≡◌, ◌⊎◌, ℕ, ◌^◌, ◌<◌, ◌≤◌, ◌++◌, List, Option, [], ◌∷◌, All, OnOk, IfOk, IfErr, Err, Some};
ghost use Rattle.std.specs.Io.KnownBytes.{IsAtEnd};
ghost use Rattle.nv_io.specs.Faults.{Rose};
ghost use Rattle.nv_io.specs.Streams.{GaveEach};
ghost use Rattle.nv_io.specs.declared.lanes.Flaw.{Flaw};
ghost use Rattle.nv_rpc.specs.Frames.{call_of_frame};
ghost use Rattle.nv_rpc.specs.Messages.{IsSendable};
ghost use Rattle.nv_painter.specs.Spoken.{IsSoundIfThere};
ghost use Rattle.nv_history.specs.Spoken.{told_with};
ghost use Rattle.nv_core.specs.Contents.{plain_entries};
ghost use Rattle.nv_speech.specs.Flows.{FlowsOut, IsFrontOut, bytes_said, sent_in};
ghost use Rattle.nv_core.specs.Bounds.{IsLightCall};
ghost use Rattle.nv_world.specs.Worlds.{WorldRecord, start_of};
ghost use Rattle.nv_calls.specs.Reading.{EndsAt, IsUnfinished};
ghost use Rattle.nv_calls.specs.Intakes.{WantsMore, came};
ghost use Rattle.nv_session.specs.Ends.{SessionEnds};
ghost use Rattle.nv_session.specs.Sending.{HasSession};
ghost use Rattle.nv_session.specs.inside.Alone.{IsAlone};
ghost use Rattle.nv_session.specs.inside.Leaving.{LeavesWith, IsClosedSo, leaves_open};
ghost use Rattle.nv_session.specs.inside.Serving.{IsUnusedSession, IsReady, IsNew, CutsShort, AnswersOne, FlowsBy, StepsOn, Serves, TakesPiece, Turns, bytes_waiting, end_by_fault, end_by_flaw, ended_unsaid, state_of};
ghost use Rattle.nv_session.specs.inside.Worlds.{entries_in};

use crate::asking::{answer, close, ended, open};
use nv_calls::{Intake, NextCall, Unfed};
use nv_core::Batch;
use nv_io::{Ended, Sink, Source, put_all};
use nv_painter::Painter;
use nv_rpc::Frame;
use nv_speech::{Unsaid, say};
use nv_world::World;
use std::alloc::{AllocError, Global};

// The bytes that may wait before their memory grows: so many that no batch is measured for room.
// The system gives memory for a block of this size only as far as it is written.
const ROOM: usize = 1 << 25;

// Room in which nothing waits: long, where there is memory for it.
fn long_room(alloc: Global) -> Vec<u8>
    ensures { result.items ≡ [] }
{
    let mut room = Vec::new(alloc);
    let _ = room.reserve(ROOM);
    room
}

/// One session over a stream of bytes, whose world is lent to it call by call.
#[derive(Drop)]
pub struct Session {
    alloc: Global,
    intake: Intake,
    // What its client was told of the screen.
    painter: Painter,
    // The bytes of what it answered that wait to be written.
    room: Vec<u8>,
}

impl Session {
    // A session to which no byte has come.
    fn new(alloc: Global) -> Result<Session, AllocError>
        ensures { IfOk result IsUnusedSession }
    {
        Ok(Session {
            alloc,
            intake: Intake::new(alloc)?,
            painter: Painter::new(alloc)?,
            room: long_room(alloc),
        })
    }

    // How it ends where no more bytes come.
    fn end(&self) -> Ended
        requires live { self.now.intake.flaw ≡ None }
        requires waits { WantsMore self.now.intake }
        ensures { (flaw : Option Flaw) × (result ≡ end_by_flaw flaw) × IsUnfinished flaw
            × EndsAt self.now.intake.number self.now.intake.place self.now.intake.held flaw }
    {
        match self.intake.end() {
            None => Ended::Closed,
            Some(flaw) => Ended::Malformed(flaw),
        }
    }

    // Puts the bytes of a batch behind what waits, and writes what becomes many. Where that fails
    // nothing waits any more.
    fn put<R, S: Sink>(&mut self, rt: &R, batch: Batch, output: &mut S) -> Result<(), Ended>
        requires sendable { All IsSendable (sent_in batch) }
        requires sound { IsSoundIfThere batch.scene }
        ensures ok { OnOk result (FlowsOut (S.words output.old).taken (S.words output.new).taken
            (bytes_waiting self.old) (bytes_said self.old.painter.told (sent_in batch) batch.scene)
            (bytes_waiting self.new)) }
        ensures told { OnOk result (self.new.painter.told
            ≡ told_with self.old.painter.told batch.scene) }
        ensures err { IfErr result (λ ended. CutsShort ended × (bytes_waiting self.new ≡ [])
            × IsFrontOut (S.words output.old).taken (S.words output.new).taken
            (bytes_waiting self.old
            ++ bytes_said self.old.painter.told (sent_in batch) batch.scene)) }
        ensures intake { self.new.intake ≡ self.old.intake }
        ensures later { (S.words output.old).faults ≤ (S.words output.new).faults }
        ensures fault { result ≡ Err Ended.WriteFault
            → Rose (S.words output.old).faults (S.words output.new).faults }
    {
        match say(
            rt,
            self.alloc,
            batch,
            &mut self.painter,
            &mut self.room,
            output,
        ) {
            Ok(()) => Ok(()),
            Err(why) => {
                self.room.clear();
                Err(end_unsaid(why))
            }
        }
    }

    // Answers a call. What it makes due waits to be written, behind what waits already.
    fn answer_call<R, S: Sink>(
        &mut self,
        rt: &R,
        world: &mut World,
        call: Frame,
        output: &mut S,
    ) -> Result<(), Ended>
        requires light { IsLightCall (call_of_frame call) }
        requires alone { IsAlone (start_of world.old) (entries_in world.old) }
        ensures answers { (added : List ℕ)
            × AnswersOne result (call_of_frame call) (state_of self.old world.old)
            (state_of self.new world.new) added
            × FlowsBy result (S.words output.old).taken (S.words output.new).taken
            (bytes_waiting self.old)
            added (bytes_waiting self.new) }
        ensures begins { start_of world.new ≡ start_of world.old }
        ensures later { (S.words output.old).faults ≤ (S.words output.new).faults }
        ensures fault { result ≡ Err Ended.WriteFault
            → Rose (S.words output.old).faults (S.words output.new).faults }
        ensures no_read { result ≡ Err Ended.ReadFault → ⊥ }
    {
        let Ok(batch) = answer(self.alloc, world, call) else {
            return Err(Ended::NoMemory);
        };
        self.put(rt, batch, output)?;
        match ended(world) {
            None => Ok(()),
            Some(ended) => Err(ended),
        }
    }

    // Answers the next call of what it holds. `false` where that needs more bytes.
    fn step<R, S: Sink>(&mut self, rt: &R, world: &mut World, output: &mut S) -> Result<bool, Ended>
        requires ready { IsReady (state_of self.old world.old) }
        ensures steps { (added : List ℕ)
            × StepsOn result (state_of self.old world.old) (state_of self.new world.new)
            (Some []) (Some added)
            × FlowsBy result (S.words output.old).taken (S.words output.new).taken
            (bytes_waiting self.old)
            added (bytes_waiting self.new) }
        ensures begins { start_of world.new ≡ start_of world.old }
        ensures later { (S.words output.old).faults ≤ (S.words output.new).faults }
        ensures fault { result ≡ Err Ended.WriteFault
            → Rose (S.words output.old).faults (S.words output.new).faults }
        ensures no_read { result ≡ Err Ended.ReadFault → ⊥ }
    {
        let Ok(next) = self.intake.next() else {
            return Err(Ended::NoMemory);
        };
        match next {
            NextCall::Call(call) => {
                self.answer_call(rt, world, call, output)?;
                Ok(true)
            }
            NextCall::More => Ok(false),
            NextCall::Flaw(flaw) => Err(Ended::Malformed(flaw)),
        }
    }

    // Answers the calls of what it holds, one after another.
    fn answer_held<R, S: Sink>(
        &mut self,
        rt: &R,
        world: &mut World,
        output: &mut S,
    ) -> Result<(), Ended>
        requires ready { IsReady (state_of self.old world.old) }
        requires nothing_waits { bytes_waiting self.old ≡ [] }
        ensures serves { (added : List ℕ)
            × Serves ⊥ result self.old.intake.held (state_of self.old world.old)
            (state_of self.new world.new) (Some []) (Some added)
            × FlowsBy result (S.words output.old).taken (S.words output.new).taken [] added
            (bytes_waiting self.new) }
        ensures begins { start_of world.new ≡ start_of world.old }
        ensures later { (S.words output.old).faults ≤ (S.words output.new).faults }
        ensures fault { result ≡ Err Ended.WriteFault
            → Rose (S.words output.old).faults (S.words output.new).faults }
        ensures no_read { result ≡ Err Ended.ReadFault → ⊥ }
    {
        while self.step(rt, world, output)? {}
        Ok(())
    }

    // Answers the calls of what it holds, and writes what waits then, whatever came of them.
    fn serve_held<R, S: Sink>(
        &mut self,
        rt: &R,
        world: &mut World,
        output: &mut S,
    ) -> Result<(), Ended>
        requires ready { IsReady (state_of self.old world.old) }
        requires nothing_waits { bytes_waiting self.old ≡ [] }
        ensures serves { Serves ⊥ result self.old.intake.held (state_of self.old world.old)
            (state_of self.new world.new) (S.words output.old).taken (S.words output.new).taken }
        ensures nothing_waits { bytes_waiting self.new ≡ [] }
        ensures begins { start_of world.new ≡ start_of world.old }
        ensures later { (S.words output.old).faults ≤ (S.words output.new).faults }
        ensures fault { result ≡ Err Ended.WriteFault
            → Rose (S.words output.old).faults (S.words output.new).faults }
        ensures no_read { result ≡ Err Ended.ReadFault → ⊥ }
    {
        let answered = self.answer_held(rt, world, output);
        if put_all(rt, output, &self.room) {
            self.room.clear();
            return answered;
        }
        self.room.clear();
        match answered {
            Ok(()) => Err(Ended::WriteFault),
            Err(ended) => Err(end_by_fault(ended)),
        }
    }

    // Takes the next piece of its bytes from `input`, by one read; in whichever world it stands.
    fn take_piece<R, I: Source>(&mut self, rt: &R, input: &mut I) -> Result<(), Ended>
        requires live { self.old.intake.flaw ≡ None }
        requires waits { WantsMore self.old.intake }
        requires open { came self.old.intake < 2 ^ 62 }
        ensures takes { (piece : List ℕ)
            × GaveEach (I.words input.old)
            (I.words input.new) (piece ∷ [])
            × ((world : WorldRecord) → IsReady (state_of self.old world)
            → TakesPiece (IsAtEnd (I.words input.new).left) result piece (state_of self.old world)
            (state_of self.new world)) }
        ensures waiting { bytes_waiting self.new ≡ bytes_waiting self.old }
        ensures later { (I.words input.old).faults ≤ (I.words input.new).faults }
        ensures fault { result ≡ Err Ended.ReadFault
            → Rose (I.words input.old).faults (I.words input.new).faults }
        ensures no_write { result ≡ Err Ended.WriteFault → ⊥ }
    {
        match self.intake.read(rt, input) {
            Ok(()) => Ok(()),
            Err(why) => match why {
                Unfed::End => Err(self.end()),
                Unfed::Failed => Err(Ended::ReadFault),
                Unfed::NoMemory => Err(Ended::NoMemory),
            },
        }
    }

    // Takes a piece and answers the calls that are whole by it. Before it ends, all that they made
    // due was written.
    fn turn<R, I: Source, S: Sink>(
        &mut self,
        rt: &R,
        world: &mut World,
        input: &mut I,
        output: &mut S,
    ) -> Result<(), Ended>
        requires ready { IsReady (state_of self.old world.old) }
        requires waits { WantsMore self.old.intake }
        requires open { came self.old.intake < 2 ^ 62 }
        requires nothing_waits { bytes_waiting self.old ≡ [] }
        ensures turns { (piece : List ℕ)
            × GaveEach (I.words input.old)
            (I.words input.new) (piece ∷ [])
            × Turns (IsAtEnd (I.words input.new).left) result piece (state_of self.old world.old)
            (state_of self.new world.new) (S.words output.old).taken (S.words output.new).taken }
        ensures nothing_waits { bytes_waiting self.new ≡ [] }
        ensures begins { start_of world.new ≡ start_of world.old }
        ensures read_later { (I.words input.old).faults ≤ (I.words input.new).faults }
        ensures read_fault { result ≡ Err Ended.ReadFault
            → Rose (I.words input.old).faults (I.words input.new).faults }
        ensures write_later { (S.words output.old).faults ≤ (S.words output.new).faults }
        ensures write_fault { result ≡ Err Ended.WriteFault
            → Rose (S.words output.old).faults (S.words output.new).faults }
    {
        self.take_piece(rt, input)?;
        self.serve_held(rt, world, output)
    }

    // Takes its bytes from `input` and answers the calls in them, up to its end.
    fn serve_all<R, I: Source, S: Sink>(
        &mut self,
        rt: &R,
        world: &mut World,
        input: &mut I,
        output: &mut S,
    ) -> Ended
        requires new { IsNew (state_of self.old world.old) }
        requires ready { IsReady (state_of self.old world.old) }
        requires nothing_waits { bytes_waiting self.old ≡ [] }
        ensures leaves { (pieces : List (List ℕ))
            × GaveEach (I.words input.old)
            (I.words input.new) pieces
            × LeavesWith (start_of world.old) result pieces (I.words input.new).left
            (entries_in world.new) (S.words output.old).taken (S.words output.new).taken }
        ensures has { HasSession (start_of world.old) (entries_in world.new) }
        ensures begins { start_of world.new ≡ start_of world.old }
        ensures read_later { (I.words input.old).faults ≤ (I.words input.new).faults }
        ensures read { result ≡ Ended.ReadFault → Rose (I.words input.old).faults
            (I.words input.new).faults }
        ensures write_later { (S.words output.old).faults ≤ (S.words output.new).faults }
        ensures write { result ≡ Ended.WriteFault
            → Rose (S.words output.old).faults (S.words output.new).faults }
    {
        while self.intake.is_open() {
            if let Err(ended) = self.turn(rt, world, input, output) {
                return ended;
            }
        }
        self.end()
    }

    // Opens the one session of the world, and serves it until it is closed.
    fn run<R, I: Source, S: Sink>(
        &mut self,
        rt: &R,
        world: &mut World,
        input: &mut I,
        output: &mut S,
    ) -> Ended
        requires unused { IsUnusedSession self.old }
        requires fresh { world.old.history ≡ [] }
        requires capacity { 0 < world.old.capacity }
        ensures ends { (pieces : List (List ℕ))
            × GaveEach (I.words input.old)
            (I.words input.new) pieces
            × SessionEnds (start_of world.old) result pieces (I.words input.new).left
            (plain_entries world.new.history) (S.words output.old).taken
            (S.words output.new).taken }
        ensures has { (world.new.history ≡ [])
            ⊎ HasSession (start_of world.old) (plain_entries world.new.history) }
        ensures begins { start_of world.new ≡ start_of world.old }
        ensures read_later { (I.words input.old).faults ≤ (I.words input.new).faults }
        ensures read { result ≡ Ended.ReadFault → Rose (I.words input.old).faults
            (I.words input.new).faults }
        ensures write_later { (S.words output.old).faults ≤ (S.words output.new).faults }
        ensures write { result ≡ Ended.WriteFault
            → Rose (S.words output.old).faults (S.words output.new).faults }
    {
        let Ok(()) = open(world) else {
            return Ended::NoMemory;
        };
        match ended(world) {
            Some(ended) => ended,
            None => {
                let ended = self.serve_all(rt, world, input, output);
                close_for(world, ended)
            }
        }
    }
}

// How a session ends of which a batch didn't go out whole.
fn end_unsaid(why: Unsaid) -> Ended
    ensures { result ≡ ended_unsaid why }
{
    match why {
        Unsaid::WriteFault => Ended::WriteFault,
        Unsaid::NoMemory => Ended::NoMemory,
    }
}

// How a session ends whose writing failed, where it was to end so.
fn end_by_fault(ended: Ended) -> Ended
    ensures { result ≡ end_by_fault ended }
{
    match ended {
        Ended::NoMemory => Ended::NoMemory,
        _ => Ended::WriteFault,
    }
}

// Whether a session that ends so is still to be closed: no entry has closed it, and memory wasn't
// wanting.
fn leaves_open(ended: Ended) -> bool
    ensures { result ≡ leaves_open ended }
{
    match ended {
        Ended::Closed | Ended::Malformed(_) | Ended::ReadFault | Ended::WriteFault => true,
        Ended::Overflowed(_) | Ended::Quit(_) | Ended::NoMemory => false,
    }
}

// Closes the session, where its end leaves it open.
fn close_for(world: &mut World, ended: Ended) -> Ended
    ensures closed { IsClosedSo (start_of world.old) (leaves_open ended) ended result
        (entries_in world.old) (entries_in world.new) }
    ensures begins { start_of world.new ≡ start_of world.old }
{
    if leaves_open(ended) && close(world).is_err() {
        return Ended::NoMemory;
    }
    ended
}

/// Serves one session alone, whose number is 1, in a world without entries: answers the calls of
/// `input` on `output`, one after another. What the calls of one read make due goes out together,
/// before the next read. Every entry has caller 0.
pub fn alone<R, I: Source, S: Sink>(
    rt: &R,
    alloc: Global,
    world: &mut World,
    input: &mut I,
    output: &mut S,
) -> Ended
    requires fresh { world.old.history ≡ [] }
    requires capacity { 0 < world.old.capacity }
    ensures ends { (pieces : List (List ℕ))
        × GaveEach (I.words input.old)
        (I.words input.new) pieces
        × SessionEnds (start_of world.old) result pieces (I.words input.new).left
        (plain_entries world.new.history) (S.words output.old).taken (S.words output.new).taken }
    ensures has { (world.new.history ≡ [])
        ⊎ HasSession (start_of world.old) (plain_entries world.new.history) }
    ensures begins { start_of world.new ≡ start_of world.old }
    ensures read_later { (I.words input.old).faults ≤ (I.words input.new).faults }
    ensures read { result ≡ Ended.ReadFault → Rose (I.words input.old).faults
        (I.words input.new).faults }
    ensures write_later { (S.words output.old).faults ≤ (S.words output.new).faults }
    ensures write { result ≡ Ended.WriteFault → Rose (S.words output.old).faults
        (S.words output.new).faults }
{
    let Ok(mut session) = Session::new(alloc) else {
        return Ended::NoMemory;
    };
    session.run(rt, world, input, output)
}
