//! How calls are made as they come: each whole call that an intake holds is made before the next
//! one is looked at.
ghost use Rattle.std.specs.Prelude.{◌≡◌, ℕ, ◌^◌, ◌<◌, ◌≤◌, List, Option, Err};
ghost use Rattle.std.specs.Io.KnownBytes.{IsAtEnd};
ghost use Rattle.nv_io.specs.Faults.{Rose};
ghost use Rattle.nv_io.specs.Streams.{Gave};
ghost use Rattle.nv_io.specs.declared.lanes.Flaw.{Flaw};
ghost use Rattle.nv_calls.specs.Reading.{EndsAt, IsUnfinished};
ghost use Rattle.nv_calls.specs.Intakes.{IsLive, WantsMore, came};
ghost use Rattle.nv_halves.specs.Passes.{plain_pass};
ghost use Rattle.nv_halves.specs.inside.Intakes.{HoldsPiece, MakesHeld, MakesPiece, Steps, reader_end_by_flaw, step_of_asked};

use crate::bells::Bell;
use crate::ends::ReaderEnd;
use crate::insisting::{Asked, ask, wake_behind};
use nv_calls::{Intake, NextCall, Unfed};
use nv_core::Core;
use nv_io::Source;
use nv_turn::{Pass, Turn};
use std::sync::Wait;

/// What a step over what is held did.
#[derive(Clone, Copy, Debug, PartialEq, Eq)]
pub enum Stepped {
    /// A call was made.
    On,
    /// More bytes are needed.
    Waits,
    Ends(ReaderEnd),
}

// What came of a call that was asked.
fn stepped_by(asked: Asked) -> Stepped
    ensures { result ≡ step_of_asked asked }
{
    match asked {
        Asked::Done => Stepped::On,
        Asked::Gone(cause) => Stepped::Ends(ReaderEnd::Gone(cause)),
        Asked::NoMemory => Stepped::Ends(ReaderEnd::NoMemory),
    }
}

// Makes the next call of what an intake holds.
fn step<R: Wait, C: Core>(
    rt: &R,
    turn: &Turn<C>,
    bells: &[Bell],
    lane: usize,
    pass: Pass<C>,
    session: u64,
    intake: &mut Intake,
) -> (Pass<C>, Stepped)
    requires turn { pass.turn ≡ turn.now.turn }
    requires live { IsLive intake.old }
    ensures steps { Steps result.1 intake.old intake.new (plain_pass pass) (plain_pass result.0)
        session }
    ensures no_read { result.1 ≡ Stepped.Ends ReaderEnd.ReadFault → ⊥ }
{
    let Ok(next) = intake.next() else {
        return (pass, Stepped::Ends(ReaderEnd::NoMemory));
    };
    match next {
        NextCall::Call(call) => {
            let at_hand = intake.held_len();
            let (pass, asked) = ask(rt, turn, bells, lane, pass, session, call, at_hand);
            (pass, stepped_by(asked))
        }
        NextCall::More => {
            let pass = wake_behind(rt, turn, bells, lane, pass, intake.held_len());
            (pass, Stepped::Waits)
        }
        NextCall::Flaw(flaw) => (pass, Stepped::Ends(ReaderEnd::Malformed(flaw))),
    }
}

// Makes the calls of what an intake holds, one after another.
fn make_held<R: Wait, C: Core>(
    rt: &R,
    turn: &Turn<C>,
    bells: &[Bell],
    lane: usize,
    pass: Pass<C>,
    session: u64,
    intake: &mut Intake,
) -> (Pass<C>, Result<(), ReaderEnd>)
    requires turn { pass.turn ≡ turn.now.turn }
    requires live { IsLive intake.old }
    ensures makes { MakesHeld ⊥ result.1 intake.old.held intake.old intake.new (plain_pass pass)
        (plain_pass result.0) session }
    ensures no_read { result.1 ≡ Err ReaderEnd.ReadFault → ⊥ }
{
    let mut pass = pass;
    'calls: loop {
        let (next, stepped) = step(rt, turn, bells, lane, pass, session, intake);
        pass = next;
        match stepped {
            Stepped::On => {}
            Stepped::Waits => return (pass, Ok(())),
            Stepped::Ends(end) => return (pass, Err(end)),
        }
    }
}

/// How a reader ends to which no more bytes come.
pub(crate) fn end_of(intake: &Intake) -> ReaderEnd
    requires live { IsLive intake.now }
    requires waits { WantsMore intake.now }
    ensures { (flaw : Option Flaw) × (result ≡ reader_end_by_flaw flaw) × IsUnfinished flaw
        × EndsAt intake.now.number intake.now.place intake.now.held flaw }
{
    match intake.end() {
        None => ReaderEnd::Closed,
        Some(flaw) => ReaderEnd::Malformed(flaw),
    }
}

// Takes the next piece of the bytes from `input` into an intake, by one read.
fn take_piece<R, I: Source>(rt: &R, intake: &mut Intake, input: &mut I) -> Result<(), ReaderEnd>
    requires live { IsLive intake.old }
    requires waits { WantsMore intake.old }
    requires open { came intake.old < 2 ^ 62 }
    ensures holds { (piece : List ℕ)
        × Gave (I.words input.old).taken (I.words input.new).taken (I.words input.old).left
        (I.words input.new).left piece
        × HoldsPiece (IsAtEnd (I.words input.new).left) result piece intake.old intake.new }
    ensures later { (I.words input.old).faults ≤ (I.words input.new).faults }
    ensures fault { result ≡ Err ReaderEnd.ReadFault
        → Rose (I.words input.old).faults (I.words input.new).faults }
{
    match intake.read(rt, input) {
        Ok(()) => Ok(()),
        Err(why) => match why {
            Unfed::End => Err(end_of(intake)),
            Unfed::Failed => Err(ReaderEnd::ReadFault),
            Unfed::NoMemory => Err(ReaderEnd::NoMemory),
        },
    }
}

/// Takes a piece and makes the calls that are whole by it.
pub(crate) fn make_piece<R: Wait, C: Core, I: Source>(
    rt: &R,
    turn: &Turn<C>,
    bells: &[Bell],
    lane: usize,
    pass: Pass<C>,
    session: u64,
    intake: &mut Intake,
    input: &mut I,
) -> (Pass<C>, Result<(), ReaderEnd>)
    requires turn { pass.turn ≡ turn.now.turn }
    requires live { IsLive intake.old }
    requires waits { WantsMore intake.old }
    requires open { came intake.old < 2 ^ 62 }
    ensures makes { (piece : List ℕ)
        × Gave (I.words input.old).taken (I.words input.new).taken (I.words input.old).left
        (I.words input.new).left piece
        × MakesPiece (IsAtEnd (I.words input.new).left) result.1 piece intake.old intake.new
        (plain_pass pass) (plain_pass result.0) session }
    ensures later { (I.words input.old).faults ≤ (I.words input.new).faults }
    ensures fault { result.1 ≡ Err ReaderEnd.ReadFault
        → Rose (I.words input.old).faults (I.words input.new).faults }
{
    if let Err(end) = take_piece(rt, intake, input) {
        return (pass, Err(end));
    }
    make_held(rt, turn, bells, lane, pass, session, intake)
}
