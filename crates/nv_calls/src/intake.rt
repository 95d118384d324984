//! The intake of a stream of calls: how bytes become calls, piece by piece.
ghost use Rattle.std.specs.Prelude.{◌≡◌, ◌<◌, ◌≤◌, ◌^◌, List, ℕ, [], ◌∷◌, length, IfOk, OnErr, Err};
ghost use Rattle.std.specs.Bool.{OnTrue, OnFalse};
ghost use Rattle.std.specs.Io.KnownBytes.{IsAtEnd};
ghost use Rattle.nv_io.specs.Faults.{Rose};
ghost use Rattle.nv_io.specs.Streams.{GaveEach};
ghost use Rattle.nv_calls.specs.Reading.{EndsAt, IsUnfinished};
ghost use Rattle.nv_calls.specs.Intakes.{Feeds, HasNext, IsLive, WantsMore, came, fresh_intake};

use crate::calls::{BOUNDS, Given, next_given};
use nv_io::{Flaw, Got, Source};
use nv_rpc::{Frame, Names};
use nv_stream::Stream;
use std::alloc::{AllocError, Global};
use std::marker::Model;

// The bytes that are read at once.
const PIECE: usize = 65_536;

// A source from which so many bytes were taken counts as ended.
const MOST_TAKEN: u64 = 1 << 62;

/// What a stream of calls has next.
#[derive(Drop)]
pub enum NextCall {
    /// The next call, whole.
    Call(Frame),
    /// No value is whole before more bytes come.
    More,
    /// Here the bytes stop being calls: by the flaw of a value, or by a value that is no call.
    Flaw(Flaw),
}

/// Why no piece came.
#[derive(Clone, Copy, Debug, PartialEq, Eq)]
pub enum Unfed {
    /// The source is at its end.
    End,
    /// The source failed.
    Failed,
    /// Memory was wanting. What the read gave is lost.
    NoMemory,
}

/// The bytes of a stream of calls that came and weren't given yet, and how many calls were given.
#[derive(Drop)]
pub struct Intake {
    alloc: Global,
    stream: Stream,
    names: Names,
    number: u64,
    // Where a read puts its bytes.
    buffer: Vec<u8>,
}

impl Model for Intake {
    ghost use Rattle.std.specs.Prelude.{◌≡◌, vec_len};
    ghost use Rattle.nv_calls.specs.Intakes.{IntakeState};
    ghost use Rattle.nv_calls.specs.declared.intake.TheConstants.{PIECE};
    ghost use Rattle.nv_calls.specs.inside.Bounded.{IsBounded, intake_of};

    ghost Value = { IntakeState };

    ghost view = { λ i. intake_of i.stream i.number };

    ghost invariant = { λ i. (vec_len i.buffer ≡ PIECE) × IsBounded i.stream i.number };
}

impl Intake {
    /// An intake to which no byte has come.
    pub fn new(alloc: Global) -> Result<Intake, AllocError>
        ensures { IfOk result (λ intake. intake ≡ fresh_intake) }
    {
        Ok(Intake {
            alloc,
            stream: Stream::new(alloc, BOUNDS)?,
            names: Names::new(alloc)?,
            number: 0,
            buffer: vec![in alloc; 0; PIECE]?,
        })
    }

    /// Whether a piece may be read: fewer than 2^62 bytes came.
    pub fn is_open(&self) -> bool
        ensures open { OnTrue result (came self.now < 2 ^ 62) }
        ensures full { OnFalse result (2 ^ 62 ≤ came self.now) }
    {
        let taken = self.stream.start() + self.stream.held_len() as u64;
        taken < MOST_TAKEN
    }

    /// How many bytes came that aren't given yet.
    pub fn held_len(&self) -> usize
        ensures { result ≡ length self.now.held }
    {
        self.stream.held_len()
    }

    /// Takes the next piece of the bytes from `input`, by one read of at most 65,536 bytes.
    pub fn read<R, I: Source>(&mut self, rt: &R, input: &mut I) -> Result<(), Unfed>
        requires { came self.old < 2 ^ 62 }
        ensures reads { (piece : List ℕ)
            × GaveEach (I.words input.old)
            (I.words input.new) (piece ∷ [])
            × Feeds (IsAtEnd (I.words input.new).left) result piece self.old self.new }
        ensures later { (I.words input.old).faults ≤ (I.words input.new).faults }
        ensures fault { result ≡ Err Unfed.Failed → Rose (I.words input.old).faults
            (I.words input.new).faults }
    {
        match input.read(rt, &mut self.buffer) {
            Got::Bytes(count) => match self.stream.feed(&self.buffer[..count]) {
                Ok(()) => Ok(()),
                Err(_) => Err(Unfed::NoMemory),
            },
            Got::End => Err(Unfed::End),
            Got::Failed => Err(Unfed::Failed),
        }
    }

    /// The next call, which is taken; or that more bytes are needed for it; or the flaw that stands
    /// in its place, after which there is no next one. Where memory is wanting, nothing is taken.
    pub fn next(&mut self) -> Result<NextCall, AllocError>
        requires { IsLive self.old }
        ensures ok { IfOk result (λ next. HasNext next self.old self.new) }
        ensures err { OnErr result (self.new ≡ self.old) }
    {
        match next_given(self.alloc, &mut self.stream, &mut self.names)? {
            Given::Call(call) => {
                self.number += 1;
                Ok(NextCall::Call(call))
            }
            Given::NoCall => Ok(NextCall::Flaw(Flaw::NoCall(self.number))),
            Given::More => Ok(NextCall::More),
            Given::Flaw(flaw) => Ok(NextCall::Flaw(flaw)),
        }
    }

    /// How the bytes end where no more of them come: with the last call, or inside a value.
    pub fn end(&self) -> Option<Flaw>
        requires live { IsLive self.now }
        requires waits { WantsMore self.now }
        ensures unfinished { IsUnfinished result }
        ensures ends { EndsAt self.now.number self.now.place self.now.held result }
    {
        self.stream.end()
    }
}
