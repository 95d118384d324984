//! A client on its way: what came to it, and what it made of it.
ghost use Rattle.std.specs.Prelude.{◌≡◌, ℕ, ◌+◌, ◌^◌, ◌<◌, ◌≤◌, List, [], ◌∷◌, length, true, false, Ok, Err, OnOk, IfOk};
ghost use Rattle.std.specs.Io.KnownBytes.{append_known, IsAtEnd};
ghost use Rattle.std.specs.List.{concat};
ghost use Rattle.nv_value.specs.View.{content};
ghost use Rattle.nv_io.specs.Faults.{Rose};
ghost use Rattle.nv_io.specs.Streams.{GaveEach};
ghost use Rattle.nv_stream.specs.Answers.{NeedsMore};
ghost use Rattle.nv_stream.specs.State.{stream_end};
ghost use Rattle.nv_mirror.specs.Ends.{FollowsTo, IsReadToEnd, ListsAtOnce};
ghost use Rattle.nv_mirror.specs.Listings.{received_in};
ghost use Rattle.nv_mirror.specs.inside.Steps.{Grows, IsFreshClient, CanGoOn, IsSteady, StepsFromAny, TakesReceived, followed_of_flaw, known_of, standing_of};

use crate::followed::Followed;
use crate::incoming::received;
use crate::lister::Lister;
use nv_io::{Got, Sink, Source};
use nv_msgpack::Bounds;
use nv_stream::{Next, Stream};
use nv_value::Value;
use std::alloc::{AllocError, Global};

// What the values may be.
const BOUNDS: Bounds = Bounds {
    depth: 64,
    bytes: 67_108_864,
};

/// The bytes that are read at once.
pub const PIECE: usize = 65_536;

// A source from which so many bytes were taken counts as ended.
const MOST_TAKEN: u64 = 1 << 62;

/// A client that follows a buffer.
#[derive(Drop)]
pub struct Client {
    stream: Stream,
    lister: Lister,
}

// Takes the next value, and lists what it tells.
fn take_value<R, O: Sink>(
    rt: &R,
    output: &mut O,
    lister: &mut Lister,
    value: Value,
) -> Result<(), Followed>
    requires steady { IsSteady lister.old }
    requires counted { lister.old.number < 2 ^ 63 }
    ensures takes { (out : List ℕ) × ((O.words output.new).taken
        ≡ append_known (O.words output.old).taken out)
        × TakesReceived result (known_of lister.old) (received_in (content value))
        (known_of lister.new) out }
    ensures steady { OnOk result (IsSteady lister.new) }
    ensures later { (O.words output.old).faults ≤ (O.words output.new).faults }
    ensures fault { result ≡ Err Followed.OutputFault
        → Rose (O.words output.old).faults (O.words output.new).faults }
{
    lister.take(rt, output, received(value))
}

impl Client {
    /// A client of the buffer of this handle, to which no byte came.
    pub fn new(alloc: Global, buffer: i64) -> Result<Client, AllocError>
        ensures { IfOk result (λ client. IsFreshClient buffer client) }
    {
        Ok(Client {
            stream: Stream::new(alloc, BOUNDS)?,
            lister: Lister::new(alloc, buffer)?,
        })
    }

    // The bytes that came to it.
    fn taken(&self) -> u64
        requires { self.now.stream.start + length self.now.stream.held < 2 ^ 64 }
        ensures { result ≡ self.now.stream.start + length self.now.stream.held }
    {
        self.stream.start() + self.stream.held_len() as u64
    }

    // How following ends where no more bytes come.
    fn end(&self) -> Followed
        ensures { result ≡ followed_of_flaw (stream_end self.now.stream) }
    {
        match self.stream.end() {
            None => Followed::Ended,
            Some(flaw) => Followed::Malformed(flaw),
        }
    }

    // Looks at the next value of what it holds. `false` where that needs more bytes.
    fn step<R, O: Sink>(&mut self, rt: &R, output: &mut O) -> Result<bool, Followed>
        requires ready { CanGoOn self.old }
        requires fits { self.old.stream.start + length self.old.stream.held < 2 ^ 63 }
        ensures steps { (out : List ℕ)
            × ((O.words output.new).taken ≡ append_known (O.words output.old).taken out)
            × StepsFromAny ⊥ result ([], out) (standing_of self.old) (standing_of self.new) }
        ensures ready { OnOk result (CanGoOn self.new) }
        ensures same { OnOk result (self.new.stream.start + length self.new.stream.held
            ≡ self.old.stream.start + length self.old.stream.held) }
        ensures smaller { result ≡ Ok true
            → length self.new.stream.held < length self.old.stream.held }
        ensures waits { result ≡ Ok false → NeedsMore self.new.stream }
        ensures later { (O.words output.old).faults ≤ (O.words output.new).faults }
        ensures fault { result ≡ Err Followed.OutputFault
            → Rose (O.words output.old).faults (O.words output.new).faults }
        ensures no_read { result ≡ Err Followed.ReadFault → ⊥ }
        ensures no_server { result ≡ Err Followed.ServerFault → ⊥ }
    {
        let Ok(next) = self.stream.next() else {
            return Err(Followed::NoMemory);
        };
        match next {
            Next::Value(value) => {
                take_value(rt, output, &mut self.lister, value)?;
                Ok(true)
            }
            Next::More => Ok(false),
            Next::Flaw(flaw) => Err(Followed::Malformed(flaw)),
        }
    }

    // Looks at the values of what it holds.
    fn take_held<R, O: Sink>(&mut self, rt: &R, output: &mut O) -> Result<(), Followed>
        requires ready { CanGoOn self.old }
        requires fits { self.old.stream.start + length self.old.stream.held < 2 ^ 63 }
        ensures steps { (out : List ℕ)
            × ((O.words output.new).taken ≡ append_known (O.words output.old).taken out)
            × StepsFromAny ⊥ result ([], out) (standing_of self.old) (standing_of self.new) }
        ensures ready { OnOk result (CanGoOn self.new) }
        ensures same { OnOk result (self.new.stream.start + length self.new.stream.held
            ≡ self.old.stream.start + length self.old.stream.held) }
        ensures waits { OnOk result (NeedsMore self.new.stream) }
        ensures later { (O.words output.old).faults ≤ (O.words output.new).faults }
        ensures fault { result ≡ Err Followed.OutputFault
            → Rose (O.words output.old).faults (O.words output.new).faults }
        ensures no_read { result ≡ Err Followed.ReadFault → ⊥ }
        ensures no_server { result ≡ Err Followed.ServerFault → ⊥ }
    {
        while self.step(rt, output)? {}
        Ok(())
    }

    // Takes the next piece of its bytes from `input`, by one read.
    fn take_piece<R, I: Source>(
        &mut self,
        rt: &R,
        input: &mut I,
        room: &mut [u8],
    ) -> Result<(), Followed>
        requires ready { CanGoOn self.old }
        requires waits { NeedsMore self.old.stream }
        requires fits { self.old.stream.start + length self.old.stream.held < 2 ^ 62 }
        requires room { length room.old ≡ PIECE }
        ensures takes { (piece : List ℕ)
            × GaveEach (I.words input.old)
            (I.words input.new) (piece ∷ [])
            × StepsFromAny (IsAtEnd (I.words input.new).left) result (piece, [])
            (standing_of self.old)
            (standing_of self.new)
            × OnOk result (Grows piece (standing_of self.old) (standing_of self.new)) }
        ensures ready { OnOk result (CanGoOn self.new) }
        ensures later { (I.words input.old).faults ≤ (I.words input.new).faults }
        ensures fault { result ≡ Err Followed.ReadFault
            → Rose (I.words input.old).faults (I.words input.new).faults }
        ensures no_output { result ≡ Err Followed.OutputFault → ⊥ }
        ensures no_server { result ≡ Err Followed.ServerFault → ⊥ }
    {
        match input.read(rt, room) {
            Got::Bytes(count) => match self.stream.feed(&room[..count]) {
                Ok(()) => Ok(()),
                Err(_) => Err(Followed::NoMemory),
            },
            Got::End => Err(self.end()),
            Got::Failed => Err(Followed::ReadFault),
        }
    }

    // Takes a piece, and looks at the values that are whole by it. Before it ends, all that they
    // list was written.
    fn turn<R, I: Source, O: Sink>(
        &mut self,
        rt: &R,
        input: &mut I,
        room: &mut [u8],
        output: &mut O,
    ) -> Result<(), Followed>
        requires ready { CanGoOn self.old }
        requires waits { NeedsMore self.old.stream }
        requires fits { self.old.stream.start + length self.old.stream.held < 2 ^ 62 }
        requires room { length room.old ≡ PIECE }
        ensures turns { (piece out : List ℕ)
            × GaveEach (I.words input.old)
            (I.words input.new) (piece ∷ [])
            × ((O.words output.new).taken ≡ append_known (O.words output.old).taken out)
            × StepsFromAny (IsAtEnd (I.words input.new).left) result (piece, out)
            (standing_of self.old)
            (standing_of self.new)
            × OnOk result (Grows piece (standing_of self.old) (standing_of self.new)) }
        ensures ready { OnOk result (CanGoOn self.new) }
        ensures waits { OnOk result (NeedsMore self.new.stream) }
        ensures read_later { (I.words input.old).faults ≤ (I.words input.new).faults }
        ensures read_fault { result ≡ Err Followed.ReadFault
            → Rose (I.words input.old).faults (I.words input.new).faults }
        ensures write_later { (O.words output.old).faults ≤ (O.words output.new).faults }
        ensures write_fault { result ≡ Err Followed.OutputFault
            → Rose (O.words output.old).faults (O.words output.new).faults }
        ensures no_server { result ≡ Err Followed.ServerFault → ⊥ }
    {
        self.take_piece(rt, input, room)?;
        self.take_held(rt, output)
    }

    /// Takes its bytes from `input` and looks at the values in them, up to its end.
    pub fn run<R, I: Source, O: Sink>(
        &mut self,
        rt: &R,
        input: &mut I,
        room: &mut [u8],
        output: &mut O,
    ) -> Followed
        requires fresh { IsFreshClient self.old.lister.buffer self.old }
        requires room { length room.old ≡ PIECE }
        ensures follows { (pieces : List (List ℕ)) × (listed : List ℕ)
            × GaveEach (I.words input.old)
            (I.words input.new) pieces
            × ((O.words output.new).taken ≡ append_known (O.words output.old).taken listed)
            × FollowsTo (IsReadToEnd (I.words input.new).left
            (concat pieces)) self.old.lister.buffer
            result (concat pieces) listed
            × ListsAtOnce self.old.lister.buffer pieces listed }
        ensures read_later { (I.words input.old).faults ≤ (I.words input.new).faults }
        ensures read { result ≡ Followed.ReadFault
            → Rose (I.words input.old).faults (I.words input.new).faults }
        ensures write_later { (O.words output.old).faults ≤ (O.words output.new).faults }
        ensures write { result ≡ Followed.OutputFault
            → Rose (O.words output.old).faults (O.words output.new).faults }
        ensures no_server { result ≡ Followed.ServerFault → ⊥ }
    {
        while self.taken() < MOST_TAKEN {
            if let Err(followed) = self.turn(rt, input, room, output) {
                return followed;
            }
        }
        self.end()
    }
}
