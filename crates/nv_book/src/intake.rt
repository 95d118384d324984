//! The values of a book, taken from a source piece by piece.
ghost use Rattle.std.specs.Prelude.{◌≡◌, ◌^◌, ◌<◌, ◌≤◌, ℕ, List, ◌++◌, length, IfOk, IfSome, OnOk, Ok, Err, None};
ghost use Rattle.nv_io.specs.Faults.{Rose};
ghost use Rattle.nv_io.specs.Streams.{Gave};
ghost use Rattle.nv_value.specs.Content.{Tree};
ghost use Rattle.nv_value.specs.View.{content};
ghost use Rattle.nv_args.specs.Weight.{weight};
ghost use Rattle.nv_stream.specs.Answers.{NeedsMore};
ghost use Rattle.nv_book.specs.Books.{most_value};
ghost use Rattle.nv_book.specs.Reading.{HasGiven};
ghost use Rattle.nv_book.specs.inside.Intakes.{IsFreshIntake, Fills, GetsMore, IsDrained, AreAll, ReadsPiece, Skips, GivesOne, TakesValue, TellsPlace};

use crate::faults::Unread;
use nv_io::{Got, Source};
use nv_msgpack::Bounds;
use nv_stream::{Next, Stream};
use nv_value::Value;
use std::alloc::{AllocError, Global};
use std::marker::Model;

/// What the values of a book may be.
const BOUNDS: Bounds = Bounds {
    depth: 64,
    bytes: 67_109_120,
};

/// The bytes that are read at once.
const PIECE: usize = 65_536;

/// A source from which so many bytes were taken counts as ended.
const MOST_TAKEN: u64 = 1 << 62;

/// The values of a book, taken from a source piece by piece.
#[derive(Drop)]
pub struct Intake {
    stream: Stream,
    buffer: Vec<u8>,
    // The bytes taken from the source.
    taken: u64,
}

impl Model for Intake {
    ghost use Rattle.std.specs.Prelude.{◌+◌, ◌^◌, ◌≤◌, ◌≡◌, length, vec_len};
    ghost use Rattle.nv_book.specs.Books.{most_nested, most_value};
    ghost use Rattle.nv_book.specs.declared.intake.TheConstants.{PIECE};
    ghost use Rattle.nv_book.specs.inside.Intakes.{Intaking};

    ghost Value = { Intaking };

    ghost view = { λ i. record { taken = i.taken; stream = i.stream } };

    ghost invariant = { λ i. (vec_len i.buffer ≡ PIECE) × (i.stream.depth ≡ most_nested)
        × (i.stream.most ≡ most_value) × (i.stream.start + length i.stream.held ≤ i.taken)
        × (i.taken ≤ 2 ^ 62 + PIECE) };
}

// Reads once, where so many bytes were taken before, and answers how many bytes came: none where
// the source is at its end.
fn read_piece<R, S: Source>(
    rt: &R,
    source: &mut S,
    taken: u64,
    buffer: &mut [u8],
) -> Result<usize, Unread>
    requires { length buffer.old ≡ PIECE }
    ensures reads { (bytes : List ℕ)
        × Gave (S.words source.old).taken (S.words source.new).taken (S.words source.old).left
        (S.words source.new).left bytes
        × ReadsPiece taken buffer.new bytes (S.words source.new).left result }
    ensures later { (S.words source.old).faults ≤ (S.words source.new).faults }
    ensures fault { result ≡ Err Unread.ReadFault
        → Rose (S.words source.old).faults (S.words source.new).faults }
{
    if taken >= MOST_TAKEN {
        return Ok(0);
    }
    match source.read(rt, buffer) {
        Got::Bytes(count) => Ok(count),
        Got::End => Ok(0),
        Got::Failed => Err(Unread::ReadFault),
    }
}

impl Intake {
    /// One to which no byte has come.
    pub fn new(alloc: Global) -> Result<Intake, AllocError>
        ensures { IfOk result IsFreshIntake }
    {
        Ok(Intake {
            stream: Stream::new(alloc, BOUNDS)?,
            buffer: vec![in alloc; 0; PIECE]?,
            taken: 0,
        })
    }

    /// The place behind the values given so far.
    pub fn place(&self) -> u64
        ensures { result ≡ self.now.stream.start }
    {
        self.stream.start()
    }

    // Reads a piece, which is kept. `false` where the source is at its end.
    fn fill<R, S: Source>(&mut self, rt: &R, source: &mut S) -> Result<bool, Unread>
        ensures fills { (bytes : List ℕ)
            × Gave (S.words source.old).taken (S.words source.new).taken (S.words source.old).left
            (S.words source.new).left bytes
            × Fills bytes (S.words source.new).left result self.old self.new }
        ensures later { (S.words source.old).faults ≤ (S.words source.new).faults }
        ensures fault { result ≡ Err Unread.ReadFault
            → Rose (S.words source.old).faults (S.words source.new).faults }
    {
        let count = read_piece(rt, source, self.taken, &mut self.buffer)?;
        if count == 0 {
            return Ok(false);
        }
        self.stream.feed(&self.buffer[..count])?;
        self.taken += count as u64;
        Ok(true)
    }

    // Reads a piece, which isn't kept. `false` where the source is at its end.
    fn skip<R, S: Source>(&mut self, rt: &R, source: &mut S) -> Result<bool, Unread>
        ensures skips { (bytes : List ℕ)
            × Gave (S.words source.old).taken (S.words source.new).taken (S.words source.old).left
            (S.words source.new).left bytes
            × Skips bytes (S.words source.new).left result self.old self.new }
        ensures later { (S.words source.old).faults ≤ (S.words source.new).faults }
        ensures fault { result ≡ Err Unread.ReadFault
            → Rose (S.words source.old).faults (S.words source.new).faults }
    {
        let count = read_piece(rt, source, self.taken, &mut self.buffer)?;
        self.taken += count as u64;
        Ok(count > 0)
    }

    // Reads what is left of the source.
    fn drain<R, S: Source>(&mut self, rt: &R, source: &mut S) -> Result<(), Unread>
        ensures drains { (bytes : List ℕ)
            × Gave (S.words source.old).taken (S.words source.new).taken (S.words source.old).left
            (S.words source.new).left bytes
            × OnOk result (IsDrained bytes (S.words source.new).left self.old) }
        ensures no_place { (n : ℕ) → result ≡ Err (Unread.Malformed n) → ⊥ }
        ensures later { (S.words source.old).faults ≤ (S.words source.new).faults }
        ensures fault { result ≡ Err Unread.ReadFault
            → Rose (S.words source.old).faults (S.words source.new).faults }
    {
        while self.skip(rt, source)? {}
        Ok(())
    }

    /// That the value at a place is wrong, once the source was read to its end.
    pub fn malformed<R, S: Source>(&mut self, rt: &R, source: &mut S, place: u64) -> Unread
        ensures tells { (bytes : List ℕ)
            × Gave (S.words source.old).taken (S.words source.new).taken (S.words source.old).left
            (S.words source.new).left bytes
            × TellsPlace bytes (S.words source.new).left place self.old result }
        ensures later { (S.words source.old).faults ≤ (S.words source.new).faults }
        ensures fault { result ≡ Unread.ReadFault
            → Rose (S.words source.old).faults (S.words source.new).faults }
    {
        match self.drain(rt, source) {
            Ok(()) => Unread::Malformed(place),
            Err(fault) => fault,
        }
    }

    // Reads a piece more of a value that isn't whole.
    fn more<R, S: Source>(&mut self, rt: &R, source: &mut S) -> Result<(), Unread>
        requires { NeedsMore self.old.stream }
        ensures steps { (bytes : List ℕ)
            × Gave (S.words source.old).taken (S.words source.new).taken (S.words source.old).left
            (S.words source.new).left bytes
            × ((fed : List ℕ) (values : List Tree)
            → HasGiven fed values self.old.taken self.old.stream
            → GetsMore (fed ++ bytes) (S.words source.new).left values result self.new) }
        ensures progress { OnOk result ((self.old.taken < 2 ^ 62)
            × (self.old.taken < self.new.taken)) }
        ensures later { (S.words source.old).faults ≤ (S.words source.new).faults }
        ensures fault { result ≡ Err Unread.ReadFault
            → Rose (S.words source.old).faults (S.words source.new).faults }
    {
        if self.fill(rt, source)? {
            return Ok(());
        }
        Err(Unread::Malformed(self.stream.start()))
    }

    // Gives the next value of what is held, or reads a piece more.
    fn step<R, S: Source>(&mut self, rt: &R, source: &mut S) -> Result<Option<Value>, Unread>
        ensures steps { (bytes : List ℕ)
            × Gave (S.words source.old).taken (S.words source.new).taken (S.words source.old).left
            (S.words source.new).left bytes
            × ((fed : List ℕ) (values : List Tree)
            → HasGiven fed values self.old.taken self.old.stream
            → GivesOne (fed ++ bytes) (S.words source.new).left values result self.new) }
        ensures light { IfOk result (λ found. IfSome found (λ v. weight (content v) ≤ most_value)) }
        ensures progress { result ≡ Ok None → (self.old.taken < 2 ^ 62)
            × (self.old.taken < self.new.taken) }
        ensures later { (S.words source.old).faults ≤ (S.words source.new).faults }
        ensures fault { result ≡ Err Unread.ReadFault
            → Rose (S.words source.old).faults (S.words source.new).faults }
    {
        match self.stream.next()? {
            Next::Value(value) => Ok(Some(value)),
            Next::More => {
                self.more(rt, source)?;
                Ok(None)
            }
            Next::Flaw(_) => {
                let place = self.stream.start();
                Err(self.malformed(rt, source, place))
            }
        }
    }

    /// The next value. Where it is cut or missing, the source was read to its end.
    pub fn value<R, S: Source>(&mut self, rt: &R, source: &mut S) -> Result<Value, Unread>
        ensures takes { (bytes : List ℕ)
            × Gave (S.words source.old).taken (S.words source.new).taken (S.words source.old).left
            (S.words source.new).left bytes
            × ((fed : List ℕ) (values : List Tree)
            → HasGiven fed values self.old.taken self.old.stream
            → TakesValue (fed ++ bytes) (S.words source.new).left values result self.new) }
        ensures light { IfOk result (λ v. weight (content v) ≤ most_value) }
        ensures later { (S.words source.old).faults ≤ (S.words source.new).faults }
        ensures fault { result ≡ Err Unread.ReadFault
            → Rose (S.words source.old).faults (S.words source.new).faults }
    {
        loop {
            if let Some(value) = self.step(rt, source)? {
                return Ok(value);
            }
        }
    }

    /// Whether nothing is behind the values given so far, neither held nor left.
    pub fn is_over<R, S: Source>(&mut self, rt: &R, source: &mut S) -> Result<bool, Unread>
        ensures over { (bytes : List ℕ)
            × Gave (S.words source.old).taken (S.words source.new).taken (S.words source.old).left
            (S.words source.new).left bytes
            × ((fed : List ℕ) (values : List Tree)
            → HasGiven fed values self.old.taken self.old.stream
            → AreAll (fed ++ bytes) (S.words source.new).left values result self.new) }
        ensures no_place { (n : ℕ) → result ≡ Err (Unread.Malformed n) → ⊥ }
        ensures later { (S.words source.old).faults ≤ (S.words source.new).faults }
        ensures fault { result ≡ Err Unread.ReadFault
            → Rose (S.words source.old).faults (S.words source.new).faults }
    {
        if self.stream.held_len() > 0 {
            return Ok(false);
        }
        let came = self.fill(rt, source)?;
        Ok(!came)
    }
}
