//! The stream: what was fed and not yet given.
ghost use Rattle.std.specs.Prelude.{◌≡◌, ◌+◌, ◌^◌, ◌<◌, ◌≤◌, true, drop, length, vec_len, IfOk, IfSome, OnOk, OnErr};
ghost use Rattle.nv_stream.specs.State.{empty_state, with_piece, behind_value, with_flaw, stream_end};
ghost use Rattle.nv_value.specs.Content.{Tree};
ghost use Rattle.nv_msgpack.specs.Decoded.{IsRight, HasSpellingIfWhole, decoded_seen};
ghost use Rattle.nv_msgpack.specs.Reading.{whole, value_at};
ghost use Rattle.nv_msgpack.specs.Shortest.{HasSpelling};
ghost use Rattle.nv_stream.specs.Answers.{IsAnswer, NeedsMore, TakesTree};

use crate::scan::Scan;
use nv_io::Flaw;
use nv_msgpack::{Bounds, Decoded, decode};
use nv_value::Value;
use std::alloc::{AllocError, Global};
use std::marker::Model;

/// What a stream has next.
#[derive(Drop)]
pub enum Next {
    /// The next value, whole.
    Value(Value),
    /// No value is whole before more bytes come.
    More,
    /// Here the bytes stop being values within the bounds.
    Flaw(Flaw),
}

/// The values of a stream of bytes that comes in pieces (MessagePack specification).
///
/// However small the pieces are, the work is linear in the bytes: an unfinished value is gone over
/// once, and decoded again only when it is whole or wrong. Memory is taken as bytes come, and never
/// for what a length announces.
#[derive(Drop)]
pub struct Stream {
    alloc: Global,
    bounds: Bounds,
    // The bytes that the values given so far took.
    start: u64,
    // Bytes as they were fed. Those before `given` were given, the others are held.
    bytes: Vec<u8>,
    given: usize,
    flaw: Option<Flaw>,
    // The place inside the value at the front of what is held, once that was found unfinished.
    scan: Scan,
    is_unfinished: bool,
}

impl Model for Stream {
    ghost use Rattle.std.specs.Prelude.{◌+◌, ◌-◌, ◌^◌, ◌<◌, ◌≤◌, drop, vec_len};
    ghost use Rattle.nv_stream.specs.State.{State};
    ghost use Rattle.nv_stream.specs.inside.Scanning.{IsPlace};

    ghost Value = { State };

    ghost view = { λ s. record {
      depth = s.bounds.depth;
      most = s.bounds.bytes;
      start = s.start;
      held = drop s.given s.bytes.items;
      flaw = s.flaw;
    } };

    ghost invariant = { λ s. (1 ≤ s.bounds.bytes) × (s.given ≤ vec_len s.bytes)
        × (s.start + (vec_len s.bytes - s.given) < 2 ^ 64)
        × IsPlace s.bounds.depth s.bounds.bytes (drop s.given s.bytes.items) s.scan };
}

impl Stream {
    /// A stream to which nothing was fed. Its values have at most `bounds.depth` lists and maps one
    /// in another and at most `bounds.bytes` bytes each. It takes no memory yet.
    pub fn new(alloc: Global, bounds: Bounds) -> Result<Stream, AllocError>
        requires { 1 ≤ bounds.bytes }
        ensures { IfOk result (λ s. s ≡ empty_state bounds.depth bounds.bytes) }
    {
        Ok(Stream {
            alloc,
            bounds,
            start: 0,
            bytes: Vec::new(alloc),
            given: 0,
            flaw: None,
            scan: Scan::new(alloc),
            is_unfinished: false,
        })
    }

    /// Adds a piece of the stream. It may be empty, and may end anywhere. Where memory is wanting,
    /// nothing was added.
    pub fn feed(&mut self, piece: &[u8]) -> Result<(), AllocError>
        requires { self.old.start + length self.old.held + length piece.now < 2 ^ 64 }
        ensures ok { OnOk result (self.new ≡ with_piece self.old piece.now) }
        ensures err { OnErr result (self.new ≡ self.old) }
    {
        if self.given >= self.bytes.len() - self.given {
            self.compact();
        }
        self.bytes.extend_from_slice(piece)
    }

    // Moves what is held to the front of the memory.
    fn compact(&mut self)
        ensures { self.new ≡ self.old }
    {
        drop_front(&mut self.bytes, self.given);
        self.given = 0;
    }

    /// The next value, which is taken from the stream; or that more bytes are needed for it; or the
    /// flaw that stands in its place. A flaw is the answer for good. Where memory is wanting, the
    /// stream is as it was.
    pub fn next(&mut self) -> Result<Next, AllocError>
        ensures ok { IfOk result (λ n. IsAnswer n self.old self.new) }
        ensures err { OnErr result (self.new ≡ self.old) }
    {
        if let Some(flaw) = self.flaw {
            return Ok(Next::Flaw(flaw));
        }
        if self.waits()? {
            return Ok(Next::More);
        }
        let found = decode(self.alloc, self.held(), self.bounds)?;
        Ok(self.answer(found))
    }

    /// What is held, for a caller that knows how to read the value at its front. `None` where a
    /// flaw was met, or where that value was found unfinished already.
    pub fn untried(&self) -> Option<&[u8]>
        ensures held { IfSome result (λ bytes. bytes.now ≡ self.now.held) }
        ensures no_flaw { IfSome result (λ bytes. self.now.flaw ≡ None) }
    {
        if self.is_unfinished || self.flaw.is_some() {
            return None;
        }
        Some(self.held())
    }

    /// Takes the value at the front of what is held, which the caller has read: so many bytes spell
    /// it.
    pub fn skip(&mut self, taken: usize)
        requires no_flaw { self.old.flaw ≡ None }
        requires whole { (t : Tree)
            × (value_at self.old.depth self.old.most self.old.held ≡ whole t taken) }
        ensures { (t : Tree) → value_at self.old.depth self.old.most self.old.held ≡ whole t taken
            → HasSpelling t → TakesTree t self.old self.new }
    {
        let _ = &self.alloc;
        self.give(taken);
    }

    // Whether it shows without decoding that more bytes are needed.
    fn waits(&mut self) -> Result<bool, AllocError>
        ensures same { self.new ≡ self.old }
        ensures waits { IfOk result (λ b. b ≡ true → NeedsMore self.old) }
    {
        if self.given == self.bytes.len() {
            return Ok(true);
        }
        if !self.is_unfinished {
            return Ok(false);
        }
        self.scan.waits(&self.bytes[self.given..], self.bounds)
    }

    // The answer for what stands at the front of what is held.
    fn answer(&mut self, found: Decoded) -> Next
        requires no_flaw { self.old.flaw ≡ None }
        requires right { IsRight self.old.depth self.old.most self.old.held found }
        requires exact { decoded_seen found ≡ value_at self.old.depth self.old.most self.old.held }
        requires has_spelling { HasSpellingIfWhole found }
        ensures { IsAnswer result self.old self.new }
    {
        match found {
            Decoded::Whole(value, length) => {
                self.give(length);
                Next::Value(value)
            }
            Decoded::NeedsMore => {
                self.is_unfinished = true;
                Next::More
            }
            Decoded::Bad(place) => self.stop(Flaw::Bad(self.start + place as u64)),
            Decoded::TooDeep(place) => self.stop(Flaw::TooDeep(self.start + place as u64)),
            Decoded::TooLong(place) => self.stop(Flaw::TooLong(self.start + place as u64)),
        }
    }

    // Takes the first `taken` bytes from what is held.
    fn give(&mut self, taken: usize)
        requires { taken ≤ length self.old.held }
        ensures { self.new ≡ behind_value self.old taken (drop taken self.old.held) }
    {
        self.given += taken;
        self.start += taken as u64;
        self.scan.restart();
        self.is_unfinished = false;
    }

    fn stop(&mut self, flaw: Flaw) -> Next
        ensures state { self.new ≡ with_flaw self.old flaw }
        ensures answer { result ≡ Next.Flaw flaw }
    {
        self.flaw = Some(flaw);
        Next::Flaw(flaw)
    }

    fn held(&self) -> &[u8]
        ensures { result.now ≡ self.now.held }
    {
        &self.bytes[self.given..]
    }

    /// How the stream ends if no further piece comes: the flaw that was met; else `Inside` with the
    /// byte of the stream at which the unfinished value begins; else nothing.
    pub fn end(&self) -> Option<Flaw>
        ensures { result ≡ stream_end self.now }
    {
        if let Some(flaw) = self.flaw {
            return Some(flaw);
        }
        if self.held().is_empty() {
            return None;
        }
        Some(Flaw::Inside(self.start))
    }

    /// How many bytes of the stream the values given so far took.
    pub fn start(&self) -> u64
        ensures { result ≡ self.now.start }
    {
        self.start
    }

    /// How many bytes were fed and not yet given.
    pub fn held_len(&self) -> usize
        ensures { result ≡ length self.now.held }
    {
        self.bytes.len() - self.given
    }
}

// Removes the first `count` bytes.
fn drop_front(bytes: &mut Vec<u8>, count: usize)
    requires { count ≤ vec_len bytes.old }
    ensures items { bytes.new.items ≡ drop count bytes.old.items }
    ensures len { vec_len bytes.new + count ≡ vec_len bytes.old }
{
    let kept = bytes.len() - count;
    bytes.copy_within(count.., 0);
    bytes.truncate(kept);
}
