// Sources and sinks in memory.
ghost use Rattle.std.specs.Prelude.{◌≡◌, ◌≤◌, ◌<◌, ◌↔◌, [], ◌∷◌, length, take, vec_len, IsTrue, ℕ, ◌+◌, ◌-◌, ◌^◌, min, List, Some, None, ◌≢◌};
ghost use Rattle.nv_io.specs.Memory.{is_failing, after_call, one_more, Cutting, AreSizes, piece_len, after_piece, next_turn, after_read, AddsSize};
ghost use Rattle.std.specs.declared.option.Option.{Option};
ghost use Rattle.std.specs.Io.KnownBytes.{append_known, prepend_known, IsAtEnd};
ghost use Rattle.nv_io.specs.Faults.{Rose};
ghost use Rattle.nv_io.specs.Reading.{bytes_got, IfBytes};
ghost use Rattle.nv_io.specs.Streams.{AddsReads};
ghost use Rattle.nv_io.specs.Writing.{bytes_put, IfTook};

mod dials;
mod shelves;

use crate::streams::{Got, Put, Sink, Source};
pub use dials::MemDial;
pub use shelves::{MemFiles, MemLane, MemPort};
use std::alloc::Global;
use std::marker::Model;

/// The numbers of the calls that fail, how many calls were made, and how many failed.
#[derive(Drop)]
pub struct Failures {
    fails: Vec<u64>,
    calls: u64,
    faults: u64,
}

impl Model for Failures {
    ghost use Rattle.nv_io.specs.Memory.{Failing};

    ghost Value = { Failing };

    ghost view = { λ f. record { fails = f.fails.items; calls = f.calls; faults = f.faults } };
}

impl Failures {
    /// No call was made yet. The numbers in `fails` count calls from 0.
    pub fn new(fails: Vec<u64>) -> Failures
        ensures { result ≡ record { fails = fails.items; calls = 0; faults = 0 } }
    {
        Failures {
            fails,
            calls: 0,
            faults: 0,
        }
    }

    /// Counts one call: `true` where it is one that fails, which then counts as a fault.
    pub fn call(&mut self) -> bool
        ensures value { result ≡ is_failing self.old }
        ensures after { self.new ≡ after_call self.old }
        ensures later { self.old.faults ≤ self.new.faults }
    {
        let failing = self.fails.contains(&self.calls);
        self.calls = self.calls.saturating_add(1);
        if failing {
            self.fault();
        }
        failing
    }

    /// Counts a fault.
    pub fn fault(&mut self)
        ensures after { self.new ≡ record self.old { faults = one_more self.old.faults } }
        ensures later { self.old.faults ≤ self.new.faults }
    {
        self.faults = self.faults.saturating_add(1);
    }
}

// The place after `turn` in a list of `count` that is gone through over and over.
fn following(turn: usize, count: usize) -> usize
    requires { turn < count }
    ensures { result ≡ next_turn count turn }
{
    if turn + 1 < count { turn + 1 } else { 0 }
}

/// Bytes that are given out in pieces of the sizes in `cuts`, over and over.
#[derive(Drop)]
pub struct Pieces {
    bytes: Vec<u8>,
    at: usize,
    cuts: Vec<usize>,
    turn: usize,
}

impl Model for Pieces {
    ghost use Rattle.std.specs.Prelude.{take, drop, vec_len, ◌<◌, ◌≤◌};
    ghost use Rattle.nv_io.specs.Memory.{Cutting, AreSizes};

    ghost Value = { Cutting };

    ghost view = { λ p. record {
      taken = take p.at p.bytes.items;
      left = drop p.at p.bytes.items;
      cuts = p.cuts.items;
      turn = p.turn;
    } };

    ghost invariant = { λ p. (p.at ≤ vec_len p.bytes) × (p.turn < vec_len p.cuts)
        × AreSizes p.cuts.items };
}

impl Pieces {
    pub fn new(bytes: Vec<u8>, cuts: Vec<usize>) -> Pieces
        requires some { 0 < vec_len cuts }
        requires sizes { AreSizes cuts.items }
        ensures { result ≡ record { taken = []; left = bytes.items; cuts = cuts.items; turn = 0 } }
    {
        Pieces {
            bytes,
            at: 0,
            cuts,
            turn: 0,
        }
    }

    /// Whether all bytes were given out.
    pub fn is_empty(&self) -> bool
        ensures { IsTrue result ↔ (self.now.left ≡ []) }
    {
        self.at >= self.bytes.len()
    }

    /// Puts the next piece at the front of `into`, or as much of it as fits and is left.
    pub fn next(&mut self, into: &mut [u8]) -> usize
        requires room { 0 < length into.old }
        requires some { 0 < length self.old.left }
        ensures value { result ≡ piece_len self.old (length into.old) }
        ensures count { (0 < result) × (result ≤ length into.new)
            × (result ≤ length self.old.left) }
        ensures bytes { take result into.new ≡ take result self.old.left }
        ensures after { self.new ≡ after_piece self.old result }
    {
        let size = self.cuts[self.turn];
        let count = size.min(into.len()).min(self.bytes.len() - self.at);
        let end = self.at + count;
        into[..count].copy_from_slice(&self.bytes[self.at..end]);
        self.at = end;
        self.turn = following(self.turn, self.cuts.len());
        count
    }
}

/// The sizes of the reads of a source, in order, for as long as there was memory to keep them.
#[derive(Drop)]
pub struct Sizes {
    sizes: Vec<usize>,
    told: bool,
}

impl Model for Sizes {
    ghost use Rattle.std.specs.Prelude.{ℕ, List, if◌then◌else◌, Some, None};
    ghost use Rattle.std.specs.declared.option.Option.{Option};

    ghost Value = { Option (List ℕ) };

    ghost view = { λ s. if s.told then Some s.sizes.items else None };
}

impl Sizes {
    pub fn new(alloc: Global) -> Sizes
        ensures { result ≡ Some [] }
    {
        Sizes {
            sizes: Vec::new(alloc),
            told: true,
        }
    }

    /// Adds the size of one read.
    pub fn add(&mut self, size: usize)
        ensures { AddsSize self.old self.new size }
    {
        if self.told {
            self.told = self.sizes.push(size).is_ok();
        }
    }
}

/// A source of given bytes. It gives them in pieces of given sizes, over and over, and chosen reads
/// fail. What each read gave is told for as long as there is memory to keep its size.
#[derive(Drop)]
pub struct MemSource {
    pieces: Pieces,
    sizes: Sizes,
    failures: Failures,
}

impl Model for MemSource {
    ghost use Rattle.std.specs.Prelude.{◌≡◌, length, option_map, IfSome};
    ghost use Rattle.std.specs.List.{sum};
    ghost use Rattle.nv_io.specs.Memory.{MemReading, cut_by};

    ghost Value = { MemReading };

    ghost view = { λ s. record {
      pieces = s.pieces;
      reads = option_map (λ sizes. cut_by sizes s.pieces.taken) s.sizes;
      failures = s.failures;
    } };

    ghost invariant = { λ s. IfSome s.sizes (λ sizes. sum sizes ≡ length s.pieces.taken) };
}

impl MemSource {
    /// The numbers in `fails` are those of the reads that fail, from 0.
    pub fn new(bytes: Vec<u8>, cuts: Vec<usize>, fails: Vec<u64>) -> MemSource
        requires some { 0 < vec_len cuts }
        requires sizes { AreSizes cuts.items }
        ensures pieces { result.pieces
            ≡ record { taken = []; left = bytes.items; cuts = cuts.items; turn = 0 } }
        ensures reads { result.reads ≡ Some [] }
        ensures failures { result.failures ≡ record { fails = fails.items; calls = 0; faults = 0 } }
    {
        let sizes = Sizes::new(*bytes.allocator());
        MemSource {
            pieces: Pieces::new(bytes, cuts),
            sizes,
            failures: Failures::new(fails),
        }
    }
}

impl Source for MemSource {
    ghost words = { λ s. record {
      taken = Some s.pieces.taken;
      left = Some s.pieces.left;
      reads = s.reads;
      faults = s.failures.faults;
    } };

    fn read<R>(&mut self, _rt: &R, into: &mut [u8]) -> Got
        requires { 0 < length into.old }
        ensures count { IfBytes result (λ n. (0 < n) × (n ≤ length into.new)) }
        ensures taken { Some self.new.pieces.taken
            ≡ append_known (Some self.old.pieces.taken) (bytes_got result into.new) }
        ensures left { Some self.old.pieces.left
            ≡ prepend_known (bytes_got result into.new) (Some self.new.pieces.left) }
        ensures reads { AddsReads self.old.reads self.new.reads (bytes_got result into.new ∷ []) }
        ensures end { result ≡ Got.End → IsAtEnd (Some self.new.pieces.left) }
        ensures later { self.old.failures.faults ≤ self.new.failures.faults }
        ensures failed { result ≡ Got.Failed
            → Rose self.old.failures.faults self.new.failures.faults }

        // Just the chosen reads fail, and each piece has its size.
        ensures fails { (result ≡ Got.Failed) ↔ IsTrue (is_failing self.old.failures) }
        ensures calls { self.new.failures ≡ after_call self.old.failures }
        ensures piece { IfBytes result (λ n. n ≡ piece_len self.old.pieces (length into.old)) }
        ensures pieces { self.new.pieces ≡ after_read self.old.pieces result }
    {
        if self.failures.call() {
            self.sizes.add(0);
            return Got::Failed;
        }
        if self.pieces.is_empty() {
            self.sizes.add(0);
            return Got::End;
        }
        let count = self.pieces.next(into);
        self.sizes.add(count);
        Got::Bytes(count)
    }
}

/// A sink that keeps what it takes, at most so many bytes a write. Chosen writes fail, and so does
/// one for which there is no memory.
#[derive(Drop)]
pub struct MemSink {
    bytes: Vec<u8>,
    most: usize,
    failures: Failures,
}

impl Model for MemSink {
    ghost use Rattle.std.specs.Prelude.{◌<◌};
    ghost use Rattle.nv_io.specs.Memory.{MemWriting};

    ghost Value = { MemWriting };

    ghost view = { λ s. record { taken = s.bytes.items; most = s.most; failures = s.failures } };

    ghost invariant = { λ s. 0 < s.most };
}

impl MemSink {
    /// The numbers in `fails` are those of the writes that fail, from 0.
    pub fn new(alloc: Global, most: usize, fails: Vec<u64>) -> MemSink
        requires { 0 < most }
        ensures { result ≡ record {
          taken = [];
          most = most;
          failures = record { fails = fails.items; calls = 0; faults = 0 };
        } }
    {
        MemSink {
            bytes: Vec::new(alloc),
            most,
            failures: Failures::new(fails),
        }
    }

    /// The bytes taken so far.
    pub fn bytes(&self) -> &[u8]
        ensures { result.now ≡ self.now.taken }
    {
        &self.bytes
    }
}

impl Sink for MemSink {
    ghost words = { λ s. record {
      taken = Some s.taken;
      faults = s.failures.faults;
    } };

    fn write<R>(&mut self, _rt: &R, piece: &[u8]) -> Put
        requires { 0 < length piece.now }
        ensures count { IfTook result (λ n. (0 < n) × (n ≤ length piece.now)) }
        ensures taken { Some self.new.taken
            ≡ append_known (Some self.old.taken) (bytes_put result piece.now) }
        ensures later { self.old.failures.faults ≤ self.new.failures.faults }
        ensures failed { result ≡ Put.Failed
            → Rose self.old.failures.faults self.new.failures.faults }

        // The chosen writes fail, and each other takes all that it may, unless memory is wanting.
        ensures fails { IsTrue (is_failing self.old.failures) → result ≡ Put.Failed }
        ensures most { IfTook result (λ n. n ≡ min (length piece.now) self.old.most) }
        ensures same { self.new.most ≡ self.old.most }
    {
        if self.failures.call() {
            return Put::Failed;
        }
        let count = piece.len().min(self.most);
        if self.bytes.extend_from_slice(&piece[..count]).is_err() {
            self.failures.fault();
            return Put::Failed;
        }
        Put::Took(count)
    }

    fn finish<R>(&mut self, _rt: &R) {}
}

/// A source of given bytes that never fails. It gives them in pieces of given sizes, over and over.
#[derive(Drop)]
pub struct SureSource {
    pieces: Pieces,
}

impl Model for SureSource {
    ghost use Rattle.nv_io.specs.Memory.{Cutting};

    ghost Value = { Cutting };

    ghost view = { λ s. s.pieces };
}

impl SureSource {
    pub fn new(bytes: Vec<u8>, cuts: Vec<usize>) -> SureSource
        requires some { 0 < vec_len cuts }
        requires sizes { AreSizes cuts.items }
        ensures { result ≡ record { taken = []; left = bytes.items; cuts = cuts.items; turn = 0 } }
    {
        SureSource {
            pieces: Pieces::new(bytes, cuts),
        }
    }
}

impl Source for SureSource {
    ghost words = { λ s. record {
      taken = Some s.taken;
      left = Some s.left;
      reads = None;
      faults = 0;
    } };

    fn read<R>(&mut self, _rt: &R, into: &mut [u8]) -> Got
        requires { 0 < length into.old }
        ensures count { IfBytes result (λ n. (0 < n) × (n ≤ length into.new)) }
        ensures taken { Some self.new.taken
            ≡ append_known (Some self.old.taken) (bytes_got result into.new) }
        ensures left { Some self.old.left
            ≡ prepend_known (bytes_got result into.new) (Some self.new.left) }
        ensures end { result ≡ Got.End → IsAtEnd (Some self.new.left) }

        // No read fails, and each piece has its size.
        ensures sure { result ≢ Got.Failed }
        ensures piece { IfBytes result (λ n. n ≡ piece_len self.old (length into.old)) }
        ensures after { self.new ≡ after_read self.old result }
    {
        if self.pieces.is_empty() {
            return Got::End;
        }
        Got::Bytes(self.pieces.next(into))
    }
}

/// A sink that never fails, takes at most so many bytes a write, and keeps none of them.
#[derive(Drop)]
pub struct SureSink {
    most: usize,
}

impl Model for SureSink {
    ghost use Rattle.std.specs.Prelude.{ℕ, ◌<◌};

    ghost Value = { ℕ };

    ghost view = { λ s. s.most };

    ghost invariant = { λ s. 0 < s.most };
}

impl SureSink {
    pub fn new(most: usize) -> SureSink
        requires { 0 < most }
        ensures { result ≡ most }
    {
        SureSink { most }
    }
}

impl Sink for SureSink {
    ghost words = { λ _. record {
      taken = None;
      faults = 0;
    } };

    fn write<R>(&mut self, _rt: &R, piece: &[u8]) -> Put
        requires { 0 < length piece.now }
        ensures count { IfTook result (λ n. (0 < n) × (n ≤ length piece.now)) }

        // Each write takes all that it may.
        ensures value { result ≡ Put.Took (min (length piece.now) self.old) }
        ensures same { self.new ≡ self.old }
    {
        Put::Took(piece.len().min(self.most))
    }

    fn finish<R>(&mut self, _rt: &R) {}
}
