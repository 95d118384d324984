// The streams of the system: its reads and writes, and the standard ones.
ghost use Rattle.std.specs.Prelude.{◌≡◌, ◌<◌, ◌≤◌, length, IfSome, ℕ, List, None};
ghost use Rattle.nv_io.specs.Faults.{Rose};
ghost use Rattle.nv_io.specs.Reading.{IfBytes};
ghost use Rattle.nv_io.specs.Writing.{IfTook};
ghost use Rattle.std.specs.declared.option.Option.{Option};

use crate::streams::{Got, Put, Sink, Source, count_fault};
use std::io::{ErrorKind, Read, Stderr, Stdin, Stdout, Write};

// How often a call that a signal interrupts is tried.
const TRIES: u32 = 1024;

// Reads once, and again where a signal interrupted the read. `None` is a fault.
fn try_read<T: Read>(stream: &mut T, into: &mut [u8]) -> Option<usize>
    ensures { IfSome result (λ n. n ≤ length into.new) }
{
    for _ in 0..TRIES {
        match stream.read(into) {
            Ok(count) => return Some(count),
            Err(error) => {
                if error.kind() != ErrorKind::Interrupted {
                    return None;
                }
            }
        }
    }
    None
}

// Writes once, and again where a signal interrupted the write. `None` is a fault.
fn try_write<T: Write>(stream: &mut T, piece: &[u8]) -> Option<usize>
    ensures { IfSome result (λ n. n ≤ length piece.now) }
{
    for _ in 0..TRIES {
        match stream.write(piece) {
            Ok(count) => return Some(count),
            Err(error) => {
                if error.kind() != ErrorKind::Interrupted {
                    return None;
                }
            }
        }
    }
    None
}

/// One read of a stream of the system.
pub fn read_from<T: Read>(stream: &mut T, faults: &mut u64, into: &mut [u8]) -> Got
    requires { 0 < length into.old }
    ensures count { IfBytes result (λ n. (0 < n) × (n ≤ length into.new)) }
    ensures later { faults.old ≤ faults.new }
    ensures failed { result ≡ Got.Failed → Rose faults.old faults.new }
{
    match try_read(stream, into) {
        Some(0) => Got::End,
        Some(count) => Got::Bytes(count),
        None => {
            count_fault(faults);
            Got::Failed
        }
    }
}

/// One write to a stream of the system. That no byte of a piece was taken is a fault.
pub fn write_to<T: Write>(stream: &mut T, faults: &mut u64, piece: &[u8]) -> Put
    requires { 0 < length piece.now }
    ensures count { IfTook result (λ n. (0 < n) × (n ≤ length piece.now)) }
    ensures later { faults.old ≤ faults.new }
    ensures failed { result ≡ Put.Failed → Rose faults.old faults.new }
{
    match try_write(stream, piece) {
        None | Some(0) => {
            count_fault(faults);
            Put::Failed
        }
        Some(count) => Put::Took(count),
    }
}

/// Standard input. What it gives is not told.
#[derive(Drop)]
pub struct StdIn {
    stream: Stdin,
    faults: u64,
}

impl StdIn {
    pub fn new(stream: Stdin) -> StdIn
        ensures { (⟦<StdIn as Source>⟧.words result).faults ≡ 0 }
    {
        StdIn { stream, faults: 0 }
    }
}

impl Source for StdIn {
    ghost words = { λ s. record {
      taken = None;
      left = None;
      reads = None;
      faults = s.faults;
    } };

    fn read<R>(&mut self, _rt: &R, into: &mut [u8]) -> Got {
        read_from(&mut self.stream, &mut self.faults, into)
    }
}

/// Standard output. What it takes is not told.
#[derive(Drop)]
pub struct StdOut {
    stream: Stdout,
    faults: u64,
}

impl StdOut {
    pub fn new(stream: Stdout) -> StdOut
        ensures { (⟦<StdOut as Sink>⟧.words result).faults ≡ 0 }
    {
        StdOut { stream, faults: 0 }
    }
}

impl Sink for StdOut {
    ghost words = { λ s. record {
      taken = None;
      faults = s.faults;
    } };

    fn write<R>(&mut self, _rt: &R, piece: &[u8]) -> Put {
        write_to(&mut self.stream, &mut self.faults, piece)
    }

    fn finish<R>(&mut self, _rt: &R) {}
}

/// Standard error. What it takes is not told.
#[derive(Drop)]
pub struct StdErr {
    stream: Stderr,
    faults: u64,
}

impl StdErr {
    pub fn new(stream: Stderr) -> StdErr
        ensures { (⟦<StdErr as Sink>⟧.words result).faults ≡ 0 }
    {
        StdErr { stream, faults: 0 }
    }
}

impl Sink for StdErr {
    ghost words = { λ s. record {
      taken = None;
      faults = s.faults;
    } };

    fn write<R>(&mut self, _rt: &R, piece: &[u8]) -> Put {
        write_to(&mut self.stream, &mut self.faults, piece)
    }

    fn finish<R>(&mut self, _rt: &R) {}
}
