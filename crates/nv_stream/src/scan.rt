//! Going over an unfinished value once, however often bytes come.
ghost use Rattle.std.specs.Prelude.{◌≡◌, ◌+◌, ◌^◌, ◌<◌, ◌≤◌, IfOk, true, length, drop, slice_index};
ghost use Rattle.nv_msgpack.specs.Spelling.{form, width, number_in};
ghost use Rattle.nv_msgpack.specs.FirstByte.{size_of};
ghost use Rattle.nv_msgpack.specs.Within.{IsPartial};
ghost use Rattle.nv_stream.specs.inside.Scanning.{head_of, IsPlace, Shows, IsFresh};

use nv_msgpack::{Bounds, FirstByte, Length, first_byte};
use std::alloc::{AllocError, Global};

// What the head of a value tells: its first byte, and the length behind it.
pub enum Head {
    Unused,
    // So many bytes in all.
    Bytes(u64),
    // Behind so many bytes so many values.
    Values(u64, u64),
}

// What a step of a scan came to.
#[derive(Clone, Copy)]
pub enum Step {
    On,
    // The value isn't finished, and nothing is wrong with it yet.
    Waits,
    // The value may be finished or wrong.
    Stops,
}

// A place inside a value that isn't finished: what the open lists and maps still owe there.
#[derive(Drop)]
pub struct Scan {
    // The bytes before this place were gone over.
    at: usize,
    // The values that the innermost open list or map owes.
    owed: u64,
    // Those that the others owe behind the one that is open in each, outermost first.
    outer: Vec<u64>,
    // The sum of all.
    owed_in_all: u64,
}

impl Scan {
    // A scan that stands before a value.
    pub fn new(alloc: Global) -> Scan
        ensures { IsFresh result }
    {
        Scan {
            at: 0,
            owed: 1,
            outer: Vec::new(alloc),
            owed_in_all: 1,
        }
    }

    // Goes back to the front, before a value.
    pub fn restart(&mut self)
        ensures { IsFresh self.new }
    {
        self.at = 0;
        self.owed = 1;
        self.outer.clear();
        self.owed_in_all = 1;
    }

    // Goes on over the bytes. `true`: the value that they begin isn't finished, and nothing is
    // wrong with it yet.
    pub fn waits(&mut self, bytes: &[u8], bounds: Bounds) -> Result<bool, AllocError>
        requires place { IsPlace bounds.depth bounds.bytes bytes.now self.old }
        requires some { 1 ≤ bounds.bytes }
        ensures place { IsPlace bounds.depth bounds.bytes bytes.now self.new }
        ensures waits { IfOk result (λ b. b ≡ true
            → IsPartial bounds.depth bounds.bytes bytes.now) }
    {
        loop {
            match self.step(bytes, bounds)? {
                Step::On => {}
                Step::Waits => return Ok(true),
                Step::Stops => return Ok(false),
            }
        }
    }

    fn step(&mut self, bytes: &[u8], bounds: Bounds) -> Result<Step, AllocError>
        requires { IsPlace bounds.depth bounds.bytes bytes.now self.old }
        ensures place { IsPlace bounds.depth bounds.bytes bytes.now self.new }
        ensures shows { IfOk result (Shows bounds.depth bounds.bytes bytes.now self.old self.new) }
    {
        if self.owed == 0 {
            return Ok(self.close(bytes, bounds));
        }
        if self.at == bytes.len() {
            return Ok(Step::Waits);
        }
        match head_at(bytes, self.at) {
            Head::Unused => Ok(Step::Stops),
            Head::Bytes(least) => Ok(self.pass(bytes, bounds, least)),
            Head::Values(first, count) => self.open(bytes, bounds, first, count),
        }
    }

    // The innermost list or map has all its values.
    fn close(&mut self, bytes: &[u8], bounds: Bounds) -> Step
        requires place { IsPlace bounds.depth bounds.bytes bytes.now self.old }
        requires none_owed { self.old.owed ≡ 0 }
        ensures place { IsPlace bounds.depth bounds.bytes bytes.now self.new }
        ensures shows { Shows bounds.depth bounds.bytes bytes.now self.old self.new result }
    {
        match self.outer.pop() {
            Some(owed) => {
                self.owed = owed;
                Step::On
            }
            None => Step::Stops,
        }
    }

    // The bytes that the value here may have, where each value that is owed behind it takes one at
    // least.
    fn room(&self, bounds: Bounds) -> u64
        requires owed { 0 < self.now.owed }
        requires all { self.now.owed ≤ self.now.owed_in_all }
        requires fits { self.now.at + self.now.owed_in_all ≤ bounds.bytes }
        ensures { result + self.now.at + self.now.owed_in_all ≡ bounds.bytes + 1 }
    {
        bounds.bytes - self.at as u64 - (self.owed_in_all - 1)
    }

    // A value of `least` bytes stands here.
    fn pass(&mut self, bytes: &[u8], bounds: Bounds, least: u64) -> Step
        requires place { IsPlace bounds.depth bounds.bytes bytes.now self.old }
        requires owed { 0 < self.old.owed }
        requires within { self.old.at < length bytes.now }
        requires head { head_of (form (slice_index bytes.now self.old.at))
            (drop (self.old.at + 1) bytes.now) ≡ Head.Bytes least }
        ensures place { IsPlace bounds.depth bounds.bytes bytes.now self.new }
        ensures shows { Shows bounds.depth bounds.bytes bytes.now self.old self.new result }
    {
        if self.room(bounds) < least {
            return Step::Stops;
        }
        if ((bytes.len() - self.at) as u64) < least {
            return Step::Waits;
        }
        self.at += least as usize;
        self.owed -= 1;
        self.owed_in_all -= 1;
        Step::On
    }

    // A list or map of `count` values stands here, its head of `first` bytes.
    fn open(
        &mut self,
        bytes: &[u8],
        bounds: Bounds,
        first: u64,
        count: u64,
    ) -> Result<Step, AllocError>
        requires place { IsPlace bounds.depth bounds.bytes bytes.now self.old }
        requires owed { 0 < self.old.owed }
        requires within { self.old.at < length bytes.now }
        requires head { head_of (form (slice_index bytes.now self.old.at))
            (drop (self.old.at + 1) bytes.now) ≡ Head.Values first count }
        ensures place { IsPlace bounds.depth bounds.bytes bytes.now self.new }
        ensures shows { IfOk result (Shows bounds.depth bounds.bytes bytes.now self.old self.new) }
    {
        let room = self.room(bounds);
        if self.outer.len() >= bounds.depth as usize || room < first || room - first < count {
            return Ok(Step::Stops);
        }
        if ((bytes.len() - self.at) as u64) < first {
            return Ok(Step::Waits);
        }
        self.outer.push(self.owed - 1)?;
        self.owed = count;
        self.owed_in_all = self.owed_in_all - 1 + count;
        self.at += first as usize;
        Ok(Step::On)
    }
}

// The head of the value at `at`.
fn head_at(bytes: &[u8], at: usize) -> Head
    requires { at < length bytes.now }
    ensures { result ≡ head_of (form (slice_index bytes.now at)) (drop (at + 1) bytes.now) }
{
    match first_byte(bytes[at]) {
        FirstByte::Unused => Head::Unused,
        FirstByte::Nil | FirstByte::Truth(_) | FirstByte::Small(_) => Head::Bytes(1),
        FirstByte::Text(size) | FirstByte::Bin(size) => Head::Bytes(sized(bytes, at, size)),
        FirstByte::Ext(size) => Head::Bytes(sized(bytes, at, size) + 1),
        FirstByte::Unsigned(width) | FirstByte::Signed(width) | FirstByte::Float(width) => {
            Head::Bytes(1 + u64::from(width.bytes()))
        }
        FirstByte::List(size) => Head::Values(
            1 + u64::from(size.width()),
            u64::from(size.number(bytes, at + 1)),
        ),
        FirstByte::Map(size) => Head::Values(
            1 + u64::from(size.width()),
            2 * u64::from(size.number(bytes, at + 1)),
        ),
    }
}

// A first byte, its length, and as many bytes as the length says.
fn sized(bytes: &[u8], at: usize, size: Length) -> u64
    requires { at < length bytes.now }
    ensures value { result ≡ 1 + width (size_of size)
        + number_in (size_of size) (drop (at + 1) bytes.now) }
    ensures small { result < 2 ^ 33 }
{
    1 + u64::from(size.width()) + u64::from(size.number(bytes, at + 1))
}
