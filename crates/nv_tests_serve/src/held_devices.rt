//! Devices and voices of tests with running threads, which wait until others have acted, fail or
//! count.
ghost use Rattle.std.specs.Prelude.{◌≡◌, None};
ghost use Rattle.nv_linegrid.specs.Told.{nothing_told};

use nv_io::{Ended, Got, MemLane, Put, Sink, Source};
use nv_model::Limits;
use nv_painter::Painter;
use nv_screen::HeldScene;
use nv_serve::Job;
use nv_speech::Voice;
use nv_world::World;
use std::alloc::{AllocError, Global};
use std::sync::atomic::{AtomicU64, Ordering};

// A request for the number of lines, and one that ends the server.
pub(crate) const COUNT: &[u8] = b"\x94\x00\x01\xb3nvim_buf_line_count\x91\x00";

pub(crate) const QUIT: &[u8] = b"\x94\x00\x01\xacnvim_command\x91\xa5qall!";

// How often a word is looked at before one gives up.
const MOST_LOOKS: u64 = 1_000_000_000;

pub(crate) const LIMITS: Limits = Limits {
    lines: 100,
    line_bytes: 100,
    marks: 100,
    buffers: 10,
    windows: 10,
    namespaces: 10,
    groups: 10,
    uis: 10,
    ticks: 1000,
    entries: 1000,
};

// Waits until a word has come to so much; `false` where that takes too long.
pub(crate) fn comes(word: &AtomicU64, least: u64) -> bool {
    for _ in 0..MOST_LOOKS {
        if word.load(Ordering::SeqCst) >= least {
            return true;
        }
    }
    false
}

/// A source that gives a message so often, and then ends. The first so many reads are free; each
/// other one, also that of the end, waits until a word has come to so much.
#[derive(Drop)]
pub(crate) struct Asker<'a> {
    pub message: &'a [u8],
    pub count: u64,
    pub free: u64,
    pub word: &'a AtomicU64,
    pub least: u64,
    pub given: u64,
    pub faults: u64,
}

impl<'a> Source for Asker<'a> {
    ghost words = { λ s. record {
      taken = None;
      left = None;
      reads = None;
      faults = s.faults;
    } };

    fn read<R>(&mut self, _rt: &R, into: &mut [u8]) -> Got {
        if self.given >= self.free && !comes(self.word, self.least) {
            self.faults = self.faults.saturating_add(1);
            return Got::Failed;
        }
        if self.given >= self.count || self.message.is_empty() {
            return Got::End;
        }
        self.given += 1;
        let count = self.message.len().min(into.len());
        into[..count].copy_from_slice(&self.message[..count]);
        Got::Bytes(count)
    }
}

/// A sink that keeps what it takes, and counts its calls in a word as they come, and its bytes in
/// another. Each write waits until a third one has come to so much.
#[derive(Drop)]
pub(crate) struct Keeper<'a> {
    pub calls: &'a AtomicU64,
    pub taken: &'a AtomicU64,
    pub word: &'a AtomicU64,
    pub least: u64,
    pub bytes: Vec<u8>,
    pub faults: u64,
}

impl<'a> Sink for Keeper<'a> {
    ghost words = { λ s. record {
      taken = None;
      faults = s.faults;
    } };

    fn write<R>(&mut self, _rt: &R, piece: &[u8]) -> Put {
        self.calls.fetch_add(1, Ordering::SeqCst);
        if !comes(self.word, self.least) || self.bytes.extend_from_slice(piece).is_err() {
            self.faults = self.faults.saturating_add(1);
            return Put::Failed;
        }
        self.taken.fetch_add(piece.len() as u64, Ordering::SeqCst);
        Put::Took(piece.len())
    }

    fn finish<R>(&mut self, _rt: &R) {}
}

/// A sink that counts its replies in a word.
#[derive(Drop)]
pub(crate) struct Counter<'a> {
    pub word: &'a AtomicU64,
}

impl<'a> Sink for Counter<'a> {
    ghost words = { λ s. record {
      taken = None;
      faults = 0;
    } };

    fn write<R>(&mut self, _rt: &R, piece: &[u8]) -> Put {
        self.word.fetch_add(1, Ordering::SeqCst);
        Put::Took(piece.len())
    }

    fn finish<R>(&mut self, _rt: &R) {}
}

/// A source that begins with some bytes, goes on so often with others, and then ends. Where it has
/// nothing to give it fails.
#[derive(Drop)]
pub(crate) struct Speech<'a> {
    first: &'a [u8],
    then: &'a [u8],
    given: u64,
    times: u64,
    faults: u64,
}

impl<'a> Source for Speech<'a> {
    ghost words = { λ s. record {
      taken = None;
      left = None;
      reads = None;
      faults = s.faults;
    } };

    fn read<R>(&mut self, _rt: &R, into: &mut [u8]) -> Got {
        if self.given > self.times {
            return Got::End;
        }
        let piece = if self.given == 0 {
            self.first
        } else {
            self.then
        };
        if piece.is_empty() {
            self.faults = self.faults.saturating_add(1);
            return Got::Failed;
        }
        self.given = self.given.saturating_add(1);
        let count = piece.len().min(into.len());
        into[..count].copy_from_slice(&piece[..count]);
        Got::Bytes(count)
    }
}

/// A source of this message and then so often of that one.
pub(crate) fn make_speech<'a>(first: &'a [u8], then: &'a [u8], times: u64) -> Speech<'a> {
    Speech {
        first,
        then,
        given: 0,
        times,
        faults: 0,
    }
}

/// A sink that takes so many writes, and counts in a word how often it was finished.
#[derive(Drop)]
pub(crate) struct Page<'a> {
    writes: u64,
    finished: &'a AtomicU64,
    faults: u64,
}

impl<'a> Sink for Page<'a> {
    ghost words = { λ s. record {
      taken = None;
      faults = s.faults;
    } };

    fn write<R>(&mut self, _rt: &R, piece: &[u8]) -> Put {
        if self.writes == 0 {
            self.faults = self.faults.saturating_add(1);
            return Put::Failed;
        }
        self.writes -= 1;
        Put::Took(piece.len())
    }

    fn finish<R>(&mut self, _rt: &R) {
        self.finished.fetch_add(1, Ordering::SeqCst);
    }
}

/// A sink that takes so many writes.
pub(crate) fn make_page(writes: u64, finished: &AtomicU64) -> Page {
    Page {
        writes,
        finished,
        faults: 0,
    }
}

/// A voice without memory.
#[derive(Drop)]
pub(crate) struct Mute;

impl Voice for Mute {
    ghost told = { λ v. nothing_told };

    fn speak(
        &mut self,
        _alloc: Global,
        _scene: Option<HeldScene>,
        _into: &mut Vec<u8>,
    ) -> Result<(), AllocError> {
        Err(AllocError)
    }
}

/// A painter that says when it speaks first, and then waits until a word isn't 0.
#[derive(Drop)]
pub(crate) struct Slow<'a> {
    pub painter: Painter,
    pub spoke: bool,
    pub begun: &'a AtomicU64,
    pub word: &'a AtomicU64,
}

impl<'a> Voice for Slow<'a> {
    ghost told = { λ v. v.painter.told };

    fn speak(
        &mut self,
        alloc: Global,
        scene: Option<HeldScene>,
        into: &mut Vec<u8>,
    ) -> Result<(), AllocError> {
        if !self.spoke {
            self.spoke = true;
            self.begun.fetch_add(1, Ordering::SeqCst);
            if !comes(self.word, 1) {
                return Err(AllocError);
            }
        }
        Voice::speak(&mut self.painter, alloc, scene, into)
    }
}

/// A lane of one connection.
pub(crate) fn job_of<'a>(
    alloc: Global,
    link: (Asker<'a>, Keeper<'a>),
) -> Result<Job<World, MemLane<Asker<'a>, Keeper<'a>>>, AllocError>
    requires { (link.0.faults ≡ 0) × (link.1.faults ≡ 0) }
{
    let links = vec![in alloc; link]?;
    let lane = MemLane::new(alloc, links, Vec::new(alloc))?;
    Ok(Job::new(lane))
}

/// How the connections of a lane ended that came first and second, with their sessions.
pub(crate) fn ends_of(lane: &MemLane<Asker, Keeper>) -> [Option<(Ended, u64)>; 2] {
    let mut ends = lane.over().iter().map(|over| (over.how, over.session));
    [ends.next(), ends.next()]
}
