//! Books over files in memory: replays and checks, books that are cut, and watchers that say no or
//! want memory.
use crate::in_memory::{Left, Wanted, file_of, is_left, left_of_files};
use nv_watch::{Verdict, Watcher};
use nv_world::{Step, World};
use std::alloc::{AllocError, Global};
use std::cell::Cell;
use std::fs::File;
use std::net::{Net, TcpListener, TcpStream};
use std::rc::Rc;
use std::rt::Files;
use std::sync::Wait;
use std::test::Fail;
use std::thread::Threads;

// The book of a session that asks for the number of lines, takes the reply and is closed; where its
// values begin; what a replay of it writes, and what is told of it where it is checked.
const BOOK: &[u8] = b"\x93\xaanvimd-book\x01\xcd\x10\x00\x92\xa1o\x00\
    \x96\xa1r\x00\x01\x01\xb3nvim_buf_line_count\x91\x00\x94\xa1t\x00\x01\x01\
    \xc4\x05\x94\x01\x01\xc0\x01\x93\xa1c\x00\x01\x92\xa3end\x04";

fn whole() -> &'static [u8] {
    BOOK
}

const BEGINNINGS: [usize; 7] = [0, 16, 20, 48, 54, 61, 66];

const REPLAY: &[u8] = b"\x93\x02\x01\xc4\x05\x94\x01\x01\xc0\x01";

const CHECKED: &[u8] = b"entries 4 sessions 1 takes 1 bytes 5 ok\n";

// The same book with another byte at the end of the output.
const OTHER: &[u8] = b"\x93\xaanvimd-book\x01\xcd\x10\x00\x92\xa1o\x00\
    \x96\xa1r\x00\x01\x01\xb3nvim_buf_line_count\x91\x00\x94\xa1t\x00\x01\x01\
    \xc4\x05\x94\x01\x01\xc0\x02\x93\xa1c\x00\x01\x92\xa3end\x04";

// How a watcher behaves: it agrees, says no from entry 1 on, or wants memory.
#[derive(Clone, Copy, PartialEq, Eq)]
enum Manner {
    Agrees,
    Doubts,
    Wants,
}

// A watcher that counts the steps that it is shown, and its end. It tells nothing of the steps.
struct Tester {
    manner: Manner,
    verdict: Verdict,
    steps: Rc<Cell<u64>>,
    drops: Rc<Cell<u64>>,
}

impl Drop for Tester {
    fn drop(self) {
        let Tester {
            manner: _,
            verdict: _,
            steps: _,
            drops,
        } = self;
        drops.set(drops.get().saturating_add(1));
    }
}

impl Watcher for Tester {
    ghost HasSeen = { λ w seen. ⊥ };

    ghost Breaks = { λ w before x. ⊥ };

    ghost IsBehind = { λ w seen. ⊥ };

    fn see(&mut self, _world: &World, step: &Step) -> Result<(), AllocError> {
        self.steps.set(self.steps.get().saturating_add(1));
        if self.manner == Manner::Wants {
            return Err(AllocError);
        }
        if self.manner == Manner::Doubts && step.at >= 1 {
            self.verdict = Verdict::No(1);
        }
        Ok(())
    }

    fn glance(&mut self, world: &World, step: &Step) -> Result<(), AllocError> {
        self.see(world, step)?;
        Ok(())
    }

    fn catch_up(&mut self, _world: &World) -> Result<(), AllocError> {
        Ok(())
    }

    fn verdict(&self) -> Verdict {
        self.verdict
    }
}

// A book is played again before watchers: what goes out, the status, the line that tells it, and
// how many steps each of them is shown.
struct Check {
    name: &'static str,
    words: &'static [&'static str],
    book: &'static [u8],
    manners: &'static [Manner],
    output: &'static [u8],
    status: u8,
    line: &'static [u8],
    steps: &'static [u64],
}

const CHECK: &[&str] = &["replay", "book", "--check"];

// Watchers that say no, or want memory.
fn objections() -> &'static [Check] {
    &[
        Check {
            name: "the second watcher says no",
            words: CHECK,
            book: BOOK,
            manners: &[Manner::Agrees, Manner::Doubts],
            output: b"",
            status: 8,
            line: b"nvimd: watcher 1 says no at entry 1\n",
            steps: &[4, 4],
        },
        Check {
            name: "the second watcher wants memory",
            words: CHECK,
            book: BOOK,
            manners: &[Manner::Agrees, Manner::Wants],
            output: b"",
            status: 1,
            line: b"nvimd: out of memory\n",
            steps: &[1, 1],
        },
    ]
}

// Three watchers, for each status.
fn endings() -> &'static [Check] {
    &[
        Check {
            name: "they agree",
            words: CHECK,
            book: BOOK,
            manners: &[Manner::Agrees, Manner::Agrees, Manner::Agrees],
            output: CHECKED,
            status: 0,
            line: b"",
            steps: &[4, 4, 4],
        },
        Check {
            name: "the first one wants memory",
            words: CHECK,
            book: BOOK,
            manners: &[Manner::Wants, Manner::Agrees, Manner::Agrees],
            output: b"",
            status: 1,
            line: b"nvimd: out of memory\n",
            steps: &[1, 0, 0],
        },
        Check {
            name: "the words are refused",
            words: &["replay"],
            book: BOOK,
            manners: &[Manner::Agrees, Manner::Agrees, Manner::Agrees],
            output: b"",
            status: 2,
            line: b"nvimd: bad command line\n",
            steps: &[0, 0, 0],
        },
        Check {
            name: "the first and the last say no",
            words: CHECK,
            book: BOOK,
            manners: &[Manner::Doubts, Manner::Agrees, Manner::Doubts],
            output: b"",
            status: 8,
            line: b"nvimd: watcher 0 says no at entry 1\n",
            steps: &[4, 4, 4],
        },
    ]
}

// Books without watchers: a replay, another output, and a book without its last value.
fn books() -> &'static [Check] {
    &[
        Check {
            name: "a replay",
            words: &["replay", "book"],
            book: BOOK,
            manners: &[],
            output: REPLAY,
            status: 0,
            line: b"",
            steps: &[],
        },
        Check {
            name: "another output is kept",
            words: &["replay", "--check", "book"],
            book: OTHER,
            manners: &[],
            output: b"",
            status: 8,
            line: b"nvimd: check differs at entry 2\n",
            steps: &[],
        },
    ]
}

// What a replay leaves of a book of which such reads fail.
fn replay_left<
    R: Files<File = File> + Net<Listener = TcpListener, Stream = TcpStream> + Threads + Wait + Sync,
>(
    rt: &R,
    alloc: Global,
    words: &[&str],
    book: &[u8],
    fails: &[u64],
    testers: Vec<Tester>,
) -> Result<Left, AllocError> {
    let mut files = file_of(alloc, book, fails)?;
    left_of_files(rt, alloc, words, &mut files, testers)
}

// Whether a replay of a book of which such reads fail, before such watchers, leaves this.
fn is_played<
    R: Files<File = File> + Net<Listener = TcpListener, Stream = TcpStream> + Threads + Wait + Sync,
>(
    rt: &R,
    alloc: Global,
    words: &[&str],
    book: &[u8],
    fails: &[u64],
    testers: Vec<Tester>,
    wanted: &Wanted,
) -> Result<bool, AllocError> {
    let left = replay_left(rt, alloc, words, book, fails, testers)?;
    Ok(is_left(&left, wanted))
}

/// Whether the book of a server is checked without a fault.
pub(crate) fn is_right<
    R: Files<File = File> + Net<Listener = TcpListener, Stream = TcpStream> + Threads + Wait + Sync,
>(rt: &R, alloc: Global, book: &[u8]) -> Result<bool, AllocError> {
    let none = Vec::new(alloc);
    let wanted = Wanted {
        output: CHECKED,
        status: 0,
        line: b"",
    };
    is_played(rt, alloc, CHECK, book, &[], none, &wanted)
}

// Where the value begins that a book lacks of which so many bytes came.
fn place_of_fault(came: usize) -> usize {
    let mut place = 0;
    for beginning in BEGINNINGS {
        if beginning <= came {
            place = beginning;
        }
    }
    place
}

// Whether a beginning of the book is told as malformed where its value begins that isn't whole.
fn is_cut_told<
    R: Files<File = File> + Net<Listener = TcpListener, Stream = TcpStream> + Threads + Wait + Sync,
>(rt: &R, alloc: Global, front: &[u8]) -> Result<bool, AllocError> {
    let place = place_of_fault(front.len());
    let line = format!(in alloc; "nvimd: malformed book at {place}\n")?;
    let none = Vec::new(alloc);
    let wanted = Wanted {
        output: b"",
        status: 6,
        line: line.as_bytes(),
    };
    is_played(rt, alloc, &["replay", "book"], front, &[], none, &wanted)
}

/// Whether each beginning of the book is.
pub(crate) fn are_cuts_told<
    R: Files<File = File> + Net<Listener = TcpListener, Stream = TcpStream> + Threads + Wait + Sync,
>(rt: &R, alloc: Global) -> Result<bool, AllocError> {
    let book = whole();
    for came in 0..book.len() {
        if !is_cut_told(rt, alloc, &book[..came])? {
            return Ok(false);
        }
    }
    Ok(true)
}

/// Whether a replay whose book can't be read is told so.
pub(crate) fn is_fault_told<
    R: Files<File = File> + Net<Listener = TcpListener, Stream = TcpStream> + Threads + Wait + Sync,
>(rt: &R, alloc: Global) -> Result<bool, AllocError> {
    let none = Vec::new(alloc);
    let wanted = Wanted {
        output: b"",
        status: 3,
        line: b"nvimd: read fault\n",
    };
    is_played(rt, alloc, &["replay", "book"], whole(), &[0], none, &wanted)
}

// One more watcher of such a manner, and the cell in which it counts its steps.
fn put_tester(
    alloc: Global,
    manner: Manner,
    drops: &Rc<Cell<u64>>,
    testers: &mut Vec<Tester>,
    steps: &mut Vec<Rc<Cell<u64>>>,
) -> Result<(), AllocError> {
    let seen = Rc::new(alloc, Cell::new(0))?;
    steps.push(seen.clone()?)?;
    testers.push(Tester {
        manner,
        verdict: Verdict::Yes,
        steps: seen,
        drops: drops.clone()?,
    })?;
    Ok(())
}

// Watchers of such manners, and the cells in which each counts its steps and all count their ends.
fn testers_of(
    alloc: Global,
    manners: &[Manner],
    drops: &Rc<Cell<u64>>,
) -> Result<(Vec<Tester>, Vec<Rc<Cell<u64>>>), AllocError> {
    let mut testers = Vec::new(alloc);
    let mut steps = Vec::new(alloc);
    for manner in manners {
        put_tester(alloc, *manner, drops, &mut testers, &mut steps)?;
    }
    Ok((testers, steps))
}

// Whether each watcher was shown so many steps.
fn are_shown(steps: &[Rc<Cell<u64>>], shown: &[u64]) -> bool {
    steps
        .iter()
        .map(|seen| seen.get())
        .eq(shown.iter().copied())
}

// Whether a check goes as it is said, and each of its watchers is dropped.
fn is_checked<
    R: Files<File = File> + Net<Listener = TcpListener, Stream = TcpStream> + Threads + Wait + Sync,
>(rt: &R, alloc: Global, check: &Check) -> Result<bool, AllocError> {
    let drops = Rc::new(alloc, Cell::new(0u64))?;
    let (testers, steps) = testers_of(alloc, check.manners, &drops)?;
    let wanted = Wanted {
        output: check.output,
        status: check.status,
        line: check.line,
    };
    let is_played = is_played(rt, alloc, check.words, check.book, &[], testers, &wanted)?;
    Ok(is_played && drops.get() == check.manners.len() as u64 && are_shown(&steps, check.steps))
}

// The first check that goes another way.
fn first_wrong<
    R: Files<File = File> + Net<Listener = TcpListener, Stream = TcpStream> + Threads + Wait + Sync,
>(rt: &R, alloc: Global, checks: &[Check]) -> Result<Option<&'static str>, AllocError> {
    for check in checks {
        if !is_checked(rt, alloc, check)? {
            return Ok(Some(check.name));
        }
    }
    Ok(None)
}

/// The first check that goes another way where a watcher says no or wants memory.
pub(crate) fn are_objections_told<
    R: Files<File = File> + Net<Listener = TcpListener, Stream = TcpStream> + Threads + Wait + Sync,
>(rt: &R, alloc: Global) -> Result<Option<&'static str>, AllocError> {
    first_wrong(rt, alloc, objections())
}

#[test]
fn books_are_replayed(rt: HostRuntime) -> Result<(), Fail> {
    assert_eq!(rt; first_wrong(&rt, rt.alloc(), books())?, None);
    Ok(())
}

// Whatever the status, each watcher is dropped once.
#[test]
fn watchers_dropped(rt: HostRuntime) -> Result<(), Fail> {
    assert_eq!(rt; first_wrong(&rt, rt.alloc(), endings())?, None);
    Ok(())
}
