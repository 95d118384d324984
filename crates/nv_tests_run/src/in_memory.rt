//! The command over devices in memory, as the tests run it, and what a run leaves.
ghost use Rattle.std.specs.Prelude.{◌≡◌, ◌<◌, [], IfOk, Some};
ghost use Rattle.nv_io.specs.Known.{IsUnread, IsUnused};

use nv_core::{Event, History};
use nv_io::{MemDial, MemFiles, MemLane, MemPort, MemSink, MemSource};
use nv_run::run;
use nv_watch::{Counter, Watcher};
use std::alloc::{AllocError, Global};
use std::fs::File;
use std::net::{Net, TcpListener, TcpStream};
use std::rt::Files;
use std::sync::Wait;
use std::thread::Threads;

/// What a run left: its status, what went out, the line that tells it, and the history by the
/// letters of its entries.
#[derive(Drop)]
pub(crate) struct Left {
    pub status: u8,
    pub output: Vec<u8>,
    pub line: Vec<u8>,
    pub kept: Vec<u8>,
}

/// What a run is to leave: what went out, its status, and the line that tells it.
#[derive(Clone, Copy)]
pub(crate) struct Wanted<'a> {
    pub output: &'a [u8],
    pub status: u8,
    pub line: &'a [u8],
}

/// A source that gives these bytes in pieces of one size, and of which such reads fail.
pub(crate) fn source(
    alloc: Global,
    bytes: &[u8],
    cut: usize,
    fails: &[u64],
) -> Result<MemSource, AllocError>
    requires { 0 < cut }
    ensures { IfOk result (λ s. IsUnread (Some s.pieces.taken) s.reads s.failures.faults) }
{
    let bytes = Vec::from_slice(alloc, bytes)?;
    let cuts = vec![in alloc; cut]?;
    Ok(MemSource::new(bytes, cuts, Vec::from_slice(alloc, fails)?))
}

/// A sink that takes at most so many bytes a write, and of which such writes fail.
pub(crate) fn sink(alloc: Global, most: usize, fails: &[u64]) -> Result<MemSink, AllocError>
    requires { 0 < most }
    ensures { IfOk result (λ s. IsUnused (Some s.taken) s.failures.faults) }
{
    Ok(MemSink::new(alloc, most, Vec::from_slice(alloc, fails)?))
}

/// One file of these bytes, of which such reads fail.
pub(crate) fn file_of(alloc: Global, bytes: &[u8], fails: &[u64]) -> Result<MemFiles, AllocError> {
    let file = source(alloc, bytes, 7, fails)?;
    let files = vec![in alloc; file]?;
    MemFiles::new(alloc, files, Vec::new(alloc), Vec::new(alloc))
}

/// A lane of one connection, by which these bytes come in, and of which such calls fail.
pub(crate) fn lane_of(
    alloc: Global,
    bytes: &[u8],
    fails: &[u64],
) -> Result<MemLane<MemSource, MemSink>, AllocError>
    ensures { IfOk result (λ lane. (lane.shelf.back ≡ []) × (lane.shelf.out ≡ 0)
        × (lane.failures.faults ≡ 0)) }
{
    let fails = Vec::from_slice(alloc, fails)?;
    let input = source(alloc, bytes, 8, &[])?;
    let output = MemSink::new(alloc, 64, Vec::new(alloc));
    MemLane::new(alloc, vec![in alloc; (input, output)]?, fails)
}

// Runs over devices that are lent: the status, and the history.
fn ran<
    R: Files<File = File> + Net<Listener = TcpListener, Stream = TcpStream> + Threads + Wait + Sync,
    W: Watcher,
>(
    rt: &R,
    alloc: Global,
    words: &[&str],
    input: &mut MemSource,
    output: &mut MemSink,
    errors: &mut MemSink,
    files: &mut MemFiles,
    port: &mut MemPort<MemSource, MemSink>,
    watchers: Vec<W>,
) -> (u8, History) {
    let mut kept = History::new(alloc);
    let dial = MemDial::<MemSource, MemSink>::new(alloc, Vec::new(alloc), Vec::new(alloc));
    let Ok(mut dial) = dial else {
        return (1, kept);
    };
    let status = run(
        rt, alloc, words, input, output, errors, files, port, &mut dial, watchers, &mut kept,
    );
    (status, kept)
}

// The letters of what was kept, each that of an event, Open, Request, Take or Close, where the
// caller is 0.
fn letters(alloc: Global, kept: &History) -> Result<Vec<u8>, AllocError> {
    let mut letters = Vec::new(alloc);
    for entry in kept.entries() {
        let letter = match &entry.event {
            Event::Open => b'O',
            Event::Request { .. } => b'R',
            Event::Take { .. } => b'T',
            Event::Close { .. } => b'C',
        };
        letters.push(if entry.caller == 0 { letter } else { b'?' })?;
    }
    Ok(letters)
}

// What a run left by its status, its sinks and its history.
fn left_by(
    alloc: Global,
    status: u8,
    output: &MemSink,
    errors: &MemSink,
    kept: &History,
) -> Result<Left, AllocError> {
    let output = Vec::from_slice(alloc, output.bytes())?;
    let line = Vec::from_slice(alloc, errors.bytes())?;
    let kept = letters(alloc, kept)?;
    Ok(Left {
        status,
        output,
        line,
        kept,
    })
}

// What a run leaves over devices that are lent.
fn left_over<
    R: Files<File = File> + Net<Listener = TcpListener, Stream = TcpStream> + Threads + Wait + Sync,
    W: Watcher,
>(
    rt: &R,
    alloc: Global,
    words: &[&str],
    input: &mut MemSource,
    output: &mut MemSink,
    errors: &mut MemSink,
    files: &mut MemFiles,
    port: &mut MemPort<MemSource, MemSink>,
    watchers: Vec<W>,
) -> Result<Left, AllocError> {
    let (status, kept) = ran(
        rt, alloc, words, input, output, errors, files, port, watchers,
    );
    left_by(alloc, status, output, errors, &kept)
}

/// What a run leaves over such files and such a port, where nothing comes in elsewhere.
pub(crate) fn left_of<
    R: Files<File = File> + Net<Listener = TcpListener, Stream = TcpStream> + Threads + Wait + Sync,
    W: Watcher,
>(
    rt: &R,
    alloc: Global,
    words: &[&str],
    files: &mut MemFiles,
    port: &mut MemPort<MemSource, MemSink>,
    watchers: Vec<W>,
) -> Result<Left, AllocError> {
    let mut input = source(alloc, b"", 1, &[])?;
    let mut output = MemSink::new(alloc, 4_096, Vec::new(alloc));
    let mut errors = MemSink::new(alloc, 4_096, Vec::new(alloc));
    left_over(
        rt,
        alloc,
        words,
        &mut input,
        &mut output,
        &mut errors,
        files,
        port,
        watchers,
    )
}

/// What a run leaves over such files, and a port without lanes.
pub(crate) fn left_of_files<
    R: Files<File = File> + Net<Listener = TcpListener, Stream = TcpStream> + Threads + Wait + Sync,
    W: Watcher,
>(
    rt: &R,
    alloc: Global,
    words: &[&str],
    files: &mut MemFiles,
    watchers: Vec<W>,
) -> Result<Left, AllocError> {
    let mut port = MemPort::new(alloc, Vec::new(alloc), Vec::new(alloc))?;
    left_of(rt, alloc, words, files, &mut port, watchers)
}

/// What a run leaves over such a port, without files.
pub(crate) fn left_of_port<
    R: Files<File = File> + Net<Listener = TcpListener, Stream = TcpStream> + Threads + Wait + Sync,
>(
    rt: &R,
    alloc: Global,
    words: &[&str],
    port: &mut MemPort<MemSource, MemSink>,
) -> Result<Left, AllocError> {
    let mut files = MemFiles::new(alloc, Vec::new(alloc), Vec::new(alloc), Vec::new(alloc))?;
    left_of(
        rt,
        alloc,
        words,
        &mut files,
        port,
        Vec::<Counter>::new(alloc),
    )
}

// What a run leaves over devices that are lent, and over a port without lanes.
fn left_without_lanes<
    R: Files<File = File> + Net<Listener = TcpListener, Stream = TcpStream> + Threads + Wait + Sync,
>(
    rt: &R,
    alloc: Global,
    words: &[&str],
    input: &mut MemSource,
    output: &mut MemSink,
    errors: &mut MemSink,
    files: &mut MemFiles,
) -> Result<Left, AllocError> {
    let mut port = MemPort::new(alloc, Vec::new(alloc), Vec::new(alloc))?;
    let watchers = Vec::<Counter>::new(alloc);
    left_over(
        rt, alloc, words, input, output, errors, files, &mut port, watchers,
    )
}

// The same, and without files.
fn left_alone<
    R: Files<File = File> + Net<Listener = TcpListener, Stream = TcpStream> + Threads + Wait + Sync,
>(
    rt: &R,
    alloc: Global,
    words: &[&str],
    input: &mut MemSource,
    output: &mut MemSink,
    errors: &mut MemSink,
) -> Result<Left, AllocError> {
    let mut files = MemFiles::new(alloc, Vec::new(alloc), Vec::new(alloc), Vec::new(alloc))?;
    left_without_lanes(rt, alloc, words, input, output, errors, &mut files)
}

// The same, where such writes of lines fail.
fn left_told<
    R: Files<File = File> + Net<Listener = TcpListener, Stream = TcpStream> + Threads + Wait + Sync,
>(
    rt: &R,
    alloc: Global,
    words: &[&str],
    input: &mut MemSource,
    output: &mut MemSink,
    fails: &[u64],
) -> Result<Left, AllocError> {
    let mut errors = sink(alloc, 4_096, fails)?;
    left_alone(rt, alloc, words, input, output, &mut errors)
}

/// What a run leaves, without files and lanes, where these bytes come in by pieces of one size, and
/// at most so many go out in a write. Of its devices such reads, writes and writes of lines fail.
pub(crate) fn session_left<
    R: Files<File = File> + Net<Listener = TcpListener, Stream = TcpStream> + Threads + Wait + Sync,
>(
    rt: &R,
    alloc: Global,
    words: &[&str],
    bytes: &[u8],
    cut: usize,
    most: usize,
    fails: [&[u64]; 3],
) -> Result<Left, AllocError>
    requires cut { 0 < cut }
    requires most { 0 < most }
{
    let mut input = source(alloc, bytes, cut, fails[0])?;
    let mut output = sink(alloc, most, fails[1])?;
    left_told(rt, alloc, words, &mut input, &mut output, fails[2])
}

/// Whether a run left this.
pub(crate) fn is_left(left: &Left, wanted: &Wanted) -> bool {
    left.status == wanted.status
        && left.output.as_slice() == wanted.output
        && left.line.as_slice() == wanted.line
}
