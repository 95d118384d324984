//! The server over a port and files in memory: what came back, what was told, and what was kept.
use crate::in_memory::{lane_of, left_of, left_of_port, sink};
use crate::replays::is_right;
use nv_io::{Ended, MemFiles, MemPort, MemSink, MemSource};
use nv_watch::Counter;
use std::alloc::{AllocError, Global};
use std::fs::File;
use std::net::{Net, TcpListener, TcpStream};
use std::rt::Files;
use std::sync::Wait;
use std::test::Fail;
use std::thread::Threads;

// A request that sets the whole text, and its reply; and one for the number of lines.
const SET: &[u8] = b"\x94\x00\x01\xb2nvim_buf_set_lines\x95\x00\x00\xff\xc3\x91\xa1a";

const REPLY: &[u8] = b"\x94\x01\x01\xc0\xc0";

const COUNT: &[u8] = b"\x94\x00\x01\xb3nvim_buf_line_count\x91\x00";

// What is told of a run: its status, how many lanes came back, the length of the history, and the
// end of the first connection of each lane, where there is one.
type Told = (u8, usize, usize, [Option<Ended>; 2]);

// The end of the first connection of a lane that came back, where what went out by it is a reply,
// or nothing where it had no session.
fn end_of(port: &MemPort<MemSource, MemSink>, place: usize) -> Option<Ended> {
    let over = port.returned().get(place)?.over().first()?;
    let output = if over.session == 0 {
        b"".as_slice()
    } else {
        REPLY
    };
    if over.output.bytes() == output {
        Some(over.how)
    } else {
        None
    }
}

// A port of two lanes of one connection each, by which a text is set. Of it such calls fail, and of
// its first lane.
fn port_of_two(
    alloc: Global,
    fails: &[u64],
    lane_fails: &[u64],
) -> Result<MemPort<MemSource, MemSink>, AllocError> {
    let fails = Vec::from_slice(alloc, fails)?;
    let one = lane_of(alloc, SET, lane_fails)?;
    let other = lane_of(alloc, SET, &[])?;
    MemPort::new(alloc, vec![in alloc; one, other]?, fails)
}

// Serves two sessions at once, over a port that is lent, and tells of it.
fn told_of<
    R: Files<File = File> + Net<Listener = TcpListener, Stream = TcpStream> + Threads + Wait + Sync,
>(rt: &R, alloc: Global, port: &mut MemPort<MemSource, MemSink>) -> Result<Told, AllocError> {
    let words = ["serve", "--listen", "/a", "--sessions", "2"];
    let left = left_of_port(rt, alloc, &words, port)?;
    let ends = [end_of(port, 0), end_of(port, 1)];
    Ok((left.status, port.returned().len(), left.kept.len(), ends))
}

// The same. The numbers in `fails` are those of the calls of the port that fail.
fn told<
    R: Files<File = File> + Net<Listener = TcpListener, Stream = TcpStream> + Threads + Wait + Sync,
>(rt: &R, alloc: Global, fails: &[u64], lane_fails: &[u64]) -> Result<Told, AllocError> {
    let mut port = port_of_two(alloc, fails, lane_fails)?;
    told_of(rt, alloc, &mut port)
}

// Nothing fails; the first call of the port does, `listen`, or the third, the second `lane`; or the
// `accept` of one lane, where the other goes on.
fn all_told<
    R: Files<File = File> + Net<Listener = TcpListener, Stream = TcpStream> + Threads + Wait + Sync,
>(rt: &R, alloc: Global) -> Result<[Told; 4], AllocError> {
    Ok([
        told(rt, alloc, &[], &[])?,
        told(rt, alloc, &[0], &[])?,
        told(rt, alloc, &[2], &[])?,
        told(rt, alloc, &[], &[0])?,
    ])
}

#[test]
fn two_sessions_are_served(rt: HostRuntime) -> Result<(), Fail> {
    let closed = Some(Ended::Closed);
    let met = all_told(&rt, rt.alloc())?;
    assert!(rt;
        met == [
            (0, 2, 8, [closed, closed]),
            (5, 0, 0, [None, None]),
            (5, 1, 0, [None, None]),
            (5, 2, 4, [None, closed]),
        ]
    );
    Ok(())
}

// A port of one lane of one connection, by which a request comes in.
fn port_of_one(alloc: Global) -> Result<MemPort<MemSource, MemSink>, AllocError> {
    let lane = lane_of(alloc, COUNT, &[])?;
    MemPort::new(alloc, vec![in alloc; lane]?, Vec::new(alloc))
}

// The status of a server of one session over files that are lent.
fn status_served<
    R: Files<File = File> + Net<Listener = TcpListener, Stream = TcpStream> + Threads + Wait + Sync,
>(rt: &R, alloc: Global, files: &mut MemFiles) -> Result<u8, AllocError> {
    let mut port = port_of_one(alloc)?;
    let words = ["serve", "--listen", "/a", "--sessions=1", "--book", "b"];
    let watchers = Vec::<Counter>::new(alloc);
    let left = left_of(rt, alloc, &words, files, &mut port, watchers)?;
    Ok(left.status)
}

// The same, and whether the book that it leaves is checked without a fault.
fn served<
    R: Files<File = File> + Net<Listener = TcpListener, Stream = TcpStream> + Threads + Wait + Sync,
>(rt: &R, alloc: Global, files: &mut MemFiles) -> Result<(u8, bool), AllocError> {
    let status = status_served(rt, alloc, files)?;
    let book = files
        .sinks()
        .first()
        .map_or(b"".as_slice(), |sink| sink.bytes());
    Ok((status, is_right(rt, alloc, book)?))
}

// One file to be written, of whose writes such fail, where such calls fail.
fn book_file(alloc: Global, writes: &[u64], calls: &[u64]) -> Result<MemFiles, AllocError> {
    let calls = Vec::from_slice(alloc, calls)?;
    let file = sink(alloc, 7, writes)?;
    MemFiles::new(alloc, Vec::new(alloc), vec![in alloc; file]?, calls)
}

// The same of a server whose book is such a file.
fn serve_one<
    R: Files<File = File> + Net<Listener = TcpListener, Stream = TcpStream> + Threads + Wait + Sync,
>(rt: &R, alloc: Global, writes: &[u64], calls: &[u64]) -> Result<(u8, bool), AllocError> {
    let mut files = book_file(alloc, writes, calls)?;
    served(rt, alloc, &mut files)
}

// Nothing fails, a write does, or the file can't be made.
fn all_served<
    R: Files<File = File> + Net<Listener = TcpListener, Stream = TcpStream> + Threads + Wait + Sync,
>(rt: &R, alloc: Global) -> Result<[(u8, bool); 3], AllocError> {
    Ok([
        serve_one(rt, alloc, &[], &[])?,
        serve_one(rt, alloc, &[3], &[])?,
        serve_one(rt, alloc, &[], &[0])?,
    ])
}

// The book of a server is that of its history; where its file fails that is told.
#[test]
fn a_server_leaves_its_book(rt: HostRuntime) -> Result<(), Fail> {
    let met = all_served(&rt, rt.alloc())?;
    assert!(rt; met == [(0, true), (4, false), (4, false)]);
    Ok(())
}
