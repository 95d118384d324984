//! A client that follows a buffer, over a connection in memory: of what a server wrote, of a server
//! that refuses it, and where no connection is made.

use crate::in_memory::{lane_of, left_of_port, sink, source};
use nv_core::History;
use nv_io::{MemDial, MemFiles, MemPort, MemSink, MemSource};
use nv_run::run;
use nv_watch::Counter;
use std::alloc::{AllocError, Global};
use std::fs::File;
use std::net::{Net, TcpListener, TcpStream};
use std::rt::Files;
use std::sync::Wait;
use std::test::Fail;
use std::thread::Threads;

// The request of a client of buffer 1; and with it, those of a session that sets the whole text
// twice.
const ATTACH: &[u8] = b"\x94\x00\x01\xafnvim_buf_attach\x93\x01\xc3\x80";

const EDITS: &[u8] = b"\x94\x00\x01\xafnvim_buf_attach\x93\x01\xc3\x80\
    \x94\x00\x02\xb2nvim_buf_set_lines\x95\x00\x00\xff\xc3\x92\xa1a\xa1b\
    \x94\x00\x03\xb2nvim_buf_set_lines\x95\x00\x00\x01\xc3\x90";

const TEXTS: &[u8] = b"tick 2 lines 1\n\ntick 3 lines 2\na\nb\ntick 4 lines 1\nb\n";

const REFUSAL: &[u8] = b"\x94\x01\x01\x92\x01\xb4Invalid buffer id: 1\xc0";

/// What following leaves: its status, what went out, the line that tells it, and what the server
/// was sent.
#[derive(Drop)]
struct Left {
    status: u8,
    output: Vec<u8>,
    line: Vec<u8>,
    asked: Vec<u8>,
}

// What a server writes to its one session, by which these bytes come in.
fn served<
    R: Files<File = File> + Net<Listener = TcpListener, Stream = TcpStream> + Threads + Wait + Sync,
>(rt: &R, alloc: Global, bytes: &[u8]) -> Result<Vec<u8>, AllocError> {
    let lane = lane_of(alloc, bytes, &[])?;
    let mut port = MemPort::new(alloc, vec![in alloc; lane]?, Vec::new(alloc))?;
    left_of_port(
        rt,
        alloc,
        &["serve", "--listen", "/a", "--sessions=1"],
        &mut port,
    )?;
    let lane = port.returned().first();
    let over = lane.and_then(|lane| lane.over().first());
    Vec::from_slice(
        alloc,
        over.map_or(b"".as_slice(), |over| over.output.bytes()),
    )
}

// A dial of one connection, by which these bytes come, and of which such calls fail.
fn dial_of(
    alloc: Global,
    bytes: &[u8],
    fails: &[u64],
) -> Result<MemDial<MemSource, MemSink>, AllocError> {
    let input = source(alloc, bytes, 3, &[])?;
    let output = sink(alloc, 5, &[])?;
    MemDial::new(
        alloc,
        vec![in alloc; (input, output)]?,
        Vec::from_slice(alloc, fails)?,
    )
}

// Follows buffer 1 over such a dial.
fn left_by<
    R: Files<File = File> + Net<Listener = TcpListener, Stream = TcpStream> + Threads + Wait + Sync,
>(rt: &R, alloc: Global, dial: &mut MemDial<MemSource, MemSink>) -> Result<Left, AllocError> {
    let mut output = sink(alloc, 4, &[])?;
    let mut errors = sink(alloc, 64, &[])?;
    let status = run(
        rt,
        alloc,
        &["follow", "/a", "1"],
        &mut source(alloc, b"", 1, &[])?,
        &mut output,
        &mut errors,
        &mut MemFiles::new(alloc, Vec::new(alloc), Vec::new(alloc), Vec::new(alloc))?,
        &mut MemPort::<MemSource, MemSink>::new(alloc, Vec::new(alloc), Vec::new(alloc))?,
        dial,
        Vec::<Counter>::new(alloc),
        &mut History::new(alloc),
    );
    let asked = dial.returned().first();
    Ok(Left {
        status,
        output: Vec::from_slice(alloc, output.bytes())?,
        line: Vec::from_slice(alloc, errors.bytes())?,
        asked: Vec::from_slice(
            alloc,
            asked.map_or(b"".as_slice(), |halves| halves.1.bytes()),
        )?,
    })
}

// The same of a server that sends these bytes, where such calls of the dial fail.
fn followed<
    R: Files<File = File> + Net<Listener = TcpListener, Stream = TcpStream> + Threads + Wait + Sync,
>(rt: &R, alloc: Global, bytes: &[u8], fails: &[u64]) -> Result<Left, AllocError> {
    let mut dial = dial_of(alloc, bytes, fails)?;
    left_by(rt, alloc, &mut dial)
}

#[test]
fn the_texts_of_what_a_server_wrote(rt: HostRuntime) -> Result<(), Fail> {
    let alloc = rt.alloc();
    let written = served(&rt, alloc, EDITS)?;
    let left = followed(&rt, alloc, &written, &[])?;
    assert!(rt; left.status == 0 && left.line.as_slice() == b"".as_slice());
    assert!(rt; left.output.as_slice() == TEXTS);
    assert!(rt; left.asked.as_slice() == ATTACH);
    Ok(())
}

#[test]
fn a_refusal_and_no_connection(rt: HostRuntime) -> Result<(), Fail> {
    let alloc = rt.alloc();
    let refused = followed(&rt, alloc, REFUSAL, &[])?;
    assert!(rt; refused.status == 9 && refused.output.as_slice() == b"".as_slice());
    assert!(rt; refused.line.as_slice() == b"nvimd: refused: Invalid buffer id: 1\n".as_slice());
    assert!(rt; refused.asked.as_slice() == ATTACH);
    let failed = followed(&rt, alloc, REFUSAL, &[0])?;
    assert!(rt; failed.status == 5 && failed.output.as_slice() == b"".as_slice());
    assert!(rt; failed.line.as_slice() == b"nvimd: listener fault\n".as_slice());
    assert!(rt; failed.asked.as_slice() == b"".as_slice());
    Ok(())
}
