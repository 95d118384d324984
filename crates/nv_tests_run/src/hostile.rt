//! One session whose devices fail, call by call, or whose input is cut.
ghost use Rattle.std.specs.Prelude.{◌<◌};

use crate::in_memory::{Wanted, is_left, session_left};
use crate::replays::{are_cuts_told, are_objections_told, is_fault_told};
use std::alloc::{AllocError, Global};
use std::fs::File;
use std::net::{Net, TcpListener, TcpStream};
use std::rt::Files;
use std::sync::Wait;
use std::test::Fail;
use std::thread::Threads;

// A session: its input, the pieces in which it comes, the reads, the writes and the writes of lines
// that fail, by their numbers from 0, what goes out, the status, the line that tells it, and the
// history by the letters of its entries, Open, Request, Take and Close.
struct Case {
    name: &'static str,
    input: &'static [u8],
    piece: usize,
    reads: &'static [u64],
    writes: &'static [u64],
    lines: &'static [u64],
    output: &'static [u8],
    status: u8,
    line: &'static [u8],
    kept: &'static [u8],
}

// A request for the number of lines, and its reply.
const COUNT: &[u8] = b"\x94\x00\x01\xb3nvim_buf_line_count\x91\x00";

fn count() -> &'static [u8] {
    COUNT
}

const REPLY: &[u8] = b"\x94\x01\x01\xc0\x01";

// Two of them, of 25 bytes each.
const TWO: &[u8] = b"\x94\x00\x01\xb3nvim_buf_line_count\x91\x00\
    \x94\x00\x02\xb3nvim_buf_line_count\x91\x00";

fn cases() -> &'static [Case] {
    &[
        Case {
            name: "nothing fails",
            input: COUNT,
            piece: 4_096,
            reads: &[],
            writes: &[],
            lines: &[],
            output: REPLY,
            status: 0,
            line: b"",
            kept: b"ORTC",
        },
        Case {
            name: "the first read fails",
            input: COUNT,
            piece: 4_096,
            reads: &[0],
            writes: &[],
            lines: &[],
            output: b"",
            status: 3,
            line: b"nvimd: read fault\n",
            kept: b"OC",
        },
        Case {
            name: "the read behind the request fails",
            input: COUNT,
            piece: 4_096,
            reads: &[1],
            writes: &[],
            lines: &[],
            output: REPLY,
            status: 3,
            line: b"nvimd: read fault\n",
            kept: b"ORTC",
        },
        Case {
            name: "the write of the reply fails",
            input: COUNT,
            piece: 4_096,
            reads: &[],
            writes: &[0],
            lines: &[],
            output: b"",
            status: 4,
            line: b"nvimd: write fault\n",
            kept: b"ORTC",
        },
        Case {
            name: "the line can't be written",
            input: b"\xc1",
            piece: 4_096,
            reads: &[],
            writes: &[],
            lines: &[0],
            output: b"",
            status: 6,
            line: b"",
            kept: b"OC",
        },
        Case {
            name: "a reply goes out before the next write fails",
            input: TWO,
            piece: 25,
            reads: &[],
            writes: &[1],
            lines: &[],
            output: REPLY,
            status: 4,
            line: b"nvimd: write fault\n",
            kept: b"ORTRTC",
        },
        Case {
            name: "one write has the replies to one read",
            input: TWO,
            piece: 4_096,
            reads: &[],
            writes: &[0],
            lines: &[],
            output: b"",
            status: 4,
            line: b"nvimd: write fault\n",
            kept: b"ORTRTC",
        },
        Case {
            name: "a write fault goes before the end of the server",
            input: b"\x94\x00\x01\xacnvim_command\x91\xa5qall!",
            piece: 4_096,
            reads: &[],
            writes: &[0],
            lines: &[],
            output: b"",
            status: 4,
            line: b"nvimd: write fault\n",
            kept: b"ORT",
        },
    ]
}

// Whether a session goes as it is said.
fn is_case<
    R: Files<File = File> + Net<Listener = TcpListener, Stream = TcpStream> + Threads + Wait + Sync,
>(rt: &R, alloc: Global, case: &Case) -> Result<bool, AllocError> {
    if case.piece == 0 {
        return Ok(false);
    }
    let fails = [case.reads, case.writes, case.lines];
    let left = session_left(rt, alloc, &["embed"], case.input, case.piece, 4_096, fails)?;
    let is_kept = left.kept.as_slice() == case.kept;
    let wanted = Wanted {
        output: case.output,
        status: case.status,
        line: case.line,
    };
    Ok(is_kept && is_left(&left, &wanted))
}

// The first session that goes another way.
fn first_wrong_case<
    R: Files<File = File> + Net<Listener = TcpListener, Stream = TcpStream> + Threads + Wait + Sync,
>(rt: &R, alloc: Global) -> Result<Option<&'static str>, AllocError> {
    for case in cases() {
        if !is_case(rt, alloc, case)? {
            return Ok(Some(case.name));
        }
    }
    Ok(None)
}

// Whether a session with this input, which comes by pieces of one size and goes out by pieces of
// another, and of which such reads and writes fail, leaves this.
fn is_ended<
    R: Files<File = File> + Net<Listener = TcpListener, Stream = TcpStream> + Threads + Wait + Sync,
>(
    rt: &R,
    alloc: Global,
    input: &[u8],
    sizes: (usize, usize),
    fails: [&[u64]; 3],
    wanted: &Wanted,
) -> Result<bool, AllocError>
    requires cut { 0 < sizes.0 }
    requires most { 0 < sizes.1 }
{
    let left = session_left(rt, alloc, &["embed"], input, sizes.0, sizes.1, fails)?;
    Ok(is_left(&left, wanted))
}

// The least length below its own by which the request is cut and isn't told as cut.
fn first_wrong_cut<
    R: Files<File = File> + Net<Listener = TcpListener, Stream = TcpStream> + Threads + Wait + Sync,
>(rt: &R, alloc: Global) -> Result<Option<usize>, AllocError> {
    let request = count();
    for came in 1..request.len() {
        let front = &request[..came];
        let wanted = Wanted {
            output: b"",
            status: 6,
            line: b"nvimd: malformed input: cut at 0\n",
        };
        if !is_ended(rt, alloc, front, (4_096, 4_096), [&[], &[], &[]], &wanted)? {
            return Ok(Some(came));
        }
    }
    Ok(None)
}

#[test]
fn hostile_cases(rt: HostRuntime) -> Result<(), Fail> {
    assert_eq!(rt; first_wrong_case(&rt, rt.alloc())?, None);
    assert_eq!(rt; first_wrong_cut(&rt, rt.alloc())?, None);
    assert!(rt; are_cuts_told(&rt, rt.alloc())?);
    assert!(rt; is_fault_told(&rt, rt.alloc())?);
    assert_eq!(rt; are_objections_told(&rt, rt.alloc())?, None);
    Ok(())
}

// Two requests, the length of the first, and their replies.
fn set_get() -> &'static [u8] {
    b"\x94\x00\x01\xb2nvim_buf_set_lines\x95\x00\x00\xff\xc3\x91\xa1a\
        \x94\x00\x02\xb2nvim_buf_get_lines\x94\x00\x00\xff\xc3"
}

const FIRST: usize = 30;

fn replies() -> &'static [u8] {
    b"\x94\x01\x01\xc0\xc0\x94\x01\x02\xc0\x91\xa1a"
}

// The replies that are due where so many bytes of the two requests came.
fn due(came: usize) -> &'static [u8] {
    if came < FIRST {
        b""
    } else if came < set_get().len() {
        b"\x94\x01\x01\xc0\xc0"
    } else {
        replies()
    }
}

// The least number of bytes behind which the fault of a read doesn't end the session as it is due,
// one byte a read.
fn first_wrong_read<
    R: Files<File = File> + Net<Listener = TcpListener, Stream = TcpStream> + Threads + Wait + Sync,
>(rt: &R, alloc: Global) -> Result<Option<usize>, AllocError> {
    let requests = set_get();
    for came in 0..=requests.len() {
        let fails: [&[u64]; 3] = [&[came as u64], &[], &[]];
        let wanted = Wanted {
            output: due(came),
            status: 3,
            line: b"nvimd: read fault\n",
        };
        if !is_ended(rt, alloc, requests, (1, 4_096), fails, &wanted)? {
            return Ok(Some(came));
        }
    }
    Ok(None)
}

#[test]
fn a_read_that_fails_ends_it(rt: HostRuntime) -> Result<(), Fail> {
    assert_eq!(rt; first_wrong_read(&rt, rt.alloc())?, None);
    Ok(())
}

// The least number of bytes behind which the fault of a write doesn't, one byte a write.
fn first_wrong_write<
    R: Files<File = File> + Net<Listener = TcpListener, Stream = TcpStream> + Threads + Wait + Sync,
>(rt: &R, alloc: Global) -> Result<Option<usize>, AllocError> {
    let output = replies();
    for went in 0..output.len() {
        let fails: [&[u64]; 3] = [&[], &[went as u64], &[]];
        let wanted = Wanted {
            output: &output[..went],
            status: 4,
            line: b"nvimd: write fault\n",
        };
        if !is_ended(rt, alloc, set_get(), (4_096, 1), fails, &wanted)? {
            return Ok(Some(went));
        }
    }
    Ok(None)
}

#[test]
fn a_write_that_fails_ends_it(rt: HostRuntime) -> Result<(), Fail> {
    assert_eq!(rt; first_wrong_write(&rt, rt.alloc())?, None);
    Ok(())
}
