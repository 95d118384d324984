//! A session whose client reads slowly, beside one that edits.
ghost use Rattle.std.specs.Prelude.{◌≡◌};

use crate::held_devices::{Asker, Keeper, LIMITS, ends_of, job_of};
use nv_io::Ended;
use nv_serve::serve;
use nv_world::World;
use std::alloc::{AllocError, Global};
use std::net::{Net, TcpListener, TcpStream};
use std::sync::Wait;
use std::sync::atomic::AtomicU64;
use std::test::Fail;
use std::thread::Threads;

// A request that attaches to the buffer, and one that puts a line in front of it.
const ATTACH: &[u8] = b"\x94\x00\x01\xafnvim_buf_attach\x93\x00\xc2\x80";

const EDIT: &[u8] = b"\x94\x00\x01\xb2nvim_buf_set_lines\x95\x00\x00\x00\xc3\x91\xa1a";

// How many edits there are, one more than the outbox holds events, and the bytes of their replies.
const EDITS: u64 = 17;

const REPLIES: u64 = 5 * EDITS;

// The event of the changedtick and the reply by which one is attached.
const ATTACHED: &[u8] = b"\x93\x02\xbanvim_buf_changedtick_event\x92\xd4\x00\x01\x02\
    \x94\x01\x01\xc0\xc3";

// What goes out to one who is attached, up to the events of the first 16 edits.
fn told_of_16(alloc: Global) -> Result<Vec<u8>, AllocError> {
    let mut told = Vec::from_slice(alloc, ATTACHED)?;
    for tick in 3..19u8 {
        told.extend_from_slice(b"\x93\x02\xb4nvim_buf_lines_event\x96\xd4\x00\x01")?;
        told.extend_from_slice(&[tick, 0, 0, 0x91, 0xa1, b'a', 0xc2])?;
    }
    Ok(told)
}

// The client that is attached: its first write, and all its reads but the first, wait until the
// replies to all edits were taken.
fn reader<'a>(
    alloc: Global,
    calls: &'a AtomicU64,
    taken: &'a AtomicU64,
    replied: &'a AtomicU64,
) -> (Asker<'a>, Keeper<'a>)
    ensures { (result.0.faults ≡ 0) × (result.1.faults ≡ 0) }
{
    let input = Asker {
        message: ATTACH,
        count: 1,
        free: 1,
        word: replied,
        least: REPLIES,
        given: 0,
        faults: 0,
    };
    let output = Keeper {
        calls,
        taken,
        word: replied,
        least: REPLIES,
        bytes: Vec::new(alloc),
        faults: 0,
    };
    (input, output)
}

// The client that edits, once the other one was written to.
fn editor<'a>(
    alloc: Global,
    calls: &'a AtomicU64,
    replied: &'a AtomicU64,
    called: &'a AtomicU64,
) -> (Asker<'a>, Keeper<'a>)
    ensures { (result.0.faults ≡ 0) × (result.1.faults ≡ 0) }
{
    let input = Asker {
        message: EDIT,
        count: EDITS,
        free: 0,
        word: called,
        least: 1,
        given: 0,
        faults: 0,
    };
    let output = Keeper {
        calls,
        taken: replied,
        word: called,
        least: 1,
        bytes: Vec::new(alloc),
        faults: 0,
    };
    (input, output)
}

// How both connections ended, and whether the first one was told of 16 edits.
fn ends_beside<'a, R: Net<Listener = TcpListener, Stream = TcpStream> + Threads + Wait + Sync>(
    rt: &R,
    alloc: Global,
    one: (Asker<'a>, Keeper<'a>),
    other: (Asker<'a>, Keeper<'a>),
) -> Result<([Option<Ended>; 2], bool), AllocError>
    requires one { (one.0.faults ≡ 0) × (one.1.faults ≡ 0) }
    requires other { (other.0.faults ≡ 0) × (other.1.faults ≡ 0) }
{
    let mut jobs = [job_of(alloc, one)?, job_of(alloc, other)?];
    let world = World::new(alloc, LIMITS, 16)?;
    let Ok(_) = serve(rt, alloc, world, &mut jobs) else {
        return Err(AllocError);
    };
    let told = told_of_16(alloc)?;
    let mut first = jobs[0].lane.over().iter();
    let is_told = first.next().is_some_and(|over| over.output.bytes == told);
    let [one, _] = ends_of(&jobs[0].lane);
    let [other, _] = ends_of(&jobs[1].lane);
    Ok(([one.map(|end| end.0), other.map(|end| end.0)], is_told))
}

// The 17th edit closes the session whose client didn't read, which is then sent what waited, and no
// other one.
#[test]
fn slow_reader_overflows(rt: HostRuntime) -> Result<(), Fail> {
    let alloc = rt.alloc();
    let words = [
        AtomicU64::new(0),
        AtomicU64::new(0),
        AtomicU64::new(0),
        AtomicU64::new(0),
    ];
    let one = reader(alloc, &words[0], &words[1], &words[2]);
    let other = editor(alloc, &words[3], &words[2], &words[0]);
    let met = ends_beside(&rt, alloc, one, other)?;
    assert!(rt;
        matches!(
            met,
            ([Some(Ended::Overflowed(_)), Some(Ended::Closed)], true)
        )
    );
    Ok(())
}
