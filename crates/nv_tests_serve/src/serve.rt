//! Lanes in memory, with running threads: sessions that wait for each other, and ends of lanes.
ghost use Rattle.std.specs.Prelude.{◌≡◌};

use crate::held_devices::{Asker, COUNT, Keeper, LIMITS, QUIT, ends_of, job_of};
use nv_io::{Ended, MemLane};
use nv_serve::{Job, serve};
use nv_world::World;
use std::alloc::{AllocError, Global};
use std::net::{Net, TcpListener, TcpStream};
use std::sync::Wait;
use std::sync::atomic::AtomicU64;
use std::test::Fail;
use std::thread::Threads;

// A connection whose source asks so often, and waits with all but the first until bytes are counted
// in one word; its sink counts its calls and what it took in two others.
fn connection<'a>(
    alloc: Global,
    message: &'a [u8],
    count: u64,
    word: &'a AtomicU64,
    calls: &'a AtomicU64,
    taken: &'a AtomicU64,
) -> (Asker<'a>, Keeper<'a>)
    ensures { (result.0.faults ≡ 0) × (result.1.faults ≡ 0) }
{
    let input = Asker {
        message,
        count,
        free: 1,
        word,
        least: 1,
        given: 0,
        faults: 0,
    };
    let output = Keeper {
        calls,
        taken,
        word: calls,
        least: 0,
        bytes: Vec::new(alloc),
        faults: 0,
    };
    (input, output)
}

// How the connections of two lanes ended, one of each.
fn ends_of_two<'a, R: Net<Listener = TcpListener, Stream = TcpStream> + Threads + Wait + Sync>(
    rt: &R,
    alloc: Global,
    one: (Asker<'a>, Keeper<'a>),
    other: (Asker<'a>, Keeper<'a>),
) -> Result<[Option<(Ended, u64)>; 2], AllocError>
    requires one { (one.0.faults ≡ 0) × (one.1.faults ≡ 0) }
    requires other { (other.0.faults ≡ 0) × (other.1.faults ≡ 0) }
{
    let mut jobs = [job_of(alloc, one)?, job_of(alloc, other)?];
    let world = World::new(alloc, LIMITS, 16)?;
    let Ok(_) = serve(rt, alloc, world, &mut jobs) else {
        return Err(AllocError);
    };
    let [first, _] = ends_of(&jobs[0].lane);
    let [second, _] = ends_of(&jobs[1].lane);
    Ok([first, second])
}

// Each of two sessions makes its second request only once the other has taken a reply.
#[test]
fn two_sessions_meet(rt: HostRuntime) -> Result<(), Fail> {
    let alloc = rt.alloc();
    let words = [AtomicU64::new(0), AtomicU64::new(0), AtomicU64::new(0)];
    let one = connection(alloc, COUNT, 2, &words[1], &words[2], &words[0]);
    let other = connection(alloc, COUNT, 2, &words[0], &words[2], &words[1]);
    let ends = ends_of_two(&rt, alloc, one, other)?;
    assert!(rt;
        ends == [Some((Ended::Closed, 1)), Some((Ended::Closed, 2))]
            || ends == [Some((Ended::Closed, 2)), Some((Ended::Closed, 1))]
    );
    Ok(())
}

// How the two connections of a lane ended of which such calls of accept fail, each of which asks
// once, how many entries there were, and whether it is told that memory was wanting or that the
// lane failed.
fn ends_of_lane<R: Net<Listener = TcpListener, Stream = TcpStream> + Threads + Wait + Sync>(
    rt: &R,
    alloc: Global,
    message: &[u8],
    fails: Vec<u64>,
) -> Result<([Option<(Ended, u64)>; 2], usize, bool, bool), AllocError> {
    let words = [AtomicU64::new(0), AtomicU64::new(0)];
    let one = connection(alloc, message, 1, &words[0], &words[1], &words[0]);
    let other = connection(alloc, message, 1, &words[0], &words[1], &words[0]);
    let links = vec![in alloc; one, other]?;
    let lane = MemLane::new(alloc, links, fails)?;
    let mut jobs = [Job::new(lane)];
    let world = World::new(alloc, LIMITS, 16)?;
    let Ok(left) = serve(rt, alloc, world, &mut jobs) else {
        return Err(AllocError);
    };
    Ok((
        ends_of(&jobs[0].lane),
        left.core.history().len(),
        left.spent,
        left.failed,
    ))
}

#[test]
fn a_lane_ends(rt: HostRuntime) -> Result<(), Fail> {
    let alloc = rt.alloc();
    let first = Some((Ended::Closed, 1));
    let fails = vec![in alloc; 1u64]?;
    let met = [
        ends_of_lane(&rt, alloc, COUNT, Vec::new(alloc))?,
        ends_of_lane(&rt, alloc, COUNT, fails)?,
        ends_of_lane(&rt, alloc, QUIT, Vec::new(alloc))?,
    ];
    assert!(rt;
        met == [
            ([first, Some((Ended::Closed, 2))], 8, false, false),
            ([first, None], 4, false, true),
            ([Some((Ended::Quit(1), 1)), None], 3, false, false),
        ]
    );
    Ok(())
}
