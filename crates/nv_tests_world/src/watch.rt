//! A watcher that is shown steps, true ones and altered ones.
ghost use Rattle.std.specs.Prelude.{IfOk};
ghost use Rattle.nv_core.specs.Contents.{plain_event};
ghost use Rattle.nv_core.specs.Bounds.{IsLightEvent};

mod folds;
mod grids;
mod marks;

use crate::asking::request;
use nv_core::Event;
use nv_dispatch::usual_limits;
use nv_value::{Bytes, Value};
use nv_watch::{Counter, Verdict, Watcher};
use nv_world::{Moved, Step, World};
use std::alloc::{AllocError, Global};
use std::test::Fail;

// The splices of a step: of buffer 1, or none.
fn splices_of(alloc: Global, splice: Option<(u64, u64, u64)>) -> Result<Vec<Moved>, AllocError> {
    let mut splices = Vec::new(alloc);
    if let Some((at, old, new)) = splice {
        splices.push(Moved {
            buffer: 1,
            at,
            old,
            new,
            change: 2,
            part: 0,
            back: false,
        })?;
    }
    Ok(splices)
}

// A watcher sees a step of session 1, which is sent these bytes and splices buffer 1.
pub(crate) fn show<W: Watcher>(
    alloc: Global,
    watcher: &mut W,
    world: &World,
    at: u64,
    sent: &[u8],
    splice: Option<(u64, u64, u64)>,
) -> Result<(), AllocError> {
    let sent = Bytes::from_slice(alloc, sent)?;
    let step = Step {
        at,
        caller: 0,
        session: 1,
        sent,
        splices: splices_of(alloc, splice)?,
    };
    watcher.see(world, &step)
}

// A watcher sees four steps, in the third of which the session is sent these bytes.
pub(crate) fn show_sent<W: Watcher>(
    alloc: Global,
    watcher: &mut W,
    world: &World,
    sent: &[u8],
) -> Result<(), AllocError> {
    show(alloc, watcher, world, 0, b"", None)?;
    show(alloc, watcher, world, 1, b"", None)?;
    show(alloc, watcher, world, 2, sent, None)?;
    show(alloc, watcher, world, 3, b"", None)
}

// A session asks for the number of lines.
fn line_count(alloc: Global, session: u64) -> Result<Event, AllocError>
    ensures { IfOk result (λ event. IsLightEvent (plain_event event)) }
{
    let params = vec![in alloc; Value::Int(0)]?;
    request(alloc, session, "nvim_buf_line_count", params)
}

// What a counter says where the session is sent these bytes after its request.
fn verdict(alloc: Global, world: &World, sent: &[u8]) -> Result<Verdict, AllocError> {
    let mut counter = Counter::new(alloc);
    show_sent(alloc, &mut counter, world, sent)?;
    Ok(counter.verdict())
}

// A session opens, and asks once. One reply, a redraw notification and a reply, two replies, a
// message that is cut, and another notification.
fn verdicts_of(alloc: Global, world: &mut World) -> Result<[Verdict; 5], AllocError> {
    let _ = world.apply(0, Event::Open);
    let _ = world.apply(0, line_count(alloc, 1)?);
    Ok([
        verdict(alloc, world, b"\x94\x01\x01\xc0\x01")?,
        verdict(alloc, world, b"\x93\x02\xa6redraw\x90\x94\x01\x01\xc0\x01")?,
        verdict(alloc, world, b"\x94\x01\x01\xc0\x01\x94\x01\x01\xc0\x01")?,
        verdict(alloc, world, b"\x94\x01\x01\xc0\x01\x94\x01")?,
        verdict(alloc, world, b"\x93\x02\xa6redrew\x90")?,
    ])
}

fn verdicts(alloc: Global) -> Result<[Verdict; 5], AllocError> {
    let mut world = World::new(alloc, usual_limits(), 16)?;
    verdicts_of(alloc, &mut world)
}

#[test]
fn watchers_say_no(rt: HostRuntime) -> Result<(), Fail> {
    let verdicts = verdicts(rt.alloc())?;
    let no = Verdict::No(2);
    assert_eq!(rt; verdicts, [Verdict::Yes, Verdict::Yes, no, no, no]);
    Ok(())
}
