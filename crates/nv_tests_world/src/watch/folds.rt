//! What the watcher of buffers says of steps, true ones and altered ones.
use crate::asking::{attach, put_line};
use crate::watch::{show, show_sent};
use nv_core::Event;
use nv_dispatch::usual_limits;
use nv_watch::{BufferFold, Verdict, Watcher};
use nv_world::World;
use std::alloc::{AllocError, Global};
use std::test::Fail;

// What a fold says that saw the session open, attach and take these bytes.
fn folded(alloc: Global, world: &World, sent: &[u8]) -> Result<Verdict, AllocError> {
    let mut fold = BufferFold::new(alloc);
    show_sent(alloc, &mut fold, world, sent)?;
    Ok(fold.verdict())
}

// One empty line, the line `x`, a line in place of one that isn't there, and a message that is cut.
fn folds(alloc: Global, world: &World) -> Result<[Verdict; 4], AllocError> {
    let lines = b"\x93\x02\xb4nvim_buf_lines_event\x96\xd4\x00\x01\x02\x00\xff\x91\xa0\xc2";
    let other = b"\x93\x02\xb4nvim_buf_lines_event\x96\xd4\x00\x01\x02\x00\xff\x91\xa1x\xc2";
    let part = b"\x93\x02\xb4nvim_buf_lines_event\x96\xd4\x00\x01\x02\x00\x01\x91\xa0\xc2";
    Ok([
        folded(alloc, world, lines)?,
        folded(alloc, world, other)?,
        folded(alloc, world, part)?,
        folded(alloc, world, b"\x94\x01\x01\xc0\xc3\x93\x02")?,
    ])
}

// A fold sees the line `x`, told with the changedtick that the buffer has after the next step, and
// then that step.
fn show_early(alloc: Global, world: &mut World, fold: &mut BufferFold) -> Result<(), AllocError> {
    let early = b"\x93\x02\xb4nvim_buf_lines_event\x96\xd4\x00\x01\x03\x00\xff\x91\xa1x\xc2";
    show(alloc, fold, world, 0, b"", None)?;
    show(alloc, fold, world, 1, b"", None)?;
    show(alloc, fold, world, 2, early, None)?;
    let _ = world.apply(0, put_line(alloc, 1, 1, b"a")?);
    show(alloc, fold, world, 3, b"", Some((0, 1, 2)))
}

fn early(alloc: Global, world: &mut World) -> Result<Verdict, AllocError> {
    let mut ahead = BufferFold::new(alloc);
    show_early(alloc, world, &mut ahead)?;
    Ok(ahead.verdict())
}

fn verdicts_of(alloc: Global, world: &mut World) -> Result<([Verdict; 4], Verdict), AllocError> {
    let _ = world.apply(0, Event::Open);
    let _ = world.apply(0, attach(alloc, 1, true)?);
    Ok((folds(alloc, world)?, early(alloc, world)?))
}

fn verdicts(alloc: Global) -> Result<([Verdict; 4], Verdict), AllocError> {
    let mut world = World::new(alloc, usual_limits(), 16)?;
    verdicts_of(alloc, &mut world)
}

#[test]
fn folds_of_buffers_say_no(rt: HostRuntime) -> Result<(), Fail> {
    let verdicts = verdicts(rt.alloc())?;
    let no = Verdict::No(2);
    assert_eq!(rt; verdicts, ([Verdict::Yes, no, no, no], Verdict::No(3)));
    Ok(())
}
