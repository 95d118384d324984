//! What the watcher of marks says of steps, true ones and altered ones.
ghost use Rattle.std.specs.Prelude.{IfOk};
ghost use Rattle.nv_core.specs.Contents.{plain_event};
ghost use Rattle.nv_core.specs.Bounds.{IsLightEvent};

use crate::asking::{name_one, put_line, put_text, request};
use crate::watch::show;
use nv_core::Event;
use nv_dispatch::usual_limits;
use nv_value::{Bytes, Pair, Value};
use nv_watch::{MarkCheck, Verdict, Watcher};
use nv_world::World;
use std::alloc::{AllocError, Global};
use std::test::Fail;

// Session 1 sets a mark in the first line, from column 3 to column 5.
fn set_mark(alloc: Global) -> Result<Event, AllocError>
    ensures { IfOk result (λ event. IsLightEvent (plain_event event)) }
{
    let options = vec![in alloc;
        Pair {
            key: Value::Text(Bytes::from_slice(alloc, b"end_col")?),
            value: Value::Int(5),
        },
    ]?;
    let params = vec![in alloc;
        Value::Int(1),
        Value::Int(1),
        Value::Int(0),
        Value::Int(3),
        Value::Pairs(options),
    ]?;
    request(alloc, 1, "nvim_buf_set_extmark", params)
}

// A session opens, puts a line, makes a namespace and sets a mark.
fn begin(alloc: Global, world: &mut World) -> Result<(), AllocError> {
    let _ = world.apply(0, Event::Open);
    let _ = world.apply(0, put_line(alloc, 1, 1, b"abcdef")?);
    let _ = world.apply(0, name_one(alloc, 1, "nvim_create_namespace", b"a")?);
    let _ = world.apply(0, set_mark(alloc)?);
    Ok(())
}

// A check sees the mark, and then two bytes that are put at column 3, as this splice.
fn show_put(
    alloc: Global,
    world: &mut World,
    check: &mut MarkCheck,
    splice: Option<(u64, u64, u64)>,
) -> Result<(), AllocError> {
    show(alloc, check, world, 3, b"", None)?;
    let _ = world.apply(0, put_text(alloc, 3, b"XY")?);
    show(alloc, check, world, 4, b"", splice)
}

fn checked(
    alloc: Global,
    world: &mut World,
    splice: Option<(u64, u64, u64)>,
) -> Result<Verdict, AllocError> {
    begin(alloc, world)?;
    let mut check = MarkCheck::new(alloc);
    show_put(alloc, world, &mut check, splice)?;
    Ok(check.verdict())
}

fn verdict(alloc: Global, splice: Option<(u64, u64, u64)>) -> Result<Verdict, AllocError> {
    let mut world = World::new(alloc, usual_limits(), 16)?;
    checked(alloc, &mut world, splice)
}

// The splice as it was, with three new bytes, and none.
fn verdicts(alloc: Global) -> Result<[Verdict; 3], AllocError> {
    Ok([
        verdict(alloc, Some((3, 0, 2)))?,
        verdict(alloc, Some((3, 0, 3)))?,
        verdict(alloc, None)?,
    ])
}

#[test]
fn checks_of_marks_say_no(rt: HostRuntime) -> Result<(), Fail> {
    let verdicts = verdicts(rt.alloc())?;
    assert_eq!(rt; verdicts, [Verdict::Yes, Verdict::No(4), Verdict::Yes]);
    Ok(())
}
