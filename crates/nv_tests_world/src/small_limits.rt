//! A world whose editor takes few of each thing.
ghost use Rattle.std.specs.Prelude.{◌<◌, ◌≤◌, ◌^◌, length, IfOk};
ghost use Rattle.nv_core.specs.Contents.{plain_event};
ghost use Rattle.nv_core.specs.Bounds.{IsLightEvent};

use crate::asking::{attach_ui, name_one, put_line, put_text, request};
use nv_core::{Batch, Effect, Event, SharedMessage};
use nv_dispatch::usual_limits;
use nv_model::Limits;
use nv_rpc::Message;
use nv_value::Value;
use nv_world::World;
use std::alloc::{AllocError, Global};
use std::test::Fail;

// One buffer of one line of 4 bytes, which is edited once; one namespace, the groups that are there
// at first, and one UI.
fn small_limits() -> Limits
    ensures { 1 ≤ result.entries }
{
    Limits {
        lines: 1,
        line_bytes: 4,
        buffers: 1,
        namespaces: 1,
        groups: 7,
        uis: 1,
        ticks: 3,
        entries: 1_000,
        ..usual_limits()
    }
}

// The number of the fault that the last message of a batch tells; 0 where it tells none.
fn code_of(batch: &Batch) -> u16 {
    match batch.messages.last() {
        Some(
            SharedMessage::Own(
                Message::Reply {
                    fault: Some(fault),
                    ..
                },
            ),
        ) => fault.code,
        _ => 0,
    }
}

// The number of the fault of a call of a session; 0 where it gives a result.
fn fault_of(world: &mut World, session: u64, event: Event) -> u16
    requires { IsLightEvent (plain_event event) }
{
    let _ = world.apply(0, event);
    match world.apply(0, Event::Take { session }) {
        Ok(Effect::Items(batch)) => code_of(&batch),
        _ => u16::MAX,
    }
}

// The fault of a line that session 1 puts in place of the rows from 0 to before `end`.
fn line_fault(alloc: Global, world: &mut World, end: i64, line: &[u8]) -> Result<u16, AllocError>
    requires { length line.now < 2 ^ 16 }
{
    let event = put_line(alloc, 1, end, line)?;
    Ok(fault_of(world, 1, event))
}

// A line that is too long, one too many, one that fits, text by which it is too long, and one edit
// too many.
fn text_faults(alloc: Global, world: &mut World) -> Result<[u16; 5], AllocError> {
    let long = line_fault(alloc, world, -1, b"abcde")?;
    let further = line_fault(alloc, world, 0, b"a")?;
    let fits = line_fault(alloc, world, -1, b"abcd")?;
    let event = put_text(alloc, 2, b"x")?;
    let longer = fault_of(world, 1, event);
    let later = line_fault(alloc, world, -1, b"a")?;
    Ok([long, further, fits, longer, later])
}

// Session 1 makes a buffer.
fn make_buffer(alloc: Global) -> Result<Event, AllocError>
    ensures { IfOk result (λ event. IsLightEvent (plain_event event)) }
{
    let flags = vec![in alloc; Value::Truth(true), Value::Truth(false)]?;
    request(alloc, 1, "nvim_create_buf", flags)
}

// The fault of a method of session 1 that takes a name.
fn name_fault(
    alloc: Global,
    world: &mut World,
    method: &str,
    name: &[u8],
) -> Result<u16, AllocError>
    requires method { length method.now < 2 ^ 16 }
    requires name { length name.now < 2 ^ 16 }
{
    let event = name_one(alloc, 1, method, name)?;
    Ok(fault_of(world, 1, event))
}

// A further buffer, a first namespace, a second one, the first again, and a further group.
fn name_faults(alloc: Global, world: &mut World) -> Result<[u16; 5], AllocError> {
    let event = make_buffer(alloc)?;
    let buffer = fault_of(world, 1, event);
    let first = name_fault(alloc, world, "nvim_create_namespace", b"a")?;
    let second = name_fault(alloc, world, "nvim_create_namespace", b"b")?;
    let again = name_fault(alloc, world, "nvim_create_namespace", b"a")?;
    let group = name_fault(alloc, world, "nvim_get_hl_id_by_name", b"Mine")?;
    Ok([buffer, first, second, again, group])
}

// The fault of a UI of a session.
fn ui_fault(alloc: Global, world: &mut World, session: u64) -> Result<u16, AllocError> {
    let event = attach_ui(alloc, session, 40, 12)?;
    Ok(fault_of(world, session, event))
}

// The UI of session 1, one of session 2, and one of session 1 again.
fn ui_faults(alloc: Global, world: &mut World) -> Result<[u16; 3], AllocError> {
    let first = ui_fault(alloc, world, 1)?;
    let second = ui_fault(alloc, world, 2)?;
    let again = ui_fault(alloc, world, 1)?;
    Ok([first, second, again])
}

// The faults of texts, of names and of UIs.
type Faults = ([u16; 5], [u16; 5], [u16; 3]);

fn faults_of(alloc: Global, world: &mut World) -> Result<Faults, AllocError> {
    let _ = world.apply(0, Event::Open);
    let _ = world.apply(0, Event::Open);
    let texts = text_faults(alloc, world)?;
    let names = name_faults(alloc, world)?;
    Ok((texts, names, ui_faults(alloc, world)?))
}

fn faults(alloc: Global) -> Result<Faults, AllocError> {
    let mut world = World::new(alloc, small_limits(), 16)?;
    faults_of(alloc, &mut world)
}

#[test]
fn limits_are_reached(rt: HostRuntime) -> Result<(), Fail> {
    let faults = faults(rt.alloc())?;
    assert_eq!(rt;
        faults,
        ([19, 19, 0, 19, 19], [19, 0, 19, 0, 19], [0, 19, 20])
    );
    Ok(())
}
