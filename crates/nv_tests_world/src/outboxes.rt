//! Worlds event by event: a session that is held, one whose outbox runs over, bytes that are due,
//! the splices of the last entry, and settled windows, against rows written by hand.
ghost use Rattle.nv_core.specs.Contents.{plain_event};
ghost use Rattle.nv_core.specs.Bounds.{IsLightEvent};

use crate::asking::{attach, put_line};
use nv_core::{Cause, Effect, Event, Stop};
use nv_dispatch::usual_limits;
use nv_scene::is_settled;
use nv_world::{Moved, World};
use std::alloc::{AllocError, Global};
use std::test::Fail;

// What closed a session, as a letter and the number of the entry.
fn letter_of(cause: Cause) -> (char, u64) {
    match cause {
        Cause::Overflowed(entry) => ('v', entry),
        Cause::Closed(entry) => ('e', entry),
        Cause::Quit(entry) => ('q', entry),
    }
}

// What closed a session, as far as the world knows.
fn closed_by(world: &World, session: u64) -> (char, u64) {
    match world.closed_by(session) {
        Some(cause) => letter_of(cause),
        None => ('n', 0),
    }
}

// What an event came to, as a letter and a number.
fn told(world: &mut World, event: Event) -> (char, u64)
    requires { IsLightEvent (plain_event event) }
{
    match world.apply(0, event) {
        Ok(Effect::Opened(session)) => ('o', session),
        Ok(Effect::Done) => ('d', 0),
        Ok(Effect::Items(batch)) => ('i', batch.messages.len() as u64),
        Ok(Effect::Nothing) => ('n', 0),
        Ok(Effect::Over(cause)) => letter_of(cause),
        Ok(Effect::Closed) => ('c', 0),
        Err((_, Stop::NoMemory)) => ('m', 0),
        Err((_, Stop::Stranger(session))) => ('s', session),
        Err((_, Stop::Gone(entry))) => ('g', entry),
        Err((_, Stop::Held(waiting))) => ('h', u64::from(waiting)),
    }
}

fn take(world: &mut World, session: u64) -> (char, u64) {
    told(world, Event::Take { session })
}

// A session puts a line in front of all others.
fn edit(alloc: Global, world: &mut World, session: u64) -> Result<(char, u64), AllocError> {
    let event = put_line(alloc, session, 0, b"a")?;
    Ok(told(world, event))
}

// Session 1 edits as often as half an outbox holds replies, and once more; one that isn't there
// does; and session 1 takes what is due, twice, and closes.
fn held_of(alloc: Global, world: &mut World) -> Result<[(char, u64); 6], AllocError> {
    told(world, Event::Open);
    for _ in 0..8 {
        edit(alloc, world, 1)?;
    }
    let held = edit(alloc, world, 1)?;
    let stranger = edit(alloc, world, 2)?;
    let (some, none) = (take(world, 1), take(world, 1));
    let closed = told(world, Event::Close { session: 1 });
    Ok([held, stranger, some, none, closed, closed_by(world, 1)])
}

fn held(alloc: Global) -> Result<[(char, u64); 6], AllocError> {
    let mut world = World::new(alloc, usual_limits(), 16)?;
    held_of(alloc, &mut world)
}

#[test]
fn a_session_is_held_at_half_an_outbox(rt: HostRuntime) -> Result<(), Fail> {
    let came = held(rt.alloc())?;
    assert_eq!(rt;
        came,
        [('h', 8), ('s', 2), ('i', 8), ('n', 0), ('c', 0), ('e', 10)]
    );
    Ok(())
}

// Session 2 follows buffer 1, and was told so.
fn follow(alloc: Global, world: &mut World) -> Result<(), AllocError> {
    told(world, Event::Open);
    told(world, Event::Open);
    let event = attach(alloc, 2, false)?;
    told(world, event);
    take(world, 2);
    Ok(())
}

// Session 1 edits seventeen times, and session 2 takes nothing meanwhile.
fn overflowed_of(alloc: Global, world: &mut World) -> Result<[(char, u64); 6], AllocError> {
    follow(alloc, world)?;
    for _ in 0..17 {
        edit(alloc, world, 1)?;
        take(world, 1);
    }
    let (whole, over) = (take(world, 2), take(world, 2));
    let gone = edit(alloc, world, 2)?;
    let causes = (closed_by(world, 2), closed_by(world, 1));
    let due = ('w', u64::from(world.has_due(2)));
    Ok([whole, over, gone, causes.0, causes.1, due])
}

fn overflowed(alloc: Global) -> Result<[(char, u64); 6], AllocError> {
    let mut world = World::new(alloc, usual_limits(), 16)?;
    overflowed_of(alloc, &mut world)
}

#[test]
fn a_full_outbox_closes_its_session(rt: HostRuntime) -> Result<(), Fail> {
    let came = overflowed(rt.alloc())?;
    assert_eq!(rt;
        came,
        [
            ('i', 16),
            ('v', 36),
            ('g', 36),
            ('v', 36),
            ('n', 0),
            ('w', 0)
        ]
    );
    Ok(())
}

// The bytes that are due to session 2: with all lines of a text, after an edit, once it took, and
// once it is closed.
fn due_of(alloc: Global, world: &mut World) -> Result<[u64; 4], AllocError> {
    told(world, Event::Open);
    told(world, Event::Open);
    let event = attach(alloc, 2, true)?;
    told(world, event);
    let lines = world.bytes_due(2);
    edit(alloc, world, 1)?;
    let more = world.bytes_due(2);
    take(world, 2);
    let none = world.bytes_due(2);
    edit(alloc, world, 1)?;
    told(world, Event::Close { session: 2 });
    Ok([lines, more, none, world.bytes_due(2)])
}

fn due(alloc: Global) -> Result<[u64; 4], AllocError> {
    let mut world = World::new(alloc, usual_limits(), 16)?;
    due_of(alloc, &mut world)
}

#[test]
fn bytes_count_until_they_are_taken(rt: HostRuntime) -> Result<(), Fail> {
    assert_eq!(rt; due(rt.alloc())?, [160, 257, 0, 0]);
    Ok(())
}

// How many splices there were last, and whether the first is that of `edit`.
fn splices_of(world: &World) -> Result<(usize, bool), AllocError> {
    let splices = world.last_splices()?;
    let first = splices.first().copied();
    let in_front = Moved {
        buffer: 1,
        at: 0,
        old: 0,
        new: 2,
        change: 1,
        part: 0,
        back: false,
    };
    Ok((splices.len(), first == Some(in_front)))
}

// The splices behind an edit, and behind the take of its reply.
fn spliced_of(alloc: Global, world: &mut World) -> Result<[(usize, bool); 2], AllocError> {
    told(world, Event::Open);
    edit(alloc, world, 1)?;
    let made = splices_of(world)?;
    take(world, 1);
    Ok([made, splices_of(world)?])
}

fn spliced(alloc: Global) -> Result<[(usize, bool); 2], AllocError> {
    let mut world = World::new(alloc, usual_limits(), 16)?;
    spliced_of(alloc, &mut world)
}

#[test]
fn the_last_splices_are_those_of_an_edit(rt: HostRuntime) -> Result<(), Fail> {
    let splices = spliced(rt.alloc())?;
    assert_eq!(rt; splices, [(1, true), (0, false)]);
    Ok(())
}

// Whether the windows are settled after an edit.
fn settled_of(alloc: Global, world: &mut World) -> Result<bool, AllocError> {
    told(world, Event::Open);
    edit(alloc, world, 1)?;
    is_settled(world.editor())
}

fn settled(alloc: Global) -> Result<bool, AllocError> {
    let mut world = World::new(alloc, usual_limits(), 16)?;
    settled_of(alloc, &mut world)
}

#[test]
fn an_edit_leaves_windows_settled(rt: HostRuntime) -> Result<(), Fail> {
    assert!(rt; settled(rt.alloc())?);
    Ok(())
}
