//! Calls that no method makes, with ample memory.

ghost use Rattle.std.specs.Prelude.{◌↔◌, ◌+ℤ◌, ◌≤ℤ◌, pos, IsTrue};

use nv_buffer::Buffer;
use nv_layout::{Leaf, Side, Tree};
use nv_lines::{Line, LineList};
use nv_windows::Windows;
use std::alloc::{AllocError, Global};
use std::test::Fail;

// Empty lines that are put behind an empty one: how many bytes they have.
fn pushed(alloc: Global) -> Result<Option<u64>, AllocError> {
    let mut list = LineList::one(alloc, Line::new(alloc)?);
    list.push(Line::new(alloc)?)?;
    list.push(Line::new(alloc)?)?;
    Ok(list.flat_len())
}

#[test]
fn lines_are_pushed(rt: HostRuntime) -> Result<(), Fail> {
    assert_eq!(rt; pushed(rt.alloc())?, Some(3));
    Ok(())
}

fn leaf(window: i64) -> Leaf {
    Leaf {
        window,
        width: 0,
        height: 0,
    }
}

// A window that is opened on the right of another.
fn opened(alloc: Global) -> Result<bool, AllocError> {
    let mut tree = Tree::Leaf(leaf(1000));
    tree.split(alloc, 1000, Side::Right, leaf(1001))
}

#[test]
fn a_window_is_split(rt: HostRuntime) -> Result<(), Fail> {
    assert!(rt; opened(rt.alloc())?);
    Ok(())
}

// How many windows show buffer 7.
fn shown(alloc: Global) -> Result<usize, AllocError> {
    let windows = Windows::new(alloc, 7)?;
    Ok(windows.showing(alloc, 7)?.len())
}

#[test]
fn windows_show_a_buffer(rt: HostRuntime) -> Result<(), Fail> {
    assert_eq!(rt; shown(rt.alloc())?, 1);
    Ok(())
}

// Whether a changedtick can rise so far.
fn has_room(tick: i64, count: u64) -> bool
    ensures { IsTrue result ↔ ((tick +ℤ pos count) ≤ℤ i64.MAX) }
{
    count <= i64::MAX.abs_diff(tick)
}

// A line is put in an empty buffer.
fn put(alloc: Global, buffer: &mut Buffer) -> Result<(), AllocError> {
    let line = LineList::one(alloc, Line::new(alloc)?);
    if buffer.tick() < 9 && buffer.text().count() < 9 {
        let _ = buffer.put_lines(0, 0, line)?;
    }
    Ok(())
}

// How many splices an undo makes.
fn undone(buffer: &mut Buffer) -> Result<usize, AllocError> {
    if !has_room(buffer.tick(), buffer.cost_back()) {
        return Ok(0);
    }
    Ok(buffer.undo()?.len())
}

// How many splices a redo makes.
fn made_again(buffer: &mut Buffer) -> Result<usize, AllocError> {
    if !has_room(buffer.tick(), buffer.cost_ahead()) {
        return Ok(0);
    }
    Ok(buffer.redo()?.len())
}

// How many splices lead to the text at first.
fn gone_back(buffer: &mut Buffer) -> Result<usize, AllocError> {
    if !has_room(buffer.tick(), buffer.cost_to(0)) {
        return Ok(0);
    }
    Ok(buffer.undo_to(0)?.len())
}

// The same of a line that is put, that is undone and made again.
fn walked(alloc: Global) -> Result<[usize; 3], AllocError> {
    let mut buffer = Buffer::new(alloc, 1)?;
    put(alloc, &mut buffer)?;
    Ok([
        undone(&mut buffer)?,
        made_again(&mut buffer)?,
        gone_back(&mut buffer)?,
    ])
}

#[test]
fn a_buffer_is_undone(rt: HostRuntime) -> Result<(), Fail> {
    assert_eq!(rt; walked(rt.alloc())?, [1, 1, 1]);
    Ok(())
}
