//! Values that are no batch, and events that don't fit a screen.

use nv_hl::CellText;
use nv_linegrid::{Redraw, Run, Runs};
use nv_msgpack::{Bounds, Decoded, decode};
use nv_redraw::{Screen, batch_of};
use nv_value::Value;
use std::alloc::{AllocError, Global};
use std::test::Fail;

const BOUNDS: Bounds = Bounds {
    depth: 64,
    bytes: 67108864,
};

// How many events a value tells, and nothing where it tells none.
fn told_by(alloc: Global, value: &Value) -> Result<Option<usize>, AllocError> {
    let events = batch_of(alloc, value)?;
    Ok(events.map(|events| events.len()))
}

// The same of a value in bytes.
fn told(alloc: Global, bytes: &[u8]) -> Result<Option<usize>, AllocError> {
    match decode(alloc, bytes, BOUNDS)? {
        Decoded::Whole(value, _) => told_by(alloc, &value),
        _ => Ok(None),
    }
}

// A batch; two events of one name that don't share an entry; a line that wraps; and no list.
fn all_told(alloc: Global) -> Result<[Option<usize>; 4], AllocError> {
    Ok([
        told(alloc, b"\x93\x02\xa6redraw\x91\x92\xa5flush\x90")?,
        told(
            alloc,
            b"\x93\x02\xa6redraw\x92\x92\xa5flush\x90\x92\xa5flush\x90",
        )?,
        told(
            alloc,
            b"\x93\x02\xa6redraw\x91\x92\xa9grid_line\x95\x01\x00\x00\x90\xc3",
        )?,
        told(alloc, b"\xc0")?,
    ])
}

#[test]
fn other_values_tell_no_batch(rt: HostRuntime) -> Result<(), Fail> {
    assert_eq!(rt; all_told(rt.alloc())?, [Some(1), None, None, None]);
    Ok(())
}

fn goto_start() -> Redraw {
    Redraw::Goto {
        grid: 1,
        row: 0,
        col: 0,
    }
}

// A line of one cell with the attribute of an id.
fn line(alloc: Global, id: u64) -> Result<Redraw, AllocError> {
    let cells = vec![in alloc; Run::One(CellText::from_byte(b'a'), id)]?;
    Ok(Redraw::LineOf {
        grid: 1,
        row: 0,
        col: 0,
        cells: Runs::from_vec(cells),
    })
}

// Whether a screen takes a cursor before it has a size, a size, the cursor then, a line, and one of
// an attribute that it wasn't told.
fn taken(alloc: Global, screen: &mut Screen) -> Result<[bool; 5], AllocError> {
    let size = Redraw::Resize {
        grid: 1,
        width: 2,
        height: 1,
    };
    let lines = (line(alloc, 0)?, line(alloc, 9)?);
    Ok([
        screen.take(&goto_start())?,
        screen.take(&size)?,
        screen.take(&goto_start())?,
        screen.take(&lines.0)?,
        screen.take(&lines.1)?,
    ])
}

#[test]
fn a_screen_takes_what_fits(rt: HostRuntime) -> Result<(), Fail> {
    let mut screen = Screen::new(rt.alloc());
    assert_eq!(rt;
        taken(rt.alloc(), &mut screen)?,
        [false, true, true, true, false]
    );
    Ok(())
}
