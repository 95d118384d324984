//! Rows that stay the same from one scene to the next.

ghost use Rattle.nv_painter.specs.inside.Lone.{IsLonePane};
ghost use Rattle.nv_screen.specs.Sound.{AreInRows, IsSoundScene};
ghost use Rattle.std.specs.Prelude.{◌≡◌, ◌<◌, ◌≤◌, ◌+◌, ◌-◌, IfOk, length, min};

use crate::text_lines::line_of;
use nv_hl::{Attr, Colours};
use nv_layout::Rect;
use nv_linedraw::Looks;
use nv_screen::{Bars, Pane, Scene, SceneLine, Spot, steady_rows};
use std::alloc::{AllocError, Global};
use std::test::Fail;

const BOLD: Attr = Attr {
    bold: true,
    ..Attr::EMPTY
};

const LOOKS: Looks = Looks {
    nontext: BOLD,
    special: BOLD,
    beyond: BOLD,
};

const BARS: Bars = Bars {
    current: Attr {
        reverse: true,
        ..BOLD
    },
    other: Attr {
        reverse: true,
        ..Attr::EMPTY
    },
    separator: Attr::EMPTY,
};

const COLOURS: Colours = Colours {
    fg: 16777215,
    bg: 0,
    sp: 16711680,
    cterm_fg: 0,
    cterm_bg: 0,
};

fn scene_line(alloc: Global, row: u32, bytes: &[u8]) -> Result<SceneLine, AllocError>
    ensures { IfOk result (λ line. line.row ≡ row) }
{
    Ok(SceneLine {
        row,
        bytes: line_of(alloc, bytes)?,
        spans: Vec::new(alloc),
    })
}

fn two_lines(
    alloc: Global,
    row: u32,
    upper: &[u8],
    lower: &[u8],
) -> Result<Vec<SceneLine>, AllocError>
    requires { row < 1000 }
    ensures { IfOk result (λ lines. (length lines.items ≡ 2) × AreInRows row lines.items) }
{
    let mut lines = Vec::with_capacity(alloc, 2)?;
    lines.push(scene_line(alloc, row, upper)?)?;
    lines.push(scene_line(alloc, row + 1, lower)?)?;
    Ok(lines)
}

// A window over a text of so many lines, for a screen that has one row below its status line.
fn pane_of(
    alloc: Global,
    size: (u32, u32),
    lines: Vec<SceneLine>,
    count: u32,
    top: u32,
    status: &[u8],
) -> Result<Pane, AllocError>
    requires wide { 0 < size.0 }
    requires high { 2 < size.1 }
    requires count { length lines.items ≡ min (size.1 - 2) (count - top) }
    requires rows { AreInRows top lines.items }
    ensures lone { IfOk result (IsLonePane size.0 size.1) }
    ensures top { IfOk result (λ p. p.top ≡ top) }
    ensures lines { IfOk result (λ p. length p.lines.items ≡ length lines.items) }
{
    let status = line_of(alloc, status)?;
    Ok(Pane {
        window: 1000,
        buffer: 1,
        tick: 2,
        tabstop: 8,
        rect: Rect {
            row: 0,
            col: 0,
            width: size.0,
            height: size.1 - 2,
        },
        top,
        current: true,
        count,
        lines,
        status,
    })
}

// The window on its screen, with the cursor in front of a line.
fn scene_with(alloc: Global, size: (u32, u32), pane: Pane, row: u32) -> Result<Scene, AllocError>
    requires lone { IsLonePane size.0 size.1 pane }
    requires first { pane.top ≤ row }
    requires last { row < pane.top + length pane.lines.items }
    ensures { IfOk result IsSoundScene }
{
    let mut panes = Vec::with_capacity(alloc, 1)?;
    panes.push(pane)?;
    Ok(Scene {
        width: size.0,
        height: size.1,
        panes,
        separators: Vec::new(alloc),
        cursor: Spot {
            window: 1000,
            row,
            byte: 0,
        },
        looks: LOOKS,
        bars: BARS,
        colours: COLOURS,
        patches: Vec::new(alloc),
    })
}

fn scene_of(
    alloc: Global,
    size: (u32, u32),
    lines: Vec<SceneLine>,
    count: u32,
    top: u32,
    row: u32,
    status: &[u8],
) -> Result<Scene, AllocError>
    requires wide { 0 < size.0 }
    requires high { 2 < size.1 }
    requires count { length lines.items ≡ min (size.1 - 2) (count - top) }
    requires rows { AreInRows top lines.items }
    requires first { top ≤ row }
    requires last { row < top + length lines.items }
    ensures { IfOk result IsSoundScene }
{
    let pane = pane_of(alloc, size, lines, count, top, status)?;
    scene_with(alloc, size, pane, row)
}

// Two lines in a window of 4 columns and 3 rows, above its status line and a blank row.
fn scene(alloc: Global, upper: &[u8], lower: &[u8], status: &[u8]) -> Result<Scene, AllocError>
    ensures { IfOk result IsSoundScene }
{
    scene_of(
        alloc,
        (4, 5),
        two_lines(alloc, 0, upper, lower)?,
        2,
        0,
        0,
        status,
    )
}

// What `ab`, `cd` and the status `name` become, and which rows surely stay the same.
struct Change {
    name: &'static str,
    upper: &'static [u8],
    lower: &'static [u8],
    status: &'static [u8],
    rows: &'static [bool],
}

fn changes() -> &'static [Change] {
    &[
        Change {
            name: "nothing",
            upper: b"ab",
            lower: b"cd",
            status: b"name",
            rows: &[true, true, true, true, true],
        },
        Change {
            name: "another line",
            upper: b"ab",
            lower: b"ce",
            status: b"name",
            rows: &[true, false, true, true, true],
        },
        Change {
            name: "another status",
            upper: b"ab",
            lower: b"cd",
            status: b"other",
            rows: &[true, true, true, false, true],
        },
        Change {
            name: "a line of two rows",
            upper: b"ab",
            lower: b"cdefg",
            status: b"name",
            rows: &[true, false, false, true, true],
        },
        Change {
            name: "lines below one of two rows",
            upper: b"abcde",
            lower: b"cd",
            status: b"name",
            rows: &[false, false, false, true, true],
        },
    ]
}

// Whether these rows, and no others, are said to stay the same.
fn is_told(alloc: Global, change: &Change) -> Result<bool, AllocError> {
    let before = scene(alloc, b"ab", b"cd", b"name")?;
    let now = scene(alloc, change.upper, change.lower, change.status)?;
    Ok(steady_rows(alloc, &before, &now)?.as_slice() == change.rows)
}

// The first change of which others are.
fn first_wrong(alloc: Global) -> Result<Option<&'static str>, AllocError> {
    for change in changes() {
        if !is_told(alloc, change)? {
            return Ok(Some(change.name));
        }
    }
    Ok(None)
}

#[test]
fn rows_that_change_are_cleared(rt: HostRuntime) -> Result<(), Fail> {
    assert_eq!(rt; first_wrong(rt.alloc())?, None);
    Ok(())
}
