//! Virtual texts in a window.

ghost use Rattle.nv_notes.specs.Notes.{IsNoteOf};
ghost use Rattle.nv_screen.specs.Sound.{IsInReach};
ghost use Rattle.nv_virt.specs.Texts.{AreOfGroups};
ghost use Rattle.std.specs.Prelude.{[], IfOk};

use crate::text_lines::line_of;
use nv_hl::Groups;
use nv_layout::Rect;
use nv_notes::{At, Chunk, Note};
use nv_screen::{Pane, Patch, SceneLine};
use nv_virt::{VirtText, push_texts};
use std::alloc::{AllocError, Global};
use std::test::Fail;

// A window of 6 columns and 3 rows, at row 1 and column 2 of the screen, on a text of three lines
// of which the second has two rows.
fn pane(alloc: Global) -> Result<Pane, AllocError>
    ensures { IfOk result IsInReach }
{
    let mut lines = Vec::new(alloc);
    for (row, bytes) in [
        (4, b"ab".as_slice()),
        (5, b"abcdefg".as_slice()),
        (6, b"".as_slice()),
    ] {
        lines.push(SceneLine {
            row,
            bytes: line_of(alloc, bytes)?,
            spans: Vec::new(alloc),
        })?;
    }
    Ok(Pane {
        window: 1000,
        buffer: 1,
        tick: 2,
        tabstop: 8,
        rect: Rect {
            row: 1,
            col: 2,
            width: 6,
            height: 3,
        },
        top: 4,
        current: true,
        count: 7,
        lines,
        status: line_of(alloc, b"")?,
    })
}

// A virtual text without a group.
fn note(alloc: Global, text: &[u8], at: At) -> Result<Note, AllocError>
    ensures { IfOk result (IsNoteOf []) }
{
    let mut chunks = Vec::new(alloc);
    chunks.push(Chunk {
        text: line_of(alloc, text)?,
        group: None,
    })?;
    Ok(Note::new(chunks, at))
}

// It is at a place of the text.
fn text_at(row: u32, byte: u32, note: &Note) -> VirtText<'_>
    requires { IsNoteOf [] note.now }
    ensures { IsNoteOf [] result.note.now }
{
    VirtText { row, byte, note }
}

// Row, column and texts of the cells of patches, with a dot for each right half of a pair.
fn put_patch(told: &mut Vec<u8>, patch: &Patch) -> Result<(), AllocError> {
    told.push(b'0' + (patch.row % 10) as u8)?;
    told.push(b'0' + (patch.col % 10) as u8)?;
    told.push(b' ')?;
    for cell in patch.cells.as_slice() {
        if cell.is_right_half() {
            told.push(b'.')?;
        }
        told.extend_from_slice(cell.text.as_slice())?;
    }
    told.push(b';')?;
    Ok(())
}

// What the window shows of one text after another.
fn told_of(alloc: Global, texts: &[VirtText]) -> Result<Vec<u8>, AllocError>
    requires { AreOfGroups [] texts.now }
{
    let pane = pane(alloc)?;
    let groups = Groups::none(alloc);
    let mut patches = Vec::new(alloc);
    push_texts(alloc, &groups, &pane, texts, &mut patches)?;
    let mut told = Vec::new(alloc);
    for patch in patches.as_slice() {
        put_patch(&mut told, patch)?;
    }
    Ok(told)
}

// Behind the line's end there is a free column, and one behind each text.
#[test]
fn texts_are_behind_the_line(rt: HostRuntime) -> Result<(), Fail> {
    let alloc = rt.alloc();
    let one = note(alloc, b"h", At::Eol)?;
    let none = note(alloc, b"", At::Eol)?;
    let two = note(alloc, b"hi", At::Eol)?;
    let texts = [
        text_at(4, 0, &one),
        text_at(4, 1, &none),
        text_at(4, 0, &two),
        text_at(5, 0, &two),
        text_at(6, 0, &one),
    ];
    let told = told_of(alloc, &texts)?;
    assert!(rt; told.as_slice() == b"15 h;34 hi;".as_slice());
    Ok(())
}

// A text over the line begins at the first cell of its piece, and at its end behind the last cell.
#[test]
fn texts_are_over_the_line(rt: HostRuntime) -> Result<(), Fail> {
    let alloc = rt.alloc();
    let tabbed = note(alloc, b"a\tbcdefg", At::Overlay)?;
    let wide = note(alloc, "x\u{4e16}\u{4e16}".as_bytes(), At::Overlay)?;
    let odd = note(alloc, b"\x01\xff", At::Overlay)?;
    let texts = [
        text_at(4, 1, &tabbed),
        text_at(4, 2, &wide),
        text_at(5, 6, &odd),
        text_at(7, 0, &odd),
        text_at(3, 0, &odd),
    ];
    let told = told_of(alloc, &texts)?;
    assert!(rt; told.as_slice() == "13 a    ;14 x世. ;32 ^A<ff>;".as_bytes());
    Ok(())
}

// A text at the right edge ends there, or begins at the first column.
#[test]
fn texts_are_at_the_right_edge(rt: HostRuntime) -> Result<(), Fail> {
    let alloc = rt.alloc();
    let short = note(alloc, b"hi", At::RightAlign)?;
    let long = note(alloc, "abcde\u{4e16}f".as_bytes(), At::RightAlign)?;
    let texts = [
        text_at(4, 0, &short),
        text_at(5, 0, &long),
        text_at(6, 0, &short),
    ];
    let told = told_of(alloc, &texts)?;
    assert!(rt; told.as_slice() == b"16 hi;22 abcde ;".as_slice());
    Ok(())
}
