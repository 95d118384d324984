//! The marks of an editor, as they go on being followed.
ghost use Rattle.std.specs.Prelude.{◌≡◌, ◌++◌, option_map, find, slice_get, IfOk, OnOk};
ghost use Rattle.nv_places.specs.Places.{offset_of};
ghost use Rattle.nv_model.specs.Standing.{seen_now, seen_buffer_now};
ghost use Rattle.nv_watch.specs.FollowedMarks.{follow_all, follow_buffer, follow_mark, follow_under, followed_now, is_of_setting};
ghost use Rattle.nv_watch.specs.inside.Known.{AreKnownMarks};

use crate::followed_mark::{FollowedMark, Keys};
use crate::placing::offset_in;
use nv_buffer::Buffer;
use nv_editor::Editor;
use nv_lines::Lines;
use nv_marks::Mark;
use nv_places::Pos;
use std::alloc::{AllocError, Global};
use std::collections::BTreeMap;

// The places of marks that are followed, by buffer, namespace, id and the number of their setting.
type Known = BTreeMap<(i64, u32, u32, u64), usize>;

// The places of some marks.
fn known_marks(alloc: Global, marks: &[FollowedMark]) -> Result<Known, AllocError>
    ensures { IfOk result (λ known. AreKnownMarks known marks.now) }
{
    let mut known = BTreeMap::new(alloc);
    let mut place = marks.len();
    while place > 0 {
        place -= 1;
        let mark = &marks[place];
        known.insert((mark.buffer, mark.ns, mark.id, mark.set), place)?;
    }
    Ok(known)
}

// The mark at a place.
fn mark_there(marks: &[FollowedMark], place: usize) -> Option<&FollowedMark>
    ensures { option_map (λ one. one.now) result ≡ slice_get marks.now place }
{
    marks.get(place)
}

// The one that is followed of a mark of a buffer, under the same setting.
fn known_mark<'a>(
    marks: &'a [FollowedMark],
    known: &Known,
    buffer: i64,
    mark: &Mark,
) -> Option<&'a FollowedMark>
    requires { AreKnownMarks known.now marks.now }
    ensures { option_map (λ one. one.now) result
        ≡ find (is_of_setting buffer mark.now.ns mark.now.id mark.now.set) marks.now }
{
    match known.get(&(buffer, mark.ns, mark.id, mark.set)) {
        Some(place) => mark_there(marks, *place),
        None => None,
    }
}

// The offset of an end, where there is one.
fn stop_in(text: &Lines, mark: &Mark) -> Result<Option<u64>, AllocError>
    ensures { IfOk result (λ stop. stop
        ≡ option_map (λ far. offset_of text.now far.pos) mark.now.stop) }
{
    match mark.stop {
        Some(far) => Ok(Some(offset_in(text, far.pos)?)),
        None => Ok(None),
    }
}

// A mark of a buffer, followed from where it stands now; or left out.
fn followed_now(
    alloc: Global,
    is_left_out: bool,
    buffer: i64,
    text: &Lines,
    mark: &Mark,
) -> Result<FollowedMark, AllocError>
    ensures { IfOk result (λ followed. followed
        ≡ followed_now is_left_out buffer text.now mark.now) }
{
    let stops_right = match mark.stop {
        Some(far) => far.right,
        None => false,
    };
    let start = offset_in(text, mark.start)?;
    let stop = stop_in(text, mark)?;
    Ok(FollowedMark {
        buffer,
        ns: mark.ns,
        id: mark.id,
        set: mark.set,
        is_left_out,
        keys: Keys {
            right: mark.right,
            stops_right,
            restore: mark.restore,
            invalidate: mark.invalidate,
        },
        start,
        stop,
        hidden: mark.hidden,
        gone: false,
        kept: Vec::new(alloc),
    })
}

// A mark of a buffer as it goes on being followed. One that wasn't is followed from where it stands
// now, or left out.
fn follow_mark(
    alloc: Global,
    marks: &[FollowedMark],
    known: &Known,
    is_left_out: bool,
    buffer: i64,
    text: &Lines,
    mark: &Mark,
) -> Result<FollowedMark, AllocError>
    requires { AreKnownMarks known.now marks.now }
    ensures { IfOk result (λ followed. followed
        ≡ follow_mark is_left_out marks.now buffer text.now mark.now) }
{
    match known_mark(marks, known, buffer, mark) {
        Some(one) => Ok(one.copy(alloc)?),
        None => Ok(followed_now(alloc, is_left_out, buffer, text, mark)?),
    }
}

// All marks of a buffer.
fn marks_of(alloc: Global, buffer: &Buffer) -> Result<Vec<Mark>, AllocError>
    ensures { IfOk result (λ marks. marks.items ≡ buffer.now.marks.marks) }
{
    let marks = buffer.marks();
    let _ = buffer.text();
    let first = Pos { row: 0, col: 0 };
    let last = Pos {
        row: u32::MAX,
        col: u32::MAX,
    };
    let count = marks.len();
    let mut found = Vec::with_capacity(alloc, count)?;
    marks.range(first, last, count, &mut found)?;
    Ok(found)
}

// Puts the marks of a buffer after those that are followed.
fn follow_buffer(
    followed: &mut Vec<FollowedMark>,
    alloc: Global,
    marks: &[FollowedMark],
    known: &Known,
    is_left_out: bool,
    handle: i64,
    buffer: &Buffer,
) -> Result<(), AllocError>
    requires { AreKnownMarks known.now marks.now }
    ensures { OnOk result (followed.new.items ≡ followed.old.items
        ++ follow_buffer is_left_out marks.now handle (seen_buffer_now buffer.now)) }
{
    let found = marks_of(alloc, buffer)?;
    let text = buffer.text();
    for mark in found.as_slice() {
        let one = follow_mark(alloc, marks, known, is_left_out, handle, text, mark)?;
        followed.push(one)?;
    }
    Ok(())
}

// Puts the marks of the buffer of a handle after those that are followed.
fn follow_under(
    followed: &mut Vec<FollowedMark>,
    alloc: Global,
    marks: &[FollowedMark],
    known: &Known,
    is_left_out: bool,
    editor: &Editor,
    handle: i64,
) -> Result<(), AllocError>
    requires { AreKnownMarks known.now marks.now }
    ensures { OnOk result (followed.new.items ≡ followed.old.items
        ++ follow_under is_left_out marks.now (seen_now editor.now) handle) }
{
    match editor.buffer(handle) {
        Some(buffer) => follow_buffer(followed, alloc, marks, known, is_left_out, handle, buffer),
        None => Ok(()),
    }
}

/// The marks of an editor as they go on being followed. One that wasn't is followed from where it
/// stands now, or left out.
pub fn follow_all(
    alloc: Global,
    marks: &[FollowedMark],
    is_left_out: bool,
    editor: &Editor,
) -> Result<Vec<FollowedMark>, AllocError>
    ensures { IfOk result (λ followed. followed.items
        ≡ follow_all is_left_out marks.now (seen_now editor.now)) }
{
    let known = known_marks(alloc, marks)?;
    let mut followed = Vec::new(alloc);
    for handle in editor.handles() {
        follow_under(
            &mut followed,
            alloc,
            marks,
            &known,
            is_left_out,
            editor,
            *handle,
        )?;
    }
    Ok(followed)
}
