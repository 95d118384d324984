//! Marks in a store of records: found, taken out, put in and listed.

ghost use Rattle.nv_marks.specs.Marks.{greatest_id, mark_at};
ghost use Rattle.nv_marks.specs.inside.Chunks.{IsChunkFor, IsLaid, IsSpare, spread_records};
ghost use Rattle.nv_marks.specs.inside.Names.{IsIndexOf};
ghost use Rattle.nv_marks.specs.inside.Putting.{IsCleared, IsScratch};
ghost use Rattle.nv_marks.specs.inside.Records.{ForEach, belongs_to, end_among, has_key, mark_among, mark_with_stop, marks_among, records_of_mark, records_of_marks, same_key, start_record, end_record};
ghost use Rattle.nv_marks.specs.inside.Stored.{IsEndKnown};
ghost use Rattle.nv_places.specs.Places.{IsNarrow};
ghost use Rattle.std.specs.List.{IsDistinct};
ghost use Rattle.std.specs.Prelude.{◌≡◌, ◌+◌, ◌≤◌, ◌<◌, ◌++◌, ◌∷◌, [], All, IfSome, IsPermutation, None, false, filter, is_some, not, vec_capacity, vec_len};

use crate::chunk::Chunk;
use crate::extmark::{Far, Mark};
use crate::index::Index;
use crate::record::{Info, Record};
use crate::store::Store;
use std::collections::BTreeMap;

/// The mark of a namespace and id.
pub(crate) fn find_mark(store: &Store, index: &Index, ns: u32, id: u32) -> Option<Mark>
    requires laid { IsLaid store.now.chunks.items }
    requires once { IsDistinct same_key (spread_records store.now.chunks.items) }
    requires ends { ForEach (IsEndKnown (spread_records store.now.chunks.items))
        (spread_records store.now.chunks.items) }
    requires index { IsIndexOf index.now (marks_among (spread_records store.now.chunks.items)) }
    ensures { result ≡ mark_at (marks_among (spread_records store.now.chunks.items)) ns id }
{
    let home = index.home(ns, id)?;
    let start = store.find(index.place(home.start), ns, id, false)?;
    Some(mark_of(store, start, index.place(home.end)))
}

/// The mark of a namespace and id: its start is looked for behind the place `last` first, which is
/// where it stands then.
pub(crate) fn find_next(
    store: &Store,
    index: &Index,
    last: &mut (usize, usize),
    ns: u32,
    id: u32,
) -> Option<Mark>
    requires laid { IsLaid store.now.chunks.items }
    requires once { IsDistinct same_key (spread_records store.now.chunks.items) }
    requires ends { ForEach (IsEndKnown (spread_records store.now.chunks.items))
        (spread_records store.now.chunks.items) }
    requires index { IsIndexOf index.now (marks_among (spread_records store.now.chunks.items)) }
    ensures { result ≡ mark_at (marks_among (spread_records store.now.chunks.items)) ns id }
{
    let start = store.find_next(last, ns, id, index)?;
    Some(mark_from(store, index, start))
}

/// The mark of a namespace and id, where no mark has an id above the greatest of its namespace: so
/// a greater one isn't looked for.
pub(crate) fn find_counted(
    store: &Store,
    index: &Index,
    greatest: &BTreeMap<u32, u32>,
    ns: u32,
    id: u32,
) -> Option<Mark>
    requires laid { IsLaid store.now.chunks.items }
    requires once { IsDistinct same_key (spread_records store.now.chunks.items) }
    requires ends { ForEach (IsEndKnown (spread_records store.now.chunks.items))
        (spread_records store.now.chunks.items) }
    requires index { IsIndexOf index.now (marks_among (spread_records store.now.chunks.items)) }
    requires counted { All (λ m. m.id ≤ greatest_id greatest.now.entries m.ns)
        (marks_among (spread_records store.now.chunks.items)) }
    ensures { result ≡ mark_at (marks_among (spread_records store.now.chunks.items)) ns id }
{
    let most = greatest.get(&ns).copied().unwrap_or(0);
    if id > most {
        return None;
    }
    find_mark(store, index, ns, id)
}

/// The mark of a start, with its end from the chunk at `near`, if it is there.
pub(crate) fn mark_of(store: &Store, start: Record, near: usize) -> Mark
    requires laid { IsLaid store.now.chunks.items }
    requires once { IsDistinct same_key (spread_records store.now.chunks.items) }
    requires end { start.info.has_end
        ≡ is_some (end_among (spread_records store.now.chunks.items) start.info.ns start.info.id) }
    ensures { result ≡ mark_among (spread_records store.now.chunks.items) start }
{
    let stop = end_of(store, start, near);
    mark_with_stop(start, stop)
}

/// The mark of a start, with its end if it has one.
pub(crate) fn mark_from(store: &Store, index: &Index, start: Record) -> Mark
    requires laid { IsLaid store.now.chunks.items }
    requires once { IsDistinct same_key (spread_records store.now.chunks.items) }
    requires end { start.info.has_end
        ≡ is_some (end_among (spread_records store.now.chunks.items) start.info.ns start.info.id) }
    ensures { result ≡ mark_among (spread_records store.now.chunks.items) start }
{
    let near = if start.info.has_end {
        index.place_of(start.info.ns, start.info.id, true)
    } else {
        0
    };
    mark_of(store, start, near)
}

/// The mark of a start, with an end that was found.
pub(crate) fn mark_with_stop(start: Record, stop: Option<Far>) -> Mark
    ensures { result ≡ mark_with_stop start stop }
{
    Mark {
        ns: start.info.ns,
        id: start.info.id,
        start: start.pos,
        right: start.info.right,
        stop,
        paint: start.info.paint,
        priority: start.info.priority,
        restore: start.info.restore,
        invalidate: start.info.invalidate,
        hidden: start.info.hidden,
        set: start.info.set,
    }
}

/// The end of the mark of a start.
fn end_of(store: &Store, start: Record, near: usize) -> Option<Far>
    requires laid { IsLaid store.now.chunks.items }
    requires once { IsDistinct same_key (spread_records store.now.chunks.items) }
    requires end { start.info.has_end
        ≡ is_some (end_among (spread_records store.now.chunks.items) start.info.ns start.info.id) }
    ensures { result
        ≡ end_among (spread_records store.now.chunks.items) start.info.ns start.info.id }
{
    let Info {
        ns,
        id,
        has_end,
        ..
    } = start.info;
    if !has_end {
        return None;
    }
    let end = store.find(near, ns, id, true)?;
    Some(Far {
        pos: end.pos,
        right: end.info.right,
    })
}

/// Takes the start, or the end, of the mark of a namespace and id out.
fn take_key(
    store: &mut Store,
    index: &mut Index,
    ns: u32,
    id: u32,
    end: bool,
    scratch: &mut Vec<Record>,
)
    requires laid { IsLaid store.old.chunks.items }
    requires once { IsDistinct same_key (spread_records store.old.chunks.items) }
    requires scratch { IsScratch 64 scratch.old }
    ensures laid { IsLaid store.new.chunks.items }
    ensures rest { IsPermutation (filter (λ r. not (has_key ns id end r))
        (spread_records store.old.chunks.items)) (spread_records store.new.chunks.items) }
    ensures scratch { IsCleared scratch.old scratch.new }
    ensures place { vec_capacity store.new.chunks ≡ vec_capacity store.old.chunks }
    ensures places { vec_len store.new.chunks ≤ vec_len store.old.chunks }
    ensures index { index.new ≡ index.old }
{
    let near = index.place_of(ns, id, end);
    if let Some((at, place)) = store.locate(near, ns, id, end) {
        let _ = store.take_out(at, place, index, scratch);
    }
}

/// Takes the records of a mark out, its end only where it has one.
pub(crate) fn take_mark(
    store: &mut Store,
    index: &mut Index,
    ns: u32,
    id: u32,
    has_end: bool,
    scratch: &mut Vec<Record>,
)
    requires laid { IsLaid store.old.chunks.items }
    requires once { IsDistinct same_key (spread_records store.old.chunks.items) }
    requires end { has_end ≡ false
        → end_among (spread_records store.old.chunks.items) ns id ≡ None }
    requires scratch { IsScratch 64 scratch.old }
    ensures laid { IsLaid store.new.chunks.items }
    ensures rest { IsPermutation (filter (λ r. not (belongs_to ns id r))
        (spread_records store.old.chunks.items)) (spread_records store.new.chunks.items) }
    ensures scratch { IsCleared scratch.old scratch.new }
    ensures place { vec_capacity store.new.chunks ≡ vec_capacity store.old.chunks }
    ensures places { vec_len store.new.chunks ≤ vec_len store.old.chunks }
    ensures index { index.new ≡ index.old }
{
    take_key(store, index, ns, id, false, scratch);
    if has_end {
        take_key(store, index, ns, id, true, scratch);
    }
}

/// Takes the records of a mark out that was found, and none where none was.
pub(crate) fn take_found(
    store: &mut Store,
    index: &mut Index,
    found: Option<Mark>,
    ns: u32,
    id: u32,
    scratch: &mut Vec<Record>,
)
    requires laid { IsLaid store.old.chunks.items }
    requires once { IsDistinct same_key (spread_records store.old.chunks.items) }
    requires all { IsPermutation (records_of_marks
        (marks_among (spread_records store.old.chunks.items)))
        (spread_records store.old.chunks.items) }
    requires found { found ≡ mark_at (marks_among (spread_records store.old.chunks.items)) ns id }
    requires scratch { IsScratch 64 scratch.old }
    ensures laid { IsLaid store.new.chunks.items }
    ensures rest { IsPermutation (filter (λ r. not (belongs_to ns id r))
        (spread_records store.old.chunks.items)) (spread_records store.new.chunks.items) }
    ensures scratch { IsCleared scratch.old scratch.new }
    ensures place { vec_capacity store.new.chunks ≡ vec_capacity store.old.chunks }
    ensures places { vec_len store.new.chunks ≤ vec_len store.old.chunks }
    ensures same { found ≡ None → store.new.chunks.items ≡ store.old.chunks.items }
    ensures index { index.new ≡ index.old }
{
    if let Some(mark) = found {
        take_mark(store, index, ns, id, mark.stop.is_some(), scratch);
    }
}

/// Puts the records of a mark in, with two spare chunks.
pub(crate) fn put_mark(
    store: &mut Store,
    index: &mut Index,
    mark: Mark,
    chunk: Option<usize>,
    spare: &mut Vec<Chunk>,
    scratch: &mut Vec<Record>,
)
    requires laid { IsLaid store.old.chunks.items }
    requires chunk { IfSome chunk
        (λ at. IsChunkFor (start_record mark) store.old.chunks.items at) }
    requires place { vec_len store.old.chunks + 1 < vec_capacity store.old.chunks }
    requires spare { 1 < vec_len spare.old }
    requires spares { ForEach IsSpare spare.old.items }
    requires scratch { IsScratch 65 scratch.old }
    ensures laid { IsLaid store.new.chunks.items }
    ensures same_records { IsPermutation
        (records_of_mark mark ++ spread_records store.old.chunks.items)
        (spread_records store.new.chunks.items) }
    ensures scratch { IsCleared scratch.old scratch.new }
    ensures spares { ForEach IsSpare spare.new.items }
    ensures index { index.new ≡ index.old }
{
    let start = start_record(&mark);
    match mark.stop {
        Some(far) => {
            store.insert(end_record(&mark, far), index, spare, scratch);
            store.insert(start, index, spare, scratch);
        }
        None => store.insert_into(chunk, start, index, spare, scratch),
    }
}

/// The chunk that the start of a mark goes into, where it is a new one and has no end.
pub(crate) fn chunk_for(store: &Store, found: Option<Mark>, mark: &Mark) -> Option<usize>
    requires laid { IsLaid store.now.chunks.items }
    ensures { IfSome result (λ at. (found ≡ None)
        × IsChunkFor (start_record mark.now) store.now.chunks.items at) }
{
    if found.is_some() || mark.stop.is_some() {
        return None;
    }
    store.chunk_for(&start_record(mark))
}

/// The start of a mark as a record.
fn start_record(mark: &Mark) -> Record
    ensures { result ≡ start_record mark.now }
{
    Record {
        pos: mark.start,
        info: Info {
            ns: mark.ns,
            id: mark.id,
            right: mark.right,
            is_end: false,
            has_end: mark.stop.is_some(),
            paint: mark.paint,
            priority: mark.priority,
            restore: mark.restore,
            invalidate: mark.invalidate,
            hidden: mark.hidden,
            set: mark.set,
        },
    }
}

/// The end of a mark as a record.
fn end_record(mark: &Mark, far: Far) -> Record
    ensures { result ≡ end_record mark.now far }
{
    Record {
        pos: far.pos,
        info: Info {
            ns: mark.ns,
            id: mark.id,
            right: far.right,
            is_end: true,
            has_end: false,
            paint: None,
            priority: 0,
            restore: false,
            invalidate: false,
            hidden: false,
            set: 0,
        },
    }
}
