//! The marks that are asked for, in order.

ghost use Rattle.nv_marks.specs.Order.{is_within};
ghost use Rattle.nv_marks.specs.Queries.{is_selected};
ghost use Rattle.nv_marks.specs.inside.Bands.{IsReachKnown, meets_rows};
ghost use Rattle.nv_marks.specs.inside.Chunks.{IsLaid, placed_record, records_of, spread_records};
ghost use Rattle.nv_marks.specs.inside.Records.{ForEach, Sort, end_among, mark_among, marks_among, same_key};
ghost use Rattle.nv_marks.specs.inside.Stored.{IsEndKnown, extended_list, first_start, listed_marks};
ghost use Rattle.nv_places.specs.Places.{IsNarrow, further, is_before};
ghost use Rattle.std.specs.List.{AllWithin, IsDistinct, list_any};
ghost use Rattle.std.specs.List.Sorted.{IsPartitionPoint};
ghost use Rattle.std.specs.Prelude.{◌≡◌, ◌+◌, ◌-◌, ◌<◌, ◌≤◌, ◌++◌, ◌∷◌, List, [], OnErr, OnOk, false, filter, is_some, length, map, take, true};

use crate::bands::{Band, first_row};
use crate::chunk::Chunk;
use crate::extmark::Mark;
use crate::index::Index;
use crate::parts::{mark_of, mark_with_stop};
use crate::query::{Query, is_meant};
use crate::record::{Record, Relative};
use crate::store::Store;
use nv_places::Pos;
use std::alloc::AllocError;

/// Puts the marks that are asked for behind what is in `into`, up to `limit` more than `held`.
pub(crate) fn list(
    store: &Store,
    index: &Index,
    query: Query,
    bands: &[Band],
    held: usize,
    limit: usize,
    into: &mut Vec<Mark>,
) -> Result<(), AllocError>
    requires laid { IsLaid store.now.chunks.items }
    requires once { IsDistinct same_key (spread_records store.now.chunks.items) }
    requires ends { ForEach (IsEndKnown (spread_records store.now.chunks.items))
        (spread_records store.now.chunks.items) }
    requires reach { ForEach (IsReachKnown bands.now query
        (spread_records store.now.chunks.items)) (spread_records store.now.chunks.items) }
    requires held { held ≡ length into.old.items }
    ensures ok { OnOk result (into.new.items ≡ into.old.items
        ++ take limit (filter (is_selected query)
        (marks_among (spread_records store.now.chunks.items)))) }
    ensures begun { take held into.new.items ≡ into.old.items }
{
    let range = Range { query, held, limit };
    let chunks = store.within(first_place(&query, bands), query.to);
    list_chunks(store, index, chunks, bands, range, into)
}

/// The first place at which a mark that is asked for may start.
fn first_place(query: &Query, bands: &[Band]) -> Pos
    ensures { (all : List Record) (r : Record) → IsReachKnown bands.now query.now all r
        → r.info.is_end ≡ false → is_before r.pos result ≡ true
        → is_selected query.now (mark_among all r) ≡ false }
{
    if !query.reaching {
        return query.from;
    }
    Pos {
        row: first_row(bands, query.from.row),
        col: 0,
    }
}

/// Which marks are listed, and how many behind those that are held.
#[derive(Clone, Copy)]
struct Range {
    query: Query,
    held: usize,
    limit: usize,
}

/// Lists the marks that start in chunks.
fn list_chunks(
    store: &Store,
    index: &Index,
    chunks: &[Chunk],
    bands: &[Band],
    range: Range,
    into: &mut Vec<Mark>,
) -> Result<(), AllocError>
    requires laid { IsLaid store.now.chunks.items }
    requires once { IsDistinct same_key (spread_records store.now.chunks.items) }
    requires in_order { ForEach (λ p. Sort (records_of p)) chunks.now }
    requires narrow { ForEach (λ r. IsNarrow r.pos) (spread_records chunks.now) }
    requires ends { ForEach (IsEndKnown (spread_records store.now.chunks.items))
        (spread_records chunks.now) }
    requires reach { ForEach (IsReachKnown bands.now range.query
        (spread_records store.now.chunks.items)) (spread_records chunks.now) }
    requires held { range.held ≤ length into.old.items }
    ensures ok { OnOk result (into.new.items ≡ extended_list
        (range.held + range.limit) into.old.items
        (listed_marks (spread_records store.now.chunks.items) range.query
        (spread_records chunks.now))) }
    ensures begun { take range.held into.new.items ≡ take range.held into.old.items }
{
    for chunk in chunks {
        if range.limit <= into.len() - range.held {
            return Ok(());
        }
        list_part(store, index, chunk.base(), chunk.kept(), bands, range, into)?;
    }
    Ok(())
}

/// Lists the marks that start in one chunk, where it may have some.
fn list_part(
    store: &Store,
    index: &Index,
    base: Pos,
    kept: &[Relative],
    bands: &[Band],
    range: Range,
    into: &mut Vec<Mark>,
) -> Result<(), AllocError>
    requires laid { IsLaid store.now.chunks.items }
    requires once { IsDistinct same_key (spread_records store.now.chunks.items) }
    requires in_order { Sort (map (placed_record base) kept.now) }
    requires narrow { ForEach (λ r. IsNarrow r.pos) (map (placed_record base) kept.now) }
    requires ends { ForEach (IsEndKnown (spread_records store.now.chunks.items))
        (map (placed_record base) kept.now) }
    requires reach { ForEach (IsReachKnown bands.now range.query
        (spread_records store.now.chunks.items)) (map (placed_record base) kept.now) }
    requires held { range.held ≤ length into.old.items }
    ensures ok { OnOk result (into.new.items ≡ extended_list
        (range.held + range.limit) into.old.items
        (listed_marks (spread_records store.now.chunks.items) range.query
        (map (placed_record base) kept.now))) }
    ensures begun { take range.held into.new.items ≡ take range.held into.old.items }
    ensures more { length into.old.items ≤ length into.new.items }
{
    if is_passed(base, kept, &range.query, bands) {
        return Ok(());
    }
    list_kept(store, index, base, kept, range, into)
}

/// Whether no mark is asked for that starts in one chunk: its records stand before the first place
/// that is asked for, in no row from which marks reach it.
fn is_passed(base: Pos, kept: &[Relative], query: &Query, bands: &[Band]) -> bool
    requires { Sort (map (placed_record base) kept.now) }
    ensures { result ≡ true → (all : List Record)
        → ForEach (IsReachKnown bands.now query.now all) (map (placed_record base) kept.now)
        → listed_marks all query.now (map (placed_record base) kept.now) ≡ [] }
{
    if kept.is_empty() {
        return false;
    }
    is_above(base, kept[kept.len() - 1], query.from, bands)
}

/// Whether the last record of a chunk stands before a place, and no band has a row of the chunk.
fn is_above(base: Pos, last: Relative, from: Pos, bands: &[Band]) -> bool
    ensures before { result ≡ true → is_before (further base last.by) from ≡ true }
    ensures apart { result ≡ true
        → list_any (meets_rows base.row (further base last.by).row) bands.now ≡ false }
{
    if last.stands_before(base, from) {
        let (row, _) = last.wide_place(base);
        return !has_rows(bands, base.row, row);
    }
    false
}

/// Whether some band has one of the rows from one to another.
fn has_rows(bands: &[Band], low: u32, high: u64) -> bool
    ensures { result ≡ list_any (meets_rows low high) bands.now }
{
    bands.iter().any(|band| band.meets(low, high))
}

/// Lists the marks that start in one chunk.
fn list_kept(
    store: &Store,
    index: &Index,
    base: Pos,
    kept: &[Relative],
    range: Range,
    into: &mut Vec<Mark>,
) -> Result<(), AllocError>
    requires laid { IsLaid store.now.chunks.items }
    requires once { IsDistinct same_key (spread_records store.now.chunks.items) }
    requires in_order { Sort (map (placed_record base) kept.now) }
    requires narrow { ForEach (λ r. IsNarrow r.pos) (map (placed_record base) kept.now) }
    requires ends { ForEach (IsEndKnown (spread_records store.now.chunks.items))
        (map (placed_record base) kept.now) }
    requires held { range.held ≤ length into.old.items }
    ensures ok { OnOk result (into.new.items ≡ extended_list
        (range.held + range.limit) into.old.items
        (listed_marks (spread_records store.now.chunks.items) range.query
        (map (placed_record base) kept.now))) }
    ensures begun { take range.held into.new.items ≡ take range.held into.old.items }
    ensures more { length into.old.items ≤ length into.new.items }
{
    let rest = rest_from(base, kept, range.query.first_start());
    list_each(store, index, base, rest, range, into)
}

/// Those records of a chunk that don't stand before a place.
fn rest_from(base: Pos, kept: &[Relative], from: Pos) -> &[Relative]
    requires in_order { Sort (map (placed_record base) kept.now) }
    ensures in_order { Sort (map (placed_record base) result.now) }
    ensures narrow { ForEach (λ r. IsNarrow r.pos) (map (placed_record base) kept.now)
        → ForEach (λ r. IsNarrow r.pos) (map (placed_record base) result.now) }
    ensures ends { (all : List Record)
        → ForEach (IsEndKnown all) (map (placed_record base) kept.now)
        → ForEach (IsEndKnown all) (map (placed_record base) result.now) }
    ensures from { ForEach (λ r. is_before r.pos from ≡ false)
        (map (placed_record base) result.now) }
    ensures within { (to : Pos)
        → filter (λ r. is_within from to r.pos) (map (placed_record base) result.now)
        ≡ filter (λ r. is_within from to r.pos) (map (placed_record base) kept.now) }
{
    let first = count_to(base, kept, from);
    let (_, rest) = kept.split_at(first);
    rest
}

/// How many records of a chunk stand before a place: these come first.
fn count_to(base: Pos, kept: &[Relative], from: Pos) -> usize
    requires in_order { Sort (map (placed_record base) kept.now) }
    ensures bound { result ≤ length kept.now }
    ensures point { IsPartitionPoint (λ k. is_before (further base k.by) from ≡ true)
        (λ k. is_before (further base k.by) from ≡ false) kept.now result }
{
    let mut count = count_near(base, kept, from);
    while count < kept.len() && kept[count].stands_before(base, from) {
        count += 1;
    }
    count
}

/// How many records of a chunk stand before a place, or a few less. Each eighth is looked at: they
/// come into the processor's cache side by side, where the halves of a binary search come one after
/// another.
fn count_near(base: Pos, kept: &[Relative], from: Pos) -> usize
    requires in_order { Sort (map (placed_record base) kept.now) }
    ensures bound { result ≤ length kept.now }
    ensures front { AllWithin (λ k. is_before (further base k.by) from ≡ true) kept.now 0 result }
{
    let mut near = 0;
    while near + 8 < kept.len() && kept[near + 8].stands_before(base, from) {
        near += 8;
    }
    near
}

/// Lists the marks that start among records of one chunk that don't stand before the range.
fn list_each(
    store: &Store,
    index: &Index,
    base: Pos,
    kept: &[Relative],
    range: Range,
    into: &mut Vec<Mark>,
) -> Result<(), AllocError>
    requires laid { IsLaid store.now.chunks.items }
    requires once { IsDistinct same_key (spread_records store.now.chunks.items) }
    requires in_order { Sort (map (placed_record base) kept.now) }
    requires from { ForEach (λ r. is_before r.pos (first_start range.query) ≡ false)
        (map (placed_record base) kept.now) }
    requires narrow { ForEach (λ r. IsNarrow r.pos) (map (placed_record base) kept.now) }
    requires ends { ForEach (IsEndKnown (spread_records store.now.chunks.items))
        (map (placed_record base) kept.now) }
    requires held { range.held ≤ length into.old.items }
    ensures ok { OnOk result (into.new.items ≡ extended_list
        (range.held + range.limit) into.old.items
        (listed_marks (spread_records store.now.chunks.items) range.query
        (map (placed_record base) kept.now))) }
    ensures begun { take range.held into.new.items ≡ take range.held into.old.items }
    ensures more { length into.old.items ≤ length into.new.items }
{
    for one in kept {
        if range.limit <= into.len() - range.held {
            return Ok(());
        }
        if one.stands_behind(base, range.query.to) {
            return Ok(());
        }
        list_one(store, index, one.placed(base), range, into)?;
    }
    Ok(())
}

/// Lists the mark of a record, if it is a start and the mark is asked for.
fn list_one(
    store: &Store,
    index: &Index,
    one: Record,
    range: Range,
    into: &mut Vec<Mark>,
) -> Result<(), AllocError>
    requires laid { IsLaid store.now.chunks.items }
    requires once { IsDistinct same_key (spread_records store.now.chunks.items) }
    requires ends { IsEndKnown (spread_records store.now.chunks.items) one }
    requires held { range.held ≤ length into.old.items }
    requires within { is_within (first_start range.query) range.query.to one.pos ≡ true }
    requires more { length into.old.items < range.held + range.limit }
    ensures ok { OnOk result (into.new.items ≡ extended_list
        (range.held + range.limit) into.old.items
        (listed_marks (spread_records store.now.chunks.items) range.query (one ∷ []))) }
    ensures err { OnErr result (into.new.items ≡ into.old.items) }
{
    if one.info.is_end {
        return Ok(());
    }
    if !is_meant(range.query.ns, one.info.ns) {
        return Ok(());
    }
    if !one.info.has_end {
        return push_selected(&range.query, plain_mark(store, one), into);
    }
    let near = index.place_of(one.info.ns, one.info.id, true);
    push_selected(&range.query, mark_of(store, one, near), into)
}

/// Puts a mark behind what is in `into`, if it is asked for.
fn push_selected(query: &Query, mark: Mark, into: &mut Vec<Mark>) -> Result<(), AllocError>
    ensures ok { OnOk result (into.new.items
        ≡ into.old.items ++ filter (is_selected query.now) (mark ∷ [])) }
    ensures err { OnErr result (into.new.items ≡ into.old.items) }
{
    if query.asks_for(&mark) {
        into.push(mark)?;
    }
    Ok(())
}

/// The mark of a start that has no end.
fn plain_mark(store: &Store, start: Record) -> Mark
    requires none { false
        ≡ is_some (end_among (spread_records store.now.chunks.items) start.info.ns start.info.id) }
    ensures { result ≡ mark_among (spread_records store.now.chunks.items) start }
{
    mark_with_stop(start, None)
}
