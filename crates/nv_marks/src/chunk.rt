//! A chunk of records, with their places relative to the first of them.

ghost use Rattle.nv_marks.specs.inside.Chunks.{IsGap, base_of, has_place, kept_from, placed_record, records_of, refilled_piece, starts_before, with_base, with_inserted, with_kept, with_record, with_removed, rebased_from};
ghost use Rattle.nv_marks.specs.inside.Records.{ForEach, Sort, is_key, precedes};
ghost use Rattle.nv_places.specs.Places.{IsNarrow};
ghost use Rattle.std.specs.List.Sorted.{IsPartitionPoint};
ghost use Rattle.std.specs.Prelude.{◌≡◌, ◌+◌, ◌<◌, ◌≤◌, ◌++◌, [], IfOk, IfSome, drop, false, length, map, position, slice_index_or, take, true, vec_capacity, vec_len};

use crate::record::{Info, Record, Relative};
use nv_places::Pos;
use std::alloc::{AllocError, Global};
use std::marker::Model;

/// The greatest number of records in a chunk.
pub(crate) const MOST: usize = 64;

/// How many records stand before a splice, and how many behind it up to the row of its end.
#[derive(Clone, Copy)]
pub(crate) struct Gap {
    pub first: usize,
    pub count: usize,
}

/// Neighbouring records in order. The base is the place of the first.
#[derive(Drop)]
pub(crate) struct Chunk {
    /// By this an index names the chunk.
    number: usize,
    base: Pos,
    kept: Vec<Relative>,
}

impl Model for Chunk {
    ghost use Rattle.nv_marks.specs.inside.Chunks.{Piece};
    ghost use Rattle.std.specs.Prelude.{vec_capacity};

    ghost Value = { Piece };

    ghost view = { λ c. record { base = c.base; kept = c.kept.items; room = vec_capacity c.kept } };
}

impl Chunk {
    /// A chunk with no records and with room for as many as it may have.
    pub(crate) fn new(alloc: Global, number: usize) -> Result<Chunk, AllocError>
        ensures { IfOk result (λ c. (c.kept ≡ []) × (64 ≤ c.room)) }
    {
        Ok(Chunk {
            number,
            base: Pos::default(),
            kept: Vec::with_capacity(alloc, MOST)?,
        })
    }

    /// The number by which an index names the chunk.
    pub(crate) fn number(&self) -> usize {
        self.number
    }

    /// The number of records.
    pub(crate) fn len(&self) -> usize
        ensures { result ≡ length self.now.kept }
    {
        self.kept.len()
    }

    /// Where the first record stands.
    pub(crate) fn base(&self) -> Pos
        ensures { result ≡ self.now.base }
    {
        self.base
    }

    /// The records, as they are kept behind the base.
    pub(crate) fn kept(&self) -> &[Relative]
        ensures { result.now ≡ self.now.kept }
    {
        &self.kept
    }

    /// Whether the first record comes before `record`.
    pub(crate) fn starts_before(&self, one: &Record) -> bool
        ensures { result ≡ starts_before one.now self.now }
    {
        match self.kept.first() {
            Some(first) => {
                let first = Record {
                    pos: self.base,
                    info: first.info,
                };
                first.is_before(one)
            }
            None => false,
        }
    }

    /// Puts the chunk's records behind what is in `into`.
    pub(crate) fn read_into(&self, into: &mut Vec<Record>)
        requires narrow { ForEach (λ r. IsNarrow r.pos) (records_of self.now) }
        requires room { vec_len into.old + length self.now.kept ≤ vec_capacity into.old }
        ensures items { into.new.items ≡ into.old.items ++ records_of self.now }
        ensures room { vec_capacity into.new ≡ vec_capacity into.old }
        ensures len { vec_len into.new ≡ vec_len into.old + length self.now.kept }
    {
        place_all(self.base, &self.kept, into);
    }

    /// Where the start, or the end, of the mark of a namespace and id stands among the records.
    pub(crate) fn place_of(&self, ns: u32, id: u32, end: bool) -> Option<usize>
        ensures { result ≡ position (λ k. is_key ns id end k.info) self.now.kept }
    {
        self.kept
            .iter()
            .position(|kept| kept.info.is_key(ns, id, end))
    }

    /// Whether the start, or the end, that `info` is of stands at a place.
    pub(crate) fn has_at(&self, at: usize, info: &Info) -> bool {
        match self.kept.get(at) {
            Some(kept) => kept.info.is_key(info.ns, info.id, info.is_end),
            None => false,
        }
    }

    /// The record at a place.
    pub(crate) fn record(&self, at: usize) -> Record
        requires within { at < length self.now.kept }
        requires narrow { ForEach (λ r. IsNarrow r.pos) (records_of self.now) }
        ensures { result ≡ slice_index_or (records_of self.now) at result }
    {
        self.kept[at].placed(self.base)
    }

    /// How many records stand before `start`, and how many behind `end` in its row, where none
    /// stands from `start` to `end` and the first one stays.
    pub(crate) fn gap(&self, start: Pos, end: Pos) -> Option<Gap>
        requires in_order { Sort (records_of self.now) }
        ensures { IfSome result (λ g. IsGap start end (records_of self.now) g.first g.count) }
    {
        gap_among(self.base, &self.kept, start, end)
    }

    /// Puts some of the chunk's records behind what is in `into`.
    pub(crate) fn read_part(&self, gap: Gap, into: &mut Vec<Record>)
        requires within { gap.first + gap.count ≤ length self.now.kept }
        requires narrow { ForEach (λ r. IsNarrow r.pos) (records_of self.now) }
        requires room { vec_len into.old + gap.count ≤ vec_capacity into.old }
        ensures items { into.new.items
            ≡ into.old.items ++ take gap.count (drop gap.first (records_of self.now)) }
        ensures room { vec_capacity into.new ≡ vec_capacity into.old }
    {
        let (_, rest) = self.kept.split_at(gap.first);
        let (part, _) = rest.split_at(gap.count);
        place_all(self.base, part, into);
    }

    /// Puts another base.
    pub(crate) fn put_base(&mut self, to: Pos)
        ensures { self.new ≡ with_base to self.old }
    {
        self.base = to;
    }

    /// Puts a record in the place of the one that stands there.
    pub(crate) fn put_kept(&mut self, at: usize, kept: Relative)
        ensures { self.new ≡ with_kept at kept self.old }
    {
        if at < self.kept.len() {
            self.kept[at] = kept;
        }
    }

    /// Puts a record, which may stand anywhere, in the place of the one that stands there. All are
    /// kept behind the first place of a text then.
    pub(crate) fn put_record(&mut self, at: usize, one: Record)
        requires narrow { ForEach (λ r. IsNarrow r.pos) (records_of self.old) }
        ensures { self.new ≡ with_record at one self.old }
    {
        let kept = self.kept.as_mut_slice();
        rebase_all(self.base, kept);
        self.base = Pos { row: 0, col: 0 };
        if at < self.kept.len() {
            self.kept[at] = one.kept_from(self.base);
        }
    }

    /// Whether a record goes in behind the first record, and there is room for it.
    pub(crate) fn has_place_for(&self, one: &Record) -> bool
        ensures { result ≡ has_place one.now self.now }
    {
        self.kept.len() < MOST && self.starts_before(one)
    }

    /// How many records stand before `one` in order: these come first.
    pub(crate) fn count_before(&self, one: &Record) -> usize
        requires in_order { Sort (records_of self.now) }
        ensures bound { result ≤ length self.now.kept }
        ensures point { IsPartitionPoint (λ r. precedes r one.now ≡ true)
            (λ r. precedes r one.now ≡ false) (records_of self.now) result }
    {
        count_below(self.base, &self.kept, one)
    }

    /// Puts a record behind the first one.
    pub(crate) fn insert(&mut self, at: usize, one: Record)
        requires within { at ≤ length self.old.kept }
        requires room { length self.old.kept < self.old.room }
        ensures { self.new ≡ with_inserted at one self.old }
    {
        let kept = one.kept_from(self.base);
        let _ = self.kept.insert(at, kept);
    }

    /// Takes the record at a place out, which isn't the first one.
    pub(crate) fn remove(&mut self, at: usize)
        requires within { at < length self.old.kept }
        ensures { self.new ≡ with_removed at self.old }
    {
        let _ = self.kept.remove(at);
    }

    /// Fills the chunk anew.
    pub(crate) fn fill(&mut self, records: &[Record])
        requires room { length records.now ≤ self.old.room }
        ensures { self.new ≡ refilled_piece records.now self.old }
    {
        let base = first_place(records);
        self.base = base;
        self.kept.clear();
        keep_all(base, records, &mut self.kept);
    }
}

/// How many records that are kept behind a base stand before `one` in order: these come first.
fn count_below(base: Pos, kept: &[Relative], one: &Record) -> usize
    requires in_order { Sort (map (placed_record base) kept.now) }
    ensures bound { result ≤ length kept.now }
    ensures point { IsPartitionPoint (λ r. precedes r one.now ≡ true)
        (λ r. precedes r one.now ≡ false) (map (placed_record base) kept.now) result }
{
    kept.partition_point(|other| other.is_before(base, one))
}

/// How many records that are kept behind a base stand before `start`, and how many behind `end` in
/// its row, where none stands from `start` to `end` and the first one stays.
fn gap_among(base: Pos, kept: &[Relative], start: Pos, end: Pos) -> Option<Gap>
    requires in_order { Sort (map (placed_record base) kept.now) }
    ensures { IfSome result
        (λ g. IsGap start end (map (placed_record base) kept.now) g.first g.count) }
{
    let first = kept.partition_point(|one| one.stands_before(base, start));
    let (_, rest) = kept.split_at(first);
    let held = rest.partition_point(|one| !one.stands_behind(base, end));
    if first == 0 || held > 0 {
        return None;
    }
    let count = rest.partition_point(|one| one.stands_up_to(base, end.row));
    Some(Gap { first, count })
}

/// The place of the first record.
fn first_place(records: &[Record]) -> Pos
    ensures { result ≡ base_of records.now }
{
    match records.first() {
        Some(first) => first.pos,
        None => Pos { row: 0, col: 0 },
    }
}

/// Puts records that are kept behind a base, with their places, behind what is in `into`.
fn place_all(base: Pos, kept: &[Relative], into: &mut Vec<Record>)
    requires narrow { ForEach (λ r. IsNarrow r.pos) (map (placed_record base) kept.now) }
    requires room { vec_len into.old + length kept.now ≤ vec_capacity into.old }
    ensures items { into.new.items ≡ into.old.items ++ map (placed_record base) kept.now }
    ensures room { vec_capacity into.new ≡ vec_capacity into.old }
    ensures len { vec_len into.new ≡ vec_len into.old + length kept.now }
{
    for one in kept {
        into.push_reserved(one.placed(base));
    }
}

/// Keeps records that are kept behind a base behind the first place of a text.
fn rebase_all(base: Pos, kept: &mut [Relative])
    requires narrow { ForEach (λ r. IsNarrow r.pos) (map (placed_record base) kept.old) }
    ensures { kept.new ≡ map (rebased_from base) kept.old }
{
    if is_start(base) {
        return;
    }
    for one in kept.iter_mut() {
        *one = one.placed(base).kept_from(Pos { row: 0, col: 0 });
    }
}

/// Whether a place is the first one of a text.
fn is_start(place: Pos) -> bool
    ensures { result ≡ true → (place.row ≡ 0) × (place.col ≡ 0) }
{
    place.row == 0 && place.col == 0
}

/// Puts records, as they are kept behind a base, behind what is in `into`.
fn keep_all(base: Pos, records: &[Record], into: &mut Vec<Relative>)
    requires room { vec_len into.old + length records.now ≤ vec_capacity into.old }
    ensures items { into.new.items ≡ into.old.items ++ map (kept_from base) records.now }
    ensures room { vec_capacity into.new ≡ vec_capacity into.old }
{
    for record in records {
        into.push_reserved(record.kept_from(base));
    }
}
