//! Bands of rows, by which the marks that reach a row are found.
//!
//! A mark that has an end is in a band: it starts in one of the band's rows, and ends up to the row
//! that the band tells. So what starts above a row and reaches it starts in the rows of few bands.
//! A band moves with the text as its marks do, and it tells too much where a mark of it is gone.

ghost use Rattle.nv_marks.specs.inside.Bands.{HasBand, greatest_row, is_banded, is_in_band, least_row, meets_rows, moved_band, new_band, reaches_row, widened_band};
ghost use Rattle.nv_marks.specs.inside.Chunks.{IsLaid, spread_records};
ghost use Rattle.nv_marks.specs.inside.Names.{IsIndexOf};
ghost use Rattle.nv_marks.specs.inside.Records.{ForEach, marks_among, same_key};
ghost use Rattle.nv_marks.specs.inside.Stored.{IsEndKnown};
ghost use Rattle.nv_marks.specs.Marks.{mark_at};
ghost use Rattle.nv_marks.specs.Moves.{MovesNarrowly, moved_mark};
ghost use Rattle.nv_marks.specs.declared.extmark.Mark.{Mark};
ghost use Rattle.nv_places.specs.Places.{IsNarrow, further};
ghost use Rattle.std.specs.List.{IsDistinct};
ghost use Rattle.std.specs.Prelude.{◌≡◌, ◌<◌, ◌≤◌, ℕ, IfOk, IfSome, filter, length, map, true};

use crate::extmark::Mark;
use crate::index::Index;
use crate::keeping::Kept;
use crate::parts::find_next;
use crate::query::Query;
use crate::store::Store;
use nv_places::{Extent, Pos};
use std::alloc::{AllocError, Global};

/// How many rows a band is begun for.
const ROWS: u32 = 256;

/// How many bands there may be beside one for 64 marks.
const FEW: usize = 256;

/// Marks that start in the rows from one to another, both included, and end up to a third.
#[derive(Clone, Copy, Debug)]
pub(crate) struct Band {
    pub first: u32,
    pub last: u32,
    pub end: u32,
}

impl Band {
    /// The band of a mark that starts in one row and ends in another.
    fn new(start: u32, stop: u32) -> Band
        ensures { result ≡ new_band start stop }
    {
        Band {
            first: start,
            last: start,
            end: stop,
        }
    }

    /// The band with one mark more.
    fn widened(&self, start: u32, stop: u32) -> Band
        ensures { result ≡ widened_band start stop self.now }
    {
        Band {
            first: self.first.min(start),
            last: self.last.max(start),
            end: self.end.max(stop),
        }
    }

    /// The band once the rows from `start` to `old` are those from `start` to `new`.
    fn moved(&self, start: u32, old: u32, new: u32) -> Band
        ensures { result ≡ moved_band start old new self.now }
    {
        Band {
            first: least_row(start, old, new, self.first),
            last: greatest_row(start, old, new, self.last),
            end: greatest_row(start, old, new, self.end),
        }
    }

    /// Whether it has few rows with this one.
    fn is_near(&self, row: u32) -> bool {
        self.last.max(row).saturating_sub(self.first.min(row)) < ROWS
    }

    /// Whether marks of it may start up to a row and end in it or behind it.
    fn reaches(&self, row: u32) -> bool
        ensures { result ≡ reaches_row row self.now }
    {
        self.first <= row && row <= self.end
    }

    /// Whether it has one of the rows from one to another.
    pub(crate) fn meets(&self, low: u32, high: u64) -> bool
        ensures { result ≡ meets_rows low high self.now }
    {
        u64::from(self.first) <= high && low <= self.last
    }
}

/// The first row to which what stands in a row may go.
fn least_row(start: u32, old: u32, new: u32, row: u32) -> u32
    ensures { result ≡ least_row start old new row }
{
    if row <= start {
        return row;
    }
    if row <= old {
        return start;
    }
    (row - old).saturating_add(new)
}

/// The last row to which what stands in a row may go.
fn greatest_row(start: u32, old: u32, new: u32, row: u32) -> u32
    ensures { result ≡ greatest_row start old new row }
{
    if row < start {
        return row;
    }
    if row <= old {
        return new;
    }
    (row - old).saturating_add(new)
}

/// The first band, of no mark.
pub(crate) fn first_band(alloc: Global) -> Result<Vec<Band>, AllocError>
    ensures { IfOk result (λ bands. 0 < length bands.items) }
{
    let mut bands = Vec::new(alloc);
    bands.push(Band::new(0, 0))?;
    Ok(bands)
}

/// The first of a row and of the rows of bands.
pub(crate) fn first_row(bands: &[Band], row: u32) -> u32
    ensures within { result ≤ row }
    ensures each { ForEach (λ b. result ≤ b.first) bands.now }
{
    let mut first = row;
    for band in bands {
        let least = first.min(band.first);
        first = least;
    }
    first
}

/// Moves bands after the extent `old` from `start` on was replaced by the extent `new`. They stay
/// where they are if no row does.
pub(crate) fn move_bands(bands: &mut [Band], start: Pos, old: Extent, new: Extent)
    requires old_end { IsNarrow (further start old) }
    requires new_end { IsNarrow (further start new) }
    ensures len { length bands.new ≡ length bands.old }
    ensures moved { (m : Mark) → MovesNarrowly start old new m → HasBand bands.old m
        → HasBand bands.new (moved_mark start old new m) }
{
    if is_in_row(old, new) {
        return;
    }
    let old_end = start.further(old);
    let new_end = start.further(new);
    move_rows(bands, start.row, old_end.row, new_end.row);
}

/// Whether what is replaced and what is put lie within one row.
fn is_in_row(old: Extent, new: Extent) -> bool
    ensures { result ≡ true → (old.rows ≡ 0) × (new.rows ≡ 0) }
{
    old.rows == 0 && new.rows == 0
}

/// Moves bands once the rows from `start` to `old` are those from `start` to `new`.
fn move_rows(bands: &mut [Band], start: u32, old: u32, new: u32)
    ensures { bands.new ≡ map (moved_band start old new) bands.old }
{
    for band in bands.iter_mut() {
        *band = band.moved(start, old, new);
    }
}

/// Makes sure that a mark is in a band, if it has an end, in a set of so many marks.
pub(crate) fn cover(bands: &mut Vec<Band>, count: usize, mark: &Mark)
    requires { 0 < length bands.old.items }
    ensures some { 0 < length bands.new.items }
    ensures kept { (start stop : ℕ) → is_banded bands.old.items start stop ≡ true
        → is_banded bands.new.items start stop ≡ true }
    ensures own { HasBand bands.new.items mark.now }
{
    if let Some(far) = mark.stop {
        cover_rows(bands, count / 64 + FEW, mark.start.row, far.pos.row);
    }
}

/// Makes sure that a mark that starts in one row and ends in another is in a band: in one of its
/// own if none is near, there are fewer than `most` and there is memory for it.
fn cover_rows(bands: &mut Vec<Band>, most: usize, start: u32, stop: u32)
    requires { 0 < length bands.old.items }
    ensures some { 0 < length bands.new.items }
    ensures kept { (s e : ℕ) → is_banded bands.old.items s e ≡ true
        → is_banded bands.new.items s e ≡ true }
    ensures own { is_banded bands.new.items start stop ≡ true }
{
    let at = place_for(bands, most, start);
    if put_band(bands, at, Band::new(start, stop)) {
        return;
    }
    let all = bands.as_mut_slice();
    widen(all, start, stop);
}

/// Where a band of its own is put for a mark that starts in a row.
fn place_for(bands: &[Band], most: usize, start: u32) -> Option<usize>
    ensures { IfSome result (λ at. at ≤ length bands.now) }
{
    if bands.len() >= most {
        return None;
    }
    let at = bands.partition_point(|band| band.first <= start);
    if at > 0 && bands[at - 1].is_near(start) {
        return None;
    }
    if at < bands.len() && bands[at].is_near(start) {
        return None;
    }
    Some(at)
}

/// Puts a band in at a place, if there is one, and says whether it is in.
fn put_band(bands: &mut Vec<Band>, at: Option<usize>, band: Band) -> bool
    requires { IfSome at (λ n. n ≤ length bands.old.items) }
    ensures some { length bands.old.items ≤ length bands.new.items }
    ensures kept { (s e : ℕ) → is_banded bands.old.items s e ≡ true
        → is_banded bands.new.items s e ≡ true }
    ensures own { result ≡ true → (s e : ℕ) → is_in_band s e band ≡ true
        → is_banded bands.new.items s e ≡ true }
{
    let Some(at) = at else {
        return false;
    };
    bands.insert(at, band).is_ok()
}

/// Widens a band that is near so that it has a mark.
fn widen(bands: &mut [Band], start: u32, stop: u32)
    requires { 0 < length bands.old }
    ensures len { length bands.new ≡ length bands.old }
    ensures kept { (s e : ℕ) → is_banded bands.old s e ≡ true → is_banded bands.new s e ≡ true }
    ensures own { is_banded bands.new start stop ≡ true }
{
    let at = near_to(bands, start);
    bands[at] = bands[at].widened(start, stop);
}

/// Which band is near to a row.
fn near_to(bands: &[Band], row: u32) -> usize
    requires { 0 < length bands.now }
    ensures { result < length bands.now }
{
    let at = bands.partition_point(|band| band.first <= row);
    if at == 0 {
        return 0;
    }
    if at < bands.len() && bands[at].is_near(row) && !bands[at - 1].is_near(row) {
        return at;
    }
    at - 1
}

/// Makes sure that the marks of which something was put back are in bands.
pub(crate) fn cover_kept(bands: &mut [Band], store: &Store, index: &Index, kept: &[Kept])
    requires laid { IsLaid store.now.chunks.items }
    requires once { IsDistinct same_key (spread_records store.now.chunks.items) }
    requires ends { ForEach (IsEndKnown (spread_records store.now.chunks.items))
        (spread_records store.now.chunks.items) }
    requires index { IsIndexOf index.now (marks_among (spread_records store.now.chunks.items)) }
    requires some { 0 < length bands.old }
    ensures len { length bands.new ≡ length bands.old }
    ensures kept { (s e : ℕ) → is_banded bands.old s e ≡ true → is_banded bands.new s e ≡ true }
    ensures own { ForEach (λ k. IfSome
        (mark_at (marks_among (spread_records store.now.chunks.items)) k.ns k.id)
        (HasBand bands.new)) kept.now }
{
    let mut last = (0, 0);
    for one in kept {
        let found = find_next(store, index, &mut last, one.ns, one.id);
        widen_for(bands, found);
    }
}

/// Widens a band so that it has a mark, if one is there and has an end.
fn widen_for(bands: &mut [Band], found: Option<Mark>)
    requires { 0 < length bands.old }
    ensures len { length bands.new ≡ length bands.old }
    ensures kept { (s e : ℕ) → is_banded bands.old s e ≡ true → is_banded bands.new s e ≡ true }
    ensures own { IfSome found (HasBand bands.new) }
{
    if let Some(mark) = found {
        widen_to(bands, &mark);
    }
}

/// Widens a band so that it has a mark, if that has an end.
fn widen_to(bands: &mut [Band], mark: &Mark)
    requires { 0 < length bands.old }
    ensures len { length bands.new ≡ length bands.old }
    ensures kept { (s e : ℕ) → is_banded bands.old s e ≡ true → is_banded bands.new s e ≡ true }
    ensures own { HasBand bands.new mark.now }
{
    if let Some(far) = mark.stop {
        widen(bands, mark.start.row, far.pos.row);
    }
}

/// The bands in whose rows the marks start that a query asks for since they reach its first place.
pub(crate) fn bands_reaching(
    alloc: Global,
    bands: &[Band],
    query: &Query,
) -> Result<Vec<Band>, AllocError>
    ensures { IfOk result (λ found. query.now.reaching ≡ true
        → found.items ≡ filter (reaches_row query.now.from.row) bands.now) }
{
    let mut found = Vec::new(alloc);
    if !query.reaching {
        return Ok(found);
    }
    for band in bands {
        if band.reaches(query.from.row) {
            found.push(*band)?;
        }
    }
    Ok(found)
}
