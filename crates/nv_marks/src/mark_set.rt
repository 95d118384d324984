//! The set of marks, in order.

ghost use Rattle.nv_marks.specs.Cost.{most_steps};
ghost use Rattle.nv_marks.specs.Keeping.{is_struck, kept_marks, marks_struck, put_back_mark};
ghost use Rattle.nv_marks.specs.Marks.{greatest_id, is_named, mark_at, next_setting, numbered_mark, without};
ghost use Rattle.nv_marks.specs.Moves.{MovesNarrowly, moved_mark};
ghost use Rattle.nv_marks.specs.Order.{IsInOrder, is_within, starts_within};
ghost use Rattle.nv_marks.specs.Queries.{cleared_marks, is_cleared, is_meant, is_selected};
ghost use Rattle.nv_marks.specs.Sound.{IsSound};
ghost use Rattle.nv_marks.specs.Striking.{struck_of};
ghost use Rattle.nv_marks.specs.inside.Chunks.{IsSpare};
ghost use Rattle.nv_marks.specs.inside.Names.{is_indexed, is_one_name};
ghost use Rattle.nv_marks.specs.inside.Records.{ForEach};
ghost use Rattle.nv_marks.specs.inside.Restoring.{other_marks, without_all};
ghost use Rattle.nv_places.specs.Places.{IsNarrow, further};
ghost use Rattle.std.specs.Prelude.{◌≡◌, ◌+◌, ◌*◌, ◌^◌, ◌<◌, ◌≤◌, ◌++◌, ◌∷◌, ◌==◌, ◌&&◌, ◌||◌, ℕ, [], All, IfOk, IfSome, OnErr, OnOk, SomeIff, if◌then◌else◌, false, length, map, max, min, is_some, not, true, option_map, take, filter, vec_capacity, vec_len};

use crate::bands::{Band, bands_reaching, cover, cover_kept, first_band, move_bands};
use crate::chunk::Chunk;
use crate::extmark::Mark;
use crate::index::Index;
use crate::keeping::{Kept, Part, Struck, find_kept, hidden_of, put_kept, sort_marks};
use crate::list::list;
use crate::parts::{chunk_for, find_counted, find_mark, put_mark, take_found};
use crate::query::Query;
use crate::record::Record;
use crate::steps::Steps;
use crate::store::Store;
use nv_places::{Extent, Pos};
use std::alloc::{AllocError, Global};
use std::collections::BTreeMap;
use std::marker::{Brand, Model};
use std::sync::ledger::{Blank, Ledger};

/// The extmarks of one buffer.
///
/// Their starts and ends stand in chunks, with places relative to the first of each chunk: a splice
/// writes those in the replaced part, and of each chunk behind it one place.
#[derive(Drop)]
pub struct MarkSet {
    alloc: Global,
    store: Store,
    index: Index,
    /// How many marks there are.
    count: usize,
    /// Chunks that wait to be filled.
    spare: Vec<Chunk>,
    /// Where records are put in order, so that a splice takes no memory.
    scratch: Vec<Record>,
    greatest: BTreeMap<u32, u32>,
    /// How many settings were made.
    settings: u64,
    /// In whose rows the marks start that have an end, at least one.
    bands: Vec<Band>,
}

impl Model for MarkSet {
    ghost use Rattle.nv_marks.specs.Marks.{Marks};

    ghost Value = { Marks };

    ghost use Rattle.nv_marks.specs.inside.Bands.{IsBanded};
    ghost use Rattle.nv_marks.specs.inside.Chunks.{spread_records};
    ghost use Rattle.nv_marks.specs.inside.Names.{IsIndexOf};
    ghost use Rattle.nv_marks.specs.inside.Records.{marks_among};
    ghost use Rattle.nv_marks.specs.inside.Stored.{IsEquipped, HoldsMarks};
    ghost use Rattle.std.specs.Prelude.{vec_capacity, vec_len};

    ghost view = { λ s. record {
      marks = marks_among (spread_records s.store.chunks.items);
      greatest = s.greatest.entries;
      settings = s.settings;
    } };

    ghost invariant = { λ s. HoldsMarks s.store.chunks.items s.greatest.entries
        × IsEquipped s.count s.store.chunks.items s.scratch.items (vec_len s.scratch)
        (vec_capacity s.scratch) s.spare.items
        × IsIndexOf s.index (marks_among (spread_records s.store.chunks.items))
        × IsBanded s.bands.items (marks_among (spread_records s.store.chunks.items)) };
}

impl MarkSet {
    /// A set with no marks, in which no id was ever set.
    pub fn new(alloc: Global) -> Result<MarkSet, AllocError>
        ensures { IfOk result (λ s. s ≡ record { marks = []; greatest = []; settings = 0 }) }
    {
        let bands = first_band(alloc)?;
        Ok(MarkSet {
            alloc,
            store: Store::new(alloc),
            index: Index::new(alloc),
            count: 0,
            spare: Vec::new(alloc),
            scratch: Vec::new(alloc),
            greatest: BTreeMap::new(alloc),
            settings: 0,
            bands,
        })
    }

    /// The number of marks.
    pub fn len(&self) -> usize
        ensures count { result ≡ length self.now.marks }
        ensures sound { IsSound self.now.marks self.now.greatest }
    {
        self.count
    }

    /// The mark of this namespace and id.
    pub fn find(&self, ns: u32, id: u32) -> Option<Mark>
        ensures { result ≡ mark_at self.now.marks ns id }
    {
        find_counted(&self.store, &self.index, &self.greatest, ns, id)
    }

    /// How many settings were made.
    pub fn settings(&self) -> u64
        ensures { result ≡ self.now.settings }
    {
        self.settings
    }

    /// Sets a mark under the next number, in place of the one of the same namespace and id if there
    /// is one.
    pub fn set(&mut self, mark: Mark) -> Result<(), AllocError>
        ensures marks { OnOk result (IsInOrder (numbered_mark self.old.settings mark
            ∷ without mark.ns mark.id self.old.marks) self.new.marks) }
        ensures found { OnOk result ((ns id : ℕ) → mark_at self.new.marks ns id
            ≡ (if is_named ns id mark then Some (numbered_mark self.old.settings mark)
            else mark_at self.old.marks ns id)) }
        ensures settings { OnOk result (self.new.settings ≡ next_setting self.old.settings) }
        ensures greatest { OnOk result
            ((ns : ℕ) → greatest_id self.new.greatest ns
            ≡ (if ns == mark.ns then max (greatest_id self.old.greatest ns) mark.id
            else greatest_id self.old.greatest ns)) }
        ensures err { OnErr result (self.new ≡ self.old) }
    {
        let mark = numbered_mark(self.settings(), mark);
        self.put(mark)
    }

    /// Sets a mark that has its number.
    fn put(&mut self, mark: Mark) -> Result<(), AllocError>
        ensures marks { OnOk result (IsInOrder (mark
            ∷ without mark.ns mark.id self.old.marks) self.new.marks) }
        ensures found { OnOk result ((ns id : ℕ) → mark_at self.new.marks ns id
            ≡ (if is_named ns id mark then Some mark else mark_at self.old.marks ns id)) }
        ensures settings { OnOk result (self.new.settings ≡ mark.set) }
        ensures greatest { OnOk result
            ((ns : ℕ) → greatest_id self.new.greatest ns
            ≡ (if ns == mark.ns then max (greatest_id self.old.greatest ns) mark.id
            else greatest_id self.old.greatest ns)) }
        ensures err { OnErr result (self.new ≡ self.old) }
    {
        let Mark { ns, id, .. } = mark;
        let found = find_counted(&self.store, &self.index, &self.greatest, ns, id);
        self.scratch.reserve(scratch_room(self.count))?;
        self.store.reserve()?;
        stock(self.alloc, &mut self.index, &mut self.spare)?;
        let chunk = chunk_for(&self.store, found, &mark);
        let number = self.store.number_of(chunk);
        enter(
            &mut self.index,
            &mut self.greatest,
            ns,
            id,
            found.is_none(),
            number,
        )?;
        take_found(
            &mut self.store,
            &mut self.index,
            found,
            ns,
            id,
            &mut self.scratch,
        );
        put_mark(
            &mut self.store,
            &mut self.index,
            mark,
            chunk,
            &mut self.spare,
            &mut self.scratch,
        );
        self.count = count_with(self.count, found);
        self.settings = mark.set;
        cover(&mut self.bands, self.count, &mark);
        Ok(())
    }

    /// Takes the mark of this namespace and id out of the set. Its id still counts for `next_id`.
    pub fn remove(&mut self, ns: u32, id: u32) -> Option<Mark>
        ensures taken { result ≡ mark_at self.old.marks ns id }
        ensures marks { self.new.marks ≡ without ns id self.old.marks }
        ensures greatest { self.new.greatest ≡ self.old.greatest }
        ensures settings { self.new.settings ≡ self.old.settings }
    {
        let found = find_mark(&self.store, &self.index, ns, id)?;
        take_found(
            &mut self.store,
            &mut self.index,
            Some(found),
            ns,
            id,
            &mut self.scratch,
        );
        self.index.forget(ns, id);
        self.count -= 1;
        Some(found)
    }

    /// Puts the first `limit` marks that a query asks for behind what is in `into`: by place, then
    /// left before right gravity, then namespace, then id.
    pub fn select(
        &self,
        query: &Query,
        limit: usize,
        into: &mut Vec<Mark>,
    ) -> Result<(), AllocError>
        ensures ok { OnOk result (into.new.items ≡ into.old.items
            ++ take limit (filter (is_selected query.now) self.now.marks)) }
        ensures err { OnErr result (into.new.items ≡ into.old.items) }
    {
        if self.has_none(query.ns) {
            return Ok(());
        }
        let near = bands_reaching(self.alloc, &self.bands, query)?;
        let held = into.len();
        let result = list(&self.store, &self.index, *query, &near, held, limit, into);
        if result.is_err() {
            into.truncate(held);
        }
        result
    }

    /// Puts the first `limit` marks that start from `from` to `to`, both included, behind what is
    /// in `into`, in the order of `select`.
    pub fn range(
        &self,
        from: Pos,
        to: Pos,
        limit: usize,
        into: &mut Vec<Mark>,
    ) -> Result<(), AllocError>
        ensures ok { OnOk result (into.new.items ≡ into.old.items
            ++ take limit (filter (starts_within from to) self.now.marks)) }
        ensures err { OnErr result (into.new.items ≡ into.old.items) }
    {
        let query = Query {
            ns: None,
            from,
            to,
            reaching: false,
        };
        self.select(&query, limit, into)
    }

    /// Moves all marks after the extent `old` from `start` on was replaced by the extent `new`.
    /// Start and end of a mark move each by its own gravity (help: api-extended-marks).
    pub fn splice(&mut self, start: Pos, old: Extent, new: Extent)
        requires old_end { IsNarrow (further start old) }
        requires new_end { IsNarrow (further start new) }
        requires moved { All (MovesNarrowly start old new) self.old.marks }
        ensures marks { IsInOrder (map (moved_mark start old new) self.old.marks) self.new.marks }
        ensures found { (ns id : ℕ) → mark_at self.new.marks ns id
            ≡ option_map (moved_mark start old new) (mark_at self.old.marks ns id) }
        ensures greatest { self.new.greatest ≡ self.old.greatest }
        ensures settings { self.new.settings ≡ self.old.settings }
    {
        self.splice_from::<Brand>(start, old, new, Blank::new(1));
    }

    /// `splice`, with a count of its steps: one step puts one start, one end or one chunk's base.
    pub fn splice_counted<L: Ledger>(
        &mut self,
        start: Pos,
        old: Extent,
        new: Extent,
        steps: &mut Steps<L>,
    )
        requires old_end { IsNarrow (further start old) }
        requires new_end { IsNarrow (further start new) }
        requires moved { All (MovesNarrowly start old new) self.old.marks }
        ensures marks { IsInOrder (map (moved_mark start old new) self.old.marks) self.new.marks }
        ensures found { (ns id : ℕ) → mark_at self.new.marks ns id
            ≡ option_map (moved_mark start old new) (mark_at self.old.marks ns id) }
        ensures greatest { self.new.greatest ≡ self.old.greatest }
        ensures settings { self.new.settings ≡ self.old.settings }
        ensures cost { steps.new ≤ steps.old + most_steps start old self.old.marks }
    {
        self.store
            .splice_counted(start, old, new, &mut self.index, &mut self.scratch, steps);
        self.scratch.clear();
        let bands = self.bands.as_mut_slice();
        move_bands(bands, start, old, new);
    }

    /// `splice` with a count that nobody reads.
    fn splice_from<L: Ledger>(&mut self, start: Pos, old: Extent, new: Extent, blank: Blank)
        requires old_end { IsNarrow (further start old) }
        requires new_end { IsNarrow (further start new) }
        requires moved { All (MovesNarrowly start old new) self.old.marks }
        requires name { blank.name ≡ L.name }
        requires parts { blank.parts ≡ L.parts }
        requires some { 1 ≤ blank.parts }
        ensures marks { IsInOrder (map (moved_mark start old new) self.old.marks) self.new.marks }
        ensures found { (ns id : ℕ) → mark_at self.new.marks ns id
            ≡ option_map (moved_mark start old new) (mark_at self.old.marks ns id) }
        ensures greatest { self.new.greatest ≡ self.old.greatest }
        ensures settings { self.new.settings ≡ self.old.settings }
    {
        let mut steps = Steps::<L>::new(blank);
        self.splice_counted(start, old, new, &mut steps);
    }

    /// Where lists of marks are made.
    fn allocator(&self) -> Global {
        self.alloc
    }

    /// Whether one namespace is meant, and it has no mark.
    fn has_none(&self, meant: Option<u32>) -> bool
        ensures { result ≡ true
            → ForEach (λ m. is_meant meant m.ns ≡ false) self.now.marks }
    {
        match meant {
            Some(ns) => !self.index.has_any(ns),
            None => false,
        }
    }

    /// The marks of a namespace, or of all, that start from `from` to `to`, both included.
    fn starting(&self, ns: Option<u32>, from: Pos, to: Pos) -> Result<Vec<Mark>, AllocError>
        ensures found { IfOk result
            (λ found. found.items ≡ filter (is_cleared ns from to) self.now.marks) }
        ensures sound { IsSound self.now.marks self.now.greatest }
    {
        let query = Query {
            ns,
            from,
            to,
            reaching: false,
        };
        let mut found = Vec::new(self.alloc);
        if self.len() == 0 {
            return Ok(found);
        }
        self.select(&query, self.len(), &mut found)?;
        Ok(found)
    }

    /// Takes marks out of the set, by their names.
    fn remove_all(&mut self, marks: &[Mark])
        ensures marks { self.new.marks ≡ without_all marks.now self.old.marks }
        ensures greatest { self.new.greatest ≡ self.old.greatest }
        ensures settings { self.new.settings ≡ self.old.settings }
    {
        for mark in marks {
            let _ = self.remove(mark.ns, mark.id);
        }
    }

    /// Takes the marks of a namespace, or of all, that start from `from` to `to`, both included,
    /// out of the set. Their ids still count for `next_id`.
    pub fn clear(&mut self, ns: Option<u32>, from: Pos, to: Pos) -> Result<(), AllocError>
        ensures marks { OnOk result
            (self.new.marks ≡ cleared_marks ns from to self.old.marks) }
        ensures greatest { self.new.greatest ≡ self.old.greatest }
        ensures settings { self.new.settings ≡ self.old.settings }
        ensures err { OnErr result (self.new ≡ self.old) }
    {
        if self.is_one_pass(ns, from, to) {
            self.clear_all(ns);
            return Ok(());
        }
        let found = self.starting(ns, from, to)?;
        self.remove_all(&found);
        Ok(())
    }

    /// Whether all places lie from one to another, and so many marks are meant that one pass over
    /// all takes less time than taking each of those out.
    fn is_one_pass(&self, ns: Option<u32>, from: Pos, to: Pos) -> bool
        ensures { result ≡ true → (p : Pos) → IsNarrow p → is_within from to p ≡ true }
    {
        if is_whole(from, to) {
            return self.index.has_many(ns, self.count / 8);
        }
        false
    }

    /// Takes the marks of a namespace, or all, out of the set in one pass.
    fn clear_all(&mut self, meant: Option<u32>)
        ensures marks { self.new.marks ≡ other_marks meant self.old.marks }
        ensures greatest { self.new.greatest ≡ self.old.greatest }
        ensures settings { self.new.settings ≡ self.old.settings }
        ensures narrow { ForEach (λ m. IsNarrow m.start) self.old.marks }
    {
        let left = self
            .store
            .keep_others(meant, &mut self.index, &mut self.scratch);
        self.scratch.clear();
        self.index.forget_all(meant);
        self.count = left;
    }

    /// Puts what undo is to put back behind what is in `into`, before the extent `old` from `start`
    /// on is replaced: of each mark with `restore` that has its start or its end in that part,
    /// their places there and whether it is hidden, in order.
    pub fn keep(&self, start: Pos, old: Extent, into: &mut Vec<Kept>) -> Result<(), AllocError>
        requires { IsNarrow (further start old) }
        ensures ok { OnOk result
            (into.new.items ≡ into.old.items ++ kept_marks start old self.now.marks) }
        ensures err { OnErr result (into.new.items ≡ into.old.items) }
    {
        if self.len() == 0 {
            return Ok(());
        }
        let part = Part {
            from: start,
            to: start.further(old),
        };
        let mut found = find_kept(self.alloc, &self.store, &self.index, part)?;
        let found = found.as_mut_slice();
        sort_marks(found);
        put_kept(found, part, into)
    }

    /// What `strike` is to do where the extent `old` from `start` on is replaced: it takes the
    /// memory that `strike` doesn't.
    pub fn find_struck(&self, start: Pos, old: Extent) -> Result<Struck, AllocError>
        requires { IsNarrow (further start old) }
        ensures { IfOk result (λ struck. struck ≡ struck_of start old self.now.marks) }
    {
        let part = Part {
            from: start,
            to: start.further(old),
        };
        let mut gone = self.struck(part)?;
        let hidden = hidden_of(self.allocator(), &gone)?;
        keep_gone(&mut gone);
        Ok(Struck { hidden, gone })
    }

    /// Strikes the marks with `invalidate` of which all is removed where the extent `old` from
    /// `start` on is replaced: those with `restore` are hidden, the others are gone. `struck` is
    /// what `find_struck` found of them.
    pub fn strike(&mut self, start: Pos, old: Extent, struck: &Struck)
        requires { struck.now ≡ struck_of start old self.old.marks }
        ensures marks { self.new.marks ≡ marks_struck start old self.old.marks }
        ensures greatest { self.new.greatest ≡ self.old.greatest }
        ensures settings { self.new.settings ≡ self.old.settings }
    {
        let _count = self.len();
        self.remove_all(&struck.gone);
        self.put_back(&struck.hidden);
    }

    /// The marks of which all is removed where a part is, in order.
    fn struck(&self, part: Part) -> Result<Vec<Mark>, AllocError>
        ensures found { IfOk result (λ found. found.items
            ≡ filter (is_struck part.from part.to) self.now.marks) }
        ensures sound { IsSound self.now.marks self.now.greatest }
    {
        let mut found = self.starting(None, part.from, part.to)?;
        keep_struck(&mut found, part);
        Ok(found)
    }

    /// Puts back what was kept of the marks that are there under the same setting: where they start
    /// and end, and whether they are hidden.
    pub fn put_back(&mut self, kept: &[Kept])
        ensures marks { IsInOrder (map (put_back_mark kept.now) self.old.marks) self.new.marks }
        ensures found { (ns id : ℕ) → mark_at self.new.marks ns id
            ≡ option_map (put_back_mark kept.now) (mark_at self.old.marks ns id) }
        ensures greatest { self.new.greatest ≡ self.old.greatest }
        ensures settings { self.new.settings ≡ self.old.settings }
    {
        let _count = self.len();
        if kept.is_empty() {
            return;
        }
        self.put_back_from::<Brand>(kept, Blank::new(1));
    }

    /// `put_back` with a count of steps that nobody reads.
    fn put_back_from<L: Ledger>(&mut self, kept: &[Kept], blank: Blank)
        requires name { blank.name ≡ L.name }
        requires parts { blank.parts ≡ L.parts }
        requires some { 1 ≤ blank.parts }
        ensures marks { IsInOrder (map (put_back_mark kept.now) self.old.marks) self.new.marks }
        ensures found { (ns id : ℕ) → mark_at self.new.marks ns id
            ≡ option_map (put_back_mark kept.now) (mark_at self.old.marks ns id) }
        ensures greatest { self.new.greatest ≡ self.old.greatest }
        ensures settings { self.new.settings ≡ self.old.settings }
    {
        let mut steps = Steps::<L>::new(blank);
        self.store
            .put_back(kept, &mut self.index, &mut self.scratch, &mut steps);
        self.scratch.clear();
        let bands = self.bands.as_mut_slice();
        cover_kept(bands, &self.store, &self.index, kept);
    }

    /// One more than the greatest id that was ever set in this namespace, from 1. `None` where that
    /// greatest one is the greatest `u32`.
    pub fn next_id(&self, ns: u32) -> Option<u32>
        ensures next { SomeIff result (greatest_id self.now.greatest ns < 4294967295)
            (greatest_id self.now.greatest ns + 1) }
        ensures within { greatest_id self.now.greatest ns ≤ 4294967295 }
    {
        self.greatest.get(&ns).copied().unwrap_or(0).checked_add(1)
    }
}

/// Whether all places lie from one place to another.
fn is_whole(from: Pos, to: Pos) -> bool
    ensures { result ≡ true → (p : Pos) → IsNarrow p → is_within from to p ≡ true }
{
    from.row == 0 && from.col == 0 && to.row == u32::MAX && to.col == u32::MAX
}

/// A mark with the number of its setting, after so many settings.
fn numbered_mark(settings: u64, mark: Mark) -> Mark
    ensures { result ≡ numbered_mark settings mark }
{
    Mark {
        set: settings.saturating_add(1),
        ..mark
    }
}

/// Room for the records of one more mark than there are, and for those of a chunk, or more than an
/// allocator gives.
fn scratch_room(count: usize) -> usize
    ensures { min (2 * (count + 1) + 64) (2 ^ 63) ≤ result }
{
    count.saturating_add(1).saturating_mul(2).saturating_add(64)
}

/// Makes sure that there are two spare chunks.
fn stock(alloc: Global, index: &mut Index, spare: &mut Vec<Chunk>) -> Result<(), AllocError>
    requires { ForEach IsSpare spare.old.items }
    ensures ok { OnOk result (1 < vec_len spare.new) }
    ensures spares { ForEach IsSpare spare.new.items }
    ensures index { index.new ≡ index.old }
{
    stock_one(alloc, index, spare)?;
    stock_one(alloc, index, spare)
}

/// Makes one more spare chunk where there are fewer than two.
fn stock_one(alloc: Global, index: &mut Index, spare: &mut Vec<Chunk>) -> Result<(), AllocError>
    requires { ForEach IsSpare spare.old.items }
    ensures ok { OnOk result (min 2 (vec_len spare.old + 1) ≤ vec_len spare.new) }
    ensures spares { ForEach IsSpare spare.new.items }
    ensures index { index.new ≡ index.old }
{
    if spare.len() < 2 {
        let number = index.new_number()?;
        spare.push(Chunk::new(alloc, number)?)?;
    }
    Ok(())
}

/// Enters the name of a mark, where it is a new one, and counts its id.
fn enter(
    index: &mut Index,
    greatest: &mut BTreeMap<u32, u32>,
    ns: u32,
    id: u32,
    is_new: bool,
    number: usize,
) -> Result<(), AllocError>
    requires { is_indexed index.old ns id ≡ not is_new }
    ensures names { OnOk result ((n i : ℕ) → is_indexed index.new n i
        ≡ (is_one_name ns id n i || is_indexed index.old n i)) }
    ensures greatest { OnOk result ((n : ℕ) → greatest_id greatest.new.entries n
        ≡ (if n == ns then max (greatest_id greatest.old.entries n) id
        else greatest_id greatest.old.entries n)) }
    ensures err_names { OnErr result
        ((n i : ℕ) → is_indexed index.new n i ≡ is_indexed index.old n i) }
    ensures err_greatest { OnErr result (greatest.new.entries ≡ greatest.old.entries) }
{
    enter_name(index, ns, id, is_new, number)?;
    if count_id(greatest, ns, id).is_err() {
        leave_name(index, ns, id, is_new);
        return Err(AllocError);
    }
    Ok(())
}

/// Counts an id among those that were ever set in a namespace.
fn count_id(greatest: &mut BTreeMap<u32, u32>, ns: u32, id: u32) -> Result<(), AllocError>
    ensures ok { OnOk result ((n : ℕ) → greatest_id greatest.new.entries n
        ≡ (if n == ns then max (greatest_id greatest.old.entries n) id
        else greatest_id greatest.old.entries n)) }
    ensures err { OnErr result (greatest.new.entries ≡ greatest.old.entries) }
{
    if let Some(most) = greatest.get_mut(&ns) {
        *most = id.max(*most);
        return Ok(());
    }
    greatest.insert(ns, id)?;
    Ok(())
}

/// Enters a name where it is a new one.
fn enter_name(
    index: &mut Index,
    ns: u32,
    id: u32,
    is_new: bool,
    number: usize,
) -> Result<(), AllocError>
    requires { is_indexed index.old ns id ≡ not is_new }
    ensures ok { OnOk result ((n i : ℕ) → is_indexed index.new n i
        ≡ (is_one_name ns id n i || is_indexed index.old n i)) }
    ensures err { OnErr result (index.new ≡ index.old) }
{
    if is_new {
        index.enter(ns, id, number)
    } else {
        Ok(())
    }
}

/// Takes a name out that was entered as a new one.
fn leave_name(index: &mut Index, ns: u32, id: u32, is_new: bool)
    ensures new { is_new ≡ true → (n i : ℕ) → is_indexed index.new n i
        ≡ (not (is_one_name ns id n i) && is_indexed index.old n i) }
    ensures old { is_new ≡ false → index.new ≡ index.old }
{
    if is_new {
        index.forget(ns, id);
    }
}

/// How many marks there are once one was set, in the place of the one that was found.
fn count_with(count: usize, found: Option<Mark>) -> usize
    requires { count < 18446744073709551615 }
    ensures { result ≡ (if is_some found then count else count + 1) }
{
    match found {
        Some(_) => count,
        None => count + 1,
    }
}

/// Keeps those of some marks of which all is removed where a part is.
fn keep_struck(marks: &mut Vec<Mark>, part: Part)
    ensures { marks.new.items ≡ filter (is_struck part.from part.to) marks.old.items }
{
    marks.retain(|mark| part.strikes(mark));
}

/// Keeps those of some marks that undo doesn't put back.
fn keep_gone(marks: &mut Vec<Mark>)
    ensures { marks.new.items ≡ filter (λ m. not m.restore) marks.old.items }
{
    marks.retain(|mark| !mark.restore);
}
