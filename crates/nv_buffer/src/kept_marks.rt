// What steps keep of marks, by change and part.
ghost use Rattle.std.specs.Prelude.{◌≡◌, ◌<◌, [], filter, is_some, length, true, OnOk};
ghost use Rattle.std.specs.Map.{lookup};
ghost use Rattle.std.specs.Option.{option_map_or};
ghost use Rattle.nv_buffer.specs.KeptMarks.{is_kept_in, is_of_part, kept_at, is_place_in, with_part};
ghost use Rattle.nv_buffer.specs.Rooms.{kept_entries};

use crate::edit::ChangePart;
use nv_lines::Lines;
use nv_marks::Kept;
use nv_places::Pos;
use std::alloc::{AllocError, Global};
use std::collections::BTreeMap;
use std::marker::Model;

/// What the last step of each part of each change kept of marks. It is seen with the entries that
/// are room for what is to be kept, which are empty.
#[derive(Drop)]
pub struct KeptMarks {
    alloc: Global,
    entries: BTreeMap<(u64, u64), Vec<Kept>>,
}

impl Model for KeptMarks {
    ghost use Rattle.std.specs.Prelude.{List, map, ℕ};
    ghost use Rattle.nv_buffer.specs.Rooms.{held_entry};
    ghost use Rattle.nv_marks.specs.declared.keeping.Kept.{Kept};

    ghost Value = { List ((ℕ × ℕ) × List Kept) };

    ghost view = { λ k. map held_entry k.entries.entries };
}

impl KeptMarks {
    pub fn new(alloc: Global) -> KeptMarks
        ensures { result ≡ [] }
    {
        KeptMarks {
            alloc,
            entries: BTreeMap::new(alloc),
        }
    }

    /// Makes room for what a step of a part kept, where it kept something.
    pub fn make_room(&mut self, part: ChangePart, kept: &[Kept]) -> Result<(), AllocError>
        ensures same { kept_entries self.new ≡ kept_entries self.old }
        ensures room { OnOk result
            (0 < length kept.now → is_some (lookup (is_of_part part) self.new) ≡ true) }
    {
        if kept.is_empty() {
            return Ok(());
        }
        self.hold(part)
    }

    // Makes room for what a step of a part kept.
    fn hold(&mut self, part: ChangePart) -> Result<(), AllocError>
        ensures same { kept_entries self.new ≡ kept_entries self.old }
        ensures room { OnOk result (is_some (lookup (is_of_part part) self.new) ≡ true) }
    {
        let key = (part.change, part.part);
        if self.entries.contains_key(&key) {
            return Ok(());
        }
        self.entries.insert(key, Vec::new(self.alloc))?;
        Ok(())
    }

    /// Puts what a step of a part kept in the place of what the one before kept, which it answers.
    pub fn put(&mut self, part: ChangePart, kept: Vec<Kept>) -> Vec<Kept>
        requires { 0 < length kept.items → is_some (lookup (is_of_part part) self.old) ≡ true }
        ensures before { result.items ≡ kept_at (kept_entries self.old) part }
        ensures kept { kept_entries self.new
            ≡ with_part part kept.items (kept_entries self.old) }
    {
        if kept.is_empty() {
            return self.take(part);
        }
        self.put_held(part, kept)
    }

    // Takes out what the last step of a part kept.
    fn take(&mut self, part: ChangePart) -> Vec<Kept>
        ensures before { result.items ≡ kept_at (kept_entries self.old) part }
        ensures left { kept_entries self.new ≡ with_part part [] (kept_entries self.old) }
    {
        let count = self.entries.len();
        if count == 0 {
            return Vec::new(self.alloc);
        }
        let key = (part.change, part.part);
        self.entries.remove(&key).unwrap_or(Vec::new(self.alloc))
    }

    // Puts what a step of a part kept where there is room for it, and answers what was there.
    fn put_held(&mut self, part: ChangePart, kept: Vec<Kept>) -> Vec<Kept>
        requires some { 0 < length kept.items }
        requires room { is_some (lookup (is_of_part part) self.old) ≡ true }
        ensures before { result.items ≡ kept_at (kept_entries self.old) part }
        ensures kept { kept_entries self.new
            ≡ with_part part kept.items (kept_entries self.old) }
    {
        let key = (part.change, part.part);
        match self.entries.insert(key, kept) {
            Ok(before) => before.unwrap_or(Vec::new(self.alloc)),
            Err(_) => unreachable!(),
        }
    }
}

// Whether a place is one of a text: in one of its rows, up to the end of the line, or at the end
// of it all.
fn is_place_in(text: &Lines, place: Pos) -> bool
    ensures { result ≡ is_place_in text.now place }
{
    match text.get(place.row as usize) {
        Some(line) => place.col as usize <= line.len(),
        None => place.row as usize == text.count() && place.col == 0,
    }
}

// Whether a place that may have been kept is one of a text, where it was.
fn is_none_or_in(text: &Lines, place: Option<Pos>) -> bool
    ensures { result ≡ option_map_or (is_place_in text.now) place true }
{
    match place {
        Some(place) => is_place_in(text, place),
        None => true,
    }
}

// Whether the places that were kept are places of a text.
fn is_kept_in(text: &Lines, kept: &Kept) -> bool
    ensures { result ≡ is_kept_in text.now kept.now }
{
    is_none_or_in(text, kept.start) && is_none_or_in(text, kept.stop)
}

/// Keeps those of what was kept of marks that have places of a text alone.
pub fn keep_in(text: &Lines, kept: &mut Vec<Kept>)
    ensures { kept.new.items ≡ filter (is_kept_in text.now) kept.old.items }
{
    kept.retain(|one| is_kept_in(text, one));
}
