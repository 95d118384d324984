//! The history of a core, of which the front may have been taken out.
ghost use Rattle.std.specs.Prelude.{◌≡◌, ◌<◌, ◌≤◌, ◌==◌, ◌^◌, ◌+◌, ◌-◌, ◌++◌, ◌∷◌, [], length, drop, slice_get, IfNone, IfSome, OnOk, option_map};
ghost use Rattle.std.specs.Vec.{vec_capacity, vec_len};
ghost use Rattle.nv_core.specs.Ledgers.{entries_told};

use crate::entry::{Entry, Event};
use std::alloc::{AllocError, Global};
use std::marker::Model;
use std::mem;

/// The entries of a history, numbered from 0, from a base on: those before it were taken out.
#[derive(Drop)]
pub struct History {
    base: u64,
    // At the front, so many blanks, each in the place of an entry that was taken out.
    entries: Vec<Entry>,
    blanks: usize,
}

impl Model for History {
    ghost use Rattle.std.specs.Prelude.{◌+◌, ◌-◌, ◌^◌, ◌≤◌, drop, length};
    ghost use Rattle.std.specs.Vec.{vec_len, vec_capacity};
    ghost use Rattle.nv_core.specs.Ledgers.{Ledger, ledger_code};

    ghost Value = { Ledger };

    ghost coded = { ledger_code };

    ghost view = { λ h. record {
      base = h.base;
      entries = drop h.blanks h.entries.items;
      room = vec_capacity h.entries - vec_len h.entries;
    } };

    ghost invariant = { λ h. (h.blanks ≤ vec_len h.entries)
        × (h.base + vec_len h.entries - h.blanks ≤ 2 ^ 63) };
}

// A vector without so many elements at its front.
fn drop_front(entries: &mut Vec<Entry>, count: usize)
    requires { count ≤ vec_len entries.old }
    ensures items { entries.new.items ≡ drop count entries.old.items }
    ensures len { vec_len entries.new + count ≡ vec_len entries.old }
    ensures capacity { vec_capacity entries.new ≡ vec_capacity entries.old }
{
    let left = entries.len() - count;
    entries.rotate_left(count);
    entries.truncate(left);
}

impl History {
    /// No entries, and none taken out.
    pub fn new(alloc: Global) -> History
        ensures entries { result.entries ≡ [] }
        ensures base { result.base ≡ 0 }
    {
        History {
            base: 0,
            entries: Vec::new(alloc),
            blanks: 0,
        }
    }

    /// How many entries were taken out, which is the number of the first one that is kept.
    pub fn base(&self) -> u64
        ensures { result ≡ self.now.base }
    {
        self.base
    }

    /// The number of entries that are kept.
    pub fn len(&self) -> usize
        ensures count { result ≡ length self.now.entries }
        ensures small { result < 2 ^ 63 }
    {
        self.entries.len() - self.blanks
    }

    /// The number of all entries, with those that were taken out.
    pub fn told(&self) -> u64
        ensures count { result ≡ entries_told self.now }
        ensures small { result ≤ 2 ^ 63 }
    {
        self.base + (self.entries.len() - self.blanks) as u64
    }

    /// Whether no entry is kept.
    pub fn is_empty(&self) -> bool
        ensures { result ≡ (length self.now.entries == 0) }
    {
        self.len() == 0
    }

    /// The entries that are kept, in their order, lent.
    pub fn entries(&self) -> &[Entry]
        ensures { result.now ≡ self.now.entries }
    {
        &self.entries.as_slice()[self.blanks..]
    }

    /// The entry at a place among those that are kept, where there is one.
    pub fn get(&self, place: usize) -> Option<&Entry>
        ensures { option_map (λ entry. entry.now) result ≡ slice_get self.now.entries place }
    {
        self.entries().get(place)
    }

    /// The entries that are kept, in their order, taken out.
    pub fn into_entries(self) -> Vec<Entry>
        ensures { result.items ≡ self.entries }
    {
        let History {
            base: _,
            mut entries,
            blanks,
        } = self;
        drop_front(&mut entries, blanks);
        entries
    }

    /// Puts an entry at the end, for which there is room.
    pub fn push_reserved(&mut self, entry: Entry)
        requires room { 0 < self.old.room }
        requires few { entries_told self.old < 2 ^ 63 }
        ensures base { self.new.base ≡ self.old.base }
        ensures entries { self.new.entries ≡ self.old.entries ++ entry ∷ [] }
        ensures room { self.old.room ≡ self.new.room + 1 }
    {
        self.entries.push_reserved(entry);
    }

    /// Makes room for so many entries more.
    pub fn reserve(&mut self, more: usize) -> Result<(), AllocError>
        ensures base { self.new.base ≡ self.old.base }
        ensures entries { self.new.entries ≡ self.old.entries }
        ensures ok { OnOk result (more ≤ self.new.room) }
        ensures room { self.old.room ≤ self.new.room }
    {
        // What is moved is no more than what was taken out since it last was.
        if self.blanks > self.entries.len() - self.blanks {
            self.compact();
        }
        self.entries.reserve(more)
    }

    // Moves the entries that are kept to the front of the memory.
    fn compact(&mut self)
        ensures base { self.new.base ≡ self.old.base }
        ensures entries { self.new.entries ≡ self.old.entries }
        ensures room { self.old.room ≤ self.new.room }
    {
        drop_front(&mut self.entries, self.blanks);
        self.blanks = 0;
    }

    /// Takes the oldest entry out that is kept. `None` exactly where none is. No memory is taken.
    pub fn shed_one(&mut self) -> Option<Entry>
        ensures none { IfNone result ((self.old.entries ≡ []) × (self.new ≡ self.old)) }
        ensures some { IfSome result (λ entry. (self.old.entries ≡ entry ∷ self.new.entries)
            × (self.new.base ≡ self.old.base + 1) × (self.new.room ≡ self.old.room)) }
    {
        if self.blanks == self.entries.len() {
            return None;
        }
        let blank = Entry {
            caller: 0,
            event: Event::Open,
        };
        let entry = mem::replace(&mut self.entries[self.blanks], blank);
        self.blanks += 1;
        self.base += 1;
        Some(entry)
    }
}
