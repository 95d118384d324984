//! In which chunks the starts and ends of marks stand, by namespace and id.

ghost use Rattle.nv_marks.specs.Queries.{is_meant};
ghost use Rattle.nv_marks.specs.inside.Names.{is_indexed, is_one_name};
ghost use Rattle.std.specs.Prelude.{◌≡◌, ◌≤◌, ◌==◌, ◌&&◌, ◌||◌, ℕ, [], OnErr, OnOk, false, is_some, not, true};

use crate::chunk::Chunk;
use crate::query::is_meant;
use crate::record::{Info, Record};
use std::alloc::{AllocError, Global};
use std::cmp::Reverse;
use std::collections::BTreeMap;
use std::marker::Model;

/// The numbers of the chunks in which the start and the end of a mark were last put.
#[derive(Clone, Copy, Debug)]
pub(crate) struct Home {
    pub start: usize,
    pub end: usize,
}

/// The home of each namespace and id that has a mark, and where the chunk of each number stands.
///
/// It is seen as the namespaces and ids alone. Where it says that a record stands is compared with
/// what stands there.
#[derive(Drop)]
pub(crate) struct Index {
    /// By namespace, and then the greatest id first: a new mark mostly has the greatest, and is
    /// found at the front of a row of the tree.
    homes: BTreeMap<(u32, Reverse<u32>), Home>,
    /// By the number of a chunk, its place among the chunks.
    places: Vec<usize>,
    /// The numbers that no chunk has.
    free: Vec<usize>,
}

impl Model for Index {
    ghost use Rattle.std.specs.BTreeMap.{keys};
    ghost use Rattle.std.specs.Prelude.{List, ℕ};
    ghost use Rattle.std.specs.declared.cmp.Reverse.{Reverse};

    ghost Value = { List (ℕ × Reverse ℕ) };

    ghost view = { λ s. keys s.homes };
}

impl Index {
    /// An index with no names.
    pub(crate) fn new(alloc: Global) -> Index
        ensures { result ≡ [] }
    {
        Index {
            homes: BTreeMap::new(alloc),
            places: Vec::new(alloc),
            free: Vec::new(alloc),
        }
    }

    /// The home of a namespace and id.
    pub(crate) fn home(&self, ns: u32, id: u32) -> Option<Home>
        ensures { is_some result ≡ is_indexed self.now ns id }
    {
        self.homes.get(&(ns, Reverse(id))).copied()
    }

    /// Where the chunk of a number stood last.
    pub(crate) fn place(&self, number: usize) -> usize {
        self.places.get(number).copied().unwrap_or(0)
    }

    /// Where the chunk stood last in which the start, or the end, of a mark is.
    pub(crate) fn place_of(&self, ns: u32, id: u32, end: bool) -> usize {
        match self.home(ns, id) {
            Some(home) if end => self.place(home.end),
            Some(home) => self.place(home.start),
            None => 0,
        }
    }

    /// Whether a namespace has a mark.
    pub(crate) fn has_any(&self, ns: u32) -> bool
        ensures { result ≡ false → (id : ℕ) → is_indexed self.now ns id ≡ false }
    {
        match self.homes.range(..=(ns, Reverse(0))).next_back() {
            Some((name, _)) => name.0 == ns,
            None => false,
        }
    }

    /// Whether a namespace, or all, may have more than so many marks.
    pub(crate) fn has_many(&self, meant: Option<u32>, most: usize) -> bool {
        match meant {
            Some(ns) => {
                let first = (ns, Reverse(u32::MAX));
                let last = (ns, Reverse(0));
                self.homes.range(first..=last).nth(most).is_some()
            }
            None => true,
        }
    }

    /// Gives a namespace and id a home.
    pub(crate) fn enter(&mut self, ns: u32, id: u32, start: usize) -> Result<(), AllocError>
        ensures ok { OnOk result ((n i : ℕ) → is_indexed self.new n i
            ≡ (is_one_name ns id n i || is_indexed self.old n i)) }
        ensures err { OnErr result (self.new ≡ self.old) }
    {
        self.homes
            .insert((ns, Reverse(id)), Home { start, end: 0 })?;
        Ok(())
    }

    /// Takes the home of a namespace and id away.
    pub(crate) fn forget(&mut self, ns: u32, id: u32)
        ensures { (n i : ℕ) → is_indexed self.new n i
            ≡ (not (is_one_name ns id n i) && is_indexed self.old n i) }
    {
        let _ = self.homes.remove(&(ns, Reverse(id)));
    }

    /// Takes the homes of a namespace, or of all, away.
    pub(crate) fn forget_all(&mut self, meant: Option<u32>)
        ensures { (n i : ℕ) → is_indexed self.new n i
            ≡ (not (is_meant meant n) && is_indexed self.old n i) }
    {
        if self.are_all(meant) {
            self.homes.clear();
            return;
        }
        self.homes.retain(|name, _| !is_meant(meant, name.0));
    }

    /// Whether each name is of the namespace that is meant, and there is one, or all are meant.
    fn are_all(&self, meant: Option<u32>) -> bool
        ensures { result ≡ true
            → (n i : ℕ) → is_indexed self.now n i ≡ true → is_meant meant n ≡ true }
    {
        match meant {
            Some(ns) => self.has_only(ns),
            None => true,
        }
    }

    /// Whether a namespace has marks, and no other has any.
    fn has_only(&self, ns: u32) -> bool
        ensures { result ≡ true → (n i : ℕ) → is_indexed self.now n i ≡ true → n == ns ≡ true }
    {
        if !self.are_from(ns) {
            return false;
        }
        self.are_up_to(ns)
    }

    /// Whether there are names, and none is of a namespace before a given one.
    fn are_from(&self, ns: u32) -> bool
        ensures { result ≡ true → (n i : ℕ) → is_indexed self.now n i ≡ true → ns ≤ n }
    {
        match self.homes.first_key_value() {
            Some((name, _)) => ns <= name.0,
            None => false,
        }
    }

    /// Whether there are names, and none is of a namespace behind a given one.
    fn are_up_to(&self, ns: u32) -> bool
        ensures { result ≡ true → (n i : ℕ) → is_indexed self.now n i ≡ true → n ≤ ns }
    {
        match self.homes.last_key_value() {
            Some((name, _)) => name.0 <= ns,
            None => false,
        }
    }

    /// Notes that the chunk of a number has a start or an end.
    pub(crate) fn note(&mut self, info: &Info, number: usize)
        ensures { self.new ≡ self.old }
    {
        if let Some(home) = self.homes.get_mut(&(info.ns, Reverse(info.id))) {
            if info.is_end {
                home.end = number;
            } else {
                home.start = number;
            }
        }
    }

    /// Notes that the chunk of a number has some records.
    pub(crate) fn note_all(&mut self, records: &[Record], number: usize)
        ensures { self.new ≡ self.old }
    {
        for record in records {
            self.note(&record.info, number);
        }
    }

    /// A number that no chunk has.
    pub(crate) fn new_number(&mut self) -> Result<usize, AllocError>
        ensures { self.new ≡ self.old }
    {
        if let Some(number) = self.free.pop() {
            return Ok(number);
        }
        let number = self.places.len();
        self.places.push(0)?;
        self.free.reserve(self.places.len())?;
        Ok(number)
    }

    /// Takes the number of a chunk back that is there no more.
    pub(crate) fn let_go(&mut self, number: usize)
        ensures { self.new ≡ self.old }
    {
        let _ = self.free.push(number);
    }

    /// Notes where the chunks stand, from a place on.
    pub(crate) fn follow(&mut self, chunks: &[Chunk], from: usize)
        ensures { self.new ≡ self.old }
    {
        for at in from..chunks.len() {
            let number = chunks[at].number();
            if number < self.places.len() {
                self.places[number] = at;
            }
        }
    }
}
