//! How many buffers have each name.
ghost use Rattle.std.specs.Prelude.{◌≡◌, ◌+◌, ◌-◌, ◌==◌, ℕ, List, length, false, IsTrue, IfSome, bytes_eq, if◌then◌else◌};
ghost use Rattle.nv_editor.specs.inside.Named.{AreNameCounts, number_under, one_if, with_one_of};

use std::alloc::Global;
use std::collections::BTreeMap;

// The numbers of buffers by their names.
type Counts = BTreeMap<Vec<u8>, u64>;

/// How many buffers have each name that isn't empty. Once out of memory that is unknown.
#[derive(Drop)]
pub struct Names {
    pub alloc: Global,
    pub counts: Option<Counts>,
}

// The number of a name.
fn number_under(counts: &Counts, name: &[u8]) -> u64
    ensures { result ≡ number_under counts.now name.now }
{
    counts.get(name).copied().unwrap_or(0)
}

// Puts the number of a name. `false` if out of memory.
fn put_number(counts: &mut Counts, alloc: Global, name: &[u8], number: u64) -> bool
    ensures { IsTrue result → (x : List ℕ) → number_under counts.new x
        ≡ (if bytes_eq x name.now then number else number_under counts.old x) }
{
    let Ok(key) = Vec::from_slice(alloc, name) else {
        return false;
    };
    counts.insert(key, number).is_ok()
}

// One more buffer has a name. `false` if out of memory.
fn add_to(counts: &mut Counts, alloc: Global, name: &[u8]) -> bool
    ensures { IsTrue result → (x : List ℕ) → number_under counts.new x
        ≡ one_if x name.now + number_under counts.old x }
{
    match number_under(counts, name).checked_add(1) {
        Some(number) => put_number(counts, alloc, name, number),
        None => false,
    }
}

// Takes the number of a name out.
fn forget(counts: &mut Counts, name: &[u8])
    ensures { (x : List ℕ) → number_under counts.new x
        ≡ (if bytes_eq x name.now then 0 else number_under counts.old x) }
{
    counts.remove(name);
}

// One buffer fewer has a name. `false` if out of memory.
fn take_from(counts: &mut Counts, alloc: Global, name: &[u8]) -> bool
    ensures { IsTrue result → (x : List ℕ) → number_under counts.new x
        ≡ number_under counts.old x - one_if x name.now }
{
    let number = number_under(counts, name);
    if number > 1 {
        return put_number(counts, alloc, name, number - 1);
    }
    forget(counts, name);
    true
}

impl Names {
    /// No buffer has a name.
    pub fn new(alloc: Global) -> Names
        ensures { AreNameCounts result.counts (λ _. 0) }
    {
        Names {
            alloc,
            counts: Some(BTreeMap::new(alloc)),
        }
    }

    /// How many buffers have a name, where that is known.
    pub fn number(&self, name: &[u8]) -> Option<u64>
        ensures { IfSome result (λ number. (numbers : List ℕ → ℕ)
            → AreNameCounts self.now.counts numbers → (length name.now == 0) ≡ false
            → number ≡ numbers name.now) }
    {
        match &self.counts {
            Some(counts) => Some(number_under(counts, name)),
            None => None,
        }
    }

    /// One more buffer has a name.
    pub fn add(&mut self, name: &[u8])
        ensures { (numbers : List ℕ → ℕ) → AreNameCounts self.old.counts numbers
            → AreNameCounts self.new.counts (with_one_of name.now numbers) }
    {
        let Some(counts) = &mut self.counts else {
            return;
        };
        if !add_to(counts, self.alloc, name) {
            self.counts = None;
        }
    }

    /// One buffer fewer has a name.
    pub fn take(&mut self, name: &[u8])
        ensures { (numbers : List ℕ → ℕ)
            → AreNameCounts self.old.counts (with_one_of name.now numbers)
            → AreNameCounts self.new.counts numbers }
    {
        let Some(counts) = &mut self.counts else {
            return;
        };
        if !take_from(counts, self.alloc, name) {
            self.counts = None;
        }
    }
}
