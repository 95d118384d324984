//! How groups are stored: a list of them, and an ordered map from their names to their ids.

ghost use Rattle.nv_hl.specs.Groups.{AreSound, HasGroup, LinksWithin, attr_of, entry_at, group_at, known_id, name_at, was_put_at, with_group};
ghost use Rattle.nv_hl.specs.inside.Stored.{IsIndex, named};
ghost use Rattle.std.specs.Prelude.{◌≡◌, ◌+◌, ◌<◌, ◌≤◌, ◌-◌, ◌++◌, ◌∷◌, [], IfOk, IfSome, MatchOption, None, OnErr, OnOk, Some, length, true};

use crate::attribute::Attr;
use crate::linking::Group;
use std::alloc::{AllocError, Global};
use std::collections::BTreeMap;
use std::marker::Model;

/// The greatest number of links that are followed.
const MOST_LINKS: u32 = 64;

/// A group with its name.
#[derive(Drop)]
pub struct Entry {
    name: Vec<u8>,
    group: Group,
    was_put: bool,
}

impl Model for Entry {
    ghost use Rattle.nv_hl.specs.Groups.{NamedGroup};

    ghost Value = { NamedGroup };

    ghost view = { λ e. record { name = e.name.items; group = e.group; was_put = e.was_put } };
}

impl Entry {
    /// A group of this name.
    fn new(alloc: Global, name: &[u8], group: Group, was_put: bool) -> Result<Entry, AllocError>
        ensures { IfOk result (λ e. e ≡ named name.now group was_put) }
    {
        let name = Vec::from_slice(alloc, name)?;
        Ok(Entry {
            name,
            group,
            was_put,
        })
    }

    fn name(&self) -> &[u8]
        ensures { result.now ≡ self.now.name }
    {
        self.name.as_slice()
    }

    fn group(&self) -> Group
        ensures { result ≡ self.now.group }
    {
        self.group
    }

    fn was_put(&self) -> bool
        ensures { result ≡ self.now.was_put }
    {
        self.was_put
    }

    fn put(&mut self, group: Group)
        ensures { self.new ≡ record { name = self.old.name; group = group; was_put = true } }
    {
        self.group = group;
        self.was_put = true;
    }
}

/// The ids of groups by their names.
pub type Index = BTreeMap<Vec<u8>, u32>;

/// The id of the group of this name.
pub fn id_in(index: &Index, entries: &Vec<Entry>, name: &[u8]) -> Option<u32>
    requires { IsIndex index.now entries.now.items }
    ensures { result ≡ known_id entries.now.items name.now }
{
    index.get(name).copied()
}

/// A group of this id.
fn find(entries: &Vec<Entry>, id: u32) -> Option<&Entry>
    ensures { MatchOption result (entry_at entries.now.items id ≡ None)
        (λ e. entry_at entries.now.items id ≡ Some e.now) }
{
    if id == 0 {
        return None;
    }
    entries.get(id as usize - 1)
}

/// What the group of this id stands for.
pub fn group_of(entries: &Vec<Entry>, id: u32) -> Option<Group>
    ensures { result ≡ group_at entries.now.items id }
{
    match find(entries, id) {
        Some(entry) => Some(entry.group()),
        None => None,
    }
}

/// Whether a group was put at this id.
pub fn was_put(entries: &Vec<Entry>, id: u32) -> bool
    ensures { result ≡ was_put_at entries.now.items id }
{
    match find(entries, id) {
        Some(entry) => entry.was_put(),
        None => false,
    }
}

/// The name of the group of this id.
pub fn name_of(entries: &Vec<Entry>, id: u32) -> &[u8]
    ensures { result.now ≡ name_at entries.now.items id }
{
    match find(entries, id) {
        Some(entry) => entry.name(),
        None => &[],
    }
}

/// The attribute at the end of the links from this id, of which at most `MOST_LINKS` are followed.
pub fn attr_from(entries: &Vec<Entry>, id: u32) -> Attr
    ensures { result ≡ attr_of entries.now.items id }
{
    let mut group = group_of(entries, id);
    for followed in 0..MOST_LINKS {
        match group {
            Some(Group::Link(next)) => group = group_of(entries, next),
            Some(Group::Plain(attr)) => return attr,
            None => return Attr::EMPTY,
        }
    }
    match group {
        Some(Group::Plain(attr)) => attr,
        Some(Group::Link(_)) => Attr::EMPTY,
        None => Attr::EMPTY,
    }
}

/// Puts a group in place of the one of this id.
pub fn set(entries: &mut Vec<Entry>, id: u32, group: Group)
    requires first { 0 < id }
    requires last { id ≤ length entries.old.items }
    ensures { entries.new.items ≡ with_group entries.old.items id group }
{
    entries[id as usize - 1].put(group);
}

// The next id, after so many.
fn next_id(count: usize) -> u32
    requires { count < 4_294_967_295 }
    ensures { result ≡ count + 1 }
{
    count as u32 + 1
}

/// Puts a group of a new name at the end, and gives its id.
pub fn append(
    index: &mut Index,
    entries: &mut Vec<Entry>,
    name: &[u8],
    group: Group,
    was_put: bool,
) -> Result<u32, AllocError>
    requires index { IsIndex index.old entries.old.items }
    requires few { length entries.old.items < 4_294_967_295 }
    requires unknown { known_id entries.old.items name.now ≡ None }
    requires sound { AreSound entries.old.items }
    requires linked { LinksWithin (length entries.old.items) group }
    ensures entries { OnOk result
        (entries.new.items ≡ entries.old.items ++ named name.now group was_put ∷ []) }
    ensures id { IfOk result (λ id. known_id entries.new.items name.now ≡ Some id) }
    ensures there { IfOk result (λ id. HasGroup entries.new.items id) }
    ensures index { IsIndex index.new entries.new.items }
    ensures sound { AreSound entries.new.items }
    ensures err { OnErr result (entries.new.items ≡ entries.old.items) }
{
    let id = next_id(entries.len());
    let alloc = *entries.allocator();
    let entry = Entry::new(alloc, name, group, was_put)?;
    let key = Vec::from_slice(alloc, name)?;
    entries.reserve(1)?;
    index.insert(key, id)?;
    entries.push_reserved(entry);
    Ok(id)
}
