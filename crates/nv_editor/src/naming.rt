//! Namespaces (help: namespace).

ghost use Rattle.nv_editor.specs.Namespaces.{id_of_name, named_namespaces};
ghost use Rattle.nv_editor.specs.inside.Ids.{AreIdsOf, ids_kept, with_name};
ghost use Rattle.nv_editor.specs.Doing.{Does};
ghost use Rattle.nv_model.specs.Operations.{namespace_made};
ghost use Rattle.std.specs.Prelude.{◌≡◌, ◌+◌, ◌^◌, ◌<◌, ◌++◌, ◌∷◌, ◌==◌, [], IfOk, None, OnErr, OnOk, false, length, map};

use crate::editor::Editor;
use crate::stage::Stage;
use std::alloc::{AllocError, Global};
use std::collections::BTreeMap;
use std::marker::Model;

/// The name of a namespace, which is empty for one made without.
#[derive(Drop)]
struct Name {
    bytes: Vec<u8>,
}

impl Model for Name {
    ghost use Rattle.std.specs.Prelude.{List, ℕ};

    ghost Value = { List ℕ };

    ghost view = { λ n. n.bytes.items };
}

impl Name {
    fn new(alloc: Global, name: &[u8]) -> Result<Name, AllocError>
        ensures { IfOk result (λ n. n ≡ name.now) }
    {
        Ok(Name {
            bytes: Vec::from_slice(alloc, name)?,
        })
    }
}

// The ids of namespaces by their names.
type Ids = BTreeMap<Vec<u8>, u32>;

// The id of the namespace of this name, which isn't empty.
fn id_in(ids: &Ids, names: &Vec<Name>, name: &[u8]) -> Option<u32>
    requires ids { AreIdsOf ids.now names.now.items }
    requires some { (length name.now == 0) ≡ false }
    ensures { result ≡ id_of_name name.now names.now.items }
{
    ids.get(name).copied()
}

// Puts a new name with its id among the others, unless it is empty.
fn put_name(
    ids: &mut Ids,
    names: &Vec<Name>,
    alloc: Global,
    name: &[u8],
    id: u32,
) -> Result<(), AllocError>
    requires ids { AreIdsOf ids.old names.now.items }
    requires fresh { id_of_name name.now names.now.items ≡ None }
    ensures put { OnOk result (ids_kept ids.new ≡ with_name name.now id (ids_kept ids.old)) }
    ensures err { OnErr result (ids_kept ids.new ≡ ids_kept ids.old) }
{
    if name.len() == 0 {
        return Ok(());
    }
    let key = Vec::from_slice(alloc, name)?;
    ids.insert(key, id)?;
    Ok(())
}

// The next id, where fewer than so many were given.
fn next_id(count: usize, most: u32) -> u32
    requires { count < most }
    ensures id { result ≡ count + 1 }
    ensures few { count + 1 < 2 ^ 32 }
{
    count as u32 + 1
}

// Makes the next namespace of at most so many, with a new name or none, and gives its id.
fn append(
    ids: &mut Ids,
    names: &mut Vec<Name>,
    alloc: Global,
    name: &[u8],
    most: u32,
) -> Result<u32, AllocError>
    requires few { length names.old.items < most }
    requires ids { AreIdsOf ids.old names.old.items }
    requires fresh { id_of_name name.now names.old.items ≡ None }
    ensures names { OnOk result (names.new.items ≡ names.old.items ++ name.now ∷ []) }
    ensures id { IfOk result (λ id. id ≡ length names.old.items + 1) }
    ensures ids { AreIdsOf ids.new names.new.items }
    ensures few { OnOk result (length names.new.items < 2 ^ 32) }
    ensures err { OnErr result (names.new.items ≡ names.old.items) }
{
    let id = next_id(names.len(), most);
    let kept = Name::new(alloc, name)?;
    names.reserve(1)?;
    put_name(ids, names, alloc, name, id)?;
    names.push_reserved(kept);
    Ok(id)
}

/// The namespaces of an editor, each with an id and a name, which is empty for one made without
/// (help: namespace). Ids count from 1. A name is looked up in an ordered map.
#[derive(Drop)]
pub struct Namespaces {
    alloc: Global,
    names: Vec<Name>,
    ids: Ids,
}

impl Model for Namespaces {
    ghost use Rattle.std.specs.Prelude.{List, ℕ, length, ◌<◌, ◌^◌};
    ghost use Rattle.nv_editor.specs.inside.Ids.{AreIdsOf};

    ghost Value = { List (List ℕ) };

    ghost view = { λ n. n.names.items };

    ghost invariant = { λ n. AreIdsOf n.ids n.names.items × (length n.names.items < 2 ^ 32) };
}

impl Namespaces {
    /// No namespaces.
    pub fn new(alloc: Global) -> Namespaces
        ensures { result ≡ [] }
    {
        Namespaces {
            alloc,
            names: Vec::new(alloc),
            ids: BTreeMap::new(alloc),
        }
    }

    /// How many there are: the greatest id, a number of 32 bits.
    pub fn len(&self) -> usize
        ensures value { result ≡ length self.now }
        ensures few { result < 2 ^ 32 }
    {
        self.names.len()
    }

    /// The id of the namespace of this name; `None` exactly where there is none, as for the empty
    /// name.
    pub fn id_of(&self, name: &[u8]) -> Option<u32>
        ensures { result ≡ id_of_name name.now self.now }
    {
        if name.len() == 0 {
            return None;
        }
        id_in(&self.ids, &self.names, name)
    }

    /// Makes the next namespace of at most `most`, and gives its id. Its name is new, or empty for
    /// one without. If out of memory nothing changes.
    pub fn make(&mut self, name: &[u8], most: u32) -> Result<u32, AllocError>
        requires few { length self.old < most }
        requires fresh { id_of_name name.now self.old ≡ None }
        ensures made { OnOk result (self.new ≡ self.old ++ name.now ∷ []) }
        ensures id { IfOk result (λ id. id ≡ length self.old + 1) }
        ensures err { OnErr result (self.new ≡ self.old) }
    {
        append(&mut self.ids, &mut self.names, self.alloc, name, most)
    }

    /// The namespaces that have a name, with their ids, by the bytes of the names (help:
    /// nvim_get_namespaces()).
    pub fn by_name(&self) -> Result<Vec<(&[u8], u32)>, AllocError>
        ensures entries { IfOk result (λ entries.
            map (λ e. (e.0.now, e.1)) entries.items ≡ named_namespaces 1 self.now) }
        ensures few { IfOk result (λ entries. length entries.items < 2 ^ 32) }
    {
        let mut entries = Vec::new(self.alloc);
        for (name, id) in self.ids.iter() {
            entries.push((name.as_slice(), *id))?;
        }
        Ok(entries)
    }
}

impl Stage {
    // Makes the next namespace.
    fn make_namespace(&mut self, name: &[u8]) -> Result<u32, AllocError>
        requires few { length self.old.namespaces < self.old.limits.namespaces }
        requires fresh { id_of_name name.now self.old.namespaces ≡ None }
        ensures id { IfOk result (λ id. id ≡ length self.old.namespaces + 1) }
        ensures made { OnOk result (self.new
            ≡ record self.old { namespaces = self.old.namespaces ++ name.now ∷ [] }) }
        ensures err { OnErr result (self.new ≡ self.old) }
    {
        let most = self.limits.namespaces;
        self.namespaces.make(name, most)
    }
}

impl Editor {
    /// Makes the next namespace, of a new name, or without one where it is empty, and answers its
    /// id, from 1 (help: nvim_create_namespace()). If out of memory nothing changes.
    pub fn make_namespace(&mut self, name: &[u8]) -> Result<u32, AllocError>
        requires few { length self.old.stage.namespaces < self.old.stage.limits.namespaces }
        requires fresh { id_of_name name.now self.old.stage.namespaces ≡ None }
        ensures id { IfOk result (λ id. id ≡ length self.old.stage.namespaces + 1) }
        ensures done { OnOk result (Does (namespace_made name.now ∷ []) self.old self.new) }
        ensures err { OnErr result (self.new ≡ self.old) }
    {
        let id = self.stage.make_namespace(name)?;
        Ok(id)
    }
}
