//! The highlight groups of an editor.

ghost use Rattle.nv_hl.specs.Groups.{AreSound, HasGroup, LinksWithin, attr_of, empty_group, fresh_groups, group_at, known_id, name_at, was_put_at, with_group, with_named};
ghost use Rattle.std.specs.List.{IsDistinct};
ghost use Rattle.std.specs.Str.{bytes_eq};
ghost use Rattle.nv_hl.specs.inside.Stored.{named};
ghost use Rattle.std.specs.Prelude.{◌≡◌, ◌<◌, ◌≤◌, ◌↔◌, ◌++◌, ◌∷◌, [], IfOk, IfSome, IsOk, IsSome, None, OnErr, OnOk, Some, length, map};

use crate::attribute::Attr;
use crate::linking::Group;
use crate::stored::{self, Entry, Index};
use std::alloc::{AllocError, Global};
use std::collections::BTreeMap;
use std::marker::Model;

/// The highlight groups, each with a name and an id. Ids count from 1, in the order in which the
/// names came. A name is looked up in an ordered map.
#[derive(Drop)]
pub struct Groups {
    index: Index,
    entries: Vec<Entry>,
}

impl Model for Groups {
    ghost use Rattle.std.specs.Prelude.{List};
    ghost use Rattle.nv_hl.specs.Groups.{AreSound, NamedGroup};
    ghost use Rattle.nv_hl.specs.inside.Stored.{IsIndex};

    ghost Value = { List NamedGroup };

    ghost view = { λ g. g.entries.items };

    ghost invariant = { λ g. AreSound g.entries.items × IsIndex g.index g.entries.items };
}

impl Groups {
    /// No groups.
    pub fn none(alloc: Global) -> Groups
        ensures { result ≡ [] }
    {
        Groups {
            index: BTreeMap::new(alloc),
            entries: Vec::new(alloc),
        }
    }

    /// The seven groups of a fresh editor.
    pub fn new(alloc: Global) -> Result<Groups, AllocError>
        ensures { IfOk result (λ g. g ≡ fresh_groups) }
    {
        let bold = Attr {
            bold: true,
            ..Attr::EMPTY
        };
        let reverse = Attr {
            reverse: true,
            ..Attr::EMPTY
        };
        let status = Attr {
            bold: true,
            ..reverse
        };
        let mut groups = Groups::none(alloc);
        groups.add(b"Normal", Group::Plain(Attr::EMPTY), false)?;
        groups.add(b"NonText", Group::Plain(bold), true)?;
        groups.add(b"EndOfBuffer", Group::Link(2), true)?;
        groups.add(b"SpecialKey", Group::Plain(bold), true)?;
        groups.add(b"StatusLine", Group::Plain(status), true)?;
        groups.add(b"StatusLineNC", Group::Plain(reverse), true)?;
        groups.add(b"WinSeparator", Group::Plain(Attr::EMPTY), false)?;
        Ok(groups)
    }

    // Puts a group of a new name at the end.
    fn add(&mut self, name: &[u8], group: Group, was_put: bool) -> Result<u32, AllocError>
        requires few { length self.old < 4_294_967_295 }
        requires unknown { known_id self.old name.now ≡ None }
        requires linked { LinksWithin (length self.old) group }
        ensures groups { OnOk result (self.new ≡ self.old ++ named name.now group was_put ∷ []) }
        ensures id { IfOk result (λ id. known_id self.new name.now ≡ Some id) }
        ensures there { IfOk result (λ id. HasGroup self.new id) }
        ensures err { OnErr result (self.new ≡ self.old) }
    {
        stored::append(&mut self.index, &mut self.entries, name, group, was_put)
    }

    /// The id of the group of this name. An unknown name gets a group with the empty attribute.
    pub fn id_of(&mut self, name: &[u8]) -> Result<u32, AllocError>
        requires { length self.old < 4_294_967_295 }
        ensures named { OnOk result (self.new ≡ with_named self.old (empty_group name.now)) }
        ensures id { IfOk result (λ id. known_id self.new name.now ≡ Some id) }
        ensures there { IfOk result (λ id. HasGroup self.new id) }
        ensures known { IsSome (known_id self.old name.now) → IsOk result }
        ensures err { OnErr result (self.new ≡ self.old) }
    {
        match self.known(name) {
            Some(id) => Ok(id),
            None => self.add(name, Group::Plain(Attr::EMPTY), false),
        }
    }

    /// The id of the group of this name, where there is one.
    pub fn known(&self, name: &[u8]) -> Option<u32>
        ensures id { result ≡ known_id self.now name.now }
        ensures there { IfSome result (λ id. HasGroup self.now id) }
    {
        stored::id_in(&self.index, &self.entries, name)
    }

    /// What the group of this id stands for; `None` exactly where the id has no group.
    pub fn group(&self, id: u32) -> Option<Group>
        ensures value { result ≡ group_at self.now id }
        ensures there { IsSome result ↔ HasGroup self.now id }
        ensures linked { IfSome result (λ group. LinksWithin (length self.now) group) }
    {
        stored::group_of(&self.entries, id)
    }

    /// Puts a group in place of the one of this id.
    pub fn put(&mut self, id: u32, group: Group)
        requires there { HasGroup self.old id }
        requires linked { LinksWithin (length self.old) group }
        ensures groups { self.new ≡ with_group self.old id group }
        ensures len { length self.new ≡ length self.old }
    {
        stored::set(&mut self.entries, id, group);
    }

    /// Whether a group was ever put at this id, or the id is one that a fresh editor has with a
    /// link or an attribute.
    pub fn was_put(&self, id: u32) -> bool
        requires { HasGroup self.now id }
        ensures { result ≡ was_put_at self.now id }
    {
        stored::was_put(&self.entries, id)
    }

    /// How text of this group looks: the attribute of the group that its links lead to, where they
    /// are at most 64, and otherwise the empty attribute.
    pub fn attr(&self, id: u32) -> Attr
        requires { HasGroup self.now id }
        ensures { result ≡ attr_of self.now id }
    {
        stored::attr_from(&self.entries, id)
    }

    /// The name of the group of this id.
    pub fn name(&self, id: u32) -> &[u8]
        requires { HasGroup self.now id }
        ensures { result.now ≡ name_at self.now id }
    {
        stored::name_of(&self.entries, id)
    }

    /// The number of groups. No two have one name, and each link leads to one of them.
    pub fn len(&self) -> u32
        ensures count { result ≡ length self.now }
        ensures sound { AreSound self.now }
        ensures distinct { IsDistinct bytes_eq (map (λ g. g.name) self.now) }
    {
        self.entries.len() as u32
    }
}
