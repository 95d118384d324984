//! Highlight groups (help: highlight-groups).
ghost use Rattle.std.specs.Prelude.{◌≡◌, ◌-◌, ◌^◌, ◌<◌, ◌∷◌, [], length, IfOk, OnErr, OnOk, Some, is_some, if◌then◌else◌};
ghost use Rattle.nv_editor.specs.Doing.{Does};
ghost use Rattle.nv_hl.specs.Groups.{HasGroup, LinksWithin, empty_group, known_id, with_group, with_named};
ghost use Rattle.nv_model.specs.Operations.{group_made, group_put};

use crate::editor::Editor;
use crate::stage::Stage;
use nv_hl::Group;
use std::alloc::AllocError;

impl Stage {
    fn make_group(&mut self, name: &[u8]) -> Result<u32, AllocError>
        requires { length self.old.groups < 2 ^ 32 - 1 }
        ensures made { OnOk result (self.new
            ≡ record self.old { groups = with_named self.old.groups (empty_group name.now) }) }
        ensures id { IfOk result (λ id. known_id self.new.groups name.now ≡ Some id) }
        ensures there { IfOk result (λ id. HasGroup self.new.groups id) }
        ensures err { OnErr result (self.new ≡ self.old) }
    {
        let id = self.groups.id_of(name)?;
        Ok(id)
    }

    fn put_group(&mut self, id: u32, group: Group)
        requires there { HasGroup self.old.groups id }
        requires linked { LinksWithin (length self.old.groups) group }
        ensures { self.new ≡ record self.old { groups = with_group self.old.groups id group } }
    {
        self.groups.put(id, group);
    }
}

impl Editor {
    /// The id of the group of this name; an unknown name gets a group with the empty attribute
    /// (help: nvim_get_hl_id_by_name()). Where memory is wanting nothing changes.
    pub fn make_group(&mut self, name: &[u8]) -> Result<u32, AllocError>
        requires few { length self.old.stage.groups < 2 ^ 32 - 1 }
        ensures id { IfOk result (λ id. known_id self.new.stage.groups name.now ≡ Some id) }
        ensures there { IfOk result (λ id. HasGroup self.new.stage.groups id) }
        ensures stage { OnOk result (self.new.stage ≡ record self.old.stage {
          groups = with_named self.old.stage.groups (empty_group name.now);
        }) }
        ensures buffers { OnOk result (self.new.buffers ≡ self.old.buffers) }
        ensures done { OnOk result (Does
            (if is_some (known_id self.old.stage.groups name.now) then []
            else group_made name.now ∷ []) self.old self.new) }
        ensures err { OnErr result (self.new ≡ self.old) }
    {
        let id = self.stage.make_group(name)?;
        Ok(id)
    }

    /// Puts a group in place of the one of this id; a link leads to a group that is there (help:
    /// nvim_set_hl()).
    pub fn put_group(&mut self, id: u32, group: Group)
        requires there { HasGroup self.old.stage.groups id }
        requires linked { LinksWithin (length self.old.stage.groups) group }
        ensures done { Does (group_put id group ∷ []) self.old self.new }
        ensures stage { self.new.stage ≡ record self.old.stage {
          groups = with_group self.old.stage.groups id group;
        } }
    {
        self.stage.put_group(id, group);
    }
}
