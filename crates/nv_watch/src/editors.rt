//! The editor of a world, as far as it is known.
ghost use Rattle.std.specs.Prelude.{◌≡◌, option_map};
ghost use Rattle.nv_model.specs.Standing.{seen_now};
ghost use Rattle.nv_watch.specs.SeenWorlds.{editor_seen};

use nv_editor::Editor;
use nv_world::World;

/// The editor of a world, unless want of memory has spent that.
pub fn editor_of(world: &World) -> Option<&Editor>
    ensures { option_map (λ e. seen_now e.now) result ≡ editor_seen world.now }
{
    let _ = world.history();
    if world.spent() {
        None
    } else {
        Some(world.editor())
    }
}
