//! Laws of worlds, each the contract of a function that does nothing.
ghost use Rattle.nv_world.specs.Laws.{MarksFollow, MessagesFold};

use crate::world::World;

/// Whatever the sessions of a world asked, and in whatever order: the messages that one of them was
/// given or is still to be given fold, from the first to any of them, to the lines of each buffer
/// at the changedtick of the last one; and after each entry each extmark stands where the splices
/// of its buffer left it.
pub fn world_laws(world: &World)
    ensures folds { MessagesFold world.now }
    ensures marks { MarksFollow world.now }
{
    let _ = world;
}
