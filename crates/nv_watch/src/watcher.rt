//! What watches a history that is gone over.
ghost use Rattle.std.specs.Prelude.{◌≡◌, ◌↔◌, [], ◌∷◌, ◌++◌, List, ℕ, length, slice_get, Some, OnOk};
ghost use Rattle.nv_watch.specs.Verdicts.{FollowsNext, FollowsQuietly, IsLastWorld, Sight, sight, IsVerdict};
ghost use Rattle.nv_watch.specs.Shown.{HasCaughtUp, HasGlanced};

use crate::verdict::Verdict;
use nv_world::{Step, World};
use std::alloc::AllocError;

/// Looks at each step of a history and says whether its rule is kept.
pub trait Watcher: Drop {
    /// Whether it may have seen these steps, each with the world after it.
    ghost HasSeen: { Self → List Sight → Type 0 };

    /// Its rule: whether a step breaks it, behind those that were seen before.
    ghost Breaks: { Self → List Sight → Sight → Type 0 };

    /// Whether it may have seen these steps, but for what it put off to look at in the world after
    /// the last of them.
    ghost IsBehind: { Self → List Sight → Type 0 };

    /// Looks at a step, and at the world after it.
    fn see(&mut self, world: &World, step: &Step) -> Result<(), AllocError>
        ensures seen { OnOk result ((seen : List Sight) → HasSeen self.old seen
            → HasSeen self.new (seen ++ sight world.now step.now ∷ [])) }
        ensures rule { (seen : List Sight) (x : Sight)
            → Breaks self.old seen x ↔ Breaks self.new seen x };

    /// Looks at a step that follows those that were seen, in the next world, and puts off what may
    /// as well be looked at in the world after a later one, as long as none splices: so a step
    /// costs what it changed.
    fn glance(&mut self, world: &World, step: &Step) -> Result<(), AllocError>
        ensures first { OnOk result ((seen : List Sight) → HasSeen self.old seen
            → FollowsNext seen (sight world.now step.now)
            → IsBehind self.new (seen ++ sight world.now step.now ∷ [])) }
        ensures later { OnOk result ((seen : List Sight) → IsBehind self.old seen
            → FollowsQuietly seen (sight world.now step.now)
            → IsBehind self.new (seen ++ sight world.now step.now ∷ [])) }
        ensures rule { (seen : List Sight) (x : Sight)
            → Breaks self.old seen x ↔ Breaks self.new seen x };

    /// Looks at what was put off, in the world after the last step.
    fn catch_up(&mut self, world: &World) -> Result<(), AllocError>
        ensures seen { OnOk result ((seen : List Sight) → IsBehind self.old seen
            → IsLastWorld seen world.now → HasSeen self.new seen) }
        ensures same { OnOk result ((seen : List Sight) → HasSeen self.old seen
            → HasSeen self.new seen) }
        ensures rule { (seen : List Sight) (x : Sight)
            → Breaks self.old seen x ↔ Breaks self.new seen x };

    /// The least number of an entry after which the rule was broken, where there is one.
    fn verdict(&self) -> Verdict
        ensures { (seen : List Sight) → HasSeen self.now seen
            → IsVerdict (Breaks self.now) seen result };
}

// Shows a step to one of them.
fn show<W: Watcher>(watcher: &mut W, world: &World, step: &Step) -> Result<(), AllocError>
    ensures seen { OnOk result ((seen : List Sight) → W.HasSeen watcher.old seen
        → W.HasSeen watcher.new (seen ++ sight world.now step.now ∷ [])) }
    ensures rule { (seen : List Sight) (x : Sight)
        → W.Breaks watcher.old seen x ↔ W.Breaks watcher.new seen x }
{
    watcher.see(world, step)
}

/// Shows a step to each watcher, and the world after it. The watchers stay in their order, and
/// their rules stay.
pub fn drive<W: Watcher>(
    watchers: &mut Vec<W>,
    world: &World,
    step: &Step,
) -> Result<(), AllocError>
    ensures count { OnOk result (length watchers.new.items ≡ length watchers.old.items) }
    ensures seen { OnOk result ((i : ℕ) (old new : W) (seen : List Sight)
        → slice_get watchers.old.items i ≡ Some old → slice_get watchers.new.items i ≡ Some new
        → W.HasSeen old seen → W.HasSeen new (seen ++ sight world.now step.now ∷ [])) }
    ensures rule { OnOk result ((i : ℕ) (old new : W) (seen : List Sight) (x : Sight)
        → slice_get watchers.old.items i ≡ Some old → slice_get watchers.new.items i ≡ Some new
        → W.Breaks old seen x ↔ W.Breaks new seen x) }
{
    for place in 0..watchers.len() {
        show(&mut watchers[place], world, step)?;
    }
    Ok(())
}

// Lets one of them glance at a step.
fn glance_one<W: Watcher>(watcher: &mut W, world: &World, step: &Step) -> Result<(), AllocError>
    ensures first { OnOk result ((seen : List Sight) → W.HasSeen watcher.old seen
        → FollowsNext seen (sight world.now step.now)
        → W.IsBehind watcher.new (seen ++ sight world.now step.now ∷ [])) }
    ensures later { OnOk result ((seen : List Sight) → W.IsBehind watcher.old seen
        → FollowsQuietly seen (sight world.now step.now)
        → W.IsBehind watcher.new (seen ++ sight world.now step.now ∷ [])) }
    ensures rule { (seen : List Sight) (x : Sight)
        → W.Breaks watcher.old seen x ↔ W.Breaks watcher.new seen x }
{
    watcher.glance(world, step)
}

/// Lets each watcher glance at a step, and at the world after it. The watchers stay in their order,
/// and their rules stay.
pub fn glance<W: Watcher>(
    watchers: &mut Vec<W>,
    world: &World,
    step: &Step,
) -> Result<(), AllocError>
    ensures count { OnOk result (length watchers.new.items ≡ length watchers.old.items) }
    ensures glances { OnOk result ((i : ℕ) (old new : W)
        → slice_get watchers.old.items i ≡ Some old → slice_get watchers.new.items i ≡ Some new
        → HasGlanced (sight world.now step.now) (W.HasSeen old) (W.IsBehind old) (W.IsBehind new)
        (W.Breaks old) (W.Breaks new)) }
{
    for place in 0..watchers.len() {
        glance_one(&mut watchers[place], world, step)?;
    }
    Ok(())
}

// Lets one of them look at what was put off.
fn catch_one_up<W: Watcher>(watcher: &mut W, world: &World) -> Result<(), AllocError>
    ensures seen { OnOk result ((seen : List Sight) → W.IsBehind watcher.old seen
        → IsLastWorld seen world.now → W.HasSeen watcher.new seen) }
    ensures same { OnOk result ((seen : List Sight) → W.HasSeen watcher.old seen
        → W.HasSeen watcher.new seen) }
    ensures rule { (seen : List Sight) (x : Sight)
        → W.Breaks watcher.old seen x ↔ W.Breaks watcher.new seen x }
{
    watcher.catch_up(world)
}

/// Lets each watcher look at what was put off, in the world after the last step. The watchers stay
/// in their order, and their rules stay.
pub fn catch_up<W: Watcher>(watchers: &mut Vec<W>, world: &World) -> Result<(), AllocError>
    ensures count { OnOk result (length watchers.new.items ≡ length watchers.old.items) }
    ensures caught { OnOk result ((i : ℕ) (old new : W)
        → slice_get watchers.old.items i ≡ Some old → slice_get watchers.new.items i ≡ Some new
        → HasCaughtUp world.now (W.HasSeen old) (W.IsBehind old) (W.HasSeen new)
        (W.Breaks old) (W.Breaks new)) }
{
    for place in 0..watchers.len() {
        catch_one_up(&mut watchers[place], world)?;
    }
    Ok(())
}
