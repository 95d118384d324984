// A lane, the passes by which it comes in, and how it ended.
ghost use Rattle.std.specs.Prelude.{◌≡◌};

use nv_core::Core;
use nv_turn::Pass;

/// How a lane ended.
#[derive(Clone, Copy, Debug)]
pub enum LaneEnd {
    /// No connection is to come.
    Done,
    /// Its accept failed.
    Failed,
    /// Its last connection ended with the world.
    Quit,
    /// Its last connection ended for want of memory, and memory was wanting to the world.
    Spent,
}

/// A lane that is to be served.
#[derive(Drop)]
pub struct Job<C: Core, L> {
    pub lane: L,
    // Its two passes, while it is served.
    pub(crate) passes: Option<(Pass<C>, Pass<C>)>,
    // How it ended, once it was served.
    pub(crate) end: Option<LaneEnd>,
}

impl<C: Core, L> Job<C, L> {
    /// A lane that isn't served yet.
    pub fn new(lane: L) -> Job<C, L>
        ensures { result.lane ≡ lane }
    {
        Job {
            lane,
            passes: None,
            end: None,
        }
    }
}
