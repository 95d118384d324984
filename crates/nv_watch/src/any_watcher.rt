//! A watcher, whichever it is.
ghost use Rattle.std.specs.Prelude.{◌≡◌, ◌↔◌, ◌++◌, ◌∷◌, [], List, OnOk};
ghost use Rattle.nv_watch.specs.Verdicts.{IsVerdict, Sight, sight};
ghost use Rattle.nv_watch.specs.Watchers.{rule_of};
ghost use Rattle.nv_watch.specs.inside.Watched.{HasWatched, IsAnyBehind};

use crate::buffer_fold::BufferFold;
use crate::counter::Counter;
use crate::grid_fold::GridFold;
use crate::mark_check::MarkCheck;
use crate::verdict::Verdict;
use crate::watcher::Watcher;
use nv_world::{Step, World};
use std::alloc::AllocError;

/// A watcher of this crate, so that one list may hold all.
#[derive(Drop)]
pub enum AnyWatcher {
    Buffers(BufferFold),
    Grids(GridFold),
    Marks(MarkCheck),
    Replies(Counter),
}

impl Watcher for AnyWatcher {
    ghost HasSeen = { HasWatched };

    ghost Breaks = { rule_of };

    ghost IsBehind = { IsAnyBehind };

    fn see(&mut self, world: &World, step: &Step) -> Result<(), AllocError> {
        match self {
            AnyWatcher::Buffers(fold) => fold.see(world, step),
            AnyWatcher::Grids(fold) => fold.see(world, step),
            AnyWatcher::Marks(check) => check.see(world, step),
            AnyWatcher::Replies(counter) => counter.see(world, step),
        }
    }

    fn glance(&mut self, world: &World, step: &Step) -> Result<(), AllocError> {
        match self {
            AnyWatcher::Buffers(fold) => fold.glance(world, step),
            AnyWatcher::Grids(fold) => fold.glance(world, step),
            AnyWatcher::Marks(check) => check.glance(world, step),
            AnyWatcher::Replies(counter) => counter.glance(world, step),
        }
    }

    fn catch_up(&mut self, world: &World) -> Result<(), AllocError> {
        match self {
            AnyWatcher::Buffers(fold) => fold.catch_up(world),
            AnyWatcher::Grids(fold) => fold.catch_up(world),
            AnyWatcher::Marks(check) => check.catch_up(world),
            AnyWatcher::Replies(counter) => counter.catch_up(world),
        }
    }

    fn verdict(&self) -> Verdict {
        match self {
            AnyWatcher::Buffers(fold) => fold.verdict(),
            AnyWatcher::Grids(fold) => fold.verdict(),
            AnyWatcher::Marks(check) => check.verdict(),
            AnyWatcher::Replies(counter) => counter.verdict(),
        }
    }
}
