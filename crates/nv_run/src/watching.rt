//! The watchers that a replay is shown to.

use nv_watch::{AnyWatcher, BufferFold, Counter, GridFold, MarkCheck};
use std::alloc::{AllocError, Global};

/// Each watcher once, which has seen nothing, by their numbers: of buffers, grids, marks, replies.
pub fn all_watchers(alloc: Global) -> Result<Vec<AnyWatcher>, AllocError> {
    let buffers = AnyWatcher::Buffers(BufferFold::new(alloc));
    let grids = AnyWatcher::Grids(GridFold::new(alloc));
    let marks = AnyWatcher::Marks(MarkCheck::new(alloc));
    let replies = AnyWatcher::Replies(Counter::new(alloc));
    Ok(vec![in alloc; buffers, grids, marks, replies]?)
}
