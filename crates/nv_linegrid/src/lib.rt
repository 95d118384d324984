//! What a UI is told of its screen, what it then shows, and which events are due: the definitions
//! of linegrid (help: ui-linegrid), with the laws that join them. Its code is the events alone.
#![tactic(auto)]

mod event;
mod laws;

pub use event::{Redraw, Run, Runs};
pub use laws::{batch_laws, line_laws, scroll_laws, worked_batches};
