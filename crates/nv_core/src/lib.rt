//! What takes the events of sessions: its calls, their answers, and the history that it keeps.
#![tactic(auto)]

mod calls;
mod core_;
mod effect;
mod entry;
mod history;
mod measuring;
mod shared;
mod start;

pub use calls::{Taken, Unasked, Unclosed, Unopened, Untaken};
pub use core_::Core;
pub use effect::{Batch, Cause, Effect, Stop};
pub use entry::{Entry, Event};
pub use history::History;
pub use measuring::{SizedLines, size_of_message, size_of_messages};
pub use shared::{LinesEvent, SharedMessage, put_messages, put_shared_front};
pub use start::Start;
