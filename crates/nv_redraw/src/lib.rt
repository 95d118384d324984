//! Redraw events as values of MessagePack and as bytes, and the screen of a client that takes them
//! (help: ui-linegrid).
#![tactic(auto)]

mod heads;
mod laws;
mod lines;
mod naming;
mod reading;
mod sameness;
mod screen;
mod shown;
mod spelling;
mod values;

pub use laws::{batches_differ, worked_values};
pub use reading::batch_of;
pub use screen::Screen;
pub use spelling::write_batch;
pub use values::batch_value;
