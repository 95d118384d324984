//! What an editor shows: each window settled on its cursor, and the scene of the windows of the
//! current tabpage.
#![tactic(auto)]

mod laws;
mod panes;
mod parting;
mod scenes;
mod settling;
mod spans;

pub use laws::{scene_laws, settling_laws};
pub use panes::pane_of;
pub use parting::separators;
pub use scenes::scene_of;
pub use settling::{is_settled, settle};
