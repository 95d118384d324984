//! What is seen of an editor as plain data, and the screen that it is drawn as.
#![tactic(auto)]

mod canvas;
mod cursor;
mod drawing;
mod held;
mod known;
mod laws;
mod laying;
mod patches;
mod same;
mod scene;
mod status;
mod steady;
mod text;

pub use cursor::{bytes_at, cursor_cell};
pub use drawing::{draw, draw_from, pane_grid};
pub use held::HeldScene;
pub use known::{KnownLines, NoLines, line_cells};
pub use laws::{drawing_laws, sound_scene_laws, worked_lines, worked_patches, worked_screens};
pub use laying::cut_cells;
pub use scene::{Bars, Pane, Patch, Scene, SceneLine, Spot};
pub use steady::steady_rows;
