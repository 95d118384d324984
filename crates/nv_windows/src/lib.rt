//! Windows and tabpages: their trees, cursors and first rows, and the size of the screen.
#![tactic(auto)]

mod laws;
mod parts;
mod seats;
mod slots;
mod tabs;
mod window;
mod windows;

pub use laws::{handle_laws, soundness_laws, view_laws};
pub use window::{Opened, Tabpage, Window, Wishes};
pub use windows::Windows;
