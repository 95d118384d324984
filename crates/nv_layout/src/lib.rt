//! The layout of the windows of a tabpage: a tree of leaves, rows and columns,
//! and the rectangles that it gives to its windows.
#![tactic(auto)]

mod changes;
mod division;
pub mod laws;
mod nodes;
mod places;
mod placing;
mod sizes;

pub use nodes::{Axis, Leaf, Placed, Rect, Side, Tree, Trees};
pub use places::rect_of;
pub use placing::placed;
pub use sizes::{least, leaves, push_windows};
