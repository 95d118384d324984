//! The changes of a text as a tree: what was undone is kept, and each change can be reached again
//! (help: undo-tree).
#![tactic(auto)]

mod laws;
mod legs;
mod tree;

pub use laws::{path_laws, run_laws, tree_laws};
pub use legs::Leg;
pub use tree::UndoTree;
