//! The law that an editor has a scene.
#![tactic(auto)]

mod laws;

pub use laws::scenes_exist;
