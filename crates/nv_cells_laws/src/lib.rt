//! Laws of the cells that a line is drawn in.
#![tactic(auto)]

mod laws;

pub use laws::{half_law, piece_laws, place_laws, tab_laws};
