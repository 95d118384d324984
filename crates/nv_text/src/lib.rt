//! The pieces that a line is drawn in and their widths in cells, and not the text of a buffer.
//!
//! A piece is a cluster, a control or an escape. The text itself, as lines, is `nv_lines`'.
#![tactic(auto)]

mod cutting;
mod kinds;
mod laws;
mod measuring;
mod piece;

pub use cutting::{first_pieces, pieces};
pub use laws::cover_laws;
pub use measuring::strwidth;
pub use piece::{Kind, Piece};
