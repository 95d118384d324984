//! Places in a text: flat text, rows and columns, offsets, and how a splice moves them.
//!
//! Every layer above the text cites these definitions. A text is a list of lines; its flat text has
//! the byte 10 after each line. An offset counts bytes of the flat text from 0. A place is a row
//! and a column, both from 0; the column counts bytes (help: api-indexing).
#![tactic(auto)]

mod laws;
mod place;

pub use laws::{flat_laws, move_laws, offset_laws, place_laws};
pub use place::{Extent, Pos};
