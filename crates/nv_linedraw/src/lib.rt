//! The cells that a line is drawn in: its pieces with their attributes, laid in rows of a width.
#![tactic(auto)]

mod flow;
mod laws;
mod lines;
mod looks;
mod one_row;
mod places;
mod spans;

pub use laws::row_laws;
pub use lines::{cells, first_cells, first_rows, is_plain, rows};
pub use looks::{Looks, Span};
pub use one_row::cells_in_one_row;
pub use places::{line_end, place_of_byte};
