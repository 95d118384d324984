//! How text looks: highlight groups with their names, ids and links, attributes and how they are
//! laid over one another (help: highlight-groups, nvim_set_hl()), and cells, rows and screens of
//! them (help: ui-linegrid).
#![tactic(auto)]

mod attribute;
mod cell;
mod celltext;
mod colours;
mod grid;
mod laws;
mod linking;
mod stored;
mod table;

pub use attribute::{Attr, combine, is_same_attr};
pub use cell::{Cell, Row};
pub use celltext::CellText;
pub use colours::Colours;
pub use grid::Grid;
pub use laws::{combine_laws, sameness_laws, screen_laws};
pub use linking::Group;
pub use table::Groups;
