//! The ordered set of the extmarks of a buffer, which move with each splice of its text (help:
//! api-extended-marks).
#![tactic(auto)]

mod bands;
mod chunk;
mod extmark;
mod index;
mod keeping;
mod laws;
mod list;
mod mark_set;
mod moving;
mod parts;
mod query;
mod record;
mod steps;
mod store;

pub use extmark::{Far, Mark, Paint};
pub use keeping::{Kept, Struck};
pub use laws::{bound_laws, cost_laws, order_laws};
pub use mark_set::MarkSet;
pub use nv_places::{Extent, Pos};
pub use query::Query;
pub use steps::Steps;
