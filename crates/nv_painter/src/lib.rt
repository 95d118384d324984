//! What a UI is told so that it shows a scene: a painter keeps what it told, and tells the
//! difference; and it keeps the cells of the lines that it drew last (help: ui-linegrid).
#![tactic(auto)]

mod ids;
mod kept;
mod key;
mod laws;
mod lent;
mod lines;
mod painter;
mod plain;
mod scrolling;
mod shown;
mod sketch;
mod speaking;
mod told;
mod view;

pub use laws::picture_laws;
pub use painter::Painter;
pub use speaking::Batch;
