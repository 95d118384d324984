//! Whole calls: which row a method has, and what calls one after another come to.
#![tactic(auto)]

mod batch;
mod calling;
mod done;
mod laws;
mod limits;

pub use calling::call;
pub use done::Done;
pub use laws::{
    atomic_laws, call_laws, table_laws, telling_laws, worked_facts, worked_marks, worked_runs,
    worked_windows,
};
pub use limits::usual_limits;
