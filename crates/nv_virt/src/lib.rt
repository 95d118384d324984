//! Virtual texts in windows: which cells each shows, and where they are (help:
//! nvim_buf_set_extmark(), virt_text).
#![tactic(auto)]

mod cells;
mod laws;
mod laying;
mod places;

pub use laws::worked_texts;
pub use laying::{VirtText, push_texts};
