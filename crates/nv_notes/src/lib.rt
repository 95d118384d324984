//! Virtual texts that go with extmarks: what each is made of, and all of an editor's by their
//! buffers and the numbers of settings (help: nvim_buf_set_extmark(), virt_text).
#![tactic(auto)]

mod note;
mod notes;

pub use note::{At, Chunk, Note};
pub use notes::Notes;
