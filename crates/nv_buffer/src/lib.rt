//! A buffer: its lines, its changedtick, its name and its options, the two ways to change its text,
//! its marks, which each edit moves, and its changes, which can be undone and made again and put
//! marks back where they stood.
//!
//! Each edit of the text is a splice of its flat text, in which the byte 10 follows each line. It
//! is told by the lines event (help: nvim_buf_lines_event) in rows of the buffer before, and by the
//! bytes that it replaced. The edits between two calls of `seal` are one change, and the changes
//! are a tree (help: undo-tree).
#![tactic(auto)]

mod buffer;
mod edit;
mod fitting;
mod joining;
mod kept_marks;
mod laws;
mod patch;
mod reaching;
mod step;
mod undoing;

pub use buffer::{Buffer, Spliced};
pub use edit::{ChangePart, Edit};
pub use fitting::{is_in_line, is_narrow};
pub use laws::{change_laws, edit_laws};
pub use nv_lines::{Line, LineList, Lines};
pub use nv_marks::{Far, Mark, MarkSet, Paint, Query};
pub use nv_places::{Extent, Pos};
