//! Replies and events: what the server sends.
use crate::outcome::Outcome;
use nv_value::{ApiFault, Items};

/// The type of a buffer's handle among the extension types (Neovim help `api-types`).
pub const BUFFER: i8 = 0;

/// A message that the server sends.
#[derive(Drop)]
pub enum Message {
    /// The reply to a request (MessagePack-RPC specification, "Response Message"). A reply with a
    /// fault sends no result.
    Reply {
        msgid: u32,
        fault: Option<ApiFault>,
        result: Outcome,
    },
    /// Lines of a buffer have changed (Neovim help `nvim_buf_lines_event`).
    Lines {
        buffer: i64,
        /// The buffer's changedtick after the change.
        tick: i64,
        /// The first line that was replaced, counted from 0.
        first: i64,
        /// The line after the last one that was replaced; -1 where the lines are all those of the
        /// buffer, sent for the first time.
        last: i64,
        /// The lines that stand there now, each a string.
        lines: Items,
    },
    /// A buffer's changedtick without its lines (Neovim help `nvim_buf_changedtick_event`).
    Tick {
        buffer: i64,
        tick: i64,
    },
    /// A buffer sends no more events (Neovim help `nvim_buf_detach_event`).
    Detach {
        buffer: i64,
    },
    /// A notification has failed (Neovim help `nvim_error_event`).
    Fault {
        fault: ApiFault,
    },
}
