//! The messages of MessagePack-RPC: what a client sends, and what the server answers and tells.
#![tactic(auto)]

mod arriving;
mod events;
mod frame;
mod laws;
mod message;
mod names;
mod outcome;
mod parts;
mod receiving;
mod sending;
mod shortest;
mod spelling;

pub use arriving::decode_call;
pub use events::put_lines_event;
pub use frame::{Frame, call_of};
pub use laws::{read_is_told, told_is_read};
pub use message::Message;
pub use names::Names;
pub use outcome::{AtomicResults, CallResult, Outcome, Triple};
pub use receiving::message_of;
pub use sending::{into_value, value_of};
pub use spelling::{put_front, put_message};
