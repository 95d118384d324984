//! The values of MessagePack, as plain data: what requests, replies and events are made of.
#![tactic(auto)]

mod block;
mod bytes;
mod fault;
mod length;
mod value;

pub use bytes::Bytes;
pub use fault::ApiFault;
pub use length::spelled_length;
pub use value::{Fields, Items, Pair, Value};
