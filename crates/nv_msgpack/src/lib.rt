//! MessagePack, both ways (MessagePack specification).
#![tactic(auto)]

mod decoded;
mod first_bytes;
mod handle_reader;
mod handles;
mod heads;
mod integer;
mod laws;
mod numbers;
mod pieces;
mod reader;
mod stop;
mod writer;

pub use decoded::{Bounds, Decoded};
pub use first_bytes::{FirstByte, Length, Width, first_byte};
pub use handle_reader::handle_of;
pub use handles::handle;
pub use heads::{put_list_head, put_text_head, put_unsigned};
pub use integer::put_integer;
pub use laws::{
    encoded_is_read, shortest_is_least, shortest_is_spelling, spelled_has_spelling,
    spellings_are_apart, streams_have_one_cut,
};
pub use pieces::{list_at, number_at, text_at};
pub use reader::decode;
pub use writer::encode;
