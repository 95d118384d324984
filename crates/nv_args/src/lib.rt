//! The arguments of the API's methods, by the types of their parameters, and the faults that a call
//! is refused with (Neovim help `api-types`).
#![tactic(auto)]

mod args;
mod chunks;
mod dicts;
mod faults;
mod getting;
mod indexing;
mod kinds;
mod methods;
mod reading;
mod rules;
mod signatures;

pub use args::{Args, NamedCall, bytes_of, call_in, read};
pub use chunks::{GivenChunk, chunk_in};
pub use dicts::{
    is_group_name, map_fault, missing_key, naming_fault, unknown_key, value_of, wrong_value,
    wrong_value_of,
};
pub use faults::{
    Fail, already_attached, invalid_key, invalid_value, last_one, limit_reached, name_in_use,
    newline_inside, no_buffer, no_id_left, no_room, no_tabpage, no_window, not_attached,
    not_modifiable, out_of_bounds, start_after_end, unknown_method, unknown_name, unsaved_changes,
    wrong_count, wrong_type,
};
pub use getting::{
    buffer_at, bytes_at, colour_at, flag_or, integer_at, integer_between, integer_from, integer_or,
    tabpage_at, terminal_colour_at, window_at,
};
pub use indexing::{is_outside, leaves_text, row_of_index, text_col, text_row};
pub use kinds::Kind;
pub use methods::{BufferMethod, MarkMethod, Method, UiMethod, WindowMethod};
pub use reading::{integer_of, truth_of};
pub use rules::{Rule, Takes};
pub use signatures::{Parameter, Signature, method_of, told_signatures};
