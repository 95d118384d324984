//! Histories of many sessions, as plain data.
//!
//! A world is an editor with its sessions; each event of a session comes to an outcome in it, and a
//! history is the list of the events that entered. What each session is told is a function of the
//! history alone, and so is what a client makes of it.
#![tactic(auto)]

mod laws;

pub use laws::{
    bytes_law, count_laws, due_laws, fold_law, mark_law, screen_law, settling_law, solo_law,
    ui_laws, worked_histories, worked_uis,
};
