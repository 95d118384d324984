//! The error that a call of the API answers.
use crate::bytes::Bytes;

/// An error of a call of the API (Neovim help `api`, `nvim_error_event`).
#[derive(Drop)]
pub struct ApiFault {
    /// 0 for Exception, 1 for Validation: the ids of `error_types` in the API's metadata
    /// (`api-metadata`).
    pub kind: u8,
    /// The number of the fault in this project's list of faults (own rule). It isn't sent to a
    /// client.
    pub code: u16,
    /// The message that the client is sent.
    pub words: Bytes,
}
