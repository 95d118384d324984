//! The buffers that have sessions, by their handles.
ghost use Rattle.std.specs.Prelude.{◌≡◌, ℤ, ◌∷◌, [], not, IfOk, OnOk, OnErr};
ghost use Rattle.nv_subs.specs.Attachments.{AreRising, HasSessions, is_session_of, sessions_of, with_session, without_session};

use crate::sessions::Sessions;
use std::alloc::{AllocError, Global};
use std::collections::BTreeMap;

/// The sessions of each buffer that has some.
pub type Table = BTreeMap<i64, Sessions>;

/// The sessions of a buffer.
pub fn sessions_at(table: &Table, buffer: i64) -> &[u64]
    ensures value { result.now ≡ sessions_of table.now.entries buffer }
    ensures rising { AreRising result.now }
{
    match table.get(&buffer) {
        Some(sessions) => sessions.as_slice(),
        None => &[],
    }
}

// Gives a buffer one session.
fn put_one(table: &mut Table, alloc: Global, session: u64, buffer: i64) -> Result<(), AllocError>
    ensures ok { OnOk result (HasSessions table.old.entries table.new.entries buffer
        (session ∷ [])) }
    ensures err { OnErr result (table.new.entries ≡ table.old.entries) }
{
    let sessions = Sessions::of_one(alloc, session)?;
    table.insert(buffer, sessions)?;
    Ok(())
}

/// Adds a session to a buffer. `false` exactly where it was there.
pub fn add_at(
    table: &mut Table,
    alloc: Global,
    session: u64,
    buffer: i64,
) -> Result<bool, AllocError>
    ensures ok { OnOk result (HasSessions table.old.entries table.new.entries buffer
        (with_session session (sessions_of table.old.entries buffer))) }
    ensures added { IfOk result (λ added. added
        ≡ not (is_session_of (sessions_of table.old.entries buffer) session)) }
    ensures err { OnErr result (table.new.entries ≡ table.old.entries) }
{
    match table.get_mut(&buffer) {
        Some(sessions) => {
            let added = sessions.add(session)?;
            Ok(added)
        }
        None => {
            put_one(table, alloc, session, buffer)?;
            Ok(true)
        }
    }
}

/// Takes a session out of a buffer. `false` exactly where it wasn't there.
pub fn remove_at(table: &mut Table, session: u64, buffer: i64) -> bool
    ensures value { HasSessions table.old.entries table.new.entries buffer
        (without_session session (sessions_of table.old.entries buffer)) }
    ensures removed { result ≡ is_session_of (sessions_of table.old.entries buffer) session }
{
    match table.get_mut(&buffer) {
        Some(sessions) => sessions.remove(session),
        None => false,
    }
}

/// Takes all sessions of a buffer out.
pub fn clear_at(table: &mut Table, buffer: i64)
    ensures { HasSessions table.old.entries table.new.entries buffer [] }
{
    table.remove(&buffer);
}

/// Lets a buffer go that has no session.
pub fn tidy_at(table: &mut Table, buffer: i64)
    ensures { (b : ℤ) → sessions_of table.new.entries b ≡ sessions_of table.old.entries b }
{
    if sessions_at(table, buffer).is_empty() {
        clear_at(table, buffer);
    }
}

/// Takes a session out of all buffers.
pub fn remove_everywhere(table: &mut Table, session: u64)
    ensures { (b : ℤ) → sessions_of table.new.entries b
        ≡ without_session session (sessions_of table.old.entries b) }
{
    table.retain(|_, sessions| {
        sessions.remove(session);
        !sessions.is_empty()
    });
}
