//! Which sessions are attached to which buffer.
ghost use Rattle.std.specs.Prelude.{◌≡◌, ℤ, [], not, IfOk, OnOk, OnErr};
ghost use Rattle.nv_subs.specs.Attachments.{AreRising, HasSessions, is_session_of, sessions_of, with_session, without_session, without_sessions};

use crate::table::{Table, add_at, clear_at, remove_at, remove_everywhere, sessions_at, tidy_at};
use std::alloc::{AllocError, Global};
use std::collections::BTreeMap;
use std::marker::Model;

/// Which sessions are attached to which buffer (Neovim help `nvim_buf_attach`). A buffer is found
/// by its handle in an ordered map, and its sessions stand in rising order.
#[derive(Drop)]
pub struct Subs {
    alloc: Global,
    table: Table,
}

impl Model for Subs {
    ghost use Rattle.nv_subs.specs.Attachments.{Attachments};

    ghost Value = { Attachments };

    ghost view = { λ s. s.table.entries };
}

impl Subs {
    /// Nobody is attached.
    pub fn new(alloc: Global) -> Subs
        ensures { result ≡ [] }
    {
        Subs {
            alloc,
            table: BTreeMap::new(alloc),
        }
    }

    /// What allocates.
    pub fn alloc(&self) -> Global {
        self.alloc
    }

    /// The sessions that are attached to a buffer, in rising order.
    pub fn of(&self, buffer: i64) -> &[u64]
        ensures value { result.now ≡ sessions_of self.now buffer }
        ensures rising { AreRising result.now }
    {
        sessions_at(&self.table, buffer)
    }

    /// Attaches a session to a buffer. `false` exactly where it was attached. Where memory is
    /// wanting nothing changes.
    pub fn attach(&mut self, session: u64, buffer: i64) -> Result<bool, AllocError>
        ensures ok { OnOk result (HasSessions self.old self.new buffer
            (with_session session (sessions_of self.old buffer))) }
        ensures added { IfOk result (λ added. added
            ≡ not (is_session_of (sessions_of self.old buffer) session)) }
        ensures err { OnErr result (self.new ≡ self.old) }
    {
        add_at(&mut self.table, self.alloc, session, buffer)
    }

    /// Detaches a session from a buffer. `false` exactly where it wasn't attached. It takes no
    /// memory.
    pub fn detach(&mut self, session: u64, buffer: i64) -> bool
        ensures value { HasSessions self.old self.new buffer
            (without_session session (sessions_of self.old buffer)) }
        ensures removed { result ≡ is_session_of (sessions_of self.old buffer) session }
    {
        let removed = remove_at(&mut self.table, session, buffer);
        tidy_at(&mut self.table, buffer);
        removed
    }

    /// A session is attached to no buffer any more, as when it is closed. It takes no memory.
    pub fn leave(&mut self, session: u64)
        ensures { (buffer : ℤ) → sessions_of self.new buffer
            ≡ without_session session (sessions_of self.old buffer) }
    {
        remove_everywhere(&mut self.table, session);
    }

    /// None of these sessions is attached to any buffer any more. It takes no memory.
    pub fn leave_all(&mut self, several: &[u64])
        ensures { (buffer : ℤ) → sessions_of self.new buffer
            ≡ without_sessions several.now (sessions_of self.old buffer) }
    {
        for session in several {
            self.leave(*session);
        }
    }

    /// Nobody is attached to a buffer any more, as when it is deleted. It takes no memory.
    pub fn gone(&mut self, buffer: i64)
        ensures { HasSessions self.old self.new buffer [] }
    {
        clear_at(&mut self.table, buffer);
    }
}
