//! A client that follows a buffer.
ghost use Rattle.std.specs.Prelude.{◌≡◌, is_some, unwrap_or, IfOk, OnOk, OnErr, option_copied};
ghost use Rattle.nv_rpc.specs.MessageView.{sent_of};
ghost use Rattle.nv_subs.specs.Mirrors.{absent, mirror_after, mirror_lines, mirror_tick};

use crate::state::State;
use nv_lines::LineList;
use nv_rpc::Message;
use std::alloc::AllocError;
use std::marker::Model;

/// What a client library makes of the events of one buffer (Neovim help `api-buffer-updates`): it
/// knows nothing of the buffer, or its changedtick alone, or its lines at a changedtick.
#[derive(Drop)]
pub struct Follower {
    buffer: i64,
    state: State,
}

impl Model for Follower {
    ghost use Rattle.nv_subs.specs.Mirrors.{FollowedBuffer};
    ghost use Rattle.nv_subs.specs.inside.States.{mirror_of_state};

    ghost Value = { FollowedBuffer };

    ghost view = { λ f. record { buffer = f.buffer; mirror = mirror_of_state f.state } };
}

impl Follower {
    /// A follower of the buffer of this handle, which knows nothing of it.
    pub fn new(buffer: i64) -> Follower
        ensures { result ≡ record { buffer = buffer; mirror = absent } }
    {
        Follower {
            buffer,
            state: State::Absent,
        }
    }

    /// Takes a message. `false` exactly where it doesn't fit, and then the follower stays as it
    /// is; so it does where memory is wanting.
    pub fn take(&mut self, message: &Message) -> Result<bool, AllocError>
        ensures fits { IfOk result (λ fits. fits
            ≡ is_some (mirror_after self.old.buffer self.old.mirror (sent_of message.now))) }
        ensures ok { OnOk result (self.new.mirror ≡ unwrap_or
            (mirror_after self.old.buffer self.old.mirror (sent_of message.now))
            self.old.mirror) }
        ensures buffer { self.new.buffer ≡ self.old.buffer }
        ensures err { OnErr result (self.new ≡ self.old) }
    {
        match message {
            Message::Lines {
                buffer,
                tick,
                first,
                last,
                lines,
            } if *buffer == self.buffer => self.state.take_lines(*tick, *first, *last, lines),
            Message::Tick { buffer, tick } if *buffer == self.buffer => {
                self.state = State::Ticking(*tick);
                Ok(true)
            }
            Message::Detach { buffer } if *buffer == self.buffer => {
                self.state = State::Absent;
                Ok(true)
            }
            _ => Ok(true),
        }
    }

    /// The lines of the buffer; `None` exactly where the follower doesn't know them.
    pub fn text(&self) -> Option<&LineList>
        ensures { option_copied result ≡ mirror_lines self.now.mirror }
    {
        match &self.state {
            State::Holding(lines, _) => Some(lines),
            State::Absent | State::Ticking(_) => None,
        }
    }

    /// The changedtick of the buffer; `None` exactly where the follower knows nothing of it.
    pub fn tick(&self) -> Option<i64>
        ensures { result ≡ mirror_tick self.now.mirror }
    {
        match &self.state {
            State::Absent => None,
            State::Ticking(tick) | State::Holding(_, tick) => Some(*tick),
        }
    }
}
