//! What several sessions are told of a buffer, shared by all of them.
ghost use Rattle.std.specs.Prelude.{◌≡◌, ◌<◌, ◌^◌, pos, nat_abs, IfOk};
ghost use Rattle.std.specs.Arc.{arc_value};
ghost use Rattle.nv_value.specs.Content.{count};
ghost use Rattle.nv_msgpack.specs.Shortest.{HaveSpellings};
ghost use Rattle.nv_rpc.specs.Messages.{IsSendable};
ghost use Rattle.nv_args.specs.Texts.{strings};
ghost use Rattle.nv_history.specs.Sessions.{first_message, splice_message};
ghost use Rattle.nv_core.specs.Contents.{sent_of_lines, sent_of_shared};
ghost use Rattle.nv_world.specs.inside.Notices.{sent_of_notice};

use nv_buffer::{LineList, Spliced};
use nv_core::{LinesEvent, SharedMessage, SizedLines};
use nv_lines::Excerpt;
use nv_rpc::Message;
use std::alloc::{AllocError, Global};
use std::sync::Arc;

/// What several sessions are told of a buffer: lines, or that it sends no more events.
#[derive(Drop)]
pub enum Notice {
    Lines(Arc<LinesEvent, Global>),
    Detach(i64),
}

impl Notice {
    /// The message for one more session.
    pub fn message(&self) -> Result<SharedMessage, AllocError>
        ensures { IfOk result (λ message. sent_of_shared message ≡ sent_of_notice self.now) }
    {
        match self {
            Notice::Lines(event) => Ok(SharedMessage::Lines(Arc::try_clone(event)?)),
            Notice::Detach(buffer) => Ok(SharedMessage::Own(Message::Detach { buffer: *buffer })),
        }
    }
}

// A lines event that all who are told of it share.
fn shared_lines(alloc: Global, event: LinesEvent) -> Result<Arc<LinesEvent, Global>, AllocError>
    requires { (count (strings event.lines) < 2 ^ 32) × HaveSpellings (strings event.lines) }
    ensures lines { IfOk result (λ shared. sent_of_lines (arc_value shared) ≡ sent_of_lines event) }
    ensures sendable { IfOk result (λ shared. IsSendable (sent_of_lines (arc_value shared))) }
{
    Ok(Arc::new(alloc, event)?)
}

// The lines of a list.
fn lines_of(alloc: Global, list: LineList) -> Result<Excerpt, AllocError>
    ensures { IfOk result (λ lines. lines ≡ list) }
{
    let mut lines = Excerpt::with_room(alloc, 1)?;
    lines.push(list)?;
    Ok(lines)
}

/// What is told of a splice of a buffer.
pub fn splice_notice(alloc: Global, buffer: i64, spliced: Spliced) -> Result<Notice, AllocError>
    ensures lines { IfOk result (λ notice. sent_of_notice notice
        ≡ splice_message buffer spliced) }
    ensures sendable { IfOk result (λ notice. IsSendable (sent_of_notice notice)) }
{
    let Spliced { tick, edit } = spliced;
    let event = LinesEvent {
        buffer,
        tick,
        first: i64::from(edit.first),
        last: i64::from(edit.last),
        lines: SizedLines::new(lines_of(alloc, edit.lines)?)?,
    };
    Ok(Notice::Lines(shared_lines(alloc, event)?))
}

// A changedtick as it is told: it is at least 0.
fn told_tick(tick: i64) -> Result<i64, AllocError>
    ensures { IfOk result (λ told. told ≡ pos (nat_abs tick)) }
{
    match i64::try_from(tick.unsigned_abs()) {
        Ok(tick) => Ok(tick),
        Err(_) => Err(AllocError),
    }
}

/// What a session is told first of a buffer: all its lines, where they are sent, or its
/// changedtick.
pub fn first_shared(
    alloc: Global,
    buffer: i64,
    tick: i64,
    whole: Option<Excerpt>,
) -> Result<SharedMessage, AllocError>
    ensures first { IfOk result (λ message. sent_of_shared message
        ≡ first_message buffer (nat_abs tick) whole) }
    ensures sendable { IfOk result (λ message. IsSendable (sent_of_shared message)) }
{
    let tick = told_tick(tick)?;
    match whole {
        None => Ok(SharedMessage::Own(Message::Tick { buffer, tick })),
        Some(lines) => {
            let event = LinesEvent {
                buffer,
                tick,
                first: 0,
                last: -1,
                lines: SizedLines::new(lines)?,
            };
            Ok(SharedMessage::Lines(shared_lines(alloc, event)?))
        }
    }
}
