//! The watcher that counts replies.
ghost use Rattle.std.specs.Prelude.{◌≡◌, ◌+◌, ◌||◌, ℕ, not, nat_lt, [], map, slice_get, OnOk};
ghost use Rattle.nv_rpc.specs.MessageView.{sent_of};
ghost use Rattle.nv_core.specs.Contents.{plain_entries};
ghost use Rattle.nv_watch.specs.Counting.{HasReplyTooMany, is_reply, replies_among, requests_of_entry};
ghost use Rattle.nv_watch.specs.inside.Counts.{HasCounted, number_kept, one_for};

use crate::counts::{add, number};
use crate::reading::parts_of;
use crate::verdict::Verdict;
use crate::watcher::Watcher;
use nv_core::{Entry, Event};
use nv_rpc::{Frame, Message};
use nv_world::{Step, World};
use std::alloc::{AllocError, Global};

/// Says no where a session has taken more replies than it made requests, or was sent what isn't
/// whole messages and redraw notifications.
#[derive(Drop)]
pub struct Counter {
    alloc: Global,
    requests: Vec<u64>,
    replies: Vec<u64>,
    verdict: Verdict,
}

fn is_reply(message: &Message) -> bool
    ensures { result ≡ is_reply (sent_of message.now) }
{
    matches!(message, Message::Reply { .. })
}

// How many of the messages are replies.
fn count_replies(messages: &[Message]) -> usize
    ensures { result ≡ replies_among (map sent_of messages.now) }
{
    let mut count = 0;
    for message in messages {
        if is_reply(message) {
            count += 1;
        }
    }
    count
}

// The session whose request the entry of a number is.
fn requester(entries: &[Entry], at: u64) -> Option<u64>
    ensures { (s : ℕ) → requests_of_entry s (slice_get (plain_entries entries.now) at)
        ≡ one_for result s }
{
    match entries.get(at as usize) {
        Some(
            Entry {
                event: Event::Request {
                    session,
                    frame: Frame::Request { .. },
                },
                ..
            },
        ) => Some(*session),
        _ => None,
    }
}

// Counts a request of a session, where there is one.
fn count_request(requests: &mut Vec<u64>, session: Option<u64>) -> Result<(), AllocError>
    ensures { OnOk result ((s : ℕ) → number_kept requests.new.items s
        ≡ one_for session s + number_kept requests.old.items s) }
{
    match session {
        Some(session) => add(requests, session, 1),
        None => Ok(()),
    }
}

// Whether the rule is broken, where a session made so many requests and took so many replies.
fn is_broken(is_whole: bool, made: u64, taken: u64) -> bool
    ensures { result ≡ (not is_whole || nat_lt made taken) }
{
    !is_whole || made < taken
}

impl Counter {
    /// A counter that has seen nothing.
    pub fn new(alloc: Global) -> Counter
        ensures { HasCounted result [] }
    {
        Counter {
            alloc,
            requests: Vec::new(alloc),
            replies: Vec::new(alloc),
            verdict: Verdict::Yes,
        }
    }
}

impl Watcher for Counter {
    ghost HasSeen = { HasCounted };

    ghost Breaks = { λ c. HasReplyTooMany };

    ghost IsBehind = { HasCounted };

    fn see(&mut self, world: &World, step: &Step) -> Result<(), AllocError> {
        let parts = parts_of(self.alloc, step.sent.as_slice())?;
        let replies = count_replies(parts.messages.as_slice()) as u64;
        add(&mut self.replies, step.session, replies)?;
        let asks = requester(world.history().entries(), step.at);
        count_request(&mut self.requests, asks)?;
        let made = number(self.requests.as_slice(), step.session);
        let taken = number(self.replies.as_slice(), step.session);
        let broken = is_broken(parts.is_whole, made, taken);
        self.verdict = self.verdict.with(step.at, broken);
        Ok(())
    }

    fn glance(&mut self, world: &World, step: &Step) -> Result<(), AllocError> {
        self.see(world, step)?;
        Ok(())
    }

    fn catch_up(&mut self, _world: &World) -> Result<(), AllocError> {
        Ok(())
    }

    fn verdict(&self) -> Verdict {
        self.verdict
    }
}
