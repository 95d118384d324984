//! Mirrors of buffers, one for each session and buffer that it was told of.
ghost use Rattle.std.specs.Prelude.{◌≡◌, ◌&&◌, ℕ, ℤ, List, Option, Some, is_some, unwrap_or, map, MatchOption, IfOk, OnOk};
ghost use Rattle.nv_rpc.specs.MessageView.{sent_of};
ghost use Rattle.nv_subs.specs.Mirrors.{absent, mirror_after};
ghost use Rattle.nv_watch.specs.Folds.{does_fit, do_fit};
ghost use Rattle.nv_watch.specs.inside.Mirroring.{AreNotTwice, is_of, mirror_in, mirror_for, mirrors_for, buffer_of, HasNone, IsFirstOf};
ghost use Rattle.nv_watch.specs.inside.Sharing.{AllShare, SharesIf, Texts, ends_behind, ends_put, no_ends};

use crate::mirror::{Ends, Followed, Owner};
use crate::touching::{lesser_ends, no_ends};
use nv_rpc::Message;
use nv_subs::Follower;
use std::alloc::AllocError;

fn is_of(followed: &Followed, owner: Owner) -> bool
    ensures { result ≡ is_of owner.session owner.buffer followed.now }
{
    followed.session == owner.session && followed.buffer == owner.buffer
}

// The place of the mirror of a session and a buffer.
fn place_of(all: &[Followed], owner: Owner) -> Option<usize>
    ensures { MatchOption result (HasNone all.now owner.session owner.buffer)
        (λ place. IsFirstOf all.now owner.session owner.buffer place) }
{
    for place in 0..all.len() {
        if is_of(&all[place], owner) {
            return Some(place);
        }
    }
    None
}

// The buffer that a message is about.
fn buffer_of(message: &Message) -> Option<i64>
    ensures { result ≡ buffer_of (sent_of message.now) }
{
    match message {
        Message::Lines { buffer, .. } => Some(*buffer),
        Message::Tick { buffer, .. } => Some(*buffer),
        Message::Detach { buffer } => Some(*buffer),
        Message::Reply { .. } => None,
        Message::Fault { .. } => None,
    }
}

// A mirror that knows nothing of its buffer.
fn fresh(owner: Owner) -> Followed
    ensures session { result.session ≡ owner.session }
    ensures buffer { result.buffer ≡ owner.buffer }
    ensures mirror { result.follower.mirror ≡ absent }
    ensures ends { result.ends ≡ no_ends }
{
    let follower = Follower::new(owner.buffer);
    Followed {
        session: owner.session,
        buffer: owner.buffer,
        follower,
        ends: no_ends(),
    }
}

// Puts a mirror that knows nothing of its buffer behind the others.
fn add(all: &mut Vec<Followed>, owner: Owner) -> Result<usize, AllocError>
    requires { HasNone all.old.items owner.session owner.buffer }
    ensures place { IfOk result
        (λ place. IsFirstOf all.new.items owner.session owner.buffer place) }
    ensures same { OnOk result ((s : ℕ) (n : ℤ) → mirror_in all.new.items s n
        ≡ mirror_in all.old.items s n) }
    ensures apart { OnOk result (AreNotTwice all.old.items → AreNotTwice all.new.items) }
    ensures shares { OnOk result ((texts : Texts) → AllShare texts all.old.items
        → AllShare texts all.new.items) }
{
    let place = all.len();
    all.push(fresh(owner))?;
    Ok(place)
}

// The place of the mirror of a session and a buffer, which is made where there is none.
fn place_for(all: &mut Vec<Followed>, owner: Owner) -> Result<usize, AllocError>
    ensures place { IfOk result
        (λ place. IsFirstOf all.new.items owner.session owner.buffer place) }
    ensures same { OnOk result ((s : ℕ) (n : ℤ) → mirror_in all.new.items s n
        ≡ mirror_in all.old.items s n) }
    ensures apart { OnOk result (AreNotTwice all.old.items → AreNotTwice all.new.items) }
    ensures shares { OnOk result ((texts : Texts) → AllShare texts all.old.items
        → AllShare texts all.new.items) }
{
    match place_of(all.as_slice(), owner) {
        Some(place) => Ok(place),
        None => add(all, owner),
    }
}

// The rows that stay where others stand in place of those from one up to before another.
fn ends_put(ends: Ends, count: usize, first: i64, last: i64) -> Ends
    ensures { result ≡ ends_put ends count first last }
{
    if first < 0 || last < 0 {
        return no_ends();
    }
    let front = first as usize;
    let back = count.saturating_sub(last as usize);
    lesser_ends(ends, Ends { front, back })
}

// The rows of a mirror that a message leaves.
fn ends_behind(ends: Ends, follower: &Follower, message: &Message) -> Ends
    ensures { result ≡ ends_behind ends follower.now.mirror (sent_of message.now) }
{
    let Message::Lines { first, last, .. } = message else {
        return ends;
    };
    match follower.text() {
        Some(lines) => ends_put(ends, lines.len(), *first, *last),
        None => no_ends(),
    }
}

// Lets a mirror take a message.
fn take_one(followed: &mut Followed, message: &Message) -> Result<bool, AllocError>
    ensures fits { IfOk result (λ fits. fits ≡ is_some
        (mirror_after followed.old.follower.buffer followed.old.follower.mirror
        (sent_of message.now))) }
    ensures mirror { OnOk result (followed.new.follower.mirror ≡ unwrap_or
        (mirror_after followed.old.follower.buffer followed.old.follower.mirror
        (sent_of message.now)) followed.old.follower.mirror) }
    ensures session { followed.new.session ≡ followed.old.session }
    ensures buffer { followed.new.buffer ≡ followed.old.buffer }
    ensures shares { OnOk result ((text : Option (List (List ℕ)))
        → SharesIf followed.old text → SharesIf followed.new text) }
{
    followed.ends = ends_behind(followed.ends, &followed.follower, message);
    followed.follower.take(message)
}

// Lets the mirror at a place take a message about its buffer.
fn take_at(
    all: &mut Vec<Followed>,
    owner: Owner,
    place: usize,
    message: &Message,
) -> Result<bool, AllocError>
    requires place { IsFirstOf all.old.items owner.session owner.buffer place }
    requires about { buffer_of (sent_of message.now) ≡ Some owner.buffer }
    ensures fits { IfOk result (λ fits. fits
        ≡ does_fit (mirror_in all.old.items owner.session) (sent_of message.now)) }
    ensures after { OnOk result ((s : ℕ) (n : ℤ) → mirror_in all.new.items s n
        ≡ mirror_for owner.session s n (mirror_in all.old.items s n) (sent_of message.now)) }
    ensures apart { OnOk result (AreNotTwice all.old.items → AreNotTwice all.new.items) }
    ensures shares { OnOk result ((texts : Texts) → AllShare texts all.old.items
        → AllShare texts all.new.items) }
{
    take_one(&mut all[place], message)
}

// Lets the mirror of a session and a buffer take a message about that.
fn take_for(all: &mut Vec<Followed>, owner: Owner, message: &Message) -> Result<bool, AllocError>
    requires about { buffer_of (sent_of message.now) ≡ Some owner.buffer }
    ensures fits { IfOk result (λ fits. fits
        ≡ does_fit (mirror_in all.old.items owner.session) (sent_of message.now)) }
    ensures after { OnOk result ((s : ℕ) (n : ℤ) → mirror_in all.new.items s n
        ≡ mirror_for owner.session s n (mirror_in all.old.items s n) (sent_of message.now)) }
    ensures apart { OnOk result (AreNotTwice all.old.items → AreNotTwice all.new.items) }
    ensures shares { OnOk result ((texts : Texts) → AllShare texts all.old.items
        → AllShare texts all.new.items) }
{
    let place = place_for(all, owner)?;
    take_at(all, owner, place, message)
}

// Lets the mirrors of a session take a message; `false` exactly where it doesn't fit.
fn take(all: &mut Vec<Followed>, session: u64, message: &Message) -> Result<bool, AllocError>
    ensures fits { IfOk result (λ fits. fits
        ≡ does_fit (mirror_in all.old.items session) (sent_of message.now)) }
    ensures after { OnOk result ((s : ℕ) (n : ℤ) → mirror_in all.new.items s n
        ≡ mirror_for session s n (mirror_in all.old.items s n) (sent_of message.now)) }
    ensures apart { OnOk result (AreNotTwice all.old.items → AreNotTwice all.new.items) }
    ensures shares { OnOk result ((texts : Texts) → AllShare texts all.old.items
        → AllShare texts all.new.items) }
{
    match buffer_of(message) {
        Some(buffer) => take_for(all, Owner { session, buffer }, message),
        None => Ok(true),
    }
}

fn both(one: bool, other: bool) -> bool
    ensures { result ≡ (one && other) }
{
    one && other
}

/// Lets the mirrors of a session take messages, one after another; `false` exactly where one of
/// them doesn't fit.
pub fn take_each(
    all: &mut Vec<Followed>,
    session: u64,
    messages: &[Message],
) -> Result<bool, AllocError>
    ensures fits { IfOk result (λ fits. fits
        ≡ do_fit (mirror_in all.old.items session) (map sent_of messages.now)) }
    ensures after { OnOk result ((s : ℕ) (n : ℤ) → mirror_in all.new.items s n
        ≡ mirrors_for session s (mirror_in all.old.items s) (map sent_of messages.now) n) }
    ensures apart { OnOk result (AreNotTwice all.old.items → AreNotTwice all.new.items) }
    ensures shares { OnOk result ((texts : Texts) → AllShare texts all.old.items
        → AllShare texts all.new.items) }
{
    let mut fit = true;
    for message in messages {
        let fits = take(all, session, message)?;
        fit = both(fit, fits);
    }
    Ok(fit)
}
