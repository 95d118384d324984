//! The watcher that folds the events of buffers.
ghost use Rattle.std.specs.Prelude.{◌≡◌, ◌||◌, ◌++◌, ◌∷◌, ℕ, ℤ, [], List, not, map, Some, option_map, OnOk};
ghost use Rattle.std.specs.List.{list_any};
ghost use Rattle.std.specs.Ordering.{int_eq};
ghost use Rattle.nv_rpc.specs.MessageView.{sent_of};
ghost use Rattle.nv_model.specs.Seen.{Seen};
ghost use Rattle.nv_model.specs.Standing.{seen_now};
ghost use Rattle.nv_watch.specs.Folding.{IsFoldedWrong, is_compared};
ghost use Rattle.nv_watch.specs.SeenWorlds.{editor_seen};
ghost use Rattle.nv_watch.specs.Verdicts.{Sight, sight};
ghost use Rattle.nv_watch.specs.inside.Folded.{HasFolded, HasFoldedWith};
ghost use Rattle.nv_watch.specs.inside.Looking.{HasLooked, HasLookedAt, HaveLooked, HaveLookedIn};
ghost use Rattle.nv_watch.specs.inside.Mirroring.{AreNotTwice, mirror_in};
ghost use Rattle.nv_watch.specs.inside.Sharing.{AllBecome, AllShare, AreSplicedIf, Texts, ends_compared, ends_of_all, is_told_other, lines_there, no_ends, texts_seen, touched};

use crate::comparing::{compare, do_tell_lines};
use crate::editors::editor_of;
use crate::followed::take_each;
use crate::mirror::{Ends, Followed};
use crate::reading::parts_of;
use crate::touching::{is_splice_of, no_ends, spliced, touch_of};
use crate::verdict::Verdict;
use crate::watcher::Watcher;
use nv_dispatch::telling_laws;
use nv_editor::Editor;
use nv_rpc::Message;
use nv_world::{Moved, Step, World};
use std::alloc::{AllocError, Global};

/// Says no where an event of a buffer doesn't fit what its session was sent before, or leads to
/// other lines than the buffer has at that changedtick, or where a session was sent what isn't
/// whole messages and redraw notifications.
#[derive(Drop)]
pub struct BufferFold {
    alloc: Global,
    followed: Vec<Followed>,
    verdict: Verdict,
}

// Whether one of some splices is in the buffer of a mirror.
fn is_spliced(splices: &[Moved], followed: &Followed) -> bool
    ensures { result ≡ list_any (λ splice. int_eq splice.buffer followed.now.buffer) splices.now }
{
    for splice in splices {
        if is_splice_of(*splice, followed) {
            return true;
        }
    }
    false
}

// Whether a mirror is compared after a step that sent these messages.
fn is_compared(step: &Step, messages: &[Message], followed: &Followed) -> bool
    ensures { result ≡ is_compared step.now (map sent_of messages.now) followed.now.session
        followed.now.buffer }
{
    (step.session == followed.session && do_tell_lines(messages, followed))
        || is_spliced(step.splices.as_slice(), followed)
}

// What the splices of a step leave of the rows of a mirror that are known.
fn ends_spliced(followed: &Followed, editor: &Editor, splices: &[Moved]) -> Ends
    ensures { AreSplicedIf (lines_there ((seen_now editor.now).buffer followed.now.buffer))
        (touched followed.now.buffer splices.now) followed.now.ends result }
{
    match editor.buffer(followed.buffer) {
        Some(there) => spliced(followed.ends, there.text(), touch_of(splices, followed)),
        None => no_ends(),
    }
}

// All rows of a mirror.
fn ends_of_all(followed: &Followed) -> Ends
    ensures { result ≡ ends_of_all followed.now.follower.mirror }
{
    match followed.follower.text() {
        Some(lines) => Ends {
            front: lines.len(),
            back: lines.len(),
        },
        None => no_ends(),
    }
}

// What is known of a mirror once it was compared.
fn ends_compared(followed: &Followed, same: Option<bool>) -> Ends
    ensures { result ≡ ends_compared followed.now.ends followed.now.follower.mirror same }
{
    match same {
        Some(true) => ends_of_all(followed),
        Some(false) => followed.ends,
        None => followed.ends,
    }
}

fn is_told_other(same: Option<bool>) -> bool
    ensures { result ≡ is_told_other same }
{
    match same {
        Some(same) => !same,
        None => false,
    }
}

// Whether a mirror holds other lines than its buffer; where it has those all its rows are known.
fn holds_other(followed: &mut Followed, editor: &Editor) -> bool
    ensures { HasLookedAt (seen_now editor.now) followed.old followed.new result }
{
    let same = compare(followed, editor);
    followed.ends = ends_compared(followed, same);
    is_told_other(same)
}

// Whether a mirror is compared, and holds other lines than its buffer.
fn look(followed: &mut Followed, editor: &Editor, step: &Step, messages: &[Message]) -> bool
    ensures { HasLooked (seen_now editor.now) step.now (map sent_of messages.now) followed.old
        followed.new result }
{
    followed.ends = ends_spliced(followed, editor, step.splices.as_slice());
    if !is_compared(step, messages, followed) {
        return false;
    }
    holds_other(followed, editor)
}

fn either(one: bool, other: bool) -> bool
    ensures { result ≡ (one || other) }
{
    one || other
}

// Whether one of some mirrors is compared and holds others. All are looked at.
fn look_at_all(all: &mut Vec<Followed>, editor: &Editor, step: &Step, messages: &[Message]) -> bool
    ensures { HaveLooked (seen_now editor.now) step.now (map sent_of messages.now) all.old.items
        all.new.items result }
{
    let mut other = false;
    for place in 0..all.len() {
        let here = look(&mut all[place], editor, step, messages);
        other = either(other, here);
    }
    other
}

// The same in an editor that may be known.
#[tactic(auto, using(crate::proofs::Looking::looked_in, crate::proofs::Looking::unlooked))]
fn look_in(
    all: &mut Vec<Followed>,
    editor: Option<&Editor>,
    step: &Step,
    messages: &[Message],
) -> bool
    ensures { HaveLookedIn (option_map (λ e. seen_now e.now) editor.entry) step.now
        (map sent_of messages.now) all.old.items all.new.items result }
{
    match editor {
        Some(editor) => look_at_all(all, editor, step, messages),
        None => false,
    }
}

fn forget_one(followed: &mut Followed)
    ensures session { followed.new.session ≡ followed.old.session }
    ensures buffer { followed.new.buffer ≡ followed.old.buffer }
    ensures follower { followed.new.follower ≡ followed.old.follower }
    ensures ends { followed.new.ends ≡ no_ends }
{
    followed.ends = no_ends();
}

// No rows of the mirrors are known from then on.
fn forget(all: &mut Vec<Followed>)
    ensures same { (s : ℕ) (n : ℤ) → mirror_in all.new.items s n ≡ mirror_in all.old.items s n }
    ensures apart { AreNotTwice all.old.items → AreNotTwice all.new.items }
    ensures shares { (texts : Texts) → AllShare texts all.new.items }
{
    for place in 0..all.len() {
        forget_one(&mut all[place]);
    }
}

// Whether the rule is broken.
fn is_broken(is_whole: bool, fit: bool, other: bool) -> bool
    ensures { result ≡ (not is_whole || not fit || other) }
{
    !is_whole || !fit || other
}

impl BufferFold {
    /// A fold that has seen nothing.
    pub fn new(alloc: Global) -> BufferFold
        ensures { HasFolded result [] }
    {
        BufferFold {
            alloc,
            followed: Vec::new(alloc),
            verdict: Verdict::Yes,
        }
    }

    // Takes what a step sent, and looks at the world after it. The rows that are known are those in
    // the texts of a world that its splices change to the ones of this.
    fn fold(&mut self, world: &World, step: &Step) -> Result<(), AllocError>
        ensures { OnOk result ((seen : List Sight) (before : Texts)
            → ((editor : Seen) → editor_seen world.now ≡ Some editor
            → AllBecome step.now.splices.items before (texts_seen editor))
            → AllShare before self.old.followed.items
            → HasFoldedWith self.old.followed.items self.old.verdict seen
            → HasFolded self.new (seen ++ sight world.now step.now ∷ [])) }
    {
        let parts = parts_of(self.alloc, step.sent.as_slice())?;
        let messages = parts.messages.as_slice();
        let fit = take_each(&mut self.followed, step.session, messages)?;
        let other = look_in(&mut self.followed, editor_of(world), step, messages);
        let broken = is_broken(parts.is_whole, fit, other);
        self.verdict = self.verdict.with(step.at, broken);
        Ok(())
    }
}

impl Watcher for BufferFold {
    ghost HasSeen = { HasFolded };

    ghost Breaks = { λ f. IsFoldedWrong };

    ghost IsBehind = { HasFolded };

    fn see(&mut self, world: &World, step: &Step) -> Result<(), AllocError> {
        forget(&mut self.followed);
        self.fold(world, step)
    }

    fn glance(&mut self, world: &World, step: &Step) -> Result<(), AllocError> {
        telling_laws();
        self.fold(world, step)
    }

    fn catch_up(&mut self, _world: &World) -> Result<(), AllocError> {
        Ok(())
    }

    fn verdict(&self) -> Verdict {
        self.verdict
    }
}
