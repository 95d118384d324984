//! The watcher that follows marks.
ghost use Rattle.std.specs.Prelude.{◌≡◌, ◌==◌, ◌&&◌, [], false, if◌then◌else◌, length, map, not, option_map, true, IfOk, OnOk};
ghost use Rattle.nv_model.specs.Standing.{seen_now};
ghost use Rattle.nv_watch.specs.FollowedMarks.{followed_after};
ghost use Rattle.nv_watch.specs.MarkRule.{IsMarkMisplaced, any_elsewhere, marks_found};
ghost use Rattle.nv_watch.specs.SeenWorlds.{editor_seen};
ghost use Rattle.nv_watch.specs.inside.Checked.{HasChecked, IsCheckBehind};

use crate::editors::editor_of;
use crate::followed_mark::FollowedMark;
use crate::following::follow_all;
use crate::placing::any_elsewhere;
use crate::verdict::Verdict;
use crate::watcher::Watcher;
use nv_editor::Editor;
use nv_world::{Moved, Step, World};
use std::alloc::{AllocError, Global};

/// Says no where a mark stands elsewhere than the splices since it was set left it, or is shown
/// where they hid it. A mark that was set by a call with splices is left out.
#[derive(Drop)]
pub struct MarkCheck {
    alloc: Global,
    // The marks that are followed, where the last splices left them.
    marks: Vec<FollowedMark>,
    // The marks before the next step, with those that were set since.
    before: Vec<FollowedMark>,
    // Whether these are still to be looked at, in the world after the last step.
    is_behind: bool,
    verdict: Verdict,
}

// Follows marks through splices.
fn follow(marks: &mut Vec<FollowedMark>, splices: &[Moved]) -> Result<(), AllocError>
    ensures { OnOk result (marks.new.items ≡ map (followed_after splices.now) marks.old.items) }
{
    for place in 0..marks.len() {
        marks[place].follow(splices)?;
    }
    Ok(())
}

// Whether one of some marks stands elsewhere in an editor, where that is known.
fn is_any_elsewhere(marks: &[FollowedMark], editor: Option<&Editor>) -> Result<bool, AllocError>
    ensures { IfOk result (λ answer. answer
        ≡ any_elsewhere marks.now (option_map (λ e. seen_now e.now) editor.entry)) }
{
    match editor {
        Some(editor) => any_elsewhere(editor, marks),
        None => Ok(false),
    }
}

// The marks of an editor as they go on being followed, where that is known.
fn marks_in(
    alloc: Global,
    marks: &[FollowedMark],
    is_left_out: bool,
    editor: Option<&Editor>,
) -> Result<Vec<FollowedMark>, AllocError>
    ensures { IfOk result (λ found. found.items
        ≡ marks_found is_left_out marks.now (option_map (λ e. seen_now e.now) editor.entry)) }
{
    match editor {
        Some(editor) => follow_all(alloc, marks, is_left_out, editor),
        None => Ok(Vec::new(alloc)),
    }
}

// Follows the marks before a step through its splices, where it has any, and keeps those that are
// there after it. Says whether one of them stands elsewhere then.
fn follow_step(
    alloc: Global,
    marks: &mut Vec<FollowedMark>,
    before: &mut Vec<FollowedMark>,
    world: &World,
    step: &Step,
) -> Result<bool, AllocError>
    ensures broken { IfOk result (λ answer. answer ≡ (not (length step.now.splices.items == 0)
        && any_elsewhere (map (followed_after step.now.splices.items) before.old.items)
        (editor_seen world.now))) }
    ensures marks { OnOk result (marks.new.items ≡ (if length step.now.splices.items == 0
        then marks.old.items
        else marks_found true (map (followed_after step.now.splices.items) before.old.items)
        (editor_seen world.now))) }
{
    if step.splices.is_empty() {
        return Ok(false);
    }
    follow(before, step.splices.as_slice())?;
    let broken = is_any_elsewhere(before.as_slice(), editor_of(world))?;
    *marks = marks_in(alloc, before.as_slice(), true, editor_of(world))?;
    Ok(broken)
}

// Looks at the marks before the next step, where they are still to be looked at.
fn renew_if(
    is_behind: bool,
    alloc: Global,
    marks: &[FollowedMark],
    before: &mut Vec<FollowedMark>,
    world: &World,
) -> Result<(), AllocError>
    ensures { OnOk result (before.new.items ≡ (if is_behind
        then marks_found false marks.now (editor_seen world.now) else before.old.items)) }
{
    if !is_behind {
        return Ok(());
    }
    *before = marks_in(alloc, marks, false, editor_of(world))?;
    Ok(())
}

impl MarkCheck {
    /// A check that has seen nothing.
    pub fn new(alloc: Global) -> MarkCheck
        ensures { HasChecked result [] }
    {
        MarkCheck {
            alloc,
            marks: Vec::new(alloc),
            before: Vec::new(alloc),
            is_behind: false,
            verdict: Verdict::Yes,
        }
    }
}

impl Watcher for MarkCheck {
    ghost HasSeen = { HasChecked };

    ghost Breaks = { λ c. IsMarkMisplaced };

    ghost IsBehind = { IsCheckBehind };

    fn see(&mut self, world: &World, step: &Step) -> Result<(), AllocError> {
        let broken = follow_step(self.alloc, &mut self.marks, &mut self.before, world, step)?;
        renew_if(
            true,
            self.alloc,
            self.marks.as_slice(),
            &mut self.before,
            world,
        )?;
        self.verdict = self.verdict.with(step.at, broken);
        Ok(())
    }

    fn glance(&mut self, world: &World, step: &Step) -> Result<(), AllocError> {
        let broken = follow_step(self.alloc, &mut self.marks, &mut self.before, world, step)?;
        self.is_behind = true;
        self.verdict = self.verdict.with(step.at, broken);
        Ok(())
    }

    fn catch_up(&mut self, world: &World) -> Result<(), AllocError> {
        let marks = self.marks.as_slice();
        renew_if(self.is_behind, self.alloc, marks, &mut self.before, world)?;
        self.is_behind = false;
        Ok(())
    }

    fn verdict(&self) -> Verdict {
        self.verdict
    }
}
