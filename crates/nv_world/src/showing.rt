//! UIs: which of them go with their sessions, and what the others are to show.
ghost use Rattle.std.specs.Prelude.{◌≡◌, ◌+◌, ◌-◌, ◌<◌, ◌^◌, ◌&&◌, ◌||◌, ◌==◌, not, ℕ, false, true, if◌then◌else◌, IfErr, IfOk, OnOk};
ghost use Rattle.nv_model.specs.Editors.{ModelEditor};
ghost use Rattle.nv_model.specs.Standing.{Stands, seen_now};
ghost use Rattle.nv_editor.specs.Uis.{has_ui};
ghost use Rattle.nv_scene.specs.Settling.{IsSettled};
ghost use Rattle.nv_history.specs.Sessions.{Session as ModelSession, shown_after};
ghost use Rattle.nv_history.specs.Spoken.{ShowsIfGiven};
ghost use Rattle.nv_history.specs.Worlds.{editor_due, is_nothing_due, settled_editor};
ghost use Rattle.nv_world.specs.inside.Sessions.{IsSession};
ghost use Rattle.nv_world.specs.inside.Showings.{HasFewCells, StandsSealed, editor_without_uis, has_any, is_live_at, losing_sessions};

use crate::session::{Session, waiting};
use crate::telling::place_of;
use nv_editor::Editor;
use nv_model::Ui;
use nv_scene::{scene_of, settle};
use nv_screen::HeldScene;
use std::alloc::{AllocError, Global};

// Whether the session of a number is there and isn't closed.
fn is_live(sessions: &[Session], session: u64) -> bool
    ensures { result ≡ is_live_at sessions.now session }
{
    match place_of(session, sessions.len()) {
        Some(place) => sessions[place].closed.is_none(),
        None => false,
    }
}

/// The sessions that lose their UIs: those that aren't live. No memory is taken where there are
/// none.
pub fn losing_sessions(
    alloc: Global,
    sessions: &[Session],
    uis: &[Ui],
) -> Result<Vec<u64>, AllocError>
    ensures losing { IfOk result (λ losing. losing.items ≡ losing_sessions sessions.now uis.now) }
    ensures memory { IfErr result (λ e. has_any (losing_sessions sessions.now uis.now) ≡ true) }
{
    let mut losing = Vec::new(alloc);
    for ui in uis {
        if !is_live(sessions, ui.session) {
            losing.push(ui.session)?;
        }
    }
    Ok(losing)
}

/// Settles the views of an editor, where they may be unsettled by what was seen, or by UIs that
/// went. Else they are settled still, if they are.
pub fn settle_if(editor: &mut Editor, is_seen: bool, any: bool) -> Result<(), AllocError>
    ensures stands { OnOk result ((m : ModelEditor) → StandsSealed editor.old m
        → (is_seen ≡ false → any ≡ false → IsSettled (seen_now editor.old))
        → StandsSealed editor.new (settled_editor m)) }
    ensures settled { OnOk result ((m : ModelEditor) → StandsSealed editor.old m
        → (is_seen ≡ false → any ≡ false → IsSettled (seen_now editor.old))
        → IsSettled (seen_now editor.new)) }
    ensures memory { IfErr result (λ e. is_seen ≡ false → any ≡ true) }
{
    if !is_seen && !any {
        return Ok(());
    }
    editor.known();
    settle(editor)?;
    editor.known();
    Ok(())
}

/// UIs of these sessions go, all together. Without a session nothing changes.
pub fn drop_uis_of(editor: &mut Editor, sessions: &[u64])
    ensures gone { (m : ModelEditor) → StandsSealed editor.old m
        → StandsSealed editor.new (editor_without_uis sessions.now m) }
    ensures same { has_any sessions.now ≡ false → editor.new ≡ editor.old }
{
    if sessions.is_empty() {
        return;
    }
    editor.drop_uis(sessions);
    editor.known();
}

/// A stamp, which rises where an entry is seen, or where UIs went by it.
pub fn raised_if(is_seen: bool, any: bool, stamp: u64) -> u64
    ensures { stamp < 2 ^ 64 - 1 → result ≡ (if is_seen || any then stamp + 1 else stamp) }
{
    if is_seen || any {
        stamp.saturating_add(1)
    } else {
        stamp
    }
}

/// Whether a session has a UI.
pub fn has_ui(uis: &[Ui], session: u64) -> bool
    ensures { result ≡ has_ui session uis.now }
{
    uis.iter().any(|ui| ui.session == session)
}

/// Whether a session has a UI that wasn't given the editor to show at this stamp.
pub fn is_scene_due(uis: &[Ui], stamp: u64, session: u64, shown: u64) -> bool
    ensures { result ≡ (has_ui session uis.now && not (shown == stamp)) }
{
    has_ui(uis, session) && shown != stamp
}

/// Whether anything is due to a session: a message, or a scene.
pub fn is_any_due(session: &Session, is_scene_due: bool) -> bool
    ensures { (capacity : ℕ) (y : ModelSession) → IsSession capacity session.now y
        → result ≡ not (is_nothing_due y.waiting is_scene_due) }
{
    if waiting(session) > 0 {
        return true;
    }
    is_scene_due
}

/// The stamp that a session was last shown, once it took.
pub fn shown_after(is_due: bool, stamp: u64, before: u64) -> u64
    ensures { result ≡ shown_after is_due stamp before }
{
    if is_due { stamp } else { before }
}

/// The scene of an editor, where it is due. No UI can ask for a screen of more than 2000 columns by
/// 1000 rows; a larger one would be more than memory holds.
pub fn scene_if(editor: &Editor, is_due: bool) -> Result<Option<HeldScene>, AllocError>
    requires settled { IsSettled (seen_now editor.now) }
    ensures shows { IfOk result (λ scene. (m : ModelEditor) → Stands editor.now m
        → ShowsIfGiven (editor_due is_due m) scene) }
    ensures cells { IfOk result HasFewCells }
{
    if !is_due {
        return Ok(None);
    }
    let (width, height) = editor.windows().size();
    if width > 2000 || height > 1000 {
        return Err(AllocError);
    }
    let scene = scene_of(editor)?;
    let held = HeldScene::new(editor.alloc(), scene)?;
    Ok(Some(held))
}
