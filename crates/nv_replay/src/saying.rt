//! What watchers say in the end.
ghost use Rattle.std.specs.Prelude.{◌≡◌, ℕ, List, length, slice_get, Some};
ghost use Rattle.nv_watch.specs.Verdicts.{IsVerdict, Sight};
ghost use Rattle.nv_watch.specs.declared.verdict.Verdict.{Verdict as PlainVerdict};
ghost use Rattle.nv_replay.specs.inside.Endings.{SaysNoFirst};
ghost use Rattle.nv_replay.specs.inside.Watching.{sooner};

use nv_watch::{Verdict, Watcher};

// What one of them says.
fn verdict_of<W: Watcher>(watcher: &W) -> Verdict
    ensures { (seen : List Sight) → W.HasSeen watcher.now seen
        → IsVerdict (W.Breaks watcher.now) seen result }
{
    watcher.verdict()
}

// The one that says no first, with its entry, once the one at this place has said this.
fn sooner(told: Option<(u64, u64)>, place: u64, verdict: Verdict) -> Option<(u64, u64)>
    ensures { result ≡ sooner told place verdict }
{
    match (told, verdict) {
        (_, Verdict::Yes) => told,
        (None, Verdict::No(entry)) => Some((place, entry)),
        (Some((_, least)), Verdict::No(entry)) => {
            if entry < least {
                Some((place, entry))
            } else {
                told
            }
        }
    }
}

/// Of the watchers that say no at the least entry the first: its place, and that entry.
pub fn first_no<W: Watcher>(watchers: &[W]) -> Option<(u64, u64)>
    ensures { (verdicts : List PlainVerdict) × SaysNoFirst (length watchers.now) verdicts result
        × ((i : ℕ) (w : W) (v : PlainVerdict) (seen : List Sight)
        → slice_get watchers.now i ≡ Some w → slice_get verdicts i ≡ Some v
        → W.HasSeen w seen → IsVerdict (W.Breaks w) seen v) }
{
    let mut told = None;
    for place in 0..watchers.len() {
        told = sooner(told, place as u64, verdict_of(&watchers[place]));
    }
    told
}
