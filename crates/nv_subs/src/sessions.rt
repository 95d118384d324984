//! The sessions of one buffer.
ghost use Rattle.std.specs.Prelude.{◌≡◌, ◌==◌, ◌∷◌, [], not, length, MatchResult, IfOk, OnOk, OnErr};
ghost use Rattle.nv_subs.specs.Attachments.{AreRising, is_session_of, with_session, without_session};
ghost use Rattle.nv_subs.specs.inside.Places.{IsGapAmong, IsPlaceAmong};

use std::alloc::{AllocError, Global};
use std::marker::Model;

/// Numbers of sessions, in rising order.
#[derive(Drop)]
pub struct Sessions {
    numbers: Vec<u64>,
}

impl Model for Sessions {
    ghost use Rattle.std.specs.Prelude.{List, ℕ};
    ghost use Rattle.nv_subs.specs.Attachments.{AreRising};

    ghost Value = { List ℕ };

    ghost view = { λ s. s.numbers.items };

    ghost invariant = { λ s. AreRising s.numbers.items };
}

// The place at which a session stands among others in rising order, or else would stand.
fn place_of(numbers: &[u64], session: u64) -> Result<usize, usize>
    requires { AreRising numbers.now }
    ensures { MatchResult result (IsPlaceAmong numbers.now session)
        (IsGapAmong numbers.now session) }
{
    numbers.binary_search(&session)
}

impl Sessions {
    /// One session.
    pub fn of_one(alloc: Global, session: u64) -> Result<Sessions, AllocError>
        ensures { IfOk result (λ sessions. sessions ≡ session ∷ []) }
    {
        let numbers = vec![in alloc; session]?;
        Ok(Sessions { numbers })
    }

    /// Whether there is none.
    pub fn is_empty(&self) -> bool
        ensures { result ≡ (length self.now == 0) }
    {
        self.numbers.is_empty()
    }

    /// All of them, lent.
    pub fn as_slice(&self) -> &[u64]
        ensures value { result.now ≡ self.now }
        ensures rising { AreRising result.now }
    {
        self.numbers.as_slice()
    }

    /// Adds a session. `false` exactly where it was there.
    pub fn add(&mut self, session: u64) -> Result<bool, AllocError>
        ensures ok { OnOk result (self.new ≡ with_session session self.old) }
        ensures added { IfOk result (λ added. added ≡ not (is_session_of self.old session)) }
        ensures err { OnErr result (self.new ≡ self.old) }
    {
        match place_of(&self.numbers, session) {
            Ok(_) => Ok(false),
            Err(place) => {
                self.numbers.insert(place, session)?;
                Ok(true)
            }
        }
    }

    /// Takes a session out. `false` exactly where it wasn't there.
    pub fn remove(&mut self, session: u64) -> bool
        ensures value { self.new ≡ without_session session self.old }
        ensures removed { result ≡ is_session_of self.old session }
    {
        match place_of(&self.numbers, session) {
            Ok(place) => {
                self.numbers.remove(place);
                true
            }
            Err(_) => false,
        }
    }
}
