//! Numbers of sessions.
ghost use Rattle.std.specs.Prelude.{◌≡◌, ◌<◌, ◌+◌, ℕ, length, OnOk};
ghost use Rattle.nv_watch.specs.inside.Counts.{number_kept, added_for};

use std::alloc::AllocError;

/// The number of a session: 0 where it has none yet.
pub fn number(numbers: &[u64], session: u64) -> u64
    ensures { result ≡ number_kept numbers.now session }
{
    numbers.get(session as usize).copied().unwrap_or(0)
}

// Makes room for the number of a session.
fn extend(numbers: &mut Vec<u64>, session: u64) -> Result<(), AllocError>
    ensures same { OnOk result ((s : ℕ) → number_kept numbers.new.items s
        ≡ number_kept numbers.old.items s) }
    ensures there { OnOk result (session < length numbers.new.items) }
{
    while numbers.len() as u64 <= session {
        numbers.push(0)?;
    }
    Ok(())
}

/// Adds to the number of a session. `AllocError` also where the sum passes 64 bits.
pub fn add(numbers: &mut Vec<u64>, session: u64, more: u64) -> Result<(), AllocError>
    ensures { OnOk result ((s : ℕ) → number_kept numbers.new.items s
        ≡ added_for session more s + number_kept numbers.old.items s) }
{
    extend(numbers, session)?;
    let place = session as usize;
    let Some(sum) = numbers[place].checked_add(more) else {
        return Err(AllocError);
    };
    numbers[place] = sum;
    Ok(())
}
