//! What an editor takes of a text and of a changedtick.
ghost use Rattle.std.specs.Prelude.{◌≡◌, pos, ◌+◌, ◌+ℤ◌, ◌≤ℤ◌, ◌||◌, false, nat_lt, int_lt};
ghost use Rattle.nv_model.specs.Standing.{seen_buffer_now};

use nv_buffer::Buffer;
use nv_model::Limits;

/// Whether lines that stay and lines that are put are more than a text may have.
pub fn too_many(limits: Limits, kept: usize, put: usize) -> bool
    ensures { result ≡ nat_lt limits.lines (kept + put) }
{
    let most = limits.lines as usize;
    kept > most || put > most - kept
}

/// Whether so many splices more of a buffer would pass the greatest changedtick.
pub fn tick_passes(limits: Limits, buffer: &Buffer, splices: u64) -> bool
    ensures passes { result
        ≡ int_lt limits.ticks (pos ((seen_buffer_now buffer.now).tick + splices)) }
    ensures room { result ≡ false → (buffer.now.tick +ℤ pos splices) ≤ℤ i64.MAX }
{
    buffer.known();
    buffer.tick() as i128 + splices as i128 > limits.ticks as i128
}

/// Whether one of these holds.
pub fn any_of(count: bool, long: bool, tick: bool) -> bool
    ensures { result ≡ (count || long || tick) }
{
    count || long || tick
}
