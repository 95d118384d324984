//! Numbers drawn one after another.
ghost use Rattle.std.specs.Prelude.{◌≡◌, ◌<◌};
ghost use Rattle.nv_gen.specs.Draws.{number_after, number_below};

/// The number from which the next one is drawn.
#[derive(Clone, Copy)]
pub struct Draws {
    pub number: u64,
}

// The number after a number.
#[tactic(auto, unfolding(crate::specs::Draws::number_after))]
fn next(number: u64) -> u64
    ensures { result ≡ number_after number }
{
    number
        .wrapping_mul(6364136223846793005)
        .wrapping_add(1442695040888963407)
}

impl Draws {
    /// Draws a number below `k`.
    pub fn draw(&mut self, k: u64) -> u64
        requires { 0 < k }
        ensures drawn { result ≡ number_below k (number_after self.old.number) }
        ensures later { self.new.number ≡ number_after self.old.number }
        ensures below { result < k }
    {
        self.number = next(self.number);
        below(self.number, k)
    }
}

// The number below `k` that a number gives.
#[tactic(auto, unfolding(crate::specs::Draws::number_below))]
fn below(number: u64, k: u64) -> u64
    requires { 0 < k }
    ensures is { result ≡ number_below k number }
    ensures below { result < k }
{
    (number >> 33) % k
}
