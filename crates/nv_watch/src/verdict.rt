//! What a watcher says.
ghost use Rattle.std.specs.Prelude.{◌≡◌};
ghost use Rattle.nv_watch.specs.Verdicts.{verdict_with};

/// Whether a rule was kept.
#[derive(Clone, Copy, Debug, PartialEq, Eq)]
pub enum Verdict {
    /// It was kept.
    Yes,
    /// It was broken after the entry of this number, counted from 0, and after none before it.
    No(u64),
}

impl Verdict {
    /// The verdict once a further entry was looked at.
    pub fn with(self, at: u64, broken: bool) -> Verdict
        ensures { result ≡ verdict_with self at broken }
    {
        match self {
            Verdict::Yes => {
                if broken {
                    Verdict::No(at)
                } else {
                    Verdict::Yes
                }
            }
            Verdict::No(first) => {
                if broken {
                    Verdict::No(first.min(at))
                } else {
                    Verdict::No(first)
                }
            }
        }
    }
}
