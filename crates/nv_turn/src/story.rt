// What a value behind a turn has to tell.
ghost use Rattle.std.specs.Prelude.{◌≡◌, ◌≤◌, ℕ, List, [], ◌∷◌, ◌++◌, length};

/// A value that stands for a list of entries, its story, each with the number of its caller, and
/// that has a start which no call changes.
pub trait Story {
    type Entry;

    type Start;

    // The value stands for this story.
    ghost stands: { Self → List Self.Entry → Type 0 };

    // The number of the caller who made the entry.
    ghost caller: { Self.Entry → ℕ };

    ghost start: { Self → Self.Start };

    /// How many entries at the front of the story the value has no more itself.
    fn base(&self) -> u64
        ensures { (story : List Self.Entry) → stands self.now story → result ≤ length story };

    /// The number of entries of the story.
    fn told(&self) -> u64
        ensures { (story : List Self.Entry) → stands self.now story → result ≡ length story };

    // A value that was given one more entry tells which one it was.
    ghost one_end: { (y : Self) (story : List Self.Entry) (e f : Self.Entry)
        → stands y (story ++ e ∷ []) → stands y (story ++ f ∷ []) → e ≡ f };
}
