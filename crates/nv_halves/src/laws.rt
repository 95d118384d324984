//! Laws of sessions, each the contract of a function that does nothing.
ghost use Rattle.nv_halves.specs.Laws.{QuitsAreEnds, SessionsAskInOrder};

/// What a session asks in a history that runs is its opening, its calls, and then its close, just
/// where its own close has closed it.
pub fn asking_law()
    ensures { SessionsAskInOrder }
{}

/// A session that the end of the world closed names the entry that ended the world.
pub fn quitting_law()
    ensures { QuitsAreEnds }
{}
