//! Laws of whole inputs, as the contract of a function that does nothing.
ghost use Rattle.nv_session_laws.specs.Laws.{ConnectionsAnswerCalls, SessionsAnswerCalls};

/// A session whose bytes are calls and nothing else makes them all, and its end is told by what
/// closed it, unless a device failed or it was out of memory: alone in its world, and by a
/// connection of a server.
pub fn whole_inputs()
    ensures alone { SessionsAnswerCalls }
    ensures connections { ConnectionsAnswerCalls }
{}
