//! What a client makes of what a server sends it, each law the contract of a function that does
//! nothing.
ghost use Rattle.nv_mirror_laws.specs.Laws.{RefusalsAreOfTheCall, RefusedCallsAreTold, RequestIsCall, ServedBytesAreFollowed};
ghost use Rattle.nv_mirror_laws.specs.Worked.{StoryIsFollowed};

use nv_history::fold_law;

/// The request of a client is the call of its method.
pub fn request_is_call()
    ensures { RequestIsCall }
{}

/// Of the bytes that a session is sent whose one call follows a buffer, or a front of them: each
/// text that a client lists is the buffer's at its changedtick, each event fits, and no value is
/// malformed but one that is cut, or too long.
pub fn served_bytes_are_followed()
    ensures { ServedBytesAreFollowed }
{
    fold_law();
}

/// Such a client is refused exactly where the server refused its call and the reply was read.
pub fn refusals_are_told()
    ensures only { RefusalsAreOfTheCall }
    ensures told { RefusedCallsAreTold }
{
    fold_law();
}

/// A history in which one session edits a buffer that another one follows, by the definitions
/// alone.
pub fn worked_story()
    ensures { StoryIsFollowed }
{}
