//! What holds over whole runs of a stream.
ghost use Rattle.nv_stream.specs.Runs.{RunsAreCuts, StreamsHaveOneEnd, AnswersAreOne, FlawsStay};

/// However a stream was cut into pieces, the values given and the answer are those of the cut of
/// all that was fed, and a stream has one cut.
pub fn pieces_do_not_matter()
    ensures runs { RunsAreCuts }
    ensures one { StreamsHaveOneEnd }
{}

/// A stream that is asked for its next value has one answer alone, so each of them comes exactly
/// where its clause holds.
pub fn answers_are_one()
    ensures { AnswersAreOne }
{}

/// A flaw that was met stays the answer for good.
pub fn flaws_stay()
    ensures { FlawsStay }
{}
