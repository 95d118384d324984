//! Laws of the definitions, each the contract of a function that does nothing.
ghost use Rattle.nv_subs.specs.Laws.{MessagesAreTakenInParts, OrderStaysWith, OrderStaysWithout, RisingListIsOne, SentLinesAreRead, WithSessionAddsOne, WithoutSessionRemovesOne, WithoutSessionsRemovesThem};
ghost use Rattle.nv_subs.specs.Worked.{LastRowBelow, LineEndInside, LinesAreFollowed, LinesMissing, MirrorBeginsAgain, MirrorEnds, RowsMissing, RowsOutOfOrder, TickIsFollowed};

/// What a client makes of messages, by the definitions alone.
pub fn worked_mirrors()
    ensures lines { LinesAreFollowed }
    ensures tick { TickIsFollowed }
    ensures ends { MirrorEnds }
    ensures begins_again { MirrorBeginsAgain }
    ensures rows_missing { RowsMissing }
    ensures rows_out_of_order { RowsOutOfOrder }
    ensures lines_missing { LinesMissing }
    ensures line_end { LineEndInside }
    ensures last_row { LastRowBelow }
{}

/// Lines that a server sends as strings are the lines that a client reads, and messages may be
/// taken in parts.
pub fn mirror_laws()
    ensures read { SentLinesAreRead }
    ensures parts { MessagesAreTakenInParts }
{}

/// Sessions with one more, with one less and with several less are just those sessions, in the one
/// list that has them in rising order.
pub fn session_laws()
    ensures added { WithSessionAddsOne }
    ensures removed { WithoutSessionRemovesOne }
    ensures several_removed { WithoutSessionsRemovesThem }
    ensures order_with { OrderStaysWith }
    ensures order_without { OrderStaysWithout }
    ensures one_list { RisingListIsOne }
{}
