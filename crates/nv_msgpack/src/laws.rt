//! Laws of the definitions that the contracts cite.
ghost use Rattle.nv_msgpack.specs.Within.{SpellingsAreApart, StreamsHaveOneCut};
ghost use Rattle.nv_msgpack.specs.Shortest.{SpelledHasSpelling, ShortestIsSpelling, ShortestIsLeast, EncodedIsRead};

/// No spelling begins another, so what follows a spelling doesn't change what it spells.
pub fn spellings_are_apart()
    ensures { SpellingsAreApart }
{}

/// A stream is one row of values and one rest at whose front no value stands.
pub fn streams_have_one_cut()
    ensures { StreamsHaveOneCut }
{}

/// What bytes spell can be spelled again: it meets the condition of `encode`.
pub fn spelled_has_spelling()
    ensures { SpelledHasSpelling }
{}

/// The shortest spelling of a value that has one is a spelling of it.
pub fn shortest_is_spelling()
    ensures { ShortestIsSpelling }
{}

/// No spelling of a value has fewer bytes than the shortest.
pub fn shortest_is_least()
    ensures { ShortestIsLeast }
{}

/// What `encode` writes is what `decode` reads again, whatever follows it, where the bounds allow
/// it.
pub fn encoded_is_read()
    ensures { EncodedIsRead }
{}
