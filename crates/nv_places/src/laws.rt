//! Laws of the definitions, each the contract of a function that does nothing.

ghost use Rattle.nv_places.specs.Laws.{FlatJoins, FlatKeepsLines, FlatSplices, FlatEndsInFeed, EndIsLineCount, LinesReach, JoinedReach, PlacesAdd, PlacesHaveOffsets, OffsetsHavePlaces, PlacesKeepOrder, MovesAgree, MovesStay};

/// Flat text joins as lines do, the lines can be read back from it, and a splice of whole lines is
/// one of bytes.
pub fn flat_laws()
    ensures joins { FlatJoins }
    ensures keeps_lines { FlatKeepsLines }
    ensures splices { FlatSplices }
    ensures ends { FlatEndsInFeed }
{}

/// Places add up along a text, and the whole text ends in the row after its last line, at column 0.
pub fn place_laws()
    ensures add { PlacesAdd }
    ensures end { EndIsLineCount }
    ensures lines { LinesReach }
    ensures joined { JoinedReach }
{}

/// The offsets from 0 to the length of a text and the places of the text are one for one, in the
/// same order.
pub fn offset_laws()
    ensures of_places { PlacesHaveOffsets }
    ensures of_offsets { OffsetsHavePlaces }
    ensures order { PlacesKeepOrder }
{}

/// For every splice, moving an offset and moving its place come to the same, and a moved place is
/// one of the new text.
pub fn move_laws()
    ensures agree { MovesAgree }
    ensures stay { MovesStay }
{}
