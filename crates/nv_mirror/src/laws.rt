//! Laws of the definitions, each the contract of a function that does nothing.
ghost use Rattle.nv_mirror.specs.Laws.{EndsAreOne, ListingGrows, StopsForGood};
ghost use Rattle.nv_mirror.specs.Worked.{MisfitIsTold, NothingIsListedBehind, RefusalIsTold, StrangeIsTold, TextsAreListed};

/// What follows the value at which a client stops changes nothing.
pub fn stops_for_good()
    ensures { StopsForGood }
{}

/// More values list more behind what was listed.
pub fn listing_grows()
    ensures { ListingGrows }
{}

/// What was read comes to one end of following alone, and to one listing, where no device failed
/// and memory wasn't wanting.
pub fn ends_are_one()
    ensures { EndsAreOne }
{}

/// What a client makes of values, by the definitions alone.
pub fn worked_listings()
    ensures listed { TextsAreListed }
    ensures behind { NothingIsListedBehind }
    ensures refused { RefusalIsTold }
    ensures misfit { MisfitIsTold }
    ensures strange { StrangeIsTold }
{}
