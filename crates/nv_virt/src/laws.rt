//! Worked examples, as contracts of functions that do nothing.

ghost use Rattle.nv_virt.specs.Worked.{CutPairIsSpace, EolIsAfterFreeColumn, EolOfFullRowIsOutside, OverlayIsAtByte, PartsAreOneBehindAnother, RightIsAtEdge};

/// Where virtual texts are, and the cells of two of them, computed.
pub fn worked_texts()
    ensures eol { EolIsAfterFreeColumn }
    ensures full { EolOfFullRowIsOutside }
    ensures overlay { OverlayIsAtByte }
    ensures right { RightIsAtEdge }
    ensures parts { PartsAreOneBehindAnother }
    ensures cut { CutPairIsSpace }
{}
