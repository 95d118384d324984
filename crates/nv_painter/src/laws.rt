//! Laws of pictures, the contract of a function that does nothing.

ghost use Rattle.nv_painter.specs.Laws.{CutHeightsMoveAlike, SoundScenesAreShown};

/// A sound scene is a whole screen with its cursor and its windows on it. A window is moved by the
/// rows of lines whether or not more rows than it has are counted.
pub fn picture_laws()
    ensures shown { SoundScenesAreShown }
    ensures heights { CutHeightsMoveAlike }
{}
