//! Laws of drawing, as contracts of functions that do nothing.

ghost use Rattle.nv_screen.specs.Laws.{CellsStandByWindows, PatchesShow, ScreensAreWhole, SoundScenesAreDrawable, SoundScenesAreInReach, StripsShow};
ghost use Rattle.nv_screen.specs.Screens.{FirstScreenIsDrawn, TwoWindowsAreDrawn};
ghost use Rattle.nv_screen.specs.Worked.{HalfLeavesSpace, LetterIsReplaced, NoNameIsDrawn, OddLineIsDrawn, OtherHalfLeavesSpace};

/// A scene is drawn as a whole screen: as high as the scene, each row as wide. Each strip of cells
/// that is laid shows where it lies and changes no other cell. In a sound scene there stands at
/// each cell, below the patches, what its window or separator shows, and else a space. A patch
/// shows its cells, leaves a space of the other half of a pair that it parts, and changes nothing
/// else.
pub fn drawing_laws()
    ensures whole { ScreensAreWhole }
    ensures strips { StripsShow }
    ensures cells { CellsStandByWindows }
    ensures patches { PatchesShow }
{}

/// Patches over a letter and over either half of a pair.
pub fn worked_patches()
    ensures letter { LetterIsReplaced }
    ensures right { HalfLeavesSpace }
    ensures left { OtherHalfLeavesSpace }
{}

/// An odd line, and a status line, computed.
pub fn worked_lines()
    ensures odd { OddLineIsDrawn }
    ensures status { NoNameIsDrawn }
{}

/// The windows of a sound scene can be drawn, and the cursor's cell found.
pub fn sound_scene_laws()
    ensures drawable { SoundScenesAreDrawable }
    ensures reach { SoundScenesAreInReach }
{}

/// Whole screens, computed: one window over an empty line, and two windows side by side.
pub fn worked_screens()
    ensures first { FirstScreenIsDrawn }
    ensures two { TwoWindowsAreDrawn }
{}
