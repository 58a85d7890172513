//! What follows from the rules of the program: each function here is a law, and its body is empty.
ghost use Rattle.mix_transition.specs.Laws.{TargetStays, TargetIsSet, CutIsAtOnce};
ghost use Rattle.mix_transition.specs.Laws.{FadeGoesOn, FadeComesToRest, EndIsToldOnce};
ghost use Rattle.mix_transition.specs.Laws.{ForgottenIsNoEnd, OthersStay};
ghost use Rattle.mix_transition.specs.Laws.{SettingKeepsShape, FramesKeepShape};
ghost use Rattle.mix_transition.specs.Laws.{ForgettingKeepsShape, ChoosingKeepsShape};
ghost use Rattle.mix_transition.specs.Laws.{ChoosingKeepsShown, SettingTellsTarget};
ghost use Rattle.mix_transition.specs.Laws.{FramesTellTarget, ForgettingTellsTarget};

/// To set the program to its target changes nothing and says nothing.
pub fn target_is_left_alone()
    ensures same { TargetStays }
{}

/// After the program is set to a scene, that is its target.
pub fn a_set_scene_is_the_target()
    ensures target { TargetIsSet }
{}

/// Each change says that the target changed exactly where it did.
pub fn a_changed_target_is_told()
    ensures setting { SettingTellsTarget }
    ensures frames { FramesTellTarget }
    ensures forgetting { ForgettingTellsTarget }
{}

/// A cut to another scene is at rest there at once.
pub fn a_cut_is_at_rest()
    ensures rest { CutIsAtOnce }
{}

/// A fade begins at the target of what was shown before, and is at rest on its own target after
/// exactly as many frames as its duration takes; of these only the last says that it ended.
pub fn a_fade_takes_its_frames()
    ensures goes_on { FadeGoesOn }
    ensures rest { FadeComesToRest }
    ensures ended { EndIsToldOnce }
{}

/// A scene that is forgotten is no end of the program. To forget a scene that is none changes
/// nothing and says nothing.
pub fn a_forgotten_scene_is_no_end()
    ensures gone { ForgottenIsNoEnd }
    ensures others { OthersStay }
{}

/// Setting the program, a frame, forgetting a scene and choosing how the next change goes keep the
/// shape of the program.
pub fn changes_keep_the_shape()
    ensures setting { SettingKeepsShape }
    ensures frames { FramesKeepShape }
    ensures forgetting { ForgettingKeepsShape }
    ensures choosing { ChoosingKeepsShape }
{}

/// To choose how the next change goes leaves a running fade as it is.
pub fn choosing_leaves_the_fade()
    ensures shown { ChoosingKeepsShown }
{}
