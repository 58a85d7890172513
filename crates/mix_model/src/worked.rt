//! Small situations, as the rules work them out: each function here states one, and its body is empty.
ghost use Rattle.std.specs.Prelude.{◌≡◌, true, false, [], ◌∷◌, codes, option_map};
ghost use Rattle.mix_model.specs.declared.change.Change.TheVariants.{Active, Showing};
ghost use Rattle.mix_model.specs.declared.fault.GraphFault.TheVariants.{Cycle};
ghost use Rattle.mix_model.specs.Lookups.{children};
ghost use Rattle.mix_model.specs.Holders.{find_named, has_name};
ghost use Rattle.mix_model.specs.Walks.{is_active, is_showing, upgrade};
ghost use Rattle.mix_model.specs.Settle.{told_changes};
ghost use Rattle.mix_model.specs.State.{Rest, Fade};
ghost use Rattle.mix_model.specs.Program.{set_program, same_program, advance_program, forget_scene};
ghost use Rattle.mix_model.specs.Causes.{item_early, item_late};
ghost use Rattle.mix_model.specs.Edits.{item_added};
ghost use Rattle.mix_model.specs.Shape.{GraphShape};
ghost use Rattle.mix_model.specs.WholeShape.{StudioShape};
ghost use Rattle.mix_model.specs.Opening.{opening_of};
ghost use Rattle.mix_model.specs.Worked.{two_items, one_hidden, both_hidden, previewed};
ghost use Rattle.mix_model.specs.Worked.{group_hidden, three_deep, plain, scene_gone};
ghost use Rattle.mix_model.specs.Worked.{one_destroyed, two_destroyed, thirty, fading, one_frame};
ghost use Rattle.mix_model.specs.Worked.{three_frames, one_scene, one_scene_studio, name_again};
ghost use Rattle.mix_model.specs.Worked.{frame_out, frame_back, turned_back};

/// A source that two items show stays active while one of them is enabled.
pub fn two_items_of_one_source()
    ensures active { is_active two_items 2 ≡ true }
    ensures one { told_changes two_items one_hidden ≡ [] }
    ensures both { told_changes one_hidden both_hidden ≡ Active 2 false ∷ (Showing 2 false ∷ []) }
{}

/// A source that the preview shows, and the program no longer, is showing but not active.
pub fn showing_but_not_active()
    ensures told { told_changes previewed group_hidden ≡ Active 2 false ∷ [] }
    ensures active { is_active group_hidden 2 ≡ false }
    ensures showing { is_showing group_hidden 2 ≡ true }
{}

/// A scene that is shown in another one can't show it; an input can be shown there.
pub fn cycle_refused()
    ensures early { item_early three_deep 3 1 ≡ None }
    ensures late { item_late three_deep 3 1 (item_added 3 1 plain three_deep) ≡ Some Cycle }
    ensures input { item_late three_deep 3 4 (item_added 3 4 plain three_deep) ≡ None }
{}

/// What a removed scene shows is held until that scene is destroyed.
pub fn destroyed_one_step_at_a_time()
    ensures scene { scene_gone.dying ≡ 2 ∷ [] }
    ensures held { upgrade scene_gone 3 ≡ Some 3 }
    ensures group { one_destroyed.dying ≡ 3 ∷ [] }
    ensures unheld { upgrade one_destroyed 3 ≡ None }
    ensures none { two_destroyed.dying ≡ [] }
{}

/// A watch yields nothing once its source is destroyed, also when another source gets the name.
pub fn watch_after_the_name_comes_again()
    ensures gone { upgrade name_again 2 ≡ None }
    ensures new { option_map (λ row. row.serial) (find_named name_again (codes "red")) ≡ Some 3 }
    ensures item { children name_again 1 ≡ 3 ∷ [] }
{}

/// What a frame in flight lists isn't destroyed until the frame is given back.
pub fn a_frame_holds_a_source()
    ensures held { frame_out.dying ≡ [] }
    ensures unnamed { has_name frame_out (codes "red") ≡ false }
    ensures released { frame_back.dying ≡ 2 ∷ [] }
{}

/// A fade that is turned back ends at its target first, and begins again from there.
pub fn fade_turned_back()
    ensures turned { turned_back.shown ≡ Fade 2 1 0 4 }
    ensures stays { set_program turned_back thirty 1 ≡ same_program turned_back }
{}

/// A fade of 120 milliseconds at thirty frames a second has four frames; to its target nothing is set,
/// and without its target it is at rest where it began.
pub fn fade_of_four_frames()
    ensures begins { fading.shown ≡ Fade 1 2 0 4 }
    ensures goes_on { one_frame.shown ≡ Fade 1 2 1 4 }
    ensures ends { (advance_program three_frames).program.shown ≡ Rest 2 }
    ensures told { (advance_program three_frames).change.ended ≡ true }
    ensures stays { set_program one_frame thirty 2 ≡ same_program one_frame }
    ensures forgotten { (forget_scene one_frame 2 3).program.shown ≡ Rest 1 }
{}

/// A collection opens as a studio that has the shape of every studio.
pub fn one_scene_opens()
    ensures opens { opening_of one_scene ≡ Ok one_scene_studio }
    ensures shape { StudioShape one_scene_studio }
    ensures removed { GraphShape scene_gone }
{}
