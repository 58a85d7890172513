//! What follows from the definitions: each function here is a law, and its body is empty.
ghost use Rattle.mix_model.specs.Laws.{ActiveIsWalked, ShowingIsWalked, RanksStand, WeightsStand};
ghost use Rattle.mix_model.specs.Laws.{ShallowFalls, SettlingKeepsHolders, SettlingKeepsActivity};
ghost use Rattle.mix_model.specs.Laws.{SettlingKeepsShowing, SettlingIsExact, MarksSuffice};
ghost use Rattle.mix_model.specs.Laws.{DestroyedUnheld, RemovedHeld, HeldIsPlaced, AddedHeld};
ghost use Rattle.mix_model.specs.ShapeLaws.{SettlingShapes, EnablingKeepsShape};
ghost use Rattle.mix_model.specs.ShapeLaws.{LockingKeepsShape, PlacingKeepsShape};
ghost use Rattle.mix_model.specs.PictureLaws.{DrawingStands, FilledByPixels, HeardIsActive};

/// A source is active exactly where a walk leads to it from a channel, and showing exactly where one
/// leads to it from a channel or from the preview.
pub fn tests_are_walks()
    ensures active { ActiveIsWalked }
    ensures showing { ShowingIsWalked }
{}

/// More rounds leave a rank, and a weight, as they are.
pub fn more_rounds_change_nothing()
    ensures ranks { RanksStand }
    ensures weights { WeightsStand }
{}

/// Ranks of at most sixteen fall along every item: what isn't too deep has no circle.
pub fn shallow_sources_fall()
    ensures falls { ShallowFalls }
{}

/// The settling changes nobody's holders, and neither activity nor showing.
pub fn settling_keeps()
    ensures holders { SettlingKeepsHolders }
    ensures activity { SettlingKeepsActivity }
    ensures showing { SettlingKeepsShowing }
{}

/// After the settling exactly the rows without a holder die.
pub fn settling_is_exact()
    ensures dying { SettlingIsExact }
{}

/// What a graph keeps of an action's beginning is enough for the settling.
pub fn marks_suffice()
    ensures settled { MarksSuffice }
{}

/// Only what nothing holds is destroyed.
pub fn destroyed_only_unheld()
    ensures unheld { DestroyedUnheld }
{}

/// A removed source is held by holds and by frames in flight alone.
pub fn removed_is_held_by_holds_and_frames()
    ensures holders { RemovedHeld }
{}

/// A source is held exactly where some place holds it.
pub fn held_is_placed()
    ensures placed { HeldIsPlaced }
{}

/// A new item holds its child, and changes nobody else's holders.
pub fn new_item_holds_its_child()
    ensures held { AddedHeld }
{}

/// Seventeen rounds draw a row of rank sixteen whole: more of them change nothing.
pub fn more_rounds_draw_the_same()
    ensures drawn { DrawingStands }
{}

/// Bytes that have the colour of each pixel are those of the picture that these colours fill.
pub fn filled_by_pixels()
    ensures filled { FilledByPixels }
{}

/// The program and the further channels reach exactly the active rows: what is heard is active.
pub fn heard_is_active()
    ensures heard { HeardIsActive }
{}

/// What an edit leaves has, once it is settled, the shape that all sources have.
pub fn settling_shapes()
    ensures shape { SettlingShapes }
{}

/// To change an item where it stands keeps the shape.
pub fn item_edits_keep_the_shape()
    ensures enabling { EnablingKeepsShape }
    ensures locking { LockingKeepsShape }
    ensures placing { PlacingKeepsShape }
{}
