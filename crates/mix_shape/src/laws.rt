//! What the edits keep: each function here is a law, and its body is empty.
ghost use Rattle.mix_shape.specs.Laws.{SceneKeepsShape, GroupKeepsShape, InputKeepsShape};
ghost use Rattle.mix_shape.specs.Laws.{SceneLetsLive, GroupLetsLive, InputLetsLive};
ghost use Rattle.mix_shape.specs.Laws.{ItemKeepsShape, CopyKeepsShape, TakingKeepsShape};
ghost use Rattle.mix_shape.specs.Laws.{MovingKeepsShape, SettingKeepsShape, RenamingKeepsShape};
ghost use Rattle.mix_shape.specs.Laws.{RemovalKeepsShape, DestructionKeepsShape, HoldKeepsShape};
ghost use Rattle.mix_shape.specs.Laws.{ReleaseKeepsShape, WatchKeepsShape, DropKeepsShape};
ghost use Rattle.mix_shape.specs.Laws.{LetGoKeepsShape};
ghost use Rattle.mix_shape.specs.Laws.{FrameKeepsShape, EndKeepsShape, ChannelKeepsShape};
ghost use Rattle.mix_shape.specs.Laws.{PreviewKeepsShape, ClockKeepsShape, EmptyHasShape};
ghost use Rattle.mix_shape.specs.Laws.{SceneCausesStand, InputCausesStand, ItemCausesStand};
ghost use Rattle.mix_shape.specs.Laws.{SettlingLeaves};

/// A scene, a group or an input that isn't refused keeps the shape.
pub fn new_sources_keep_the_shape()
    ensures scene { SceneKeepsShape }
    ensures group { GroupKeepsShape }
    ensures input { InputKeepsShape }
{}

/// Something holds a new source, and what was held stays so: no row begins to die.
pub fn new_sources_let_all_live()
    ensures scene { SceneLetsLive }
    ensures group { GroupLetsLive }
    ensures input { InputLetsLive }
{}

/// An item, or a copy of one, that isn't refused keeps the shape.
pub fn new_items_keep_the_shape()
    ensures added { ItemKeepsShape }
    ensures copied { CopyKeepsShape }
{}

/// To take an item out keeps the shape, and so does to move one.
pub fn fewer_and_moved_items_keep_the_shape()
    ensures taken { TakingKeepsShape }
    ensures moved { MovingKeepsShape }
{}

/// Settings that an input may have keep the shape, and so does a name that no named row has.
pub fn changed_sources_keep_the_shape()
    ensures set { SettingKeepsShape }
    ensures renamed { RenamingKeepsShape }
{}

/// A source that is removed, and one that is destroyed, leave the others in shape.
pub fn leaving_sources_keep_the_shape()
    ensures removed { RemovalKeepsShape }
    ensures destroyed { DestructionKeepsShape }
{}

/// Holds, watches and frames keep the shape, when they are made and when they end.
pub fn holds_keep_the_shape()
    ensures held { HoldKeepsShape }
    ensures released { ReleaseKeepsShape }
    ensures watched { WatchKeepsShape }
    ensures dropped { DropKeepsShape }
    ensures let_go { LetGoKeepsShape }
    ensures taken { FrameKeepsShape }
    ensures ended { EndKeepsShape }
{}

/// What channels name, what the preview refers to, and the clock keep the shape.
pub fn channels_preview_and_clock_keep_the_shape()
    ensures channel { ChannelKeepsShape }
    ensures preview { PreviewKeepsShape }
    ensures clock { ClockKeepsShape }
{}

/// No sources have the shape.
pub fn no_sources_have_the_shape()
    ensures empty { EmptyHasShape }
{}

/// Why something new is refused can be said of the sources as they are, before it is made.
pub fn causes_stand_before()
    ensures scene { SceneCausesStand }
    ensures input { InputCausesStand }
    ensures item { ItemCausesStand }
{}

/// Where rows stay, nobody becomes active and nothing loses its holders, the settling changes nothing.
pub fn settling_leaves_what_stands()
    ensures unchanged { SettlingLeaves }
{}
