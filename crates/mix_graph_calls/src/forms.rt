//! The lines of a scenario: each call by its form.

/// A call that makes something, or asks for a hold, a watch or a frame.
#[derive(Clone, Copy)]
pub enum Making {
    Scene,
    Group,
    Tone,
    ShownTone,
    Item,
    Duplicate,
    Hold,
    Watch,
    Frame,
}

/// A call that changes an item or a name.
#[derive(Clone, Copy)]
pub enum Editing {
    Enable,
    Disable,
    Lock,
    Unlock,
    Blend,
    Move,
    Rename,
}

/// A call that lets something go.
#[derive(Clone, Copy)]
pub enum Ending {
    Take,
    Remove,
    Destroy,
    Release,
    Unwatch,
    EndFrame,
}

/// A call on channels, the preview, and the beginning of an action.
#[derive(Clone, Copy)]
pub enum Showing {
    Rest,
    Fade,
    Channel,
    ClearChannel,
    Preview,
    ClearPreview,
    Begin,
    Clock,
}

/// A question on one source or item.
#[derive(Clone, Copy)]
pub enum Looking {
    Find,
    IsActive,
    IsShowing,
    IsNamed,
    IsThere,
    ItemAt,
    Items,
    Since,
}

/// A question on all of them.
#[derive(Clone, Copy)]
pub enum Counting {
    Active,
    Showing,
    Changes,
    Channel,
    Preview,
    Query,
    Dying,
    Frames,
    Clock,
    Shape,
}

/// A question on what comes next.
#[derive(Clone, Copy)]
pub enum Next {
    Serial,
    Hold,
    Watch,
    Row,
    Scene,
    Input,
}

/// A call of a scenario.
#[derive(Clone, Copy)]
pub enum Call {
    Make(Making),
    Edit(Editing),
    End(Ending),
    Show(Showing),
    Look(Looking),
    Count(Counting),
    Next(Next),
}

/// The forms of lines: `#` stands for a number, `_` for a name.
pub static FORMS: [(&str, Call); 54] = [
    ("scene _", Call::Make(Making::Scene)),
    ("group _ in #", Call::Make(Making::Group)),
    ("tone _", Call::Make(Making::Tone)),
    ("tone _ in #", Call::Make(Making::ShownTone)),
    ("item of # in #", Call::Make(Making::Item)),
    ("copy item # of # to #", Call::Make(Making::Duplicate)),
    ("hold #", Call::Make(Making::Hold)),
    ("watch #", Call::Make(Making::Watch)),
    ("frame #", Call::Make(Making::Frame)),
    ("enable # of #", Call::Edit(Editing::Enable)),
    ("disable # of #", Call::Edit(Editing::Disable)),
    ("lock # of #", Call::Edit(Editing::Lock)),
    ("unlock # of #", Call::Edit(Editing::Unlock)),
    ("blend # of # by _", Call::Edit(Editing::Blend)),
    ("move # of # to #", Call::Edit(Editing::Move)),
    ("rename # to _", Call::Edit(Editing::Rename)),
    ("take # of #", Call::End(Ending::Take)),
    ("remove #", Call::End(Ending::Remove)),
    ("destroy", Call::End(Ending::Destroy)),
    ("release #", Call::End(Ending::Release)),
    ("drop watch #", Call::End(Ending::Unwatch)),
    ("end frame #", Call::End(Ending::EndFrame)),
    ("rest on #", Call::Show(Showing::Rest)),
    ("fade # to #", Call::Show(Showing::Fade)),
    ("put # on channel #", Call::Show(Showing::Channel)),
    ("clear channel #", Call::Show(Showing::ClearChannel)),
    ("put # on preview", Call::Show(Showing::Preview)),
    ("clear preview", Call::Show(Showing::ClearPreview)),
    ("begin", Call::Show(Showing::Begin)),
    ("clock #", Call::Show(Showing::Clock)),
    ("find _", Call::Look(Looking::Find)),
    ("is # active", Call::Look(Looking::IsActive)),
    ("is # showing", Call::Look(Looking::IsShowing)),
    ("is # named", Call::Look(Looking::IsNamed)),
    ("is # there", Call::Look(Looking::IsThere)),
    ("item at # of #", Call::Look(Looking::ItemAt)),
    ("items of #", Call::Look(Looking::Items)),
    ("since of #", Call::Look(Looking::Since)),
    ("active", Call::Count(Counting::Active)),
    ("showing", Call::Count(Counting::Showing)),
    ("changes", Call::Count(Counting::Changes)),
    ("channel #", Call::Count(Counting::Channel)),
    ("preview", Call::Count(Counting::Preview)),
    ("query #", Call::Count(Counting::Query)),
    ("dying", Call::Count(Counting::Dying)),
    ("frames", Call::Count(Counting::Frames)),
    ("clock", Call::Count(Counting::Clock)),
    ("shape", Call::Count(Counting::Shape)),
    ("next serial", Call::Next(Next::Serial)),
    ("next hold", Call::Next(Next::Hold)),
    ("next watch", Call::Next(Next::Watch)),
    ("row after #", Call::Next(Next::Row)),
    ("scene at #", Call::Next(Next::Scene)),
    ("input at #", Call::Next(Next::Input)),
];
