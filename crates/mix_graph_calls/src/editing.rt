//! Calls that change an item or a name.
use crate::answer::{Answer, done};
use crate::forms::Editing;
use crate::given::Given;
use crate::reading::blend_of;
use crate::room::corner;
use crate::stage::Stage;
use mix_base::{ItemId, Name, Serial};
use mix_graph::Rename;

impl Stage {
    fn enable(&mut self, item: ItemId, parent: Serial, enabled: bool) -> Answer {
        done(self.graph.set_enabled(parent, item, enabled))
    }

    fn lock(&mut self, item: ItemId, parent: Serial, locked: bool) -> Answer {
        done(self.graph.set_locked(parent, item, locked))
    }

    /// The item stands in the corner, as a new one does, and its pixels meet those below by this mode.
    fn blend(&mut self, item: ItemId, parent: Serial, mode: &str) -> Answer {
        match blend_of(mode) {
            Some(blend) => done(self.graph.set_place(parent, item, corner(), blend)),
            None => Answer::Beyond,
        }
    }

    fn move_item(&mut self, item: ItemId, parent: Serial, index: u32) -> Answer {
        done(self.graph.set_index(parent, item, index))
    }

    fn rename(&mut self, serial: Serial, text: &str) -> Answer {
        let Ok(name) = Name::read(text.as_bytes()) else {
            return Answer::Beyond;
        };
        match self.graph.rename(serial, name) {
            Ok(()) => Answer::Done,
            Err(Rename::Missing) => Answer::Missing,
            Err(Rename::Exists) => Answer::Taken,
        }
    }

    pub fn edit(&mut self, editing: Editing, given: &Given<'_>) -> Answer {
        let (item, parent) = (given.item(), given.second());
        match editing {
            Editing::Enable => self.enable(item, parent, true),
            Editing::Disable => self.enable(item, parent, false),
            Editing::Lock => self.lock(item, parent, true),
            Editing::Unlock => self.lock(item, parent, false),
            Editing::Blend => self.blend(item, parent, given.name),
            Editing::Move => self.move_item(item, parent, given.numbers[2]),
            Editing::Rename => self.rename(given.source(), given.name),
        }
    }
}
