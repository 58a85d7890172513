//! Calls that let something go.
use crate::answer::{Answer, done};
use crate::forms::Ending;
use crate::given::Given;
use crate::room::{is_no_group, is_off_program};
use crate::stage::Stage;
use mix_base::{ItemId, Serial};

impl Stage {
    fn take(&mut self, item: ItemId, parent: Serial) -> Answer {
        done(self.graph.remove_item(parent, item))
    }

    /// A scene or an input that the program doesn't name is removed.
    fn remove(&mut self, serial: Serial) -> Answer {
        if !is_no_group(&self.graph, serial) || !is_off_program(&self.graph, serial) {
            return Answer::Beyond;
        }
        done(self.graph.remove_source(serial))
    }

    fn destroy(&mut self) -> Answer {
        Answer::Maybe(self.graph.destroy_next())
    }

    fn release(&mut self, hold: u64) -> Answer {
        done(self.graph.release_hold(hold))
    }

    fn unwatch(&mut self, watch: u64) -> Answer {
        done(self.graph.drop_watch(watch))
    }

    fn end_frame(&mut self, number: u64) -> Answer {
        done(self.graph.release_frame(number))
    }

    pub fn end(&mut self, ending: Ending, given: &Given<'_>) -> Answer {
        match ending {
            Ending::Take => self.take(given.item(), given.second()),
            Ending::Remove => self.remove(given.source()),
            Ending::Destroy => self.destroy(),
            Ending::Release => self.release(given.number()),
            Ending::Unwatch => self.unwatch(given.number()),
            Ending::EndFrame => self.end_frame(given.number()),
        }
    }
}
