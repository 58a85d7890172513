//! Calls on channels and the preview, and the beginning of an action.
ghost use Rattle.std.specs.Prelude.{◌≤◌};

use crate::answer::{Answer, done};
use crate::forms::Showing;
use crate::given::Given;
use crate::room::may_be_program;
use crate::stage::Stage;
use mix_base::Serial;
use mix_graph::Graph;

/// An action begins, and its clock is this one.
fn begin_at(graph: &mut Graph, clock: u64)
    requires { graph.old.present.clock ≤ clock }
{
    graph.begin_changes();
    graph.set_clock(clock);
}

impl Stage {
    /// The program comes to rest on a scene.
    fn rest(&mut self, on: Serial) -> Answer {
        if !may_be_program(&self.graph, on) {
            return Answer::Beyond;
        }
        done(self.graph.set_channel(0, Some(on), None))
    }

    /// The program fades from one scene to another.
    fn fade(&mut self, from: Serial, to: Serial) -> Answer {
        if from == to || !may_be_program(&self.graph, from) || !may_be_program(&self.graph, to) {
            return Answer::Beyond;
        }
        done(self.graph.set_channel(0, Some(from), Some(to)))
    }

    /// A channel besides the program names one source, or none.
    fn name_on(&mut self, channel: u32, source: Option<Serial>) -> Answer {
        if channel == 0 || channel >= 64 {
            return Answer::Beyond;
        }
        done(self.graph.set_channel(channel, source, None))
    }

    /// The preview refers to a scene.
    fn show_on_preview(&mut self, scene: Serial) -> Answer {
        if !may_be_program(&self.graph, scene) {
            return Answer::Beyond;
        }
        done(self.graph.set_preview(Some(scene)))
    }

    fn clear_preview(&mut self) -> Answer {
        done(self.graph.set_preview(None))
    }

    fn begin(&mut self) -> Answer {
        self.graph.begin_changes();
        Answer::Done
    }

    /// An action begins, at a clock that isn't below the present one.
    fn tick(&mut self, clock: u64) -> Answer {
        if clock < self.graph.clock() {
            return Answer::Beyond;
        }
        begin_at(&mut self.graph, clock);
        Answer::Done
    }

    pub fn show(&mut self, showing: Showing, given: &Given<'_>) -> Answer {
        let [first, second, _] = given.numbers;
        match showing {
            Showing::Rest => self.rest(given.source()),
            Showing::Fade => self.fade(given.source(), given.second()),
            Showing::Channel => self.name_on(second, Some(given.source())),
            Showing::ClearChannel => self.name_on(first, None),
            Showing::Preview => self.show_on_preview(given.source()),
            Showing::ClearPreview => self.clear_preview(),
            Showing::Begin => self.begin(),
            Showing::Clock => self.tick(given.number()),
        }
    }
}
