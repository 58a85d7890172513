//! What is told of a change of the program.
ghost use Rattle.std.specs.Prelude.{◌≡◌, ◌<◌, ◌^◌, ◌++◌, OnOk, is_some, true};
ghost use Rattle.mix_events.specs.Sayable.{IsSayableEvent};
ghost use Rattle.mix_base.specs.declared.rate.Rate.{Rate};
ghost use Rattle.mix_model.specs.Lookups.{row_of};
ghost use Rattle.mix_model.specs.Program.{set_program};
ghost use Rattle.mix_requests.specs.Programs.{change_events, event_if, transition_of};

use crate::Events;
use crate::named::name_of;
use mix_base::{NoMemory, Serial};
use mix_graph::Graph;
use mix_model::{Event, Transition};
use mix_transition::{BusChange, ProgramBus};

/// What it would be to set the program to a scene, whatever the rate of frames.
#[tactic(auto, using(crate::proofs::ProgramLemmas::fades_to_its_end), unfolding(mix_model::specs::Program::set_program))]
pub fn change_to(bus: &ProgramBus, scene: Serial) -> BusChange
    ensures value { (rate : Rate) → result ≡ (set_program bus.now rate scene).change }
{
    if bus.target() == scene {
        return BusChange {
            ended: false,
            started: false,
            target: false,
        };
    }
    BusChange {
        ended: bus.ends().1.is_some(),
        started: true,
        target: true,
    }
}

/// A change of the program comes after what is told already: the fade that ran has ended, a transition
/// begins, the program has another target, and a cut is over at once.
#[tactic(auto, unfolding(crate::specs::Programs::change_events))]
pub fn tell_change(
    events: &mut Events,
    graph: &Graph,
    fades: bool,
    target: Serial,
    change: BusChange,
) -> Result<(), NoMemory>
    requires there { is_some (row_of graph.now.present target) ≡ true }
    requires short { target < 2 ^ 48 }
    ensures ok { OnOk result (events.new
        ≡ events.old ++ change_events graph.now.present fades target change) }
{
    tell_if(
        events,
        change.ended,
        Event::SceneTransitionEnded {
            transition: Transition::Fade,
        },
    )?;
    tell_if(
        events,
        change.started,
        Event::SceneTransitionStarted {
            transition: transition_of(fades),
        },
    )?;
    tell_if(
        events,
        change.target,
        Event::CurrentProgramSceneChanged {
            scene: name_of(graph, target),
            serial: target,
        },
    )?;
    tell_if(
        events,
        change.started && !fades,
        Event::SceneTransitionEnded {
            transition: Transition::Cut,
        },
    )
}

/// An event comes after the others, where it happens.
fn tell_if(events: &mut Events, happens: bool, event: Event) -> Result<(), NoMemory>
    requires sayable { IsSayableEvent event }
    ensures ok { OnOk result (events.new ≡ events.old ++ event_if happens event) }
{
    if happens {
        events.tell(event)
    } else {
        drop(event);
        Ok(())
    }
}

/// How the program changes.
fn transition_of(fades: bool) -> Transition
    ensures value { result ≡ transition_of fades }
{
    if fades {
        Transition::Fade
    } else {
        Transition::Cut
    }
}
