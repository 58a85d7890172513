//! Frames: taking a picture of the studio, and giving it back.
ghost use Rattle.std.specs.Prelude.{◌≡◌, [], ◌∷◌, IfOk, if◌then◌else◌};
ghost use Rattle.mix_engine.specs.Numbers.{NumbersWithin};
ghost use Rattle.mix_engine.specs.Step.{outcome};
ghost use Rattle.mix_engine.specs.StepAnswers.{Stepped, Steps};
ghost use Rattle.mix_model.specs.declared.event.Event.TheVariants as event;
ghost use Rattle.mix_model.specs.declared.words.Transition.TheVariants as transition;

use crate::step_answer::silent;
use crate::{Heading, Mixing, StepAnswer};
use mix_base::NoMemory;
use mix_model::{Event, Transition};
use mix_requests::Events;
use mix_studio::Ticked;
use std::alloc::Global;

impl Mixing {
    ghost use Rattle.mix_model.specs.declared.action.Action.TheVariants as action;

    /// A frame is taken, where few enough are in flight. What is told where a fade comes to its end
    /// is made first.
    pub(crate) fn tick(&mut self, alloc: Global) -> Result<StepAnswer, NoMemory>
        requires numbers { NumbersWithin 4294967294 self.old.mixer }
        ensures steps { Steps result self.old self.new
            (outcome self.old.mixer action.VideoTick) }
    {
        self.audience.reserve(1)?;
        let mut events = fade_ended(alloc)?;
        self.studio.begin_changes();
        match self.studio.video_tick(alloc) {
            Err(_) => {
                drop(events);
                Err(NoMemory)
            }
            Ok(Ticked::NoFrame) => {
                drop(events);
                Ok(self.rest(alloc, Heading::NoFrame))
            }
            Ok(
                Ticked::Frame {
                    number,
                    shot,
                    recording,
                    ended,
                },
            ) => {
                keep_if(&mut events, ended);
                self.audience.tell_all(events.into_twins());
                self.audience.end(None);
                Ok(StepAnswer {
                    heading: Heading::Frame { number, recording },
                    said: Vec::new(alloc),
                    shot: Some(shot),
                    voices: None,
                })
            }
        }
    }

    /// A frame is given back.
    pub(crate) fn give_back(&mut self, alloc: Global, number: u64) -> StepAnswer
        ensures steps { Stepped self.old self.new result
            (outcome self.old.mixer (action.FrameDone number)) }
    {
        self.studio.begin_changes();
        if !self.studio.frame_done(number) {
            return self.rest(alloc, Heading::NoSuchFrame);
        }
        self.audience.end(None);
        silent(alloc, Heading::FrameGone { number })
    }
}

/// What is told where a fade comes to its end.
fn fade_ended(alloc: Global) -> Result<Events, NoMemory>
    ensures value { IfOk result
        (λ events. events ≡ event.SceneTransitionEnded transition.Fade ∷ []) }
{
    let mut events = Events::new(alloc);
    let told = events.tell(Event::SceneTransitionEnded {
        transition: Transition::Fade,
    });
    match told {
        Ok(()) => Ok(events),
        Err(_) => {
            drop(events);
            Err(NoMemory)
        }
    }
}

/// What is told stays where it happened.
fn keep_if(events: &mut Events, happened: bool)
    ensures value { events.new ≡ (if happened then events.old else []) }
{
    if !happened {
        events.clear();
    }
}
