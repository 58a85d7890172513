//! What one step answers.
ghost use Rattle.std.specs.Prelude.{[]};
ghost use Rattle.mix_engine.specs.StepAnswers.{Says};

use crate::Heading;
use mix_events::Said;
use mix_model::{Shot, VoiceList};
use std::alloc::Global;

/// What one step answers: what heads the reply, what is said to the one that acts, for a frame a shot
/// of what it shows, and for a block the voices that it has. So far no action gives a block.
#[derive(Drop)]
pub struct StepAnswer {
    pub heading: Heading,
    pub said: Vec<Said>,
    pub shot: Option<Shot>,
    pub voices: Option<VoiceList>,
}

/// An answer that says nothing.
pub fn silent(alloc: Global, heading: Heading) -> StepAnswer
    ensures says { Says result heading [] }
{
    StepAnswer {
        heading,
        said: Vec::new(alloc),
        shot: None,
        voices: None,
    }
}

/// An answer that says this.
pub fn saying(heading: Heading, said: Vec<Said>) -> StepAnswer
    ensures says { Says result heading said.items }
{
    StepAnswer {
        heading,
        said,
        shot: None,
        voices: None,
    }
}
