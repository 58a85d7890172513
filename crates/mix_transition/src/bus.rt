//! The program bus.
ghost use Rattle.std.specs.Prelude.{◌≡◌, ◌≢◌, ◌<◌, IsTrue, IfSome, false};
ghost use Rattle.mix_base.specs.Rates.{is_rate};
ghost use Rattle.mix_model.specs.State.{Rest};
ghost use Rattle.mix_model.specs.Program.{advance_program, forget_scene, set_program, target_of};
ghost use Rattle.mix_model.specs.Program.{towards, weights_of};
ghost use Rattle.mix_model.specs.Values.{is_duration};
ghost use Rattle.mix_model.specs.Voices.{ends_of};

use crate::change::BusChange;
use crate::program::Program;
use mix_base::{Rate, Serial, frames_of};
use std::marker::Model;

/// How long the fades of a new bus take, in milliseconds.
const NEW_DURATION: u32 = 300;

/// The program of a studio, as libobs has it on channel 0: a scene at rest, or a fade from one
/// scene to another; and how its next change goes, by a cut or by a fade, and how long a fade takes.
#[derive(Drop)]
pub struct ProgramBus {
    program: Program,
    fades: bool,
    duration: u32,
}

impl Model for ProgramBus {
    ghost use Rattle.mix_model.specs.State.{ProgramState};

    ghost Value = { ProgramState };

    ghost use Rattle.mix_transition.specs.Shape.{BusShape};
    ghost use Rattle.mix_transition.specs.Inside.{state_of};

    ghost view = { state_of };

    ghost invariant = { λ bus. BusShape (state_of bus) };
}

impl ProgramBus {
    ghost use Rattle.mix_transition.specs.Seen.{shown_by};
    ghost use Rattle.mix_transition.specs.Shape.{BusShape};

    /// At rest on a scene. The next change is a cut; a fade would take 300 milliseconds.
    pub fn new(scene: Serial) -> ProgramBus
        ensures value { result ≡ record { shown = Rest scene; fades = false; duration = 300 } }
    {
        ProgramBus {
            program: Program::AtRest(scene),
            fades: false,
            duration: NEW_DURATION,
        }
    }

    /// The scene at rest, or the one that the fade goes to.
    pub fn target(&self) -> Serial
        ensures value { result ≡ target_of self.now.shown }
    {
        self.program.target()
    }

    /// The scene at rest, or the one that the fade comes from and the one that it goes to.
    pub fn ends(&self) -> (Serial, Option<Serial>)
        ensures value { result ≡ ends_of self.now.shown }
        ensures differ { IfSome result.1 (λ to. result.0 ≢ to) }
    {
        self.program.ends()
    }

    /// How many frames of how many the fade has passed; 0 of 1 at rest.
    pub fn weights(&self) -> (u32, u32)
        ensures value { result ≡ weights_of self.now.shown }
        ensures running { result.0 < result.1 }
    {
        self.program.weights()
    }

    /// Sets the program to a scene, as SetCurrentProgramScene of obs-websocket 5 does. To set it to
    /// its target changes nothing. Else a running fade ends at its own target, and from there the
    /// program cuts to the scene, or a fade to it begins.
    #[tactic(auto, unfolding(mix_model::specs::Program::set_program))]
    pub fn set(&mut self, scene: Serial, rate: Rate) -> BusChange
        requires rate { IsTrue (is_rate rate) }
        ensures state { self.new ≡ (set_program self.old rate scene).program }
        ensures value { result ≡ (set_program self.old rate scene).change }
    {
        if self.program.target() == scene {
            return BusChange::none();
        }
        let ended = self.program.is_fading();
        self.program = self.towards(scene, rate);
        BusChange {
            ended,
            started: true,
            target: true,
        }
    }

    /// What a change to a scene shows at once.
    fn towards(&self, scene: Serial, rate: Rate) -> Program
        requires rate { IsTrue (is_rate rate) }
        ensures value { shown_by result ≡ towards self.now rate scene }
    {
        if self.fades {
            Program::Fading {
                from: self.program.target(),
                to: scene,
                passed: 0,
                frames: frames_of(self.duration, rate),
            }
        } else {
            Program::AtRest(scene)
        }
    }

    /// A frame more: a fade that has passed its last one is at rest on its target.
    #[tactic(auto, unfolding(mix_model::specs::Program::advance_program))]
    pub fn advance(&mut self) -> BusChange
        ensures state { self.new ≡ (advance_program self.old).program }
        ensures value { result ≡ (advance_program self.old).change }
    {
        let before = self.program;
        self.program = before.a_frame_later();
        BusChange {
            ended: before.is_fading() && !self.program.is_fading(),
            started: false,
            target: false,
        }
    }

    /// The scene is no longer there. A fade that it is an end of rests on its other end, and a
    /// program that rests on it rests on the other scene instead, also where a fade is chosen.
    #[tactic(auto, unfolding(mix_model::specs::Program::forget_scene))]
    pub fn forget(&mut self, scene: Serial, other: Serial) -> BusChange
        ensures state { self.new ≡ (forget_scene self.old scene other).program }
        ensures value { result ≡ (forget_scene self.old scene other).change }
    {
        let before = self.program;
        self.program = before.without(scene, other);
        BusChange {
            ended: before.is_fading() && !self.program.is_fading(),
            started: false,
            target: self.program.target() != before.target(),
        }
    }

    /// Chooses a fade or a cut for the next change.
    pub fn choose(&mut self, fade: bool)
        ensures state { self.new ≡ record self.old { fades = fade } }
    {
        self.fades = fade;
    }

    /// Sets how long the next fade takes, in milliseconds.
    pub fn set_duration(&mut self, ms: u32)
        requires range { IsTrue (is_duration ms) }
        ensures state { self.new ≡ record self.old { duration = ms } }
    {
        self.duration = ms;
    }

    /// Whether the next change is a fade.
    pub fn fade(&self) -> bool
        ensures value { result ≡ self.now.fades }
    {
        self.fades
    }

    /// How long a fade takes, in milliseconds.
    pub fn duration(&self) -> u32
        ensures value { result ≡ self.now.duration }
        ensures range { IsTrue (is_duration result) }
    {
        self.duration
    }

    /// Each bus has the shape of the program of every studio, between any two calls. It does
    /// nothing.
    pub fn has_shape(&self)
        ensures shape { BusShape self.now }
    {
        let _ = &self.duration;
    }
}
