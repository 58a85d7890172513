//! A studio: sources, program, clocks and format.
ghost use Rattle.std.specs.Prelude.{◌≡◌, IsTrue};
ghost use Rattle.std.specs.Borrow.{sem};
ghost use Rattle.mix_model.specs.WholeShape.{StudioShape};

use crate::recording::Recording;
use mix_base::Rate;
use mix_graph::Graph;
use mix_transition::ProgramBus;
use std::marker::Model;

/// A studio: its sources, its program, and what its pictures, its sound and its records are made
/// with. An action begins with `begin_changes`.
#[derive(Drop)]
pub struct Studio {
    pub(crate) graph: Graph,
    pub(crate) bus: ProgramBus,
    pub(crate) canvas: (u32, u32),
    pub(crate) rate: Rate,
    pub(crate) i420: bool,
    pub(crate) tracks: u8,
    pub(crate) studio_mode: bool,
    pub(crate) audio_clock: u64,
    /// So far none begins.
    pub(crate) recording: Recording,
}

impl Model for Studio {
    ghost use Rattle.std.specs.Prelude.{◌≡◌};
    ghost use Rattle.mix_model.specs.Recordings.{no_recording};
    ghost use Rattle.mix_studio.specs.Studios.{StudioModel};

    ghost Value = { StudioModel };

    ghost view = { λ s. record {
      begun = s.graph.begun;
      present = record {
        graph = s.graph.present;
        program = s.bus;
        canvas = s.canvas;
        rate = s.rate;
        i420 = s.i420;
        tracks = s.tracks;
        studio_mode = s.studio_mode;
        audio_clock = s.audio_clock;
        recording = s.recording;
      };
    } };

    ghost invariant = { λ s. s.recording ≡ no_recording };
}

impl Studio {
    ghost use Rattle.mix_studio.specs.Lending.{LendsGraph};
    ghost use Rattle.mix_studio.specs.Studios.{graph_in, keeps_activity, studio_begun};

    /// The sources.
    pub fn graph(&self) -> &Graph
        ensures value { result.now ≡ graph_in self.now }
    {
        &self.graph
    }

    /// The sources, to be edited. Whoever edits them leaves channel 0 with what the program shows,
    /// and the frames in flight and the clock as they are.
    pub fn graph_mut(&mut self) -> &mut Graph
        ensures* lends { sem 𝓛 (LendsGraph self.entry result) }
        ensures value { result.now ≡ graph_in self.old }
    {
        &mut self.graph
    }

    /// An action begins: what changes is told against what stands now.
    pub fn begin_changes(&mut self)
        requires shape { StudioShape self.old.present }
        ensures state { self.new ≡ studio_begun self.old }
        ensures settled { IsTrue (keeps_activity self.new) }
        ensures shape { StudioShape self.new.present }
    {
        self.graph.begin_changes();
    }

    /// The program.
    pub fn bus(&self) -> &ProgramBus
        ensures value { result.now ≡ self.now.present.program }
    {
        &self.bus
    }

    /// Whether the studio is in studio mode.
    pub fn studio_mode(&self) -> bool
        ensures value { result ≡ self.now.present.studio_mode }
    {
        self.studio_mode
    }

    /// Width and height of the picture in pixels.
    pub fn canvas(&self) -> (u32, u32)
        ensures value { result ≡ self.now.present.canvas }
    {
        self.canvas
    }

    /// The rate of frames.
    pub fn rate(&self) -> Rate
        ensures value { result ≡ self.now.present.rate }
    {
        self.rate
    }

    /// The clock of pictures and the clock of sound, in ticks.
    pub fn clocks(&self) -> (u64, u64)
        ensures value { result
            ≡ (self.now.present.graph.clock, self.now.present.audio_clock) }
    {
        (self.graph.clock(), self.audio_clock)
    }
}
