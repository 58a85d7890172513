//! The sources as they stand.
ghost use Rattle.std.specs.Prelude.{◌≡◌};
ghost use Rattle.mix_model.specs.Edits.{empty_graph};

use crate::kept::{Holding, InFlight, Watching};
use mix_base::Serial;
use mix_model::Row;
use std::alloc::Global;
use std::marker::Model;

/// What a channel names: nothing, one row, or on channel 0 both ends of a fade.
pub type Channel = (Option<Serial>, Option<Serial>);

/// The sources as they stand: the rows, the registry, and all that holds and watches them. The room
/// of the dying list is kept for every row that doesn't die yet.
#[derive(Drop)]
pub struct Sources {
    pub(crate) rows: Vec<Row>,
    pub(crate) scenes: Vec<Serial>,
    pub(crate) inputs: Vec<Serial>,
    pub(crate) channels: [Channel; 64],
    pub(crate) preview: Option<Serial>,
    pub(crate) holds: Vec<Holding>,
    pub(crate) watches: Vec<Watching>,
    pub(crate) frames: Vec<InFlight>,
    pub(crate) dying: Vec<Serial>,
    pub(crate) clock: u64,
    pub(crate) next_serial: u64,
    pub(crate) next_hold: u64,
    pub(crate) next_watch: u64,
}

impl Model for Sources {
    ghost use Rattle.std.specs.Prelude.{vec_capacity};
    ghost use Rattle.mix_model.specs.State.{GraphState};
    ghost use Rattle.mix_store.specs.Searched.{InOrder};

    ghost Value = { GraphState };

    ghost view = { λ s. record {
      rows = s.rows.items;
      scenes = s.scenes.items;
      inputs = s.inputs.items;
      channels = s.channels;
      preview = s.preview;
      holds = s.holds.items;
      watches = s.watches.items;
      frames = s.frames.items;
      dying = s.dying.items;
      clock = s.clock;
      next_serial = s.next_serial;
      next_hold = s.next_hold;
      next_watch = s.next_watch;
    } };

    ghost invariant = { λ s.
        InOrder s.rows.items s.dying.items (vec_capacity s.dying) s.next_serial };
}

impl Sources {
    /// No source.
    #[tactic(auto, unfolding(mix_model::specs::Edits::empty_graph))]
    pub fn new(alloc: Global) -> Sources
        ensures value { result ≡ empty_graph }
    {
        Sources {
            rows: Vec::new(alloc),
            scenes: Vec::new(alloc),
            inputs: Vec::new(alloc),
            channels: [(None, None); 64],
            preview: None,
            holds: Vec::new(alloc),
            watches: Vec::new(alloc),
            frames: Vec::new(alloc),
            dying: Vec::new(alloc),
            clock: 0,
            next_serial: 1,
            next_hold: 1,
            next_watch: 1,
        }
    }

    pub fn rows(&self) -> &[Row]
        ensures value { result.now ≡ self.now.rows }
    {
        self.rows.as_slice()
    }
}
