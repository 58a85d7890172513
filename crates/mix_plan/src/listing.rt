//! A list of draws while it is made.
ghost use Rattle.std.specs.Prelude.{◌≡◌, ◌++◌, ◌∷◌, [], ◌-◌, OnOk, take, length};
ghost use Rattle.mix_plan.specs.Listed.{has_pixels, draws_with};

use mix_base::{ListOf, NoMemory};
use mix_model::{Blend, Draw, DrawList, RowView, Settings, Step};
use std::alloc::Global;

/// The draws so far, and the steps that lead from the canvas to where the listing stands.
#[derive(Drop)]
pub struct Listing {
    pub steps: Vec<Step>,
    pub draws: Vec<Draw>,
}

impl Listing {
    pub fn new(alloc: Global) -> Listing
        ensures steps { result.steps.items ≡ [] }
        ensures draws { result.draws.items ≡ [] }
    {
        Listing {
            steps: Vec::new(alloc),
            draws: Vec::new(alloc),
        }
    }

    /// Goes one step further in.
    pub fn enter(&mut self, step: Step) -> Result<(), NoMemory>
        ensures steps { OnOk result (self.new.steps.items ≡ self.old.steps.items ++ step ∷ []) }
        ensures draws { OnOk result (self.new.draws.items ≡ self.old.draws.items) }
    {
        self.steps.push(step)?;
        Ok(())
    }

    /// Goes back by the last step.
    pub fn leave(&mut self)
        ensures steps { self.new.steps.items
            ≡ take (length self.old.steps.items - 1) self.old.steps.items }
        ensures draws { self.new.draws.items ≡ self.old.draws.items }
    {
        self.steps.pop();
    }

    /// Lists an input at the end of the steps, where it has pixels.
    pub fn add(&mut self, alloc: Global, row: &RowView<'_>, blend: Blend) -> Result<(), NoMemory>
        ensures steps { OnOk result (self.new.steps.items ≡ self.old.steps.items) }
        ensures draws { OnOk result (self.new.draws.items ≡ self.old.draws.items
            ++ draws_with self.old.steps.items blend row.now.settings.now row.now.since) }
    {
        if !has_pixels(row.settings) {
            return Ok(());
        }
        self.draws.reserve(1)?;
        let steps = Vec::from_slice(alloc, self.steps.as_slice())?;
        let Ok(settings) = row.settings.copy() else {
            drop(steps);
            return Err(NoMemory);
        };
        self.draws.push_reserved(Draw {
            settings,
            since: row.since,
            steps: ListOf::from_vec(steps),
            blend,
        });
        Ok(())
    }

    pub fn into_draws(self) -> DrawList
        ensures { result ≡ self.draws.items }
    {
        let Listing { draws, .. } = self;
        ListOf::from_vec(draws)
    }
}

/// Whether an input with these settings has a picture with pixels.
fn has_pixels(settings: &Settings) -> bool
    ensures { result ≡ has_pixels settings.now }
{
    let (width, height) = settings.size((0, 0));
    0 < width && 0 < height
}
