//! What a studio shows.
ghost use Rattle.std.specs.Prelude.{◌≡◌, ◌++◌, [], ◌∷◌, IfOk, IsTrue, OnOk, option_to_list};
ghost use Rattle.std.specs.List.{list_all};
ghost use Rattle.mix_model.specs.Lookups.{has_row, named_by};
ghost use Rattle.mix_model.specs.Pictures.{side_roots};
ghost use Rattle.mix_model.specs.WholeShape.{StudioShape};

use crate::Studio;
use mix_base::{NoMemory, Serial};
use mix_model::{DrawList, Shot};
use mix_plan::plan;
use std::alloc::Global;

impl Studio {
    ghost use Rattle.mix_studio.specs.Shots.{Draws, DrawsEnd, Shows};

    /// What the studio shows now.
    pub(crate) fn shot(&self, alloc: Global) -> Result<Shot, NoMemory>
        requires shape { StudioShape self.now.present }
        ensures shows { IfOk result
            (λ shot. Shows self.now.present self.now.present.graph.clock shot) }
    {
        let (first, second) = self.bus.ends();
        let (t, n) = self.bus.weights();
        let from = self.draws(alloc, &[first])?;
        let Ok(to) = self.end_draws(alloc, second) else {
            drop(from);
            return Err(NoMemory);
        };
        let Ok(over) = self.side_draws(alloc) else {
            drop(from);
            drop(to);
            return Err(NoMemory);
        };
        Ok(Shot {
            from,
            to,
            t,
            n,
            over,
        })
    }

    /// The draws of rows, the first at the bottom.
    fn draws(&self, alloc: Global, roots: &[Serial]) -> Result<DrawList, NoMemory>
        requires shape { StudioShape self.now.present }
        requires rows { IsTrue (list_all (has_row self.now.present.graph.rows) roots.now) }
        ensures draws { IfOk result (λ draws. Draws self.now.present roots.now draws) }
    {
        plan(alloc, &self.graph, roots, self.canvas)
    }

    /// The draws of the scene that a fade goes to, where there is one.
    fn end_draws(&self, alloc: Global, end: Option<Serial>) -> Result<Option<DrawList>, NoMemory>
        requires shape { StudioShape self.now.present }
        requires rows { IsTrue (list_all (has_row self.now.present.graph.rows)
            (option_to_list end)) }
        ensures draws { IfOk result (λ draws. DrawsEnd self.now.present end draws) }
    {
        match end {
            None => Ok(None),
            Some(scene) => Ok(Some(self.draws(alloc, &[scene])?)),
        }
    }

    /// The draws of what the channels 1 to 63 name.
    fn side_draws(&self, alloc: Global) -> Result<DrawList, NoMemory>
        requires shape { StudioShape self.now.present }
        ensures draws { IfOk result
            (λ draws. Draws self.now.present (side_roots self.now.present.graph) draws) }
    {
        let sides = self.sides(alloc)?;
        let draws = self.draws(alloc, sides.as_slice());
        drop(sides);
        draws
    }

    /// What the channels 1 to 63 name, by rising channel.
    fn sides(&self, alloc: Global) -> Result<Vec<Serial>, NoMemory>
        requires shape { StudioShape self.now.present }
        ensures value { IfOk result (λ roots. roots.items ≡ side_roots self.now.present.graph) }
    {
        let mut roots = Vec::new(alloc);
        for number in 1..64 {
            push_named(&mut roots, self.graph.channel(number))?;
        }
        Ok(roots)
    }
}

/// What a channel names comes after what is there.
fn push_named(
    roots: &mut Vec<Serial>,
    channel: (Option<Serial>, Option<Serial>),
) -> Result<(), NoMemory>
    ensures items { OnOk result (roots.new.items ≡ roots.old.items ++ named_by channel) }
{
    let (first, second) = channel;
    if let Some(serial) = first {
        roots.push(serial)?;
    }
    if let Some(serial) = second {
        roots.push(serial)?;
    }
    Ok(())
}
