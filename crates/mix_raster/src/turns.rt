//! Quarter turns to the side, which exchange columns and rows.
ghost use Rattle.std.specs.Prelude.{◌≡◌, IsTrue};
ghost use Rattle.std.specs.List.{list_all};
ghost use Rattle.mix_model.specs.Plans.{is_step};
ghost use Rattle.mix_raster.specs.Axes.{is_aside, exchanged_by, exchanged};

use mix_model::Step;

/// One test exchanged by another.
pub(crate) fn exchange(by: bool, test: bool) -> bool
    ensures { result ≡ exchanged_by by test }
{
    if by { !test } else { test }
}

pub(crate) fn turns_aside(step: &Step) -> bool
    requires step { IsTrue (is_step step.now) }
    ensures value { result ≡ is_aside step.now.place.quarter }
{
    step.place.quarter == 1 || step.place.quarter == 3
}

/// Whether all steps together exchange columns and rows.
pub(crate) fn exchanges(steps: &[Step]) -> bool
    requires steps { IsTrue (list_all is_step steps.now) }
    ensures value { result ≡ exchanged steps.now }
{
    let mut swap = false;
    for step in steps {
        swap = exchange(turns_aside(step), swap);
    }
    swap
}
