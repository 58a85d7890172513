//! What follows from the definitions: each function here is a law, and its body is empty.
ghost use Rattle.mix_script.specs.Laws.{LinesReadBack, ActionsWriteBack, LinesAreInRange};
ghost use Rattle.mix_script.specs.Laws.{LinesHoldNoLineFeed};

/// Lines and actions stand one to one, and a line ends at its line feed alone.
pub fn lines_and_actions_stand_one_to_one()
    ensures actions { LinesReadBack }
    ensures lines { ActionsWriteBack }
    ensures range { LinesAreInRange }
    ensures whole { LinesHoldNoLineFeed }
{}
