//! What follows from the definitions: each function here is a law, and its body is empty.
ghost use Rattle.mix_collection.specs.Laws.{FoundWhereGiven, NamedWhereGiven, NamesWhatStandsAbove};
ghost use Rattle.mix_collection.specs.Laws.{SameAmongNamed, ScenesAreGiven, StudioNamesAbove};
ghost use Rattle.mix_collection.specs.Laws.{NewWithoutOptions};

/// Lines of which none is refused find the names that lines above them give, and no others, and a
/// studio line names only what stands above it.
pub fn lines_find_what_stands_above()
    ensures found { FoundWhereGiven }
    ensures named { NamedWhereGiven }
    ensures same { SameAmongNamed }
    ensures above { NamesWhatStandsAbove }
    ensures scenes { ScenesAreGiven }
    ensures studio { StudioNamesAbove }
{}

/// Options that are missing are those of a new item.
pub fn missing_options_are_those_of_a_new_item()
    ensures value { NewWithoutOptions }
{}
