//! What follows from the definitions: each function here is a law, and its body is empty.
ghost use Rattle.mix_program.specs.Laws.{AnswersSoundAsFound, LinesSoundAsFound};

/// A block of sound has the voices of the studio as it was found, in an answer and in its line.
pub fn blocks_sound_as_found()
    ensures answers { AnswersSoundAsFound }
    ensures lines { LinesSoundAsFound }
{}
