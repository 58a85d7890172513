//! What holds of each of these requests: each function here is a law, and its body is empty.
ghost use Rattle.mix_req_outputs.specs.Laws.{OutputsAreProper};

/// Its numbers grow by one at most, the notes are those of the sources, it tells no more events than it
/// may, and what it tells and answers can be said, the status of a refusal too.
pub fn output_requests_are_proper()
    ensures proper { OutputsAreProper }
{}
