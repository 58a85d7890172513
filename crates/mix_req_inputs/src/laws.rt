//! What holds of each request on inputs: each function here is a law, and its body is empty.
ghost use Rattle.mix_req_inputs.specs.Laws.{InputsAreProper};

/// Its numbers grow by one at most, it tells no more events than it may, and what it tells and answers
/// can be said.
pub fn input_requests_are_proper()
    ensures proper { InputsAreProper }
{}
