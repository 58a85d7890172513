//! What holds of each request on scenes: each function here is a law, and its body is empty.
ghost use Rattle.mix_req_scenes.specs.Laws.{ScenesAreProper};

/// Its numbers grow by one at most, the notes are those of the sources, it tells no more events than it
/// may, and what it tells and answers can be said, the status of a refusal too.
pub fn scene_requests_are_proper()
    ensures proper { ScenesAreProper }
{}
