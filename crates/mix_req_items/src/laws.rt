//! What holds of each request on items: each function here is a law, and its body is empty.
ghost use Rattle.mix_req_items.specs.Laws.{ItemsAreProper};

/// Its numbers grow by one at most, it tells no more events than it may, and what it tells and answers
/// can be said.
pub fn item_requests_are_proper()
    ensures proper { ItemsAreProper }
{}
