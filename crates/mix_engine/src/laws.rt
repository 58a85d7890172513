//! What follows from the definitions: each function here is a law, and its body has no effect.
ghost use Rattle.mix_engine.specs.Laws.{QueueIsTold, RequestsAreProper};

use mix_req_inputs::laws::input_requests_are_proper;
use mix_req_items::laws::item_requests_are_proper;
use mix_req_outputs::laws::output_requests_are_proper;
use mix_req_scenes::laws::scene_requests_are_proper;

/// What waits for a connection after a history, then what it takes of one entry more, and then what
/// is said there, are what the history tells it.
pub fn what_waits_is_told()
    ensures told { QueueIsTold }
{}

/// Each request makes numbers grow by one at most, tells no more events than it may, and what it tells
/// and answers can be said.
pub fn requests_are_proper()
    ensures proper { RequestsAreProper }
{
    scene_requests_are_proper();
    item_requests_are_proper();
    input_requests_are_proper();
    output_requests_are_proper();
}
