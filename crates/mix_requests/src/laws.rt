//! What holds of the table of requests: each function here is a law, and its body is empty.
ghost use Rattle.std.specs.Prelude.{◌≡◌, IsTrue};
ghost use Rattle.mix_model.specs.RequestTypes.{all_requests};
ghost use Rattle.mix_requests.specs.Laws.{TypesName, is_rising, request_types};

/// Each type of the table names the request that stands beside it.
pub fn types_name_their_requests()
    ensures named { TypesName }
{}

/// The types are those that the mixer is to know, in byte order, each once.
pub fn types_are_all_known()
    ensures rising { IsTrue (is_rising request_types) }
    ensures known { request_types ≡ all_requests }
{}
