//! What a request is answered.
ghost use Rattle.std.specs.Prelude.{◌≡◌, [], IfOk, unwrap_or};
ghost use Rattle.mix_requests.specs.Outcomes.{done_with};

use mix_base::{Json, NoMemory, Text};
use mix_model::Done;
use std::alloc::Global;

/// The text of a request's type; empty where none is named.
pub fn type_text(alloc: Global, kind: Option<Text>) -> Result<Text, NoMemory>
    ensures value { IfOk result (λ text. text ≡ unwrap_or kind []) }
{
    match kind {
        Some(kind) => Ok(kind),
        None => Text::from_str(alloc, ""),
    }
}

/// What a request of this type and this id is answered: 100 with its answer, or the status that refuses
/// it.
pub fn done(kind: Text, id: Option<Text>, outcome: Result<Option<Json>, u16>) -> Done
    ensures value { result ≡ done_with kind id outcome }
{
    match outcome {
        Ok(response) => Done {
            kind,
            id,
            status: 100,
            response,
        },
        Err(status) => Done {
            kind,
            id,
            status,
            response: None,
        },
    }
}
