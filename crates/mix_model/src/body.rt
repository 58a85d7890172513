//! The fields of a request.
ghost use Rattle.std.specs.Prelude.{◌≡◌, IfOk};

use mix_base::{JsonObj, NoMemory};
use std::alloc::Global;

/// The fields of a request: what stands at `requestData`.
#[derive(Drop)]
pub enum Body {
    /// Nothing, or null.
    Absent,
    Fields(JsonObj),
    /// Something that is no object.
    Wrong,
}

impl Body {
    pub fn copy(&self, alloc: Global) -> Result<Body, NoMemory>
        ensures value { IfOk result (λ copy. copy ≡ self.now) }
    {
        match self {
            Body::Absent => Ok(Body::Absent),
            Body::Fields(fields) => Ok(Body::Fields(fields.copy(alloc)?)),
            Body::Wrong => Ok(Body::Wrong),
        }
    }
}
