//! The calls of an object in memory, some of which are to fail.
ghost use Rattle.std.specs.Prelude.{◌≡◌};

use mix_base::CallList;
use std::marker::Model;

/// Counts the calls of an object, and knows which are to fail.
#[derive(Drop)]
pub struct CallCount {
    next: Option<u64>,
    failing: CallList,
}

impl Model for CallCount {
    ghost use Rattle.mix_outside.specs.Calls.{Calls};

    ghost Value = { Calls };

    ghost view = { λ calls. record { next = calls.next; failing = calls.failing } };
}

impl CallCount {
    ghost use Rattle.mix_outside.specs.Calls.{no_calls, fails_next, one_call_more};

    pub fn new(failing: CallList) -> CallCount
        ensures value { result ≡ no_calls failing }
    {
        CallCount {
            next: Some(0),
            failing,
        }
    }

    /// Counts a call, and says whether it is to fail.
    pub fn begin(&mut self) -> bool
        ensures value { result ≡ fails_next self.old }
        ensures state { self.new ≡ one_call_more self.old }
    {
        match self.next {
            None => false,
            Some(call) => {
                self.next = call.checked_add(1);
                self.failing.as_slice().contains(&call)
            }
        }
    }
}
