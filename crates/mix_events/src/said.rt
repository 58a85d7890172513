//! What is said to a connection.
ghost use Rattle.std.specs.Prelude.{◌≡◌, IfOk};

use crate::{SaidList, ToldEvent};
use mix_base::{Bytes32, ListOf, NoMemory, Text};
use mix_model::{Done, DoneList, copy_dones};
use std::alloc::Global;

/// What a connection needs to log in.
#[derive(Clone, Copy)]
pub struct Login {
    pub salt: Bytes32,
    pub challenge: Bytes32,
}

/// What is said to a connection: one message of obs-websocket 5.
#[derive(Drop)]
pub enum Said {
    /// Op 0. With a login where there is a secret.
    Hello { login: Option<Login> },
    /// Op 2.
    Identified,
    /// Op 5.
    Event(ToldEvent),
    /// Op 7.
    Response(Done),
    /// Op 9.
    BatchResponse { id: Text, results: DoneList },
}

impl Said {
    pub fn copy(&self, alloc: Global) -> Result<Said, NoMemory>
        ensures value { IfOk result (λ copy. copy ≡ self.now) }
    {
        match self {
            Said::Hello { login } => Ok(Said::Hello { login: *login }),
            Said::Identified => Ok(Said::Identified),
            Said::Event(event) => Ok(Said::Event(event.share()?)),
            Said::Response(done) => Ok(Said::Response(done.copy(alloc)?)),
            Said::BatchResponse { id, results } => {
                let id = id.share()?;
                let Ok(results) = copy_dones(alloc, results) else {
                    drop(id);
                    return Err(NoMemory);
                };
                Ok(Said::BatchResponse { id, results })
            }
        }
    }
}

/// The same messages once more.
pub(crate) fn copy_all_said(alloc: Global, all_said: &SaidList) -> Result<SaidList, NoMemory>
    ensures value { IfOk result (λ copy. copy ≡ all_said.now) }
{
    let all_said = all_said.as_slice();
    let mut copies = Vec::with_capacity(alloc, all_said.len())?;
    for said in all_said {
        let Ok(copy) = said.copy(alloc) else {
            drop(copies);
            return Err(NoMemory);
        };
        copies.push_reserved(copy);
    }
    Ok(ListOf::from_vec(copies))
}
