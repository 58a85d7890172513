//! What a connection asks for, and what was done about it.
ghost use Rattle.std.specs.Prelude.{◌≡◌, IfOk};

use crate::copies::{copy_json, share_text};
use crate::{AskList, Body, DoneList};
use mix_base::{Json, ListOf, NoMemory, Text};
use std::alloc::Global;

/// A request. A missing kind can only stand in a batch, where it is a fault.
#[derive(Drop)]
pub struct Ask {
    /// The text `requestType`.
    pub kind: Option<Text>,
    /// The text `requestId`.
    pub id: Option<Text>,
    pub body: Body,
}

/// A batch of requests.
#[derive(Drop)]
pub struct BatchAsk {
    pub id: Text,
    /// Whether the first request that fails ends the batch.
    pub halt: bool,
    /// Whether the requests wait for frames, else for the clock.
    pub by_frame: bool,
    pub asks: AskList,
}

/// What was done about a request.
#[derive(Drop)]
pub struct Done {
    /// The text `requestType`; empty where it was missing.
    pub kind: Text,
    pub id: Option<Text>,
    /// The number of `requestStatus`; 100 says that it was done.
    pub status: u16,
    pub response: Option<Json>,
}

impl Ask {
    pub fn copy(&self, alloc: Global) -> Result<Ask, NoMemory>
        ensures value { IfOk result (λ copy. copy ≡ self.now) }
    {
        let kind = share_text(&self.kind)?;
        let Ok(id) = share_text(&self.id) else {
            drop(kind);
            return Err(NoMemory);
        };
        let Ok(body) = self.body.copy(alloc) else {
            drop(kind);
            drop(id);
            return Err(NoMemory);
        };
        Ok(Ask { kind, id, body })
    }
}

/// The same requests once more.
fn copy_asks(alloc: Global, asks: &AskList) -> Result<AskList, NoMemory>
    ensures value { IfOk result (λ copy. copy ≡ asks.now) }
{
    let asks = asks.as_slice();
    let mut copies = Vec::with_capacity(alloc, asks.len())?;
    for ask in asks {
        let Ok(copy) = ask.copy(alloc) else {
            drop(copies);
            return Err(NoMemory);
        };
        copies.push_reserved(copy);
    }
    Ok(ListOf::from_vec(copies))
}

impl BatchAsk {
    pub fn copy(&self, alloc: Global) -> Result<BatchAsk, NoMemory>
        ensures value { IfOk result (λ copy. copy ≡ self.now) }
    {
        let id = self.id.share()?;
        let Ok(asks) = copy_asks(alloc, &self.asks) else {
            drop(id);
            return Err(NoMemory);
        };
        Ok(BatchAsk {
            id,
            halt: self.halt,
            by_frame: self.by_frame,
            asks,
        })
    }
}

impl Done {
    pub fn copy(&self, alloc: Global) -> Result<Done, NoMemory>
        ensures value { IfOk result (λ copy. copy ≡ self.now) }
    {
        let kind = self.kind.share()?;
        let Ok(id) = share_text(&self.id) else {
            drop(kind);
            return Err(NoMemory);
        };
        let Ok(response) = copy_json(alloc, &self.response) else {
            drop(kind);
            drop(id);
            return Err(NoMemory);
        };
        Ok(Done {
            kind,
            id,
            status: self.status,
            response,
        })
    }
}

/// The same results once more.
pub fn copy_dones(alloc: Global, dones: &DoneList) -> Result<DoneList, NoMemory>
    ensures value { IfOk result (λ copy. copy ≡ dones.now) }
{
    let dones = dones.as_slice();
    let mut copies = Vec::with_capacity(alloc, dones.len())?;
    for done in dones {
        let Ok(copy) = done.copy(alloc) else {
            drop(copies);
            return Err(NoMemory);
        };
        copies.push_reserved(copy);
    }
    Ok(ListOf::from_vec(copies))
}
