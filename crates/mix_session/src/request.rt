//! Messages that ask for requests.
ghost use Rattle.std.specs.Prelude.{◌≡◌};
ghost use Rattle.mix_session.specs.Hear.{batch_of, by_frame_of, entries_of, entry_of, request_of};
ghost use Rattle.mix_session.specs.Table.{Answers, for_each};

use crate::close::{UNSUPPORTED_FEATURE, WRONG_VALUE};
use crate::fault::Fault;
use crate::fields::{
    body_at, list_at, object, text_at, text_if_there, truth_if_there, whole_if_there,
};
use mix_base::{Json, JsonObj, ListOf};
use mix_model::{Ask, AskList, BatchAsk};
use std::alloc::Global;

/// The most entries of a batch.
const MOST_ENTRIES: usize = 256;

/// A Request.
#[tactic(auto, unfolding(crate::specs::Hear::request_of))]
pub fn request(fields: JsonObj) -> Result<Ask, Fault>
    ensures value { Answers result (request_of fields) }
{
    let id = match text_at(&fields, "requestId") {
        Ok(id) => id,
        Err(fault) => {
            drop(fields);
            return Err(fault);
        }
    };
    let kind = match text_at(&fields, "requestType") {
        Ok(kind) => kind,
        Err(fault) => {
            drop(id);
            drop(fields);
            return Err(fault);
        }
    };
    Ok(Ask {
        kind: Some(kind),
        id: Some(id),
        body: body_at(fields, "requestData"),
    })
}

/// An entry of a batch, which may lack its id and its type.
#[tactic(auto, unfolding(crate::specs::Hear::entry_of))]
fn ask(entry: Json) -> Result<Ask, Fault>
    ensures value { Answers result (entry_of entry) }
{
    let fields = object(entry)?;
    let id = match text_if_there(&fields, "requestId") {
        Ok(id) => id,
        Err(fault) => {
            drop(fields);
            return Err(fault);
        }
    };
    let kind = match text_if_there(&fields, "requestType") {
        Ok(kind) => kind,
        Err(fault) => {
            drop(id);
            drop(fields);
            return Err(fault);
        }
    };
    Ok(Ask {
        kind,
        id,
        body: body_at(fields, "requestData"),
    })
}

/// A RequestBatch.
#[tactic(auto, unfolding(crate::specs::Hear::batch_of))]
pub fn batch(alloc: Global, fields: JsonObj) -> Result<BatchAsk, Fault>
    ensures value { Answers result (batch_of fields) }
{
    let id = text_at(&fields, "requestId")?;
    let halt = truth_if_there(&fields, "haltOnFailure")?;
    let execution = whole_if_there(&fields, "executionType")?;
    let by_frame = by_frame(execution)?;
    let asks = entries(alloc, fields)?;
    Ok(BatchAsk {
        id,
        halt: halt.unwrap_or(false),
        by_frame,
        asks,
    })
}

/// The entries of a batch.
#[tactic(auto, unfolding(crate::specs::Hear::entries_of))]
fn entries(alloc: Global, fields: JsonObj) -> Result<AskList, Fault>
    ensures value { Answers result (entries_of fields) }
{
    let entries = list_at(fields, "requests")?.into_vec();
    if entries.len() > MOST_ENTRIES {
        drop(entries);
        return Err(Fault::Close(WRONG_VALUE));
    }
    each(alloc, entries)
}

/// Each of the entries.
fn each(alloc: Global, entries: Vec<Json>) -> Result<AskList, Fault>
    ensures value { Answers result (for_each entry_of entries.items) }
{
    let mut asks = Vec::with_capacity(alloc, entries.len())?;
    'entries: for entry in entries {
        asks.push(ask(entry)?)?;
    }
    Ok(ListOf::from_vec(asks))
}

/// Whether a batch goes by frames.
fn by_frame(execution: Option<i64>) -> Result<bool, u16>
    ensures value { result ≡ by_frame_of execution }
{
    match execution {
        None | Some(0) => Ok(false),
        Some(1) => Ok(true),
        Some(2) => Err(UNSUPPORTED_FEATURE),
        Some(_) => Err(WRONG_VALUE),
    }
}
