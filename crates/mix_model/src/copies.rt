//! Copies of lists, and of what may be absent.
ghost use Rattle.std.specs.Prelude.{◌≡◌, IfOk};

use mix_base::{Json, ListOf, NoMemory, Text};
use std::alloc::Global;

/// The same items once more.
pub(crate) fn copy_items<T: Copy>(alloc: Global, list: &ListOf<T>) -> Result<ListOf<T>, NoMemory>
    ensures value { IfOk result (λ copy. copy ≡ list.now) }
{
    Ok(ListOf::from_vec(Vec::from_slice(alloc, list.as_slice())?))
}

/// The same text once more, where there is one.
pub(crate) fn share_text(text: &Option<Text>) -> Result<Option<Text>, NoMemory>
    ensures value { IfOk result (λ copy. copy ≡ text.now) }
{
    match text {
        Some(text) => Ok(Some(text.share()?)),
        None => Ok(None),
    }
}

/// An equal value, where there is one.
pub(crate) fn copy_json(alloc: Global, json: &Option<Json>) -> Result<Option<Json>, NoMemory>
    ensures value { IfOk result (λ copy. copy ≡ json.now) }
{
    match json {
        Some(json) => Ok(Some(json.copy(alloc)?)),
        None => Ok(None),
    }
}
