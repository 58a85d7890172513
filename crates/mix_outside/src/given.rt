//! What a link in memory is to give.
ghost use Rattle.std.specs.Prelude.{◌≡◌, IfOk};
ghost use Rattle.mix_outside.specs.MemoryLinks.{given};

use crate::Got;
use mix_base::{Bytes, ListOf, NoMemory, Text};
use std::alloc::Global;

/// What a link in memory gives.
#[derive(Drop)]
pub enum LinkItem {
    Text(Text),
    Binary(Bytes),
    Idle,
}

/// What a link in memory gives, in order.
pub type LinkItems = ListOf<LinkItem>;

/// What a link gives that has these items left; at a call that is named it fails.
pub(crate) fn give(alloc: Global, named: bool, left: &[LinkItem]) -> Result<Got, NoMemory>
    ensures value { IfOk result (λ got. got ≡ given named left.now) }
{
    if named {
        return Ok(Got::Failed);
    }
    match left {
        [] => Ok(Got::End),
        [LinkItem::Text(text), ..] => Ok(Got::Text(text.share()?)),
        [LinkItem::Binary(bytes), ..] => {
            let copy = Vec::from_slice(alloc, bytes.as_slice())?;
            Ok(Got::Binary(ListOf::from_vec(copy)))
        }
        [LinkItem::Idle, ..] => Ok(Got::Idle),
    }
}
