//! The login of a collection.
ghost use Rattle.std.specs.Prelude.{◌≡◌, ◌≢◌, ◌≤◌, ◌<◌, Err, IfOk, IsTrue};
ghost use Rattle.mix_model.specs.Fitting.{is_secret};
ghost use Rattle.mix_outside.specs.Faults.{Rose};
ghost use Rattle.mix_collection.specs.Read.{LogsIn};
ghost use Rattle.mix_collection.specs.Within.{lines_left};

use crate::collection_fault::CollectionFault;
use crate::feed::Feed;
use crate::lines::secret_in;
use mix_base::{Bytes32, Text};
use mix_outside::Source;
use std::alloc::Global;

/// The password and the salt of a login, where there is one.
pub type Login = Option<(Text, Bytes32)>;

/// Reads the login, where the first line is one, and the first line behind it.
pub fn read_login<C: Source>(
    alloc: Global,
    feed: &mut Feed,
    source: &mut C,
) -> Result<Login, CollectionFault>
    ensures login { C.Tells → LogsIn result feed.new.line.items
        (lines_left feed.old (C.left source.old)) (lines_left feed.new (C.left source.new)) }
    ensures valid { IfOk result (λ secret. IsTrue (is_secret secret)) }
    ensures later { C.faults source.old ≤ C.faults source.new }
    ensures cause { result ≡ Err CollectionFault.Failed →
        Rose (C.faults source.old) (C.faults source.new) }
    ensures steady { result ≢ Err CollectionFault.Failed → C.faults source.new ≡ C.faults source.old }
{
    feed.take_line(source)?;
    let Some(secret) = secret_in(alloc, feed.line.as_slice())? else {
        return Ok(None);
    };
    match feed.take_line(source) {
        Ok(()) => Ok(Some(secret)),
        Err(fault) => {
            drop(secret);
            Err(fault)
        }
    }
}
