//! Messages that name the events that a connection is told.
ghost use Rattle.std.specs.Prelude.{◌≡◌, unwrap_or};
ghost use Rattle.std.specs.Option.{option_copied};
ghost use Rattle.mix_session.specs.Hear.{events_of, identify_of, is_version, mask_of, reidentify_of};

use crate::close::{UNSUPPORTED_VERSION, WRONG_VALUE};
use crate::fields::{whole_at, whole_if_there};
use crate::heard::Heard;
use crate::login::logs_in;
use mix_base::{JsonObj, Text};
use mix_events::Said;

/// The events that a connection is told which names none: all but those of great volume.
const DEFAULT_MASK: u32 = 2047;

/// An Identify: the version, the events, the login.
#[tactic(auto, unfolding(crate::specs::Hear::identify_of))]
pub fn identify(expected: Option<&Text>, mask: Option<u32>, fields: &JsonObj) -> Result<Heard, u16>
    ensures value { result ≡ identify_of (option_copied expected.entry) mask fields.now }
{
    let version = whole_at(fields, "rpcVersion")?;
    if !is_version(version) {
        return Err(UNSUPPORTED_VERSION);
    }
    let mask = events(mask, fields)?;
    logs_in(expected, fields)?;
    Ok(Heard::Say {
        said: Said::Identified,
        mask,
    })
}

/// A Reidentify: the events.
#[tactic(auto, unfolding(crate::specs::Hear::reidentify_of))]
pub fn reidentify(mask: Option<u32>, fields: &JsonObj) -> Result<Heard, u16>
    ensures value { result ≡ reidentify_of mask fields.now }
{
    let mask = events(mask, fields)?;
    Ok(Heard::Say {
        said: Said::Identified,
        mask,
    })
}

fn is_version(version: i64) -> bool
    ensures value { result ≡ is_version version }
{
    version == 1
}

/// The mask that is asked for, or else the one that stands.
#[tactic(auto, unfolding(crate::specs::Hear::events_of))]
fn events(mask: Option<u32>, fields: &JsonObj) -> Result<u32, u16>
    ensures value { result ≡ events_of mask fields.now }
{
    match whole_if_there(fields, "eventSubscriptions")? {
        None => Ok(mask.unwrap_or(DEFAULT_MASK)),
        Some(given) => mask_of(given),
    }
}

fn mask_of(given: i64) -> Result<u32, u16>
    ensures value { result ≡ mask_of given }
{
    if given >= 0 && given < 4_294_967_296 {
        Ok(given as u32)
    } else {
        Err(WRONG_VALUE)
    }
}
