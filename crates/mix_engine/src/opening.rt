//! Opening a collection.
ghost use Rattle.std.specs.Prelude.{◌≡◌, IfOk, IfSome, IsTrue, [], is_some, option_map};
ghost use Rattle.mix_shape.specs.Refused.{are_limits};
ghost use Rattle.mix_model.specs.Fitting.{IsFitting};
ghost use Rattle.mix_model.specs.Opening.{opening_state};
ghost use Rattle.mix_model.specs.WholeShape.{StudioShape};
ghost use Rattle.mix_session.specs.SessionState.{secret_of};
ghost use Rattle.mix_studio.specs.Openings.{IsLow};
ghost use Rattle.mix_engine.specs.Mixer.{start_of};
ghost use Rattle.mix_engine.specs.Numbers.{NumbersWithin};
ghost use Rattle.mix_engine.specs.Openings.{can_open};

use crate::Mixing;
use mix_audience::Audience;
use mix_base::{Bytes32, ListOf, NoMemory, Text};
use mix_json::JsonReader;
use mix_model::{Collection, GraphFault, Notes};
use mix_session::Secret;
use mix_studio::{Setup, Studio};
use std::alloc::Global;

impl Mixing {
    /// Opens a collection whose values are in their ranges: nobody is connected. None where it can't
    /// be opened.
    pub fn open(alloc: Global, setup: &Setup) -> Result<Option<Mixing>, NoMemory>
        requires fits { IsFitting setup.now.collection }
        requires limits { IsTrue (are_limits setup.now.limits) }
        ensures opens { IfOk result
            (λ mixing. is_some mixing ≡ can_open setup.now.collection) }
        ensures value { IfOk result (λ mixing. IfSome mixing
            (λ m. m.mixer ≡ start_of setup.now.collection)) }
        ensures nobody { IfOk result (λ mixing. IfSome mixing (λ m. m.listeners ≡ [])) }
        ensures numbers { IfOk result (λ mixing. IfSome mixing
            (λ m. NumbersWithin 4096 m.mixer)) }
    {
        if setup.collection.studio.is_some() {
            return Ok(None);
        }
        match Studio::open(alloc, setup) {
            Ok(studio) => Ok(Some(Mixing::over(alloc, &setup.collection, studio)?)),
            Err(fault) => match fault {
                GraphFault::NoMemory => Err(NoMemory),
                _ => Ok(None),
            },
        }
    }

    /// The mixer over a collection's studio: nobody is connected.
    fn over(alloc: Global, collection: &Collection, studio: Studio) -> Result<Mixing, NoMemory>
        requires shape { StudioShape studio.present }
        requires low { IsLow studio.present }
        ensures value { IfOk result
            (λ m. m.mixer ≡ opening_state collection.now studio.present) }
        ensures nobody { IfOk result (λ m. m.listeners ≡ []) }
        ensures numbers { IfOk result (λ m. NumbersWithin 4096 m.mixer) }
    {
        let Ok(secret) = secret_in(&collection.secret) else {
            drop(studio);
            return Err(NoMemory);
        };
        let Ok(reader) = reading_room(alloc) else {
            drop(studio);
            drop(secret);
            return Err(NoMemory);
        };
        Ok(Mixing {
            studio,
            notes: Notes {
                stop: false,
                holds: ListOf::from_vec(Vec::new(alloc)),
                watches: ListOf::from_vec(Vec::new(alloc)),
                sleep: 0,
            },
            audience: Audience::new(alloc, secret),
            next_conn: 1,
            reader,
        })
    }
}

/// The room that reading messages takes.
fn reading_room(alloc: Global) -> Result<JsonReader, NoMemory> {
    JsonReader::new(alloc)
}

/// The secret of a collection.
fn secret_in(given: &Option<(Text, Bytes32)>) -> Result<Option<Secret>, NoMemory>
    ensures value { IfOk result (λ secret. option_map secret_of secret ≡ given.now) }
{
    match given {
        None => Ok(None),
        Some((password, salt)) => Ok(Some(Secret {
            password: password.share()?,
            salt: *salt,
        })),
    }
}
