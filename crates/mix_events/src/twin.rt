//! An event for two.
ghost use Rattle.std.specs.Prelude.{◌≡◌, IfOk};

use crate::ToldEvent;
use mix_base::NoMemory;

/// The same event twice: one is queued for the others, and one is told to who caused it.
#[derive(Drop)]
pub struct Twin {
    pub queued: ToldEvent,
    pub told: ToldEvent,
}

impl Twin {
    /// The same pair once more.
    pub fn copy(&self) -> Result<Twin, NoMemory>
        ensures value { IfOk result (λ copy. copy ≡ self.now) }
    {
        let queued = self.queued.share()?;
        let Ok(told) = self.told.share() else {
            drop(queued);
            return Err(NoMemory);
        };
        Ok(Twin { queued, told })
    }
}

/// An event for two.
pub fn twin_of(event: ToldEvent) -> Result<Twin, NoMemory>
    ensures queued { IfOk result (λ twin. twin.queued ≡ event) }
    ensures told { IfOk result (λ twin. twin.told ≡ event) }
{
    let Ok(told) = event.share() else {
        drop(event);
        return Err(NoMemory);
    };
    Ok(Twin {
        queued: event,
        told,
    })
}
