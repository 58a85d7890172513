//! Why settings are refused.
use mix_base::{NoMemory, Text};

/// A value that is refused.
#[derive(Drop)]
pub struct BadSetting {
    pub key: Text,
    /// 400 InvalidRequestField, 401 InvalidRequestFieldType or 402 RequestFieldOutOfRange, as
    /// obs-websocket 5 numbers them.
    pub status: u16,
}

/// Why settings are refused.
#[derive(Drop)]
pub enum SettingFault {
    /// A value is refused: the doing of who gave it.
    Bad(BadSetting),
    /// There was no memory for it.
    NoMemory,
}

impl From<NoMemory> for SettingFault {
    ghost use Rattle.std.specs.Prelude.{◌≡◌};
    ghost use Rattle.mix_sources.specs.declared.fault.SettingFault.TheVariants.{NoMemory};

    ghost from_gives = { λ _ fault. fault ≡ NoMemory };

    fn from(_fault: NoMemory) -> SettingFault {
        SettingFault::NoMemory
    }
}
