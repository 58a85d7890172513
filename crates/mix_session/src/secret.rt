//! What a connection has to know to log in.
ghost use Rattle.std.specs.Prelude.{◌≡◌, IfOk};

use mix_base::{Bytes32, NoMemory, Text};

/// What a connection has to know to log in.
#[derive(Drop)]
pub struct Secret {
    pub password: Text,
    /// Told to every connection.
    pub salt: Bytes32,
}

impl Secret {
    /// The same secret once more: the password isn't copied.
    pub fn share(&self) -> Result<Secret, NoMemory>
        ensures value { IfOk result (λ secret. secret ≡ self.now) }
    {
        let password = self.password.share()?;
        Ok(Secret {
            password,
            salt: self.salt,
        })
    }
}
