//! The name of a source.
ghost use Rattle.std.specs.Prelude.{◌≡◌, ◌↔◌, IsTrue, IsOk, IfOk, IfErr};

use arrayvec::ArrayString;
use std::marker::Model;

/// Why bytes are no name; the causes are looked for in this order.
#[derive(Clone, Copy)]
pub enum NameFault {
    /// There is no byte.
    Empty,
    /// There are more than 256 bytes.
    Long,
    /// They aren't UTF-8.
    NotUtf8,
    /// A byte is below 32, or is 127.
    Control,
}

/// The name of a source: 1 to 256 bytes in UTF-8 without control bytes. It stands in the value
/// itself, so that to read and to share one takes no memory.
#[derive(Drop)]
pub struct Name {
    text: ArrayString<256>,
}

impl Model for Name {
    ghost use Rattle.std.specs.Prelude.{ℕ, List, IsTrue};
    ghost use Rattle.mix_base.specs.Names.{is_name};

    ghost Value = { List ℕ };

    ghost view = { λ name. name.text.bytes };

    ghost invariant = { λ name. IsTrue (is_name name.text.bytes) };
}

impl Name {
    ghost use Rattle.mix_base.specs.Names.{is_name, name_fault};

    #[tactic(auto, using(crate::proofs::NameLemmas::utf8_tests))]
    pub fn read(bytes: &[u8]) -> Result<Name, NameFault>
        ensures value { IfOk result (λ name. name ≡ bytes.now) }
        ensures accepted { IsOk result ↔ IsTrue (is_name bytes.now) }
        ensures refused { IfErr result (λ fault. name_fault bytes.now ≡ Some fault) }
    {
        if bytes.is_empty() {
            return Err(NameFault::Empty);
        }
        if bytes.len() > 256 {
            return Err(NameFault::Long);
        }
        let Ok(text) = str::from_utf8(bytes) else {
            return Err(NameFault::NotUtf8);
        };
        if has_control(bytes) {
            return Err(NameFault::Control);
        }
        match ArrayString::from(text) {
            Ok(text) => Ok(Name { text }),
            Err(_) => unreachable!(),
        }
    }

    /// The same name once more.
    pub fn share(&self) -> Name
        ensures value { result ≡ self.now }
    {
        Name { text: self.text }
    }

    pub fn bytes(&self) -> &[u8]
        ensures value { result.now ≡ self.now }
    {
        self.as_str().as_bytes()
    }

    pub fn as_str(&self) -> &str
        ensures value { result.now ≡ self.now }
    {
        self.text.as_str()
    }
}

ghost use Rattle.mix_base.specs.Names.{has_control};

/// Whether a byte is one that no name has.
fn has_control(bytes: &[u8]) -> bool
    ensures { result ≡ has_control bytes.now }
{
    bytes.iter().any(|b| *b < 32 || *b == 127)
}
