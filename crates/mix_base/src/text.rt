//! A text in UTF-8: a short one stands in its value, a longer one in bytes that many hold at once.
ghost use Rattle.std.specs.Prelude.{◌≡◌, ◌↔◌, IfOk, IsUtf8, string_bytes};

use crate::NoMemory;
use arrayvec::ArrayString;
use bytes::ByteStr;
use std::alloc::Global;
use std::marker::Model;

/// Why bytes are no text.
#[derive(Clone, Copy)]
pub enum TextFault {
    /// They aren't UTF-8: the doing of who gave them.
    NotUtf8,
    /// There was no memory for it.
    NoMemory,
}

impl From<NoMemory> for TextFault {
    ghost use Rattle.mix_base.specs.declared.text.TextFault.TheVariants.{NoMemory};
    ghost use Rattle.std.specs.Prelude.{◌≡◌};

    ghost from_gives = { λ e r. r ≡ NoMemory };

    fn from(_fault: NoMemory) -> TextFault {
        TextFault::NoMemory
    }
}

/// The most bytes of a text that stands in its value.
pub(crate) const SHORT: usize = 40;

/// Where a text stands.
#[derive(Drop)]
enum Place {
    /// In the value itself, where it has at most 40 bytes.
    Here(ArrayString<SHORT>),
    /// In a block that is shared, which may hold other texts too.
    Block(ByteStr),
}

/// A text in UTF-8. Contracts see its bytes. One of at most 40 bytes, as keys and UUIDs are, stands
/// in the value itself and takes no memory; a longer one is shared.
#[derive(Drop)]
pub struct Text {
    place: Place,
}

impl Model for Text {
    ghost use Rattle.std.specs.Prelude.{ℕ, List};
    ghost use Rattle.mix_base.specs.Texts.{bytes_at};

    ghost Value = { List ℕ };

    ghost view = { λ text. bytes_at text.place };
}

impl Text {
    pub fn read(alloc: Global, bytes: &[u8]) -> Result<Text, TextFault>
        ensures value { IfOk result (λ text. text ≡ bytes.now) }
        ensures utf8 { IfOk result (λ text. IsUtf8 bytes.now) }
        ensures not_utf8 { result ≡ Err TextFault.NotUtf8 → ¬ IsUtf8 bytes.now }
    {
        match str::from_utf8(bytes) {
            Ok(text) => Ok(Text::from_str(alloc, text)?),
            Err(_) => Err(TextFault::NotUtf8),
        }
    }

    /// A copy of a text.
    pub fn from_str(alloc: Global, text: &str) -> Result<Text, NoMemory>
        ensures value { IfOk result (λ copy. copy ≡ text.now) }
    {
        if let Ok(text) = ArrayString::from(text) {
            return Ok(Text::here(text));
        }
        Ok(Text::in_block(ByteStr::copy_from_str(alloc, text)?))
    }

    /// Takes over the bytes of a string.
    pub fn from_string(text: String) -> Result<Text, NoMemory>
        ensures value { IfOk result (λ shared. shared ≡ string_bytes text) }
    {
        if let Ok(text) = ArrayString::from(text.as_str()) {
            return Ok(Text::here(text));
        }
        Ok(Text::in_block(ByteStr::from_string(text)?))
    }

    /// A short text, in the value itself.
    fn here(text: ArrayString<SHORT>) -> Text
        ensures value { result ≡ text.bytes }
    {
        Text {
            place: Place::Here(text),
        }
    }

    /// A text that stands in a block.
    pub(crate) fn in_block(text: ByteStr) -> Text
        ensures value { result ≡ text }
    {
        Text {
            place: Place::Block(text),
        }
    }

    /// The same text once more: its block is shared.
    pub fn share(&self) -> Result<Text, NoMemory>
        ensures value { IfOk result (λ text. text ≡ self.now) }
    {
        match &self.place {
            Place::Here(text) => Ok(Text::here(*text)),
            Place::Block(text) => Ok(Text::in_block(text.clone()?)),
        }
    }

    pub fn bytes(&self) -> &[u8]
        ensures value { result.now ≡ self.now }
    {
        self.as_str().as_bytes()
    }

    pub fn as_str(&self) -> &str
        ensures value { result.now ≡ self.now }
    {
        match &self.place {
            Place::Here(text) => text.as_str(),
            Place::Block(text) => text.as_str(),
        }
    }
}
