//! Texts that stand one after another, in blocks that they share.
ghost use Rattle.std.specs.Prelude.{◌≡◌, ◌≤◌, [], IfSome, length};
ghost use Rattle.std.specs.Bool.{OnTrue};

use crate::Text;
use crate::text::SHORT;
use bytes::{ByteStr, BytesMut};
use std::alloc::Global;
use std::marker::Model;

/// The bytes of a block.
const BLOCK: usize = 65_536;

/// The most bytes of a text that stands in a block with others.
const MOST: usize = 4_096;

/// Keeps texts that stay for long: they stand one after another, in blocks of 65,536 bytes, so that
/// they leave no holes in memory. A block is given back when the last of its texts has gone. A text
/// of more than 4,096 bytes stays in its own block.
#[derive(Drop)]
pub struct Shelf {
    alloc: Global,
    /// What is left of the newest block.
    block: BytesMut,
}

impl Model for Shelf {
    ghost use Rattle.std.specs.Prelude.{◌≡◌, [], ⊤};

    ghost Value = { ⊤ };

    ghost view = { λ _. tt };

    ghost invariant = { λ shelf. shelf.block.items ≡ [] };
}

impl Shelf {
    /// There is no block yet.
    pub fn new(alloc: Global) -> Shelf {
        Shelf {
            alloc,
            block: BytesMut::new(alloc),
        }
    }

    /// The same text, on the shelf. It stays where it is if it stands in its value, or if there is no
    /// memory for a new block.
    pub fn keep(&mut self, text: Text) -> Text
        ensures value { result ≡ text }
    {
        let length = text.as_str().len();
        if length <= SHORT || length > MOST {
            return text;
        }
        if !has_room(self.alloc, &mut self.block, length) {
            return text;
        }
        match cut(&mut self.block, text.as_str()) {
            Some(kept) => kept,
            None => text,
        }
    }
}

/// Sees that a block has room for so many bytes, if there is memory for a new one.
fn has_room(alloc: Global, block: &mut BytesMut, length: usize) -> bool
    requires nothing { block.old.items ≡ [] }
    ensures room { OnTrue result (length ≤ block.new.spare) }
    ensures nothing { block.new.items ≡ [] }
{
    if block.capacity() >= length {
        return true;
    }
    match BytesMut::with_capacity(alloc, BLOCK) {
        Ok(new) => {
            *block = new;
            block.capacity() >= length
        }
        Err(_) => false,
    }
}

/// Cuts a text from what is left of a block, which has room for it. None where the block has too
/// many owners.
fn cut(block: &mut BytesMut, text: &str) -> Option<Text>
    requires nothing { block.old.items ≡ [] }
    requires room { length text.now ≤ block.old.spare }
    ensures value { IfSome result (λ kept. kept ≡ text.now) }
    ensures rest { block.new.items ≡ [] }
{
    block.extend_reserved(text.as_bytes());
    match block.freeze_to(text.len()) {
        Ok(bytes) => Some(Text::in_block(ByteStr::from_known_utf8(bytes))),
        Err(_) => {
            block.truncate(0);
            None
        }
    }
}
