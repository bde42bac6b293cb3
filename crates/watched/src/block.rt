//! A block of bytes for a writer.
ghost use Rattle.std.specs.Prelude.{◌≡◌, ◌++◌, [], true, false, IsTrue, IsFalse};
ghost use Rattle.watched.specs.Telling.{pending_of};

use std::alloc::Global;

// The greatest number of bytes of a block.
const SIZE: usize = 65_536;

/// Bytes for a writer, at most 65,536 of them.
#[derive(Drop)]
pub struct Block {
    bytes: Vec<u8>,
}

impl Block {
    /// A block without bytes. Nothing is allocated yet.
    pub fn new(alloc: Global) -> Block
        ensures { pending_of result ≡ [] }
    {
        Block {
            bytes: Vec::new(alloc),
        }
    }

    // The bytes.
    pub fn as_slice(&self) -> &[u8]
        ensures { result.now ≡ pending_of self.now }
    {
        self.bytes.as_slice()
    }

    // Adds these bytes and returns true, if there is room for them. If there is none, or memory is refused, the block is
    // unchanged, and the result is false.
    pub fn takes(&mut self, bytes: &[u8]) -> bool
        ensures yes { IsTrue result → pending_of self.new ≡ pending_of self.old ++ bytes.now }
        ensures no { IsFalse result → pending_of self.new ≡ pending_of self.old }
    {
        if self.bytes.len() + bytes.len() > SIZE {
            return false;
        }
        self.bytes.extend_from_slice(bytes).is_ok()
    }

    // Removes all bytes.
    pub fn clear(&mut self)
        ensures { pending_of self.new ≡ [] }
    {
        self.bytes.clear();
    }
}
