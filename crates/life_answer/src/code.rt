//! Codes of objects.
ghost use Rattle.std.specs.Prelude.{◌≡◌, ◌≤◌, IfOk, IsOk, length};

use smallvec::SmallVec;
use std::alloc::{AllocError, Global};
use std::marker::Model;

/// A code of at most `SHORT_LEN` bytes needs no memory of its own. This is enough for the codes of most small objects.
const SHORT_LEN: usize = 32;

/// An apgcode, as on LifeWiki: the bytes of its text.
#[derive(Drop)]
pub struct Code {
    bytes: SmallVec<u8, SHORT_LEN>,
}

impl Model for Code {
    ghost use Rattle.std.specs.Prelude.{List, ℕ};

    ghost Value = { List ℕ };

    ghost view = { λ c. c.bytes.items };
}

impl Code {
    /// A copy of these bytes. It takes no memory if there are at most 32.
    pub fn of(alloc: Global, bytes: &[u8]) -> Result<Code, AllocError>
        ensures copied { IfOk result (λ c. c ≡ bytes.now) }
        ensures short { length bytes.now ≤ 32 → IsOk result }
    {
        Ok(Code {
            bytes: SmallVec::from_slice(alloc, bytes)?,
        })
    }

    /// The bytes of its text.
    pub fn as_slice(&self) -> &[u8]
        ensures { result.now ≡ self.now }
    {
        self.bytes.as_slice()
    }
}
