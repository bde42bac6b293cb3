//! Names and texts as they are kept in a bundle.
ghost use Rattle.std.specs.Prelude.{◌≡◌, ◌≤◌, IfOk, IsOk, length};

use std::alloc::{AllocError, Global};
use std::marker::Model;

/// The greatest number of bytes that need no memory of their own. It is enough for most names. With them a value takes 16 bytes
/// in all.
const PLACE_LEN: usize = 14;

// The place of bytes: at most `PLACE_LEN` in the value itself, with their number, or any number in memory of their own.
#[derive(Drop)]
enum Place {
    Short(u8, [u8; PLACE_LEN]),
    Long(Box<Vec<u8>>),
}

/// Bytes as they are kept in a bundle. Up to 14, which most names have, are kept in the value itself, which takes 16 bytes.
#[derive(Drop)]
pub struct Bytes {
    place: Place,
}

impl Model for Bytes {
    ghost use Rattle.std.specs.Prelude.{List, ℕ};
    ghost use Rattle.census_bundle.specs.Places.{kept_in, FitsPlace};

    ghost Value = { List ℕ };

    ghost view = { λ b. kept_in b.place };

    ghost invariant = { λ b. FitsPlace b.place };
}

impl Bytes {
    // A copy of at most 14 bytes.
    fn short(bytes: &[u8]) -> Bytes
        requires { length bytes.now ≤ 14 }
        ensures { result ≡ bytes.now }
    {
        let mut place = [0; PLACE_LEN];
        let (copy, _) = place.split_at_mut(bytes.len());
        copy.copy_from_slice(bytes);
        Bytes {
            place: Place::Short(bytes.len() as u8, place),
        }
    }

    /// A copy of these bytes. It takes no memory where they are at most 14.
    pub fn of(alloc: Global, bytes: &[u8]) -> Result<Bytes, AllocError>
        ensures copied { IfOk result (λ b. b ≡ bytes.now) }
        ensures short { length bytes.now ≤ 14 → IsOk result }
    {
        if bytes.len() <= PLACE_LEN {
            return Ok(Bytes::short(bytes));
        }
        let copy = bytes.to_vec(alloc)?;
        Ok(Bytes {
            place: Place::Long(Box::new(alloc, copy)?),
        })
    }

    /// The bytes. It takes no memory.
    pub fn as_slice(&self) -> &[u8]
        ensures { result.now ≡ self.now }
    {
        match &self.place {
            Place::Short(len, bytes) => &bytes[..*len as usize],
            Place::Long(bytes) => bytes.as_slice(),
        }
    }
}
