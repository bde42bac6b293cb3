//! The parts into which a pattern has fallen apart.
ghost use Rattle.std.specs.Prelude.{◌≡◌, ◌≤◌, ◌<◌, ◌^◌, [], length, slice_index_or, slice_set, true, false, IfOk, OnErr, OnOk};
ghost use Rattle.std.specs.List.{insert};
ghost use Rattle.life_answer.specs.declared.part.Part as declared;
ghost use Rattle.life_answer.specs.Parts.{more, objects_in, single, with_code};

use crate::code::Code;
use crate::part::Part;
use life_cells::shorter;
use std::alloc::{AllocError, Global};
use std::cmp::Ordering;
use std::marker::Model;

/// The greatest number of objects that are counted. No memory holds a list of more parts.
const COUNT_LIMIT: u64 = 4_294_967_295;

/// The parts into which a pattern has fallen apart, grouped by their objects. There are fewer than 2^32.
#[derive(Drop)]
pub struct Parts {
    parts: Vec<Part>,
    count: u64,
}

impl Model for Parts {
    ghost use Rattle.std.specs.Prelude.{List, ◌≡◌, ◌<◌, ◌^◌};
    ghost use Rattle.life_answer.specs.declared.part.Part as declared;
    ghost use Rattle.life_answer.specs.Parts.{objects_in};

    ghost Value = { List declared.Part };

    ghost view = { λ p. p.parts.items };

    ghost invariant = { λ p. (p.count ≡ objects_in p.parts.items) × (p.count < 2 ^ 32) };
}

/// The place among the parts where an object with this code is counted, and true if one is counted there already.
fn place_of(parts: &[Part], code: &[u8]) -> (usize, bool)
    ensures within { result.0 ≤ length parts.now }
    ensures inside { result.1 ≡ true → result.0 < length parts.now }
    ensures there { result.1 ≡ true → (d : declared.Part) → with_code code.now parts.now
        ≡ slice_set parts.now result.0 (more (slice_index_or parts.now result.0 d)) }
    ensures new { result.1 ≡ false →
        with_code code.now parts.now ≡ insert parts.now result.0 (single code.now) }
{
    for n in 0..parts.len() {
        match shorter(code, parts[n].code.as_slice()) {
            Ordering::Greater => {}
            Ordering::Equal => return (n, true),
            Ordering::Less => return (n, false),
        }
    }
    (parts.len(), false)
}

impl Parts {
    /// An empty list of parts.
    pub fn none(alloc: Global) -> Parts
        ensures { result ≡ [] }
    {
        Parts {
            parts: Vec::new(alloc),
            count: 0,
        }
    }

    /// Counts one more object that has this code. The parts are in the order of their codes, by length, then by bytes, one
    /// for each code. After an error they are unchanged: memory was refused, or 4,294,967,295 objects were counted already.
    pub fn add(&mut self, code: Code) -> Result<(), AllocError>
        ensures added { OnOk result (self.new ≡ with_code code self.old) }
        ensures unchanged { OnErr result (self.new ≡ self.old) }
    {
        if self.count == COUNT_LIMIT {
            return Err(AllocError);
        }
        let (place, is_there) = place_of(self.parts.as_slice(), code.as_slice());
        if is_there {
            self.parts[place].count += 1;
        } else {
            self.parts.insert(place, Part { code, count: 1 })?;
        }
        self.count += 1;
        Ok(())
    }

    /// The total number of objects.
    pub fn count(&self) -> u64
        ensures value { result ≡ objects_in self.now }
        ensures few { result < 2 ^ 32 }
    {
        self.count
    }

    /// The parts, one entry for each object.
    pub fn as_slice(&self) -> &[Part]
        ensures parts { result.now ≡ self.now }
        ensures few { objects_in self.now < 2 ^ 32 }
    {
        self.parts.as_slice()
    }
}
