//! The engines by which a pattern grows.
ghost use Rattle.std.specs.Prelude.{◌≡◌, ◌<◌, ◌≤◌, ◌^◌, ◌++◌, ◌∷◌, [], List, OnErr, OnOk, false, length, slice_index_or, slice_set, true};
ghost use Rattle.std.specs.List.{insert};
ghost use Rattle.life_answer.specs.declared.tale.Engines as declared;
ghost use Rattle.life_answer.specs.declared.tale.Tale as told;
ghost use Rattle.life_answer.specs.CountedTales.{alone, counted_tales, engines_in, joined_by_one, with_tale};

use crate::tale::{Engines, Tale};
use std::alloc::{AllocError, Global};
use std::cmp::Ordering;
use std::marker::Model;

/// The greatest number of engines that are counted. No memory holds more.
const COUNT_LIMIT: u64 = 4_294_967_295;

/// The engines by which a pattern grows, grouped by their tales. There are fewer than 2^32.
#[derive(Drop)]
pub struct EngineList {
    engines: Vec<Engines>,
    count: u64,
}

impl Model for EngineList {
    ghost use Rattle.std.specs.Prelude.{List, ◌≡◌, ◌<◌, ◌^◌};
    ghost use Rattle.life_answer.specs.declared.tale.Engines as declared;

    ghost Value = { List declared.Engines };

    ghost use Rattle.life_answer.specs.CountedTales.{engines_in};

    ghost view = { λ l. l.engines.items };

    ghost invariant = { λ l. (l.count ≡ engines_in l.engines.items) × (l.count < 2 ^ 32) };
}

/// The place among the engines where one with this tale is counted, and true if one is counted there already.
fn place_of(engines: &[Engines], tale: &Tale) -> (usize, bool)
    ensures within { result.0 ≤ length engines.now }
    ensures inside { result.1 ≡ true → result.0 < length engines.now }
    ensures there { result.1 ≡ true → (d : declared.Engines) → with_tale tale.now engines.now
        ≡ slice_set engines.now result.0 (joined_by_one (slice_index_or engines.now result.0 d)) }
    ensures new { result.1 ≡ false →
        with_tale tale.now engines.now ≡ insert engines.now result.0 (alone tale.now) }
{
    for n in 0..engines.len() {
        match tale.order(&engines[n].tale) {
            Ordering::Greater => {}
            Ordering::Equal => return (n, true),
            Ordering::Less => return (n, false),
        }
    }
    (engines.len(), false)
}

impl EngineList {
    /// An empty list of engines.
    pub fn none(alloc: Global) -> EngineList
        ensures { result ≡ [] }
    {
        EngineList {
            engines: Vec::new(alloc),
            count: 0,
        }
    }

    /// Counts one more engine with this tale. The engines are in the order of their tales, with one entry for each tale.
    /// After an error they are unchanged: memory was refused, or 4,294,967,295 engines were counted already.
    pub fn add(&mut self, tale: Tale) -> Result<(), AllocError>
        ensures added { OnOk result (self.new ≡ with_tale tale self.old) }
        ensures unchanged { OnErr result (self.new ≡ self.old) }
    {
        if self.count == COUNT_LIMIT {
            return Err(AllocError);
        }
        let (place, is_there) = place_of(self.engines.as_slice(), &tale);
        if is_there {
            self.engines[place].count += 1;
        } else {
            self.engines.insert(place, Engines { tale, count: 1 })?;
        }
        self.count += 1;
        Ok(())
    }

    /// The total number of engines.
    pub fn count(&self) -> u64
        ensures value { result ≡ engines_in self.now }
        ensures few { result < 2 ^ 32 }
    {
        self.count
    }

    /// The engines, with one entry for each tale.
    pub fn as_slice(&self) -> &[Engines]
        ensures engines { result.now ≡ self.now }
        ensures few { engines_in self.now < 2 ^ 32 }
    {
        self.engines.as_slice()
    }
}
