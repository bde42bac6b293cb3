//! Known sets, with the codes that they count as. For a set that is one of them, moved as a whole, nothing is computed again.
ghost use Rattle.std.specs.Prelude.{◌≡◌, ◌<◌, [], ◌∷◌, ◌++◌, List, IfSome, OnOk, length, slice_index_or};
ghost use Rattle.life_ash.specs.Parts.{IsPlaced};
ghost use Rattle.life_answer.specs.Parts.{with_codes};
ghost use Rattle.life_orbit.specs.Course.{Course, IsCourse};
ghost use Rattle.life_census.specs.Counted.{AreCounted, CountsAs};
ghost use Rattle.life_census.specs.declared.known_set.KnownSet as declared;

use crate::counted::codes_of;
use crate::known_set::KnownSet;
use life_answer::{Code, Parts};
use life_orbit::Orbit;
use std::alloc::{AllocError, Global};

/// The greatest number of sets that are kept.
const MOST: usize = 64;

/// The greatest number of cells of a set that is kept.
const LARGEST: usize = 256;

/// Sets that recur, with the codes that they count as. These are right, but not all sets that were found are kept.
#[derive(Drop)]
pub struct KnownSets {
    sets: Vec<KnownSet>,
}

/// The place among the sets of one that is an orbit's set, moved as a whole. `None` means nothing.
fn place_of(sets: &[KnownSet], orbit: &Orbit, near: bool) -> Option<usize>
    ensures inside { IfSome result (λ n. n < length sets.now) }
    ensures codes { IfSome result (λ n. (d : declared.KnownSet) →
        CountsAs near orbit.now.rule orbit.now.set (slice_index_or sets.now n d).codes.items) }
{
    for n in 0..sets.len() {
        if sets[n].is_of(orbit, near) {
            return Some(n);
        }
    }
    None
}

/// Counts objects that have these codes.
fn add_codes(alloc: Global, parts: &mut Parts, codes: &[Code]) -> Result<(), AllocError>
    ensures { OnOk result (parts.new ≡ with_codes codes.now parts.old) }
{
    for n in 0..codes.len() {
        parts.add(Code::of(alloc, codes[n].as_slice())?)?;
    }
    Ok(())
}

impl KnownSets {
    /// No sets yet.
    pub fn new(alloc: Global) -> KnownSets {
        KnownSets {
            sets: Vec::new(alloc),
        }
    }

    /// Keeps an orbit's set, with the codes that it counts as, if it is small and few are kept.
    fn keep(
        &mut self,
        alloc: Global,
        orbit: &Orbit,
        near: bool,
        codes: Vec<Code>,
    ) -> Result<(), AllocError>
        requires { CountsAs near orbit.now.rule orbit.now.set codes.items }
    {
        if self.sets.len() < MOST && orbit.set().len() <= LARGEST {
            self.sets.push(KnownSet::of(alloc, orbit, near, codes)?)?;
        }
        Ok(())
    }

    /// Counts an orbit's set, whose cells are in the field at age 400,000, in addition to what was counted. Its codes are
    /// computed if this set, moved as a whole, is not kept.
    pub fn count(
        &mut self,
        alloc: Global,
        orbit: &Orbit,
        near: bool,
        parts: &mut Parts,
    ) -> Result<(), AllocError>
        requires within { IsPlaced orbit.now }
        requires course { IsCourse orbit.now }
        ensures { OnOk result ((before : List Course) → AreCounted near before parts.old →
            AreCounted near (before ++ orbit.now ∷ []) parts.new) }
    {
        if let Some(place) = place_of(self.sets.as_slice(), orbit, near) {
            return add_codes(alloc, parts, self.sets[place].codes.as_slice());
        }
        let codes = codes_of(alloc, orbit, near)?;
        add_codes(alloc, parts, codes.as_slice())?;
        self.keep(alloc, orbit, near, codes)
    }
}
