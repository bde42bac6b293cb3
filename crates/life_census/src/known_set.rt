//! A known set, with the codes that it counts as.
ghost use Rattle.std.specs.Prelude.{◌≡◌, IsTrue};
ghost use Rattle.life_census.specs.Counted.{CountsAs};

use life_answer::Code;
use life_cells::{CellList, Rule};
use life_orbit::Orbit;
use life_plane::offset_between;
use std::alloc::{AllocError, Global};

/// A set that recurs, and the codes that it counts as.
#[derive(Drop)]
pub struct KnownSet {
    near: bool,
    rule: Rule,
    set: CellList,
    pub codes: Vec<Code>,
    ghost right: { CountsAs near rule set codes.items },
}

impl KnownSet {
    /// A copy of an orbit's set, with the codes that it counts as.
    pub fn of(
        alloc: Global,
        orbit: &Orbit,
        near: bool,
        codes: Vec<Code>,
    ) -> Result<KnownSet, AllocError>
        requires { CountsAs near orbit.now.rule orbit.now.set codes.items }
    {
        Ok(KnownSet {
            near,
            rule: orbit.rule(),
            set: CellList::from_ordered(orbit.set().as_slice().to_vec(alloc)?),
            codes,
        })
    }

    /// True if the set evolves by the rule of an orbit, and was counted with the same `near`.
    fn evolves_as(&self, orbit: &Orbit, near: bool) -> bool
        ensures near { IsTrue result → self.now.near ≡ near }
        ensures rule { IsTrue result → self.now.rule ≡ orbit.now.rule }
    {
        self.near == near && self.rule == orbit.rule()
    }

    /// True if an orbit's set is this one, moved as a whole, and evolves by the same rule, and this one was counted
    /// with the same `near`.
    pub fn is_of(&self, orbit: &Orbit, near: bool) -> bool
        ensures { IsTrue result → CountsAs near orbit.now.rule orbit.now.set self.now.codes.items }
    {
        if !self.evolves_as(orbit, near) {
            return false;
        }
        offset_between(self.set.as_slice(), orbit.set().as_slice()).is_some()
    }
}
