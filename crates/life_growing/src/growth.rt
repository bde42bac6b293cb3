//! The growth of a generation.
ghost use Rattle.std.specs.Prelude.{◌≡◌, ◌↔◌, ℕ, ◌+◌, ◌*◌, ◌<◌, ◌≤◌, All, AllPairs, IfNone, IfOk, IfSome, IsTrue, List, ◌∷◌, length};
ghost use Rattle.life_model.specs.Generation.{Generation};
ghost use Rattle.life_ash.specs.Parts.{ash_age_limit};
ghost use Rattle.life_growth.specs.Growth.{IsGrowth};
ghost use Rattle.life_growing.specs.Settled.Settling as settling;
ghost use Rattle.life_growing.specs.Growths.{IsGrowthOf};

use crate::apart::stay_apart;
use crate::emission::Engine;
use crate::loose::one_is_loose;
use crate::picking::{all_cells, picks};
use crate::settling::{Settled, settled};
use life_cells::Rule;
use life_classes::classes_of;
use life_plane::Plane;
use life_things::WAY_LIMIT;
use std::alloc::{AllocError, Global};
use std::marker::Model;

/// A growth: its engines, and the outcome of the debris beside them.
#[derive(Drop)]
pub struct Growth {
    engines: Vec<Engine>,
    debris: Settled,
}

impl Model for Growth {
    ghost use Rattle.life_growing.specs.Growths as growths;
    ghost use Rattle.life_growing.specs.Growths.{coded_growth};

    ghost Value = { growths.Growth };

    ghost coded = { coded_growth };

    ghost view = { λ g. record { engines = g.engines.items; debris = g.debris } };
}

impl Growth {
    /// Its engines.
    pub fn engines(&self) -> &[Engine]
        ensures { result.now ≡ self.now.engines }
    {
        self.engines.as_slice()
    }

    /// The outcome of its debris.
    pub fn debris(&self) -> &Settled
        ensures { result.now ≡ self.now.debris }
    {
        &self.debris
    }
}

/// The growth of a plane's cells within the bound, found from `length` generations of them. If `length` is at least
/// twice the bound and none is found, there is none.
///
/// The cells are split into classes, and each class that may be an engine is followed alone. So at any time only one
/// generation of all cells is in memory, and all generations of one class. Before that, the largest classes are
/// checked: one of them alone may show that there is no growth.
pub fn growth_of<P: Plane>(
    alloc: Global,
    plane: &P,
    rule: &Rule,
    length: u32,
    bound: u32,
) -> Result<Option<Growth>, AllocError>
    requires bound { 1 ≤ bound × bound ≤ WAY_LIMIT }
    requires age { ((P.steps_made plane.now + length) + bound) + bound ≤ ash_age_limit }
    ensures some { IfOk result (λ found. IfSome found (IsGrowthOf rule.now bound (P.members plane.now))) }
    ensures none { IfOk result (λ found. IfNone found (2 * bound ≤ length → (Es : List Generation) (S : Generation) →
        IsGrowth rule.now bound (P.members plane.now) Es S → ⊥)) }
{
    let age = plane.age();
    let classes = classes_of(alloc, plane, rule, length)?;
    if bound <= length / 2 && one_is_loose::<P>(alloc, rule, classes.as_slice(), age, bound)? {
        return Ok(None);
    }
    let picks = picks::<P>(alloc, rule, classes, age, length, bound)?;
    let engines = picks.engines.as_slice();
    if engines.is_empty() {
        return Ok(None);
    }
    let rest = all_cells(alloc, picks.others.as_slice())?;
    let Some(debris) = settled::<P>(alloc, rule, &rest, age, bound)? else {
        return Ok(None);
    };
    if !stay_apart(alloc, engines, &debris)? {
        return Ok(None);
    }
    Ok(Some(Growth {
        engines: picks.engines,
        debris,
    }))
}
