//! The engines among the classes of a set, and the other classes.
ghost use Rattle.std.specs.Prelude.{◌≡◌, ◌+◌, ◌≤◌, All, AllPairs, IfOk};
ghost use Rattle.life_model.specs.Generation as generations;
ghost use Rattle.life_cells.specs.Limits.{IsWithin};
ghost use Rattle.life_ash.specs.Parts.{ash_age_limit};
ghost use Rattle.life_classes.specs.Tracking.{first_sets};
ghost use Rattle.life_objects.specs.Apart.{AreApartFor};
ghost use Rattle.life_objects.specs.Union.{union_of};
ghost use Rattle.life_growing.specs.Picking.{ArePicks};

use crate::emission::Engine;
use crate::engines::engine_of;
use life_cells::{CellList, Rule, put_in_order};
use life_classes::Class;
use life_plane::Plane;
use life_things::WAY_LIMIT;
use std::alloc::{AllocError, Global};

/// The engines among some classes, and the other classes.
#[derive(Drop)]
pub struct Picked {
    pub engines: Vec<Engine>,
    pub others: Vec<CellList>,
}

/// The classes of a set of this age, sorted into those that are engines within the bound and the others. Each is
/// looked at alone, for `length` generations.
pub fn picks<P: Plane>(
    alloc: Global,
    rule: &Rule,
    classes: Vec<Class>,
    age: u32,
    length: u32,
    bound: u32,
) -> Result<Picked, AllocError>
    requires bound { 1 ≤ bound × bound ≤ WAY_LIMIT }
    requires age { ((age + length) + bound) + bound ≤ ash_age_limit }
    requires within { All (λ P. All (IsWithin age) (generations.cells P)) (first_sets classes.items) }
    requires apart { AllPairs (AreApartFor rule.now length) (first_sets classes.items) }
    ensures { IfOk result (λ picks. ArePicks rule.now bound length (first_sets classes.items) picks.engines.items
        picks.others.items) }
{
    let mut engines = Vec::new(alloc);
    let mut others = Vec::new(alloc);
    for class in classes {
        match engine_of::<P>(alloc, rule, &class.first, age, length, bound)? {
            Some(engine) => engines.push(engine)?,
            None => others.push(class.first)?,
        }
    }
    Ok(Picked { engines, others })
}

/// The cells of all the sets.
pub fn all_cells(alloc: Global, sets: &[CellList]) -> Result<CellList, AllocError>
    ensures { IfOk result (λ all. all ≡ union_of sets.now) }
{
    let mut cells = Vec::new(alloc);
    for set in sets {
        cells.extend_from_slice(set.as_slice())?;
    }
    put_in_order(&mut cells);
    Ok(CellList::from_ordered(cells))
}
