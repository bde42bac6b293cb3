//! The report on growth.
ghost use Rattle.std.specs.Prelude.{◌≡◌, ℕ, IfOk};
ghost use Rattle.life_model.specs.Generation.{Generation};
ghost use Rattle.life_model.specs.Rule.{Rule};
ghost use Rattle.life_answer.specs.Tales.{tale_of};
ghost use Rattle.life_answer.specs.Told.{told_of_engines};
ghost use Rattle.life_growing.specs.Growths.{IsEngineFound, IsGrowthOf, start_of, starts_of};

use crate::emitted::emitted;
use crate::known_sets::KnownSets;
use life_answer::{EngineList, Parts, Tale};
use life_growing::{Engine, Growth};
use std::alloc::{AllocError, Global};

/// The report on an engine that recurs after `period` generations, moved by `by`, and emits these objects.
fn tale_of_way(period: u32, by: (i32, i32), emits: Parts) -> Tale
    ensures { result ≡ record { period = period; dx = by.0; dy = by.1; emits = emits } }
{
    let (dx, dy) = by;
    Tale {
        period,
        dx,
        dy,
        emits,
    }
}

/// The report on an engine.
fn tale(
    alloc: Global,
    known: &mut KnownSets,
    engine: &Engine,
    near: bool,
) -> Result<Tale, AllocError>
    ensures { IfOk result (λ tale. (R : Rule) (b : ℕ) → IsEngineFound R b engine.now →
        tale ≡ tale_of near R b (start_of engine.now)) }
{
    let track = engine.track();
    let Ok(period) = u32::try_from(track.period()) else {
        // No memory holds that many steps.
        return Err(AllocError);
    };
    let emits = emitted(alloc, known, engine.lefts(), near)?;
    Ok(tale_of_way(period, track.displacement(), emits))
}

/// The report on growth: its engines, where those with the same report are counted together. What an engine emits counts as the
/// parts of ash do: with `near`, cells that are near one another as one object, and otherwise the independent parts of each
/// object.
pub fn told(alloc: Global, growth: &Growth, near: bool) -> Result<EngineList, AllocError>
    ensures { IfOk result (λ told. (R : Rule) (b : ℕ) (G : Generation) → IsGrowthOf R b G growth.now →
        told ≡ told_of_engines near R b (starts_of growth.now.engines)) }
{
    let mut engines = EngineList::none(alloc);
    let mut known = KnownSets::new(alloc);
    for engine in growth.engines() {
        engines.add(tale(alloc, &mut known, engine, near)?)?;
    }
    Ok(engines)
}
