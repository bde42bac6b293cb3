//! Deciding which engine a set is.
ghost use Rattle.std.specs.Prelude.{◌≡◌, ℕ, ◌+◌, ◌*◌, ◌≤◌, All, IfNone, IfOk, IfSome};
ghost use Rattle.life_model.specs.Generation.{Generation};
ghost use Rattle.life_model.specs.Generation as generations;
ghost use Rattle.life_cells.specs.Limits.{IsWithin};
ghost use Rattle.life_ash.specs.Parts.{ash_age_limit};
ghost use Rattle.life_tracks.specs.Frames.Frames.{IsFilm};
ghost use Rattle.life_growth.specs.Engine.{IsEngineWithin};
ghost use Rattle.life_growth.specs.Unsplit.{IsUnsplit};
ghost use Rattle.life_growing.specs.Growths.{IsEngineFound, start_of};

use crate::emission::Engine;
use crate::finding::engine_along;
use crate::refusal::are_no_engine;
use crate::whole::film_if_whole;
use life_cells::{CellList, Rule};
use life_plane::Plane;
use life_things::WAY_LIMIT;
use life_tracks::{Film, tracks};
use std::alloc::{AllocError, Global};

/// The engine within the bound that goes along a track of a film of a set of this age, if there is one. If the set is
/// unsplit for the whole film, it is that engine.
fn engine_in<P: Plane>(
    alloc: Global,
    rule: &Rule,
    film: &Film,
    age: u32,
    length: u32,
    bound: u32,
) -> Result<Option<Engine>, AllocError>
    requires bound { 1 ≤ bound × bound ≤ WAY_LIMIT }
    requires age { ((age + length) + bound) + bound ≤ ash_age_limit }
    requires film { (E : Generation) × IsFilm rule.now E length film.now × All (IsWithin age) (generations.cells E) }
    ensures found { IfOk result (λ found. IfSome found (IsEngineFound rule.now bound)) }
    ensures start { IfOk result (λ found. IfSome found (λ engine. (E : Generation) → IsFilm rule.now E length film.now →
        IsUnsplit rule.now length E → start_of engine ≡ E)) }
    ensures none { IfOk result (λ found. IfNone found ((E : Generation) → IsFilm rule.now E length film.now →
        2 * bound ≤ length → IsEngineWithin rule.now bound E → ⊥)) }
{
    for track in tracks(alloc, film)? {
        if let Some(engine) = engine_along::<P>(alloc, rule, track, age, length, bound)? {
            return Ok(Some(engine));
        }
    }
    Ok(None)
}

/// The engine within the bound that a set of this age is, found in a film of `length` generations of the set alone. If
/// the film is at least twice as long as the bound and none is found, the set is no engine.
///
/// The film is made only if the populations allow an engine. It holds each cell of each of its generations.
pub fn engine_of<P: Plane>(
    alloc: Global,
    rule: &Rule,
    cells: &CellList,
    age: u32,
    length: u32,
    bound: u32,
) -> Result<Option<Engine>, AllocError>
    requires bound { 1 ≤ bound × bound ≤ WAY_LIMIT }
    requires age { ((age + length) + bound) + bound ≤ ash_age_limit }
    requires within { All (IsWithin age) (generations.cells cells.now) }
    ensures found { IfOk result (λ found. IfSome found (IsEngineFound rule.now bound)) }
    ensures start { IfOk result (λ found. IfSome found (λ engine. start_of engine ≡ cells.now)) }
    ensures none { IfOk result (λ found. IfNone found (2 * bound ≤ length →
        IsEngineWithin rule.now bound cells.now → ⊥)) }
{
    if are_no_engine::<P>(alloc, rule, cells, age, bound)? {
        return Ok(None);
    }
    let Some(film) = film_if_whole::<P>(alloc, rule, cells, age, length)? else {
        return Ok(None);
    };
    engine_in::<P>(alloc, rule, &film, age, length, bound)
}
