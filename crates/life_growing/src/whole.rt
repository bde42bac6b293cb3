//! Deciding whether the cores of a track are unsplit within a bound.
ghost use Rattle.std.specs.Prelude.{◌≡◌, ◌↔◌, ℕ, ◌+◌, ◌≤◌, All, IfNone, IfOk, IfSome, IsTrue};
ghost use Rattle.std.specs.Bool.{OnTrue};
ghost use Rattle.std.specs.List.{Contains};
ghost use Rattle.life_model.specs.Generation as generations;
ghost use Rattle.life_model.specs.Generation.{Generation};
ghost use Rattle.life_model.specs.Rule.{Rule as ModelRule};
ghost use Rattle.life_cells.specs.Limits.{IsWithin};
ghost use Rattle.life_ash.specs.Parts.{ash_age_limit};
ghost use Rattle.life_tracks.specs.Frames.Frames.{IsFilm, classes_at};
ghost use Rattle.life_growth.specs.Unsplit.{IsUnsplit};
ghost use Rattle.life_tracks.specs.Tracks.{way_of};
ghost use Rattle.life_growing.specs.Places.{AreWithinAlong};

use crate::lefts::core_before;
use life_cells::{CellList, Rule};
use life_plane::{AGE_LIMIT, Plane};
use life_tracks::{Film, Track};
use std::alloc::{AllocError, Global};

/// True if one of the classes of a film's generation has exactly these cells.
fn has_class(film: &Film, n: usize, cells: &CellList) -> bool
    requires { (R : ModelRule) × (G : Generation) × (T : ℕ) × IsFilm R G T film.now }
    ensures { OnTrue result ((R : ModelRule) (G : Generation) (T : ℕ) → IsFilm R G T film.now →
        (n ≤ T) × Contains (classes_at film.now n) cells.now) }
{
    if n > film.length() {
        return false;
    }
    for class in film.classes(n) {
        if class.as_slice() == cells.as_slice() {
            return true;
        }
    }
    false
}

/// The film of some cells of this age up to the bound, if they are unsplit within it.
pub fn film_if_whole<P: Plane>(
    alloc: Global,
    rule: &Rule,
    cells: &CellList,
    age: u32,
    bound: u32,
) -> Result<Option<Film>, AllocError>
    requires age { age + bound ≤ AGE_LIMIT }
    requires within { All (IsWithin age) (generations.cells cells.now) }
    ensures some { IfOk result (λ found. IfSome found (IsFilm rule.now cells.now bound)) }
    ensures whole { IfOk result (λ found. IfSome found (λ film. IsUnsplit rule.now bound cells.now)) }
    ensures none { IfOk result (λ found. IfNone found (IsUnsplit rule.now bound cells.now → ⊥)) }
{
    let plane = P::at_age(alloc, cells, age)?;
    let film = Film::of(alloc, &plane, rule, bound)?;
    if film.classes(0).len() != 1 {
        return Ok(None);
    }
    Ok(Some(film))
}

/// A film of a core up to the bound. It also decides for each later core that is among its classes.
#[derive(Drop)]
struct Seen {
    from: usize,
    film: Film,
}

/// True if each core of a track is unsplit within the bound. The first core is of this age. The film of a core also
/// decides for later cores, as long as they are classes of it, so one film is usually enough.
pub fn are_whole<P: Plane>(
    alloc: Global,
    rule: &Rule,
    track: &Track,
    age: u32,
    bound: u32,
) -> Result<bool, AllocError>
    requires short { (way_of track.now).period ≤ bound }
    requires age { (age + bound) + bound ≤ ash_age_limit }
    requires within { AreWithinAlong age (way_of track.now) }
    ensures { IfOk result (λ are. IsTrue are
        ↔ ((n : ℕ) → n ≤ (way_of track.now).period → IsUnsplit rule.now bound ((way_of track.now).core n))) }
{
    let mut seen: Option<Seen> = None;
    for n in 0..track.period() + 1 {
        let core = core_before(track, n);
        let is_told = match &seen {
            Some(seen) => has_class(&seen.film, n - seen.from, core),
            None => false,
        };
        if !is_told {
            match film_if_whole::<P>(alloc, rule, core, age + n as u32, bound)? {
                Some(film) => seen = Some(Seen { from: n, film }),
                None => return Ok(false),
            }
        }
    }
    Ok(true)
}
