//! Reading tracks off a film.
ghost use Rattle.std.specs.Prelude.{◌≡◌, ℕ, suc, ◌+◌, ◌<◌, IfOk, get_or, length};
ghost use Rattle.life_model.specs.Generation.{empty};
ghost use Rattle.life_tracks.specs.Frames.Frames.{classes_at, parents_at};
ghost use Rattle.life_tracks.specs.Films.{IsLinkedFilm, IsReturnOf};
ghost use Rattle.life_tracks.specs.Readings.{AreLeft, AreOnLine, AreStepsAlong, IsReadOff, IsWithSibling};

use crate::frames::Film;
use crate::lines::class_in;
use crate::returns::Return;
use crate::track::{Step, Track};
use life_cells::CellList;
use life_classes::union;
use std::alloc::{AllocError, Global};

/// A copy of a set.
fn copied(alloc: Global, cells: &CellList) -> Result<CellList, AllocError>
    ensures { IfOk result (λ copy. copy ≡ cells.now) }
{
    Ok(CellList::from_ordered(cells.as_slice().to_vec(alloc)?))
}

/// A set, united with the class at `other` if that is a sibling of the class at `place`.
fn with_sibling(
    alloc: Global,
    left: CellList,
    classes: &[CellList],
    parents: &[usize],
    place: usize,
    other: usize,
) -> Result<CellList, AllocError>
    requires count { length parents.now ≡ length classes.now }
    requires place { place < length parents.now }
    requires other { other < length parents.now }
    ensures { IfOk result (IsWithSibling classes.now parents.now place other left) }
{
    if other == place {
        return Ok(left);
    }
    if parents[other] != parents[place] {
        return Ok(left);
    }
    let more = union(alloc, &left, class_in(classes, other))?;
    Ok(more)
}

/// The cells of the siblings of a class.
fn left_beside(
    alloc: Global,
    classes: &[CellList],
    parents: &[usize],
    place: usize,
) -> Result<CellList, AllocError>
    requires count { length parents.now ≡ length classes.now }
    requires place { place < length parents.now }
    ensures { IfOk result (AreLeft classes.now parents.now place) }
{
    let mut left = CellList::with_capacity(alloc, 0)?;
    for other in 0..parents.len() {
        left = with_sibling(alloc, left, classes, parents, place, other)?;
    }
    Ok(left)
}

/// The parent of the class at a place.
fn parent_of(parents: &[usize], place: usize) -> usize
    requires { place < length parents.now }
    ensures { result ≡ get_or parents.now place 0 }
{
    parents[place]
}

/// The places of the classes on the line that comes back, from the first class on.
fn line_places(alloc: Global, film: &Film, end: Return) -> Result<Vec<usize>, AllocError>
    requires film { IsLinkedFilm film.now }
    requires end { IsReturnOf film.now end }
    ensures { IfOk result (λ places. AreOnLine (parents_at film.now) end.generation end.place places.items) }
{
    let mut places = vec![in alloc; end.place; end.generation + 1]?;
    for back in 0..end.generation {
        let t = end.generation - 1 - back;
        let parent = parent_of(film.parents(t), places[t + 1]);
        places[t] = parent;
    }
    Ok(places)
}

/// The step to a class.
fn step_to(
    alloc: Global,
    classes: &[CellList],
    parents: &[usize],
    place: usize,
) -> Result<Step, AllocError>
    requires count { length parents.now ≡ length classes.now }
    requires place { place < length parents.now }
    ensures core { IfOk result (λ step. step.0 ≡ get_or classes.now place empty) }
    ensures left { IfOk result (λ step. AreLeft classes.now parents.now place step.1) }
{
    let core = copied(alloc, class_in(classes, place))?;
    let left = left_beside(alloc, classes, parents, place)?;
    Ok(Step::new(core, left))
}

/// The steps along the line that comes back.
fn line_steps(
    alloc: Global,
    film: &Film,
    end: Return,
    places: &[usize],
) -> Result<Vec<Step>, AllocError>
    requires film { IsLinkedFilm film.now }
    requires end { IsReturnOf film.now end }
    requires places { AreOnLine (parents_at film.now) end.generation end.place places.now }
    ensures { IfOk result (λ steps. AreStepsAlong (classes_at film.now) (parents_at film.now) end.generation end.place
        end.generation steps.items) }
{
    let mut steps = Vec::with_capacity(alloc, end.generation)?;
    for t in 0..end.generation {
        let classes = film.classes(t + 1);
        let parents = film.parents(t);
        steps.push(step_to(alloc, classes, parents, places[t + 1])?)?;
    }
    Ok(steps)
}

/// The track along the line that comes back at a class.
pub fn track_to(alloc: Global, film: &Film, end: Return) -> Result<Track, AllocError>
    requires film { IsLinkedFilm film.now }
    requires end { IsReturnOf film.now end }
    ensures { IfOk result (IsReadOff (classes_at film.now) (parents_at film.now) end.generation end.place) }
{
    let places = line_places(alloc, film, end)?;
    let classes = film.classes(0);
    let start = copied(alloc, class_in(classes, places[0]))?;
    let steps = line_steps(alloc, film, end, places.as_slice())?;
    Ok(Track::new(places[0], start, steps))
}
