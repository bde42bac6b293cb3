//! Lines of classes, each the parent of the next, one generation after another.
ghost use Rattle.std.specs.Prelude.{◌≡◌, ℕ, suc, ◌<◌, IfOk, false, get_or, length, true};
ghost use Rattle.life_model.specs.Cell.{Cell};
ghost use Rattle.life_model.specs.Generation.{empty};
ghost use Rattle.life_model.specs.Symmetry.{translate_of};
ghost use Rattle.life_plane.specs.Offsets.{AreNotTranslates};
ghost use Rattle.life_tracks.specs.Frames.Frames.{classes_at, parents_at};
ghost use Rattle.life_tracks.specs.Films.{IsLinkedFilm, last_of};
ghost use Rattle.life_tracks.specs.Lines.{AreLines, GoesOn, IsSibling};

use crate::frames::Film;
use life_cells::CellList;
use life_plane::offset_between;
use std::alloc::{AllocError, Global};

/// The record of the line that leads to a class of a film.
#[derive(Clone, Copy, Drop)]
pub struct Line {
    /// The place of its first class.
    pub origin: usize,
    /// True if some class after the first is the first one, moved or not.
    pub is_back: bool,
    /// True if some class after the first, up to the one at which the line came back, has a sibling.
    pub has_left: bool,
    /// True if the last class is the first one, moved or not, no class in between is, and something has left.
    pub is_return: bool,
}

/// The class at a place.
pub fn class_in(classes: &[CellList], place: usize) -> &CellList
    requires { place < length classes.now }
    ensures { result.now ≡ get_or classes.now place empty }
{
    &classes[place]
}

/// True if another class has the same parent as this one.
fn has_sibling(parents: &[usize], place: usize) -> bool
    requires { place < length parents.now }
    ensures yes { result ≡ true → (j : ℕ) × IsSibling parents.now place j }
    ensures no { result ≡ false → (j : ℕ) → IsSibling parents.now place j → ⊥ }
{
    for other in 0..parents.len() {
        if other != place && parents[other] == parents[place] {
            return true;
        }
    }
    false
}

/// True if the second set is the first one, moved or not.
fn is_moved(from: &CellList, to: &CellList) -> bool
    ensures yes { result ≡ true → (e : Cell) × (to.now ≡ translate_of from.now e) }
    ensures no { result ≡ false → AreNotTranslates from.now to.now }
{
    match offset_between(from.as_slice(), to.as_slice()) {
        Some(_by) => true,
        None => false,
    }
}

/// The line that extends one from the class `first` to the class `last` at a place. `parents` are the parents of the
/// generation of `last`.
fn line_on(
    first: &CellList,
    last: &CellList,
    parents: &[usize],
    before: &Line,
    place: usize,
) -> Line
    requires { place < length parents.now }
    ensures { GoesOn parents.now first.now last.now place before.now result }
{
    if before.is_back {
        return Line {
            origin: before.origin,
            is_back: true,
            has_left: before.has_left,
            is_return: false,
        };
    }
    let has_left = before.has_left || has_sibling(parents, place);
    let is_back = is_moved(first, last);
    Line {
        origin: before.origin,
        is_back,
        has_left,
        is_return: is_back && has_left,
    }
}

/// The lines to the classes of the first generation.
pub fn first_lines(alloc: Global, film: &Film) -> Result<Vec<Line>, AllocError>
    requires { IsLinkedFilm film.now }
    ensures { IfOk result (λ lines. AreLines (classes_at film.now) (parents_at film.now) 0 lines.items) }
{
    let count = film.classes(0).len();
    let mut lines = Vec::with_capacity(alloc, count)?;
    for origin in 0..count {
        lines.push(Line {
            origin,
            is_back: false,
            has_left: false,
            is_return: false,
        })?;
    }
    Ok(lines)
}

/// The lines to the classes of a generation, from those to the classes of the one before.
pub fn later_lines(
    alloc: Global,
    film: &Film,
    t: usize,
    lines: &[Line],
) -> Result<Vec<Line>, AllocError>
    requires film { IsLinkedFilm film.now }
    requires within { t < last_of film.now }
    requires lines { AreLines (classes_at film.now) (parents_at film.now) t lines.now }
    ensures { IfOk result (λ later. AreLines (classes_at film.now) (parents_at film.now) (suc t) later.items) }
{
    let firsts = film.classes(0);
    let classes = film.classes(t + 1);
    let parents = film.parents(t);
    let mut later = Vec::with_capacity(alloc, classes.len())?;
    for place in 0..classes.len() {
        let before = lines[parents[place]];
        later.push(line_on(
            class_in(firsts, before.origin),
            class_in(classes, place),
            parents,
            &before,
            place,
        ))?;
    }
    Ok(later)
}
