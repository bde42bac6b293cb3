//! The classes at which the lines of a film come back.
ghost use Rattle.std.specs.Prelude.{◌≡◌, ℕ, ◌≤◌, IfOk, OnOk};
ghost use Rattle.std.specs.List.{Contains};
ghost use Rattle.life_tracks.specs.Frames.Frames.{classes_at, parents_at};
ghost use Rattle.life_tracks.specs.Films.{IsLinkedFilm, last_of};
ghost use Rattle.life_tracks.specs.Returns.{AreReturns, IsWithReturns};

use crate::frames::Film;
use crate::lines::{Line, first_lines, later_lines};
use std::alloc::{AllocError, Global};

/// A class of a film, by its generation and its place there.
#[derive(Clone, Copy, Drop)]
pub struct Return {
    pub generation: usize,
    pub place: usize,
}

/// Adds the classes of a generation whose lines come back there.
fn add_returns(found: &mut Vec<Return>, lines: &[Line], generation: usize) -> Result<(), AllocError>
    ensures { OnOk result (IsWithReturns lines.now generation found.old.items found.new.items) }
{
    for place in 0..lines.len() {
        if lines[place].is_return {
            found.push(Return { generation, place })?;
        }
    }
    Ok(())
}

/// The classes at which the lines of a film come back for the first time, provided that something has left on the
/// way.
pub fn returns(alloc: Global, film: &Film) -> Result<Vec<Return>, AllocError>
    requires { IsLinkedFilm film.now }
    ensures { IfOk result (λ found. AreReturns (classes_at film.now) (parents_at film.now) (last_of film.now) found.items) }
{
    let mut lines = first_lines(alloc, film)?;
    let mut found = Vec::new(alloc);
    for t in 0..film.length() {
        lines = later_lines(alloc, film, t, lines.as_slice())?;
        add_returns(&mut found, lines.as_slice(), t + 1)?;
    }
    Ok(found)
}
