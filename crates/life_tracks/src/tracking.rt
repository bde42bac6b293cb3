//! The classes of a film's first generation that come back.
ghost use Rattle.std.specs.Prelude.{◌≡◌, ℕ, ◌+◌, ◌≤◌, ◌<◌, IfOk, get_or, length};
ghost use Rattle.std.specs.List.{All, Contains};
ghost use Rattle.life_model.specs.Generation.{Generation, empty};
ghost use Rattle.life_model.specs.Rule.{Rule};
ghost use Rattle.life_growth.specs.Engine.{IsEngine, Way};
ghost use Rattle.life_tracks.specs.Frames.Frames.{IsFilm, classes_at, parents_at};
ghost use Rattle.life_tracks.specs.Films.{IsLinkedFilm, IsReturnOf, IsTrackOf};
ghost use Rattle.life_tracks.specs.Readings.{AreReadOff};
ghost use Rattle.life_tracks.specs.Tracks.{HasTrack};

use crate::frames::Film;
use crate::reading::track_to;
use crate::returns::{Return, returns};
use crate::track::Track;
use std::alloc::{AllocError, Global};

/// The tracks along the lines that come back at the classes.
fn tracks_to(alloc: Global, film: &Film, found: &[Return]) -> Result<Vec<Track>, AllocError>
    requires film { IsLinkedFilm film.now }
    requires found { All (IsReturnOf film.now) found.now }
    ensures { IfOk result (λ tracks. AreReadOff (classes_at film.now) (parents_at film.now) found.now tracks.items) }
{
    let mut tracks = Vec::with_capacity(alloc, found.len())?;
    for n in 0..found.len() {
        tracks.push(track_to(alloc, film, found[n])?)?;
    }
    Ok(tracks)
}

/// All tracks along which classes of a film's first generation come back within the film and leave something.
///
/// Most of the time is spent on comparing, in each generation, each class that has not come back yet with the one that
/// it comes from, and on looking for others with the same parent.
pub fn tracks(alloc: Global, film: &Film) -> Result<Vec<Track>, AllocError>
    requires { (R : Rule) × (G : Generation) × (T : ℕ) × IsFilm R G T film.now }
    ensures right { IfOk result (λ tracks. (R : Rule) (G : Generation) (T : ℕ) → IsFilm R G T film.now →
        All (IsTrackOf R T film.now) tracks.items) }
    ensures each { IfOk result (λ tracks. (R : Rule) (G : Generation) (T b place : ℕ) (way : Way) →
        IsFilm R G T film.now → place < length (classes_at film.now 0) →
        IsEngine R b (get_or (classes_at film.now 0) place empty) way → b + way.period ≤ T →
        HasTrack R b (get_or (classes_at film.now 0) place empty) place tracks.items) }
{
    let found = returns(alloc, film)?;
    let tracks = tracks_to(alloc, film, found.as_slice())?;
    Ok(tracks)
}
