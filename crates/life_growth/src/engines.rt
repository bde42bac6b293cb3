//! The ways that a set may go as an engine within a bound: a finite search, as a definition that computes them, in `specs/`.
//! Its laws are the contracts of functions that do nothing: each engine's way is found, and each way that is found is an
//! engine's if what leaves never comes near again.

ghost use Rattle.std.specs.Prelude.{◌≡◌, ℕ, suc, ◌<◌, ◌≤◌, ◌↔◌, true, List, ◌∷◌, All, AllPairs, Contains};
ghost use Rattle.std.specs.List.Sorted.{IsPermutation};
ghost use Rattle.life_model.specs.Generation.{Generation};
ghost use Rattle.life_model.specs.Rule.{Rule};
ghost use Rattle.life_objects.specs.Apart.{AreApartForEver};
ghost use Rattle.life_objects.specs.Decided.Classes.{classes};
ghost use Rattle.life_growth.specs.Engine.{FallsApart, IsEngine, IsEngineWithin, Way};
ghost use Rattle.life_growth.specs.Growth.{IsGrowth};
ghost use Rattle.life_growth.specs.Onward.{LeavesCores, LeavesLefts};
ghost use Rattle.life_growth.specs.Unsplit.{AreClasses, IsUnsplit};
ghost use Rattle.life_growth.specs.Engines.Growths.{growths_of};
ghost use Rattle.life_growth.specs.Engines.Tests.{falls_apart, is_unsplit};
ghost use Rattle.life_growth.specs.Engines.Tracks.{Step, engine_tracks, way_along};

/// The classes that are computed for a set are those that determine its engines, and the tests of falling apart and of being
/// unsplit are correct.
pub fn tests_are_right()
    ensures classes { (R : Rule) (b : ℕ) (P : Generation) → AreClasses R b P (classes R P (suc b)) }
    ensures falls_apart { (R : Rule) (b : ℕ) (P : Generation) →
        (falls_apart R b P ≡ true) ↔ FallsApart R b P }
    ensures unsplit { (R : Rule) (b : ℕ) (P : Generation) → (is_unsplit R b P ≡ true) ↔ IsUnsplit R b P }
{}

/// A track that is found is the way of an engine, if its period is from 1 to the bound and what leaves never comes near
/// again.
pub fn found_tracks_are_ways()
    ensures { (R : Rule) (b n : ℕ) (E : Generation) (track : List Step) → 1 ≤ n → n ≤ b →
        Contains (engine_tracks R b n E) track → LeavesCores R (way_along E track) →
        LeavesLefts R (way_along E track) →
        IsEngine R b E (way_along E track) }
{}

/// The way of an engine is found, among the tracks whose number of steps is its period.
pub fn each_way_is_found()
    ensures { (R : Rule) (b : ℕ) (E : Generation) (way : Way) → IsEngine R b E way → (track : List Step) ×
        Contains (engine_tracks R b way.period E) track × IsEngine R b E (way_along E track) }
{}

/// The growth of a pattern is found, with its engines in some order. What is found is a growth, if its engines are engines,
/// and they and the debris stay apart for ever.
pub fn each_growth_is_found()
    ensures found { (R : Rule) (b : ℕ) (G S : Generation) (Es : List Generation) → IsGrowth R b G Es S →
        (found : List Generation) × Contains (growths_of R b G) (found, S)
        × IsPermutation Es found }
    ensures right { (R : Rule) (b : ℕ) (G S : Generation) (Es : List Generation) →
        Contains (growths_of R b G) (Es, S) → All (IsEngineWithin R b) Es →
        AllPairs (AreApartForEver R) (S ∷ Es) → IsGrowth R b G Es S }
{}
