//! Deciding whether a set is ash within a bound, and of which parts: a definition that computes it, in `specs/`, and its
//! laws as the contracts of functions that do nothing. They say that the definition is right, and that what it finds lasts.
//!
//! Tested in `tests_objects`, by `life_census`.

ghost use Rattle.std.specs.Prelude.{◌≡◌, ℕ, ◌-◌, ◌≤◌, List, [], None, Some};
ghost use Rattle.std.specs.List.Sorted.{IsPermutation};
ghost use Rattle.life_model.specs.Evolution.{generation};
ghost use Rattle.life_model.specs.Generation.{Generation, empty};
ghost use Rattle.life_model.specs.Rule.{Rule};
ghost use Rattle.life_objects.specs.Ash.{IsAsh};
ghost use Rattle.life_objects.specs.Union.{generations};
ghost use Rattle.life_objects.specs.Decided.Decided.{ash_of};

/// If parts are found, the set is ash of these parts. If none are found, it is not ash of any parts.
pub fn ash_is_decided()
    ensures some { (R : Rule) (b : ℕ) (G : Generation) (parts : List Generation) →
        ash_of R b G ≡ Some parts →
        IsAsh R b G parts }
    ensures none { (R : Rule) (b : ℕ) (G : Generation) (parts : List Generation) →
        ash_of R b G ≡ None →
        IsAsh R b G parts → ⊥ }
{}

/// The parts of ash are found, in some order. For a set that is not ash nothing is found, and for the empty set the empty
/// list.
pub fn parts_are_found()
    ensures parts { (R : Rule) (b : ℕ) (G : Generation) (parts : List Generation) →
        IsAsh R b G parts →
        (found : List Generation) × (ash_of R b G ≡ Some found) × IsPermutation parts found }
    ensures otherwise { (R : Rule) (b : ℕ) (G : Generation) →
        ((parts : List Generation) → IsAsh R b G parts → ⊥) →
        ash_of R b G ≡ None }
    ensures nothing { (R : Rule) (b : ℕ) → ash_of R b empty ≡ Some [] }
{}

/// If parts are found, then for each later generation, and within each bound at least as great, what these parts have become
/// by then is found, in some order. Within a smaller bound nothing else is found.
pub fn what_was_found_lasts()
    ensures later { (R : Rule) (b c n : ℕ) (G : Generation) (parts : List Generation) → b ≤ c →
        ash_of R b G ≡ Some parts → (found : List Generation) ×
        (ash_of R c (generation R G n) ≡ Some found)
        × IsPermutation (generations R parts n) found }
    ensures bound { (R : Rule) (b c : ℕ) (G : Generation) (parts : List Generation) → b ≤ c →
        ash_of R b (generation R G b) ≡ Some parts →
        (found : List Generation) × (ash_of R c (generation R G c) ≡ Some found)
        × IsPermutation (generations R parts (c - b)) found }
    ensures same { (R : Rule) (b c n : ℕ) (G : Generation) (parts found : List Generation) →
        ash_of R b G ≡ Some parts → ash_of R c (generation R G n) ≡ Some found →
        IsPermutation (generations R parts n) found }
{}
