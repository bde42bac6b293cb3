//! The independent parts of a set of cells that recurs under a Life-like rule, as a function of the set: a definition that
//! computes them, in `specs/`, and its laws as the contracts of functions that do nothing.

ghost use Rattle.std.specs.Prelude.{◌≡◌, ◌≢◌, ◌↔◌, ℕ, true, List};
ghost use Rattle.std.specs.Prelude.{All, AllPairs, Contains};
ghost use Rattle.std.specs.List.Sorted.{IsPermutation};
ghost use Rattle.life_model.specs.Evolution.{generation};
ghost use Rattle.life_model.specs.Generation.{Generation, empty};
ghost use Rattle.life_model.specs.Rule.{Rule};
ghost use Rattle.life_objects.specs.Apart.{AreDisjoint};
ghost use Rattle.life_objects.specs.Ash.{RecursWithin};
ghost use Rattle.life_objects.specs.Union.{generations, union_of};
ghost use Rattle.life_parts.specs.Parts.Apart.{AreHeldApart};
ghost use Rattle.life_parts.specs.Parts.Parts.{AreIndependentParts};
ghost use Rattle.life_parts.specs.Parts.Splittings.{AreUntouching};
ghost use Rattle.life_parts.specs.Independent.Groupings.{splittings};
ghost use Rattle.life_parts.specs.Independent.Held.{are_held_apart};
ghost use Rattle.life_parts.specs.Independent.Independent.{independent_parts_of};

/// Each set that recurs within the bound has independent parts: those that are found.
pub fn each_set_that_recurs_has_independent_parts()
    ensures { (R : Rule) (b : ℕ) (P : Generation) → RecursWithin R b P →
        AreIndependentParts R P (independent_parts_of R b P) }
{}

/// The grouping that is found is, up to order, the independent parts of the set.
pub fn the_finest_grouping_is_the_independent_parts()
    ensures { (R : Rule) (b : ℕ) (P : Generation) (Qs : List Generation) →
        RecursWithin R b P → AreIndependentParts R P Qs →
        IsPermutation (independent_parts_of R b P) Qs }
{}

/// The parts that are found do not depend on the bound, if the set recurs within it.
pub fn the_bound_does_not_matter()
    ensures { (R : Rule) (b c : ℕ) (P : Generation) → RecursWithin R b P → RecursWithin R c P →
        independent_parts_of R b P ≡ independent_parts_of R c P }
{}

/// The parts that are found for a later generation are what the parts have become by then, in some order.
pub fn what_is_found_lasts()
    ensures { (R : Rule) (b n : ℕ) (P : Generation) → RecursWithin R b P →
        IsPermutation (generations R (independent_parts_of R b P) n) (independent_parts_of R b (generation R P n)) }
{}

/// The splittings of a set are all the ways, up to order, to make it up of sets that have cells and don't touch.
pub fn splittings_are_all_ways()
    ensures sets { (G : Generation) (Hs : List Generation) → Contains (splittings G) Hs →
        (union_of Hs ≡ G) × AllPairs AreUntouching Hs × All (λ H. H ≢ empty) Hs }
    ensures all { (G : Generation) (Hs : List Generation) →
        union_of Hs ≡ G → AllPairs AreUntouching Hs → All (λ H. H ≢ empty) Hs →
        (Gs : List Generation) × Contains (splittings G) Gs × IsPermutation Gs Hs }
{}

/// For disjoint sets that make up a generation, the test decides whether they are held apart in it.
pub fn the_test_decides_what_is_held_apart()
    ensures { (R : Rule) (G : Generation) (Hs : List Generation) →
        union_of Hs ≡ G → AllPairs AreDisjoint Hs →
        (are_held_apart R G Hs ≡ true) ↔ AreHeldApart R G Hs }
{}
