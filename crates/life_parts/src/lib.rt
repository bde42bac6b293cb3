//! The independent parts of a set of cells that evolves by a Life-like rule: definitions in `specs/`, and their laws as
//! the contracts of functions that do nothing. `independent` computes the parts of a set that recurs.
//!
//! Tested in `checks/laws`.
#![tactic(auto)]

mod independent;

ghost use Rattle.std.specs.Prelude.{◌≡◌, ◌≢◌, ◌↔◌, ℕ, ◌+◌, ◌*◌, ◌<◌, ◌≤◌, true, List, [], ◌∷◌, ◌++◌, length, map};
ghost use Rattle.std.specs.Prelude.{All, AllPairs, Contains};
ghost use Rattle.std.specs.List.Sorted.{IsPermutation};
ghost use Rattle.life_model.specs.Cell.{Cell, plus};
ghost use Rattle.life_model.specs.Generation.{Generation, contains, empty};
ghost use Rattle.life_model.specs.Evolution.{generation};
ghost use Rattle.life_model.specs.Recurrence.{AreOneObject, RecursBy};
ghost use Rattle.life_model.specs.Rule.{Rule};
ghost use Rattle.life_model.specs.Symmetry.{Orientation, image_under, translate_of};
ghost use Rattle.life_objects.specs.Apart.{AreApartForEver, AreDisjoint};
ghost use Rattle.life_objects.specs.Ash.{IsAsh};
ghost use Rattle.life_objects.specs.Drift.{multiple_of};
ghost use Rattle.life_objects.specs.Kinds.{AreAlike};
ghost use Rattle.life_objects.specs.Onset.{Recurs};
ghost use Rattle.life_objects.specs.Union.{generations, union, union_of};
ghost use Rattle.life_parts.specs.Parts.Apart.{AreHeldApart, HaveBoth};
ghost use Rattle.life_parts.specs.Parts.Forks.{AreForksTied, HasBirthsAtThreeAlone, IsFork};
ghost use Rattle.life_parts.specs.Parts.Parts.{AreIndependentParts, ArePartsOfEach, joined};
ghost use Rattle.life_parts.specs.Parts.Splittings.{AreSplit, AreSplitThroughout};
ghost use Rattle.life_parts.specs.Parts.Ties.{AreTied};

pub use independent::{
    each_set_that_recurs_has_independent_parts, splittings_are_all_ways, the_bound_does_not_matter,
    the_finest_grouping_is_the_independent_parts, the_test_decides_what_is_held_apart,
    what_is_found_lasts,
};

/// The independent parts of a set evolve as if each were alone: each generation of the set is the union of that generation of its
/// parts, no two of which share a cell, and a part's generation has just the cells that are tied to the part.
pub fn each_part_evolves_alone()
    ensures together { (R : Rule) (P : Generation) (Qs : List Generation) (n : ℕ) →
        AreIndependentParts R P Qs → generation R P n ≡ union_of (generations R Qs n) }
    ensures disjoint { (R : Rule) (P : Generation) (Qs : List Generation) (n : ℕ) →
        AreIndependentParts R P Qs → AllPairs AreDisjoint (generations R Qs n) }
    ensures cells { (R : Rule) (P Q : Generation) (Qs : List Generation) (n : ℕ) (c x : Cell) →
        AreIndependentParts R P Qs → Contains Qs Q → contains Q c ≡ true →
        (contains (generation R Q n) x ≡ true) ↔ AreTied R P 0 c n x }
{}

/// Each independent part of a set that recurs recurs too, with the same velocity, after no more of the set's periods than there
/// are parts.
pub fn each_part_comes_again()
    ensures { (R : Rule) (P Q : Generation) (Qs : List Generation) (p : ℕ) (d : Cell) →
        RecursBy R P p d → AreIndependentParts R P Qs → Contains Qs Q →
        (k : ℕ) × (1 ≤ k) × (k ≤ length Qs) × RecursBy R Q (k * p) (multiple_of k d) }
{}

/// A set has only one list of independent parts, up to order.
pub fn a_set_has_one_list_of_independent_parts()
    ensures { (R : Rule) (P : Generation) (Qs others : List Generation) →
        AreIndependentParts R P Qs → AreIndependentParts R P others → IsPermutation Qs others }
{}

/// The independent parts of each later generation of a set that recurs are what its parts have become, and those of a set that is
/// moved or turned are its parts, moved or turned likewise.
pub fn phase_and_place_do_not_matter()
    ensures later { (R : Rule) (P : Generation) (Qs : List Generation) (p k : ℕ) (d : Cell) →
        RecursBy R P p d → AreIndependentParts R P Qs →
        AreIndependentParts R (generation R P k) (generations R Qs k) }
    ensures moved { (R : Rule) (P : Generation) (Qs : List Generation) (d : Cell) →
        AreIndependentParts R P Qs →
        AreIndependentParts R (translate_of P d) (map (λ Q. translate_of Q d) Qs) }
    ensures turned { (R : Rule) (P : Generation) (Qs : List Generation) (m : Orientation) →
        AreIndependentParts R P Qs →
        AreIndependentParts R (image_under P m) (map (λ Q. image_under Q m) Qs) }
{}

/// An independent part of a set that recurs has one independent part, itself.
pub fn a_part_is_one_by_itself()
    ensures { (R : Rule) (P Q : Generation) (Qs : List Generation) (p : ℕ) (d : Cell) →
        RecursBy R P p d → AreIndependentParts R P Qs → Contains Qs Q →
        AreIndependentParts R Q (Q ∷ []) }
{}

/// A set with cells, all of which are tied, has one independent part, itself, and the empty set has none.
pub fn what_is_tied_is_one_part()
    ensures one { (R : Rule) (P : Generation) → P ≢ empty →
        ((c e : Cell) → contains P c ≡ true → contains P e ≡ true → AreTied R P 0 c 0 e) →
        AreIndependentParts R P (P ∷ []) }
    ensures none { (R : Rule) → AreIndependentParts R empty [] }
{}

/// Disjoint sets with cells, which make up a set that recurs, are its independent parts if each is tied within itself, they are
/// held apart in each generation of its first period, and cells in one of them a period later were in one at first.
pub fn one_period_decides_the_parts()
    ensures { (R : Rule) (P : Generation) (Qs : List Generation) (p : ℕ) (d : Cell) →
        RecursBy R P p d → ((n : ℕ) (e : Cell) → RecursBy R P n e → p ≤ n) →
        union_of Qs ≡ P → AllPairs AreDisjoint Qs → All (λ Q. Q ≢ empty) Qs →
        All (λ Q. (c e : Cell) → contains Q c ≡ true → contains Q e ≡ true → AreTied R P 0 c 0 e) Qs →
        ((n : ℕ) → n < p → AreHeldApart R (generation R P n) (generations R Qs n)) →
        ((Q : Generation) → Contains Qs Q → (c e : Cell) →
        contains (generation R Q p) (plus c d) ≡ true → contains (generation R Q p) (plus e d) ≡ true →
        HaveBoth Qs c e) → AreIndependentParts R P Qs }
{}

/// If two sets that stay apart for ever and their union all recur, the independent parts of the union are those of both.
pub fn parts_of_what_keeps_apart_are_those_of_both()
    ensures { (R : Rule) (P Q : Generation) (Ps Qs : List Generation) →
        Recurs R P → Recurs R Q → Recurs R (union P Q) → AreApartForEver R P Q →
        AreIndependentParts R P Ps → AreIndependentParts R Q Qs →
        AreIndependentParts R (union P Q) (Ps ++ Qs) }
{}

/// If the sets of a list, any two of which stay apart for ever, and their union all recur, the independent parts of the union are
/// those of each set, in their order. So those of ash that recurs are those of its objects.
pub fn parts_of_many_that_keep_apart_are_those_of_each()
    ensures sets { (R : Rule) (Ps : List Generation) (lists : List (List Generation)) →
        All (Recurs R) Ps → Recurs R (union_of Ps) → AllPairs (AreApartForEver R) Ps →
        ArePartsOfEach R Ps lists → AreIndependentParts R (union_of Ps) (joined lists) }
    ensures ash { (R : Rule) (b : ℕ) (G : Generation) (objects : List Generation) (lists : List (List Generation)) →
        IsAsh R b G objects → Recurs R G → ArePartsOfEach R objects lists → AreIndependentParts R G (joined lists) }
{}

/// The independent parts of the objects of ash last: in each later generation, what they have become is, up to order, the
/// independent parts of its objects, whatever the bounds.
pub fn parts_of_ash_last()
    ensures later { (R : Rule) (b n : ℕ) (G : Generation) (objects : List Generation)
        (lists : List (List Generation)) →
        IsAsh R b G objects → ArePartsOfEach R objects lists →
        ArePartsOfEach R (generations R objects n) (map (λ Qs. generations R Qs n) lists) }
    ensures same { (R : Rule) (b c n : ℕ) (G : Generation) (objects others : List Generation)
        (lists laters : List (List Generation)) →
        IsAsh R b G objects → ArePartsOfEach R objects lists →
        IsAsh R c (generation R G n) others → ArePartsOfEach R others laters →
        IsPermutation (generations R (joined lists) n) (joined laters) }
{}

/// Each independent part of a set that recurs is one object with each of its phases. So the ash of a later generation has the
/// same number of parts of each kind, whatever the bounds.
pub fn phases_of_parts_are_of_one_kind()
    ensures phase { (R : Rule) (P Q : Generation) (Qs : List Generation) (p n : ℕ) (d : Cell) →
        RecursBy R P p d → AreIndependentParts R P Qs → Contains Qs Q →
        Recurs R Q × AreOneObject R Q (generation R Q n) }
    ensures ash { (R : Rule) (b c n : ℕ) (G : Generation) (objects others : List Generation)
        (lists laters : List (List Generation)) →
        IsAsh R b G objects → ArePartsOfEach R objects lists →
        IsAsh R c (generation R G n) others → ArePartsOfEach R others laters →
        AreAlike R (joined lists) (joined laters) }
{}

/// Disjoint sets with cells, which make up a set that recurs, split none of its independent parts if they are held apart in each
/// generation of its first period and cells in one of them a period later were in one at first.
pub fn what_is_held_apart_splits_no_part()
    ensures { (R : Rule) (P Q : Generation) (Qs others : List Generation) (p : ℕ) (d c e : Cell) →
        RecursBy R P p d → ((n : ℕ) (f : Cell) → RecursBy R P n f → p ≤ n) →
        union_of others ≡ P → AllPairs AreDisjoint others → All (λ A. A ≢ empty) others →
        ((n : ℕ) → n < p → AreHeldApart R (generation R P n) (generations R others n)) →
        ((A : Generation) → Contains others A → (x y : Cell) →
        contains (generation R A p) (plus x d) ≡ true → contains (generation R A p) (plus y d) ≡ true →
        HaveBoth others x y) → AreIndependentParts R P Qs → Contains Qs Q →
        contains Q c ≡ true → contains Q e ≡ true → HaveBoth others c e }
{}

/// Under a rule with births at 3 alone, take a splitting of a set that recurs into sets that evolve alone and never touch. It is
/// made of whole independent parts, and cells that are tied are in one set of it, if the set has no fork in any generation, or if
/// each fork's islands are tied without it. The splitting must be one of earlier generations too, through which the set has
/// passed, as it is where each of its sets recurs. Otherwise a spark that dies at once, like that of a lightweight spaceship,
/// could be split off, though a part throws it in each period. For a splitting only from now on, this holds after some time:
/// cells that are tied are, that much later, in one set. (Bit 3 of a rule's births, whose value is 8, means 3.)
pub fn no_splitting_is_finer()
    ensures ties { (R : Rule) (P A : Generation) (others : List Generation) (p n m : ℕ) (d c e : Cell) →
        HasBirthsAtThreeAlone R → RecursBy R P p d → AreForksTied R P →
        AreSplitThroughout R P others → AreTied R P n c m e → Contains others A →
        contains (generation R A n) c ≡ true → contains (generation R A m) e ≡ true }
    ensures parts { (R : Rule) (P Q : Generation) (Qs others : List Generation) (p : ℕ) (d c e : Cell) →
        HasBirthsAtThreeAlone R → RecursBy R P p d → AreForksTied R P →
        AreSplitThroughout R P others → AreIndependentParts R P Qs → Contains Qs Q →
        contains Q c ≡ true → contains Q e ≡ true → HaveBoth others c e }
    ensures later { (R : Rule) (P : Generation) (others : List Generation) (n m : ℕ) (c e : Cell) →
        HasBirthsAtThreeAlone R → AreForksTied R P → AreSplit R P others → AreTied R P n c m e →
        (long : ℕ) × ((k : ℕ) (f : Cell) → RecursBy R P k f → long < k → (A : Generation) → Contains others A →
        contains (generation R A (n + k)) (plus c f) ≡ true → contains (generation R A (m + k)) (plus e f) ≡ true) }
    ensures births { (R : Rule) → R.birth ≡ 8 → HasBirthsAtThreeAlone R }
    ensures forks { (R : Rule) (P : Generation) →
        ((n : ℕ) (x : Cell) → IsFork (generation R P n) x → ⊥) → AreForksTied R P }
{}

/// The independent parts of a set are a splitting of it, in earlier generations too, into sets that evolve alone and never
/// touch, whatever the rule.
pub fn independent_parts_are_a_splitting()
    ensures { (R : Rule) (P : Generation) (Qs : List Generation) →
        AreIndependentParts R P Qs → AreSplitThroughout R P Qs }
{}

/// A splitting of a set into sets that evolve alone, never touch and each recur is one of the earlier generations too.
pub fn sets_that_come_again_split_throughout()
    ensures { (R : Rule) (P : Generation) (Qs : List Generation) →
        AreSplit R P Qs → All (Recurs R) Qs → AreSplitThroughout R P Qs }
{}
