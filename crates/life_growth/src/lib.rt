//! Steady growth of patterns of a Life-like rule, as of guns and puffers: definitions in `specs/`, and their laws as the
//! contracts of functions that do nothing. `engines` searches the ways of engines, `film` determines classes backwards,
//! `meeting` and `relations` say whether two things ever meet, and `fates` says what becomes of a pattern.
#![tactic(auto)]

mod engines;
mod fates;
mod film;
mod meeting;
mod relations;

ghost use Rattle.std.specs.Prelude.{◌≡◌, ◌≢◌, ℕ, suc, ◌+◌, ◌-◌, ◌<◌, ◌≤◌, List, [], ◌∷◌, ◌++◌, ◌↔◌, Bool, Contains, count_by};
ghost use Rattle.std.specs.List.{AllPairs, AllZip};
ghost use Rattle.std.specs.List.Sorted.{IsPermutation};
ghost use Rattle.life_model.specs.Cell.{Cell, opposite, origin, plus};
ghost use Rattle.life_model.specs.Evolution.{generation, next};
ghost use Rattle.life_model.specs.Generation.{Generation, empty, size};
ghost use Rattle.life_model.specs.Recurrence.{RecursBy};
ghost use Rattle.life_model.specs.Rule.{Rule};
ghost use Rattle.life_model.specs.Symmetry.{translate_of};
ghost use Rattle.life_objects.specs.Apart.{AreApart, AreApartForEver};
ghost use Rattle.life_objects.specs.Ash.{HasFallenApart, IsAsh};
ghost use Rattle.life_objects.specs.Drift.{multiple_of};
ghost use Rattle.life_objects.specs.Kinds.{AreAlike, IsKind};
ghost use Rattle.life_objects.specs.Union.{IsSubsetOf, generations, union, union_of};
ghost use Rattle.life_growth.specs.Engine.{Emits, FallsApart, IsEngine, Way};
ghost use Rattle.life_growth.specs.Growth.{HasComeToGrowth, IsGrowth};
ghost use Rattle.life_growth.specs.Onward.{AreNeverNear, IsCoreAfter, IsDebrisAfter, IsNeverNear, LeavesCores, LeavesLefts, debris_after, endless, onward};
ghost use Rattle.life_growth.specs.Population.{HasBound, HasNoBound};
ghost use Rattle.life_growth.specs.Things.{AreThingsOfLefts, IsEngineThing, IsMadeOf, IsSettledThing, NeverMeet, NeverMeetAgain, Thing, lefts_within, listed, move_of, time_then};
ghost use Rattle.life_growth.specs.Told.{AreToldAlike, EmitsOver, emitted_by};
ghost use Rattle.life_growth.specs.Unsplit.{AreClasses, IsUnsplit, Leaves};

pub use engines::{
    each_growth_is_found, each_way_is_found, found_tracks_are_ways, tests_are_right,
};
pub use fates::{
    ash_never_grows, classes_tell_growth, each_fate_is_found, fates_are_right, fates_last,
    growth_is_decided, growths_are_found, tracks_are_right, what_was_found_grows_on,
};
pub use film::{classes_are_told_backwards, splits_are_told_backwards};
pub use meeting::{
    engines_are_decided, listed_things_tell_what_stays_apart, meetings_are_found,
    sums_of_steps_are_found, things_are_listed, what_meets_again_is_found,
};
pub use relations::{
    cross_products_are_square, four_steps_are_related, no_steps_stay, numbers_are_a_relation,
    products_single_a_step_out, relations_leave_few_numbers,
    what_singles_a_step_out_tells_its_number,
};

/// What is unsplit within a bound is so within each greater one, and is not made of two sets with cells that stay apart for
/// ever.
pub fn what_is_unsplit_stays_so()
    ensures wider { (R : Rule) (b c : ℕ) (P : Generation) → b ≤ c → IsUnsplit R b P → IsUnsplit R c P }
    ensures ever { (R : Rule) (b : ℕ) (P A B : Generation) → IsUnsplit R b P → union A B ≡ P →
        AreApartForEver R A B → A ≢ empty → B ≢ empty → ⊥ }
{}

/// If two sets that stay apart for ever fall apart, so does their union, into the parts of both. What falls apart does so one
/// generation later too, into what its parts become. The empty set falls apart into no parts.
pub fn what_falls_apart_does_so_together()
    ensures together { (R : Rule) (b : ℕ) (P Q : Generation) (Ps Qs : List Generation) →
        AreApartForEver R P Q → HasFallenApart R b P Ps →
        HasFallenApart R b Q Qs → HasFallenApart R b (union P Q) (Ps ++ Qs) }
    ensures next { (R : Rule) (b : ℕ) (P : Generation) (parts : List Generation) →
        HasFallenApart R b P parts →
        HasFallenApart R b (next R P) (generations R parts 1) }
    ensures nothing { (R : Rule) (b : ℕ) → HasFallenApart R b empty [] }
{}

/// A set falls apart into alike parts within each bound, in each later generation, and wherever it is.
pub fn what_falls_apart_is_told_alike()
    ensures bounds { (R : Rule) (b c : ℕ) (P : Generation) (Ps Qs : List Generation) →
        HasFallenApart R b P Ps →
        HasFallenApart R c P Qs → AreAlike R Ps Qs }
    ensures later { (R : Rule) (b c n : ℕ) (P : Generation) (Ps Qs : List Generation) →
        HasFallenApart R b P Ps →
        HasFallenApart R c (generation R P n) Qs → AreAlike R Ps Qs }
    ensures moved { (R : Rule) (b c : ℕ) (P : Generation) (d : Cell) (Ps Qs : List Generation) →
        HasFallenApart R b P Ps →
        HasFallenApart R c (translate_of P d) Qs → AreAlike R Ps Qs }
{}

/// An engine or a growth within a bound is one within each greater bound: the engine goes the same way, and the growth
/// has the same engines and the same debris.
pub fn a_greater_bound_changes_no_growth()
    ensures engine { (R : Rule) (b c : ℕ) (E : Generation) (way : Way) → b ≤ c →
        IsEngine R b E way → IsEngine R c E way }
    ensures growth { (R : Rule) (b c : ℕ) (G : Generation) (engines : List Generation) (debris : Generation) →
        b ≤ c →
        IsGrowth R b G engines debris → IsGrowth R c G engines debris }
{}

/// An engine's way goes on for ever. In its first period the endless way is the way itself. From there on it is that of a
/// period before, moved. At each step, what has left has left for ever.
pub fn the_way_goes_on_for_ever()
    ensures cores { (R : Rule) (b n : ℕ) (E : Generation) (way : Way) → IsEngine R b E way →
        n ≤ way.period → (endless way).core n ≡ way.core n }
    ensures lefts { (R : Rule) (b n : ℕ) (E : Generation) (way : Way) → IsEngine R b E way →
        n < way.period → (endless way).left n ≡ way.left n }
    ensures core_again { (R : Rule) (b n : ℕ) (E : Generation) (way : Way) → IsEngine R b E way →
        (endless way).core (n + way.period) ≡ translate_of ((endless way).core n) way.displacement }
    ensures left_again { (R : Rule) (b n : ℕ) (E : Generation) (way : Way) → IsEngine R b E way →
        (endless way).left (n + way.period) ≡ translate_of ((endless way).left n) way.displacement }
    ensures leaves { (R : Rule) (b n : ℕ) (E : Generation) (way : Way) → IsEngine R b E way →
        Leaves R ((endless way).core n) ((endless way).core (suc n)) ((endless way).left n) }
    ensures whole { (R : Rule) (b n : ℕ) (E : Generation) (way : Way) → IsEngine R b E way →
        IsUnsplit R b ((endless way).core n) }
    ensures settles { (R : Rule) (b n : ℕ) (E : Generation) (way : Way) → IsEngine R b E way →
        FallsApart R b ((endless way).left n) }
{}

/// Each generation of an engine is its core and what has left it, which stay apart for ever. What has left it falls apart.
pub fn an_engine_becomes_its_core_and_debris()
    ensures together { (R : Rule) (b n : ℕ) (E : Generation) (way : Way) → IsEngine R b E way →
        generation R E n ≡ union ((endless way).core n) (debris_after R way n) }
    ensures apart { (R : Rule) (b n : ℕ) (E : Generation) (way : Way) → IsEngine R b E way →
        AreApartForEver R ((endless way).core n) (debris_after R way n) }
    ensures settles { (R : Rule) (b n : ℕ) (E : Generation) (way : Way) → IsEngine R b E way →
        FallsApart R b (debris_after R way n) }
{}

/// The population of an engine is unbounded. That of what falls apart is bounded.
pub fn engines_grow_beyond_every_bound()
    ensures engine { (R : Rule) (b : ℕ) (E : Generation) (way : Way) → IsEngine R b E way →
        HasNoBound R E }
    ensures otherwise { (R : Rule) (b : ℕ) (P : Generation) → FallsApart R b P → HasBound R P }
{}

/// Each generation of an engine has fewer cells than the one a period later.
pub fn engines_outgrow_themselves()
    ensures { (R : Rule) (b n : ℕ) (E : Generation) (way : Way) → IsEngine R b E way →
        size (generation R E n) < size (generation R E (n + way.period)) }
{}

/// An engine goes one way, whatever the bounds: with the same cores, the same sets that leave, the same period and the same
/// displacement. So it emits the same number of objects of each kind.
pub fn an_engine_goes_one_way()
    ensures period { (R : Rule) (b c : ℕ) (E : Generation) (way other : Way) → IsEngine R b E way →
        IsEngine R c E other → way.period ≡ other.period }
    ensures displacement { (R : Rule) (b c : ℕ) (E : Generation) (way other : Way) →
        IsEngine R b E way →
        IsEngine R c E other → way.displacement ≡ other.displacement }
    ensures cores { (R : Rule) (b c n : ℕ) (E : Generation) (way other : Way) → IsEngine R b E way →
        IsEngine R c E other → n ≤ way.period → way.core n ≡ other.core n }
    ensures lefts { (R : Rule) (b c n : ℕ) (E : Generation) (way other : Way) → IsEngine R b E way →
        IsEngine R c E other → n < way.period → way.left n ≡ other.left n }
    ensures some { (R : Rule) (b : ℕ) (E : Generation) (way : Way) → IsEngine R b E way →
        (objects : List Generation) × Emits R b way objects }
    ensures emitted { (R : Rule) (b c : ℕ) (E : Generation) (way other : Way) (Ps Qs : List Generation) →
        IsEngine R b E way → IsEngine R c E other → Emits R b way Ps →
        Emits R c other Qs → AreAlike R Ps Qs }
{}

/// Each core that an engine ever has is an engine, with the rest of the same way, and is alike (`AreToldAlike`).
pub fn each_phase_is_the_engine()
    ensures engine { (R : Rule) (b n : ℕ) (E : Generation) (way : Way) → IsEngine R b E way →
        IsEngine R b ((endless way).core n) (onward way n) }
    ensures told { (R : Rule) (b n : ℕ) (E : Generation) (way : Way) → IsEngine R b E way →
        AreToldAlike R b b E ((endless way).core n) }
{}

/// A pattern has one growth, whatever the bounds: the same engines, up to order, and the same debris.
pub fn a_pattern_has_one_growth()
    ensures engines { (R : Rule) (b c : ℕ) (G : Generation) (Es Fs : List Generation) (S T : Generation) →
        IsGrowth R b G Es S → IsGrowth R c G Fs T → IsPermutation Es Fs }
    ensures debris { (R : Rule) (b c : ℕ) (G : Generation) (Es Fs : List Generation) (S T : Generation) →
        IsGrowth R b G Es S → IsGrowth R c G Fs T → S ≡ T }
    ensures told { (R : Rule) (b c : ℕ) (G E : Generation) (Es Fs : List Generation) (S T : Generation) →
        IsGrowth R b G Es S → IsGrowth R c G Fs T → Contains Es E →
        Contains Fs E × AreToldAlike R b c E E }
{}

/// Growth lasts: what grows does so in each later generation. Its engines are then their cores, which are alike
/// (`AreToldAlike`). Its debris is what the debris has become and what has left each engine, which stay apart for ever. So
/// what has come to growth at a generation no later than b has come to growth within b, and within each greater bound.
pub fn growth_lasts()
    ensures later { (R : Rule) (b n : ℕ) (G : Generation) (Es : List Generation) (S : Generation) →
        IsGrowth R b G Es S →
        (Fs : List Generation) × (Ds : List Generation)
        × IsGrowth R b (generation R G n) Fs (union_of (generation R S n ∷ Ds))
        × AllZip (IsCoreAfter R b n) Es Fs × AllZip (IsDebrisAfter R b n) Es Ds
        × AllPairs (AreApartForEver R) (generation R S n ∷ Ds) × AllZip (AreToldAlike R b b) Es Fs }
    ensures sooner { (R : Rule) (b c g : ℕ) (G : Generation) (Es : List Generation) (S : Generation) →
        IsGrowth R b (generation R G g) Es S → g ≤ c → b ≤ c →
        (Fs : List Generation) × (T : Generation) × HasComeToGrowth R c G Fs T
        × AllZip (AreToldAlike R b c) Es Fs }
{}

/// No pattern both falls apart and comes to growth, whatever the bounds.
pub fn what_grows_never_falls_apart()
    ensures { (R : Rule) (b c : ℕ) (G : Generation) (parts Es : List Generation) (S : Generation) →
        HasFallenApart R b G parts → HasComeToGrowth R c G Es S → ⊥ }
{}

/// No object that an engine emits has the engine's velocity. So a gun emits only spaceships.
pub fn nothing_emitted_moves_with_the_engine()
    ensures velocity { (R : Rule) (b c n q : ℕ) (E P : Generation) (way : Way) (e : Cell) (parts : List Generation) →
        IsEngine R b E way → n < way.period → HasFallenApart R c (way.left n) parts →
        Contains parts P → RecursBy R P q e →
        multiple_of q way.displacement ≢ multiple_of way.period e }
    ensures gun { (R : Rule) (b c n q : ℕ) (E P : Generation) (way : Way) (e : Cell) (parts : List Generation) →
        IsEngine R b E way → n < way.period → HasFallenApart R c (way.left n) parts →
        Contains parts P → RecursBy R P q e → way.displacement ≡ origin → e ≢ origin }
{}

/// The debris of a growing pattern, once it has fallen apart, grows steadily: over a number of generations that is a whole
/// number of periods of each engine, the number of objects of a kind rises by exactly the number of that kind that the
/// engines emit in these periods.
pub fn debris_rises_steadily()
    ensures { (R : Rule) (b m n : ℕ) (G S T U : Generation) (Es Fs Hs : List Generation) (parts others : List Generation)
        (rows : List (ℕ × List Generation)) (kind : Generation → Bool) → IsGrowth R b G Es S →
        IsGrowth R b (generation R G n) Fs T →
        IsGrowth R b (generation R G (n + m)) Hs U → HasFallenApart R b T parts →
        HasFallenApart R b U others → AllZip (EmitsOver R b m) Es rows → IsKind R kind →
        count_by kind others ≡ count_by kind parts + emitted_by kind rows }
{}

/// A set is unsplit exactly if it has only one class (`AreClasses`). The next core of an engine is one of the classes of the
/// next generation, and the others have left. Each engine of a growth is one of the classes of the pattern.
pub fn classes_tell_cores_and_engines()
    ensures unsplit { (R : Rule) (b : ℕ) (P : Generation) (Ps : List Generation) → AreClasses R b P Ps →
        IsUnsplit R b P ↔ (Ps ≡ P ∷ []) }
    ensures core { (R : Rule) (b : ℕ) (P A L : Generation) (Ps : List Generation) → Leaves R P A L →
        IsUnsplit R b A → AreClasses R b (next R P) Ps →
        Contains Ps A }
    ensures others { (R : Rule) (b : ℕ) (P A L C : Generation) (Ps : List Generation) → Leaves R P A L →
        IsUnsplit R b A → AreClasses R b (next R P) Ps →
        Contains Ps C → C ≢ A → IsSubsetOf C L }
    ensures engine { (R : Rule) (b : ℕ) (G E S : Generation) (Es Ps : List Generation) → IsGrowth R b G Es S →
        AreClasses R b G Ps → Contains Es E → Contains Ps E }
{}

/// An engine, within any bound, that stays apart for ever from the rest of a growing pattern is one of the pattern's engines.
pub fn what_runs_apart_is_an_engine_of_the_growth()
    ensures { (R : Rule) (b c : ℕ) (G E S others : Generation) (Es : List Generation) (way : Way) →
        IsGrowth R b G Es S →
        IsEngine R c E way → AreApartForEver R E others → union E others ≡ G → Contains Es E }
{}

/// What it and the cores become, each alone, determines whether what leaves does so for ever. It leaves for ever if what left
/// at a step of the first period is never near a later core or what leaves later. For an engine it never is.
pub fn what_never_comes_near_leaves_for_ever()
    ensures leaves { (R : Rule) (way : Way) → 1 ≤ way.period →
        way.core way.period ≡ translate_of (way.core 0) way.displacement →
        ((n : ℕ) → n < way.period → union (way.core (suc n)) (way.left n) ≡ next R (way.core n)) →
        LeavesCores R way → LeavesLefts R way → (n : ℕ) → n < way.period →
        Leaves R (way.core n) (way.core (suc n)) (way.left n) }
    ensures otherwise { (R : Rule) (b : ℕ) (E : Generation) (way : Way) → IsEngine R b E way →
        LeavesCores R way × LeavesLefts R way }
{}

/// An engine stays apart for ever from a set exactly if neither its core nor what has left it is ever near what the set
/// becomes. It stays apart for ever from another engine exactly if neither its core nor what has left it is ever near the
/// other's core or what has left the other.
pub fn what_never_comes_near_an_engine_stays_apart()
    ensures set { (R : Rule) (b : ℕ) (E X : Generation) (way : Way) → IsEngine R b E way →
        AreApartForEver R E X ↔ IsNeverNear R way X }
    ensures engines { (R : Rule) (b c : ℕ) (E F : Generation) (way other : Way) → IsEngine R b E way →
        IsEngine R c F other → AreApartForEver R E F ↔ AreNeverNear R way other }
{}

/// A pattern that becomes ash, or an engine, is at each time the union of its things at that time. The things of a pattern
/// that becomes ash are its generations before that, and the phases of its parts, which recur. The things of an engine are
/// its cores and the things of what leaves, which recur after each period. This also holds if what leaves is made of other
/// things, as listed.
pub fn a_growth_is_made_of_things()
    ensures settled { (R : Rule) (a b : ℕ) (P : Generation) (parts : List Generation) →
        IsAsh R b (generation R P a) parts → IsMadeOf R P (IsSettledThing R a P parts) }
    ensures engine { (R : Rule) (b c : ℕ) (E : Generation) (way : Way) (ashes : ℕ → List Generation) →
        IsEngine R b E way →
        ((n : ℕ) → n < way.period → HasFallenApart R c (way.left n) (ashes n)) →
        IsMadeOf R E (IsEngineThing way (lefts_within R c way ashes)) }
    ensures listed { (R : Rule) (b : ℕ) (E : Generation) (way : Way) (lists : ℕ → List Thing) →
        IsEngine R b E way → AreThingsOfLefts R way (listed lists) → IsMadeOf R E (IsEngineThing way (listed lists)) }
{}

/// Two engines, or an engine and what falls apart, stay apart for ever exactly if the things of one and the things of the
/// other never meet.
pub fn things_tell_what_stays_apart()
    ensures engines { (R : Rule) (b c : ℕ) (E F : Generation) (way other : Way) (ashes others : ℕ → List Generation) →
        IsEngine R b E way → IsEngine R c F other →
        ((n : ℕ) → n < way.period → HasFallenApart R b (way.left n) (ashes n)) →
        ((n : ℕ) → n < other.period → HasFallenApart R c (other.left n) (others n)) →
        AreApartForEver R E F ↔ ((A B : Thing) → IsEngineThing way (lefts_within R b way ashes) A →
        IsEngineThing other (lefts_within R c other others) B → NeverMeet A B) }
    ensures debris { (R : Rule) (b c : ℕ) (E S : Generation) (way : Way) (ashes : ℕ → List Generation)
        (parts : List Generation) → IsEngine R b E way → HasFallenApart R c S parts →
        ((n : ℕ) → n < way.period → HasFallenApart R b (way.left n) (ashes n)) →
        AreApartForEver R S E ↔ ((A B : Thing) → IsSettledThing R c S parts A →
        IsEngineThing way (lefts_within R b way ashes) B → NeverMeet A B) }
{}

/// Take a way with a period of at least 1. What leaves its cores never comes near them, or near what leaves later, exactly if
/// the things of what leaves never meet the cores again, nor the things of what leaves later.
pub fn things_tell_what_leaves_for_ever()
    ensures settled { (R : Rule) (b : ℕ) (way : Way) (ashes : ℕ → List Generation) → 1 ≤ way.period →
        ((n : ℕ) → n < way.period → HasFallenApart R b (way.left n) (ashes n)) →
        (LeavesCores R way × LeavesLefts R way) ↔ NeverMeetAgain way (lefts_within R b way ashes) }
    ensures listed { (R : Rule) (way : Way) (lists : ℕ → List Thing) → 1 ≤ way.period →
        AreThingsOfLefts R way (listed lists) →
        (LeavesCores R way × LeavesLefts R way) ↔ NeverMeetAgain way (listed lists) }
{}

/// The difference of the moves of two things, at the times at which both are there, alone determines whether they meet.
pub fn only_the_way_between_two_things_counts()
    ensures { (A B : Thing) → NeverMeet A B ↔ ((k l : List ℕ) →
        time_then A k ≡ time_then B l →
        AreApart A.set (translate_of B.set (plus (move_of B.ways l) (opposite (move_of A.ways k))))) }
{}
