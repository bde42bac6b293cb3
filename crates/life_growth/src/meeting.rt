//! Deciding whether two things in space and time ever meet: a finite search, as a definition that computes it, in
//! `specs/`. The laws that the search is right are the contracts of functions that do nothing.

ghost use Rattle.std.specs.Prelude.{◌≡◌, ℕ, ◌↔◌, true, List, Contains, ◌<◌};
ghost use Rattle.life_model.specs.Generation.{Generation};
ghost use Rattle.life_model.specs.Rule.{Rule};
ghost use Rattle.life_objects.specs.Apart.{AreApartForEver};
ghost use Rattle.life_growth.specs.Things.{IsMadeOf, NeverMeet, NeverMeetAgain, Thing, lefts_within};
ghost use Rattle.life_growth.specs.Engine.{IsEngine, IsEngineWithin, Way};
ghost use Rattle.life_objects.specs.Ash.{HasFallenApart};
ghost use Rattle.life_growth.specs.Meeting.Again.{never_meet_again};
ghost use Rattle.life_growth.specs.Meeting.Engines.{is_engine};
ghost use Rattle.life_growth.specs.Meeting.Listed.{engine_things, settled_things};
ghost use Rattle.life_growth.specs.Meeting.Meeting.{all_never_meet, never_meet};
ghost use Rattle.life_growth.specs.Meeting.Sums.{Step, is_sum, sum_of};

/// A search decides whether a step is a sum of given steps, each made any number of times.
pub fn sums_of_steps_are_found()
    ensures { (us : List Step) (c : Step) → (is_sum us c ≡ true) ↔ ((often : List ℕ) × (sum_of us often ≡ c)) }
{}

/// A search decides whether two things ever meet.
pub fn meetings_are_found()
    ensures { (A B : Thing) → (never_meet A B ≡ true) ↔ NeverMeet A B }
{}

/// A search decides whether two sets stay apart for ever, if each is made of finitely many things.
pub fn listed_things_tell_what_stays_apart()
    ensures { (R : Rule) (P Q : Generation) (As Bs : List Thing) → IsMadeOf R P (Contains As) →
        IsMadeOf R Q (Contains Bs) → (all_never_meet As Bs ≡ true) ↔ AreApartForEver R P Q }
{}

/// What falls apart is made of finitely many things, which are listed, and so is an engine.
pub fn things_are_listed()
    ensures settled { (R : Rule) (b : ℕ) (P : Generation) (parts : List Generation) → HasFallenApart R b P parts →
        IsMadeOf R P (Contains (settled_things R b P parts)) }
    ensures engine { (R : Rule) (b c : ℕ) (E : Generation) (way : Way) (ashes : ℕ → List Generation) →
        IsEngine R b E way → ((n : ℕ) → n < way.period → HasFallenApart R c (way.left n) (ashes n)) →
        IsMadeOf R E (Contains (engine_things R c way ashes)) }
{}

/// A search decides whether what leaves an engine ever meets a core again, or what leaves later.
pub fn what_meets_again_is_found()
    ensures { (R : Rule) (b : ℕ) (way : Way) (ashes : ℕ → List Generation) →
        ((n : ℕ) → n < way.period → HasFallenApart R b (way.left n) (ashes n)) →
        (never_meet_again R b way ashes ≡ true) ↔ NeverMeetAgain way (lefts_within R b way ashes) }
{}

/// A search decides whether a set is an engine within a bound.
pub fn engines_are_decided()
    ensures { (R : Rule) (b : ℕ) (E : Generation) → (is_engine R b E ≡ true) ↔ IsEngineWithin R b E }
{}
