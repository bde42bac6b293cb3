//! Theorems about sets that fall apart.
ghost use Rattle.std.specs.Prelude.{ℕ, ◌-◌, List, Contains, length};
ghost use Rattle.life_model.specs.Generation.{Generation};
ghost use Rattle.life_model.specs.Rule.{Rule};
ghost use Rattle.life_objects.specs.Ash.{HasFallenApart};
ghost use Rattle.life_objects.specs.Kinds.{AreAlike};
ghost use Rattle.life_objects.specs.Union.{generations};
ghost use Rattle.life_growth.specs.Engine.{FallsApart};
ghost use Rattle.life_growth.specs.Things.{IsMadeOf};
ghost use Rattle.life_apart.specs.Sets.{sets_of};
ghost use Rattle.life_growing.specs.Settled.Settling.{IsSettling, Settling};
ghost use Rattle.life_growing.specs.Settled.Things.{things_of};

/// A set that settles is at each time the union of its things of that time.
pub fn what_settles_is_made_of_things()
    ensures { (R : Rule) (b : ℕ) (P : Generation) (s : Settling) → IsSettling R b P s →
        IsMadeOf R P (Contains (things_of s)) }
{}

/// A set that settles within a bound has fallen apart within it, into what its parts become by then, and these are of the
/// same kinds as whatever it has fallen apart into within any bound.
pub fn what_settles_falls_apart()
    ensures parts { (R : Rule) (b : ℕ) (P : Generation) (s : Settling) → IsSettling R b P s →
        HasFallenApart R b P (generations R (sets_of s.parts) (b - length s.early)) }
    ensures apart { (R : Rule) (b : ℕ) (P : Generation) (s : Settling) → IsSettling R b P s →
        FallsApart R b P }
    ensures kinds { (R : Rule) (b c : ℕ) (P : Generation) (s : Settling) (others : List Generation) →
        IsSettling R b P s → HasFallenApart R c P others → AreAlike R (sets_of s.parts) others }
{}
