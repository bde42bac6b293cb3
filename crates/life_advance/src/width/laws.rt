//! The law of the width that a set that settles may reach.
ghost use Rattle.std.specs.Prelude.{◌*◌, ◌+◌, ℕ};
ghost use Rattle.life_model.specs.Evolution.{generation};
ghost use Rattle.life_model.specs.Generation.{Generation};
ghost use Rattle.life_model.specs.Recurrence.{SettlesAt};
ghost use Rattle.life_model.specs.Rule.{Rule};
ghost use Rattle.life_advance.specs.Width.Spans.{SpansColumns, SpansRows};

/// A set that settles within a bound never gets wider or higher than it is at first by more than twice the bound. Each
/// of its generations is one up to the bound, moved, and those grow by one cell a generation on each side. So one
/// generation that is wider or higher, however late, shows that nothing recurs within the bound.
pub fn what_settles_stays_narrow()
    ensures columns { (R : Rule) (G : Generation) (bound g n t : ℕ) → SettlesAt R G bound g →
        SpansColumns G n → SpansColumns (generation R G t) (n + 2 * bound) }
    ensures rows { (R : Rule) (G : Generation) (bound g n t : ℕ) → SettlesAt R G bound g →
        SpansRows G n → SpansRows (generation R G t) (n + 2 * bound) }
{}
