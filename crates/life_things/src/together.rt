//! Steps that never lead to a time, as a common divisor of all their times shows.
ghost use Rattle.std.specs.Prelude.{[], ◌∷◌};
ghost use Rattle.std.specs.Bool.{OnTrue};
ghost use Rattle.life_model.specs.Generation.{Generation};
ghost use Rattle.life_things.specs.Clear.{StaysClear};
ghost use Rattle.life_things.specs.Steps.{list_of};
ghost use Rattle.life_things.specs.Times.{DividesTimes};

use crate::lattice::{Step, common_divisor};
use crate::steps::Steps;

/// The greatest number of generations that divides the times of two steps.
fn common_time(first: Step, second: Step) -> u128
    ensures { DividesTimes result (first ∷ second ∷ []) }
{
    common_divisor(first.0.unsigned_abs(), second.0.unsigned_abs())
}

/// The greatest number of generations that divides the times of all steps; 0 where there is no step.
fn common_time_of(steps: Steps) -> u128
    ensures { DividesTimes result (list_of steps) }
{
    match steps {
        Steps::Zero => 0,
        Steps::One(a) => a.0.unsigned_abs(),
        Steps::Two(a, b) => common_time(a, b),
        Steps::Three(a, b, c) => common_divisor(common_time(a, b), c.0.unsigned_abs()),
        Steps::Four(a, b, c, d) => common_divisor(common_time(a, b), common_time(c, d)),
    }
}

/// True if a common divisor of the times of all steps shows that none of them leads to the time of the other set.
pub fn are_never_together(start: Step, steps: Steps) -> bool
    ensures { OnTrue result ((P Q : Generation) → StaysClear P Q start (list_of steps)) }
{
    let common = common_time_of(steps);
    if common == 0 {
        return false;
    }
    if start.0.unsigned_abs() % common == 0 {
        return false;
    }
    true
}
