//! Steps: some generations and a move.
ghost use Rattle.std.specs.Prelude.{◌≡◌, ◌*◌, ◌≤◌, ◌^◌, ◌*ℤ◌, unsigned_abs};
ghost use Rattle.life_growth.specs.Meeting.Sums.{and_then, times};
ghost use Rattle.life_growth.specs.Relations.Relations.{product};
ghost use Rattle.life_things.specs.Lattice.Short.{AreShort, IsShort, IsStride, count_limit};

/// A number of generations, and a move along both axes.
pub type Step = (i128, (i128, i128));

/// The product of two numbers.
pub fn multiplied(first: i128, second: i128) -> i128
    requires { unsigned_abs first * unsigned_abs second ≤ 2 ^ 126 }
    ensures { result ≡ first *ℤ second }
{
    first * second
}

/// The scalar product of two steps.
pub fn product(first: Step, second: Step) -> i128
    requires { AreShort first second }
    ensures { result ≡ product first second }
{
    let time = multiplied(first.0, second.0);
    let across = multiplied(first.1.0, second.1.0);
    let along = multiplied(first.1.1, second.1.1);
    time + (across + along)
}

/// The sum of a first step and another that is made `count` times.
pub fn after(start: Step, count: u128, step: Step) -> Step
    requires start { IsShort (10 ^ 30) start }
    requires count { count ≤ count_limit }
    requires step { IsStride step }
    ensures { result ≡ and_then start (times count step) }
{
    let count = count as i128;
    let time = multiplied(count, step.0);
    let across = multiplied(count, step.1.0);
    let along = multiplied(count, step.1.1);
    (start.0 + time, (start.1.0 + across, start.1.1 + along))
}
