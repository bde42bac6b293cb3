//! Gauges: steps whose products with other steps distinguish these.
ghost use Rattle.std.specs.Prelude.{◌≡◌, ◌^◌, ◌≤◌};
ghost use Rattle.life_things.specs.Lattice.Gauges.{across_gauge, along_gauge, turned_gauge};
ghost use Rattle.life_things.specs.Lattice.Short.{IsShort, IsStride, cross_limit};

use crate::lattice::step::Step;

/// A gauge of the deviation of other steps from the direction of a step, along the first axis.
pub fn across_gauge(step: Step) -> Step
    requires { IsStride step }
    ensures { result ≡ across_gauge step }
{
    (-step.1.0, (step.0, 0))
}

/// A gauge of the deviation of other steps from the direction of a step, along the second axis.
pub fn along_gauge(step: Step) -> Step
    requires { IsStride step }
    ensures { result ≡ along_gauge step }
{
    (-step.1.1, (0, step.0))
}

/// The gauge of deviations to the opposite side.
pub fn turned_gauge(gauge: Step) -> Step
    requires { IsShort cross_limit gauge }
    ensures value { result ≡ turned_gauge gauge }
    ensures short { IsShort cross_limit result }
{
    (-gauge.0, (-gauge.1.0, -gauge.1.1))
}
