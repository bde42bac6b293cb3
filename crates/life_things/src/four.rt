//! The places reached by four steps, each made any number of times.
ghost use Rattle.std.specs.Prelude.{◌↔◌, ◌≤◌, IsTrue, [], ◌∷◌};
ghost use Rattle.life_things.specs.Clear.{StaysClear, StaysClearBetween};
ghost use Rattle.life_things.specs.Fields.{IsFieldOf};
ghost use Rattle.life_things.specs.Lattice.Numbers.{AreFew, StayBy, number_limit, total_above};
ghost use Rattle.life_things.specs.Lattice.Short.{IsShort, IsStride, four_start};

use crate::field::Field;
use crate::lattice::{Numbers, Span, Step, above, lightest, space_numbers};
use crate::tries::{Tries, are_clear};
use life_cells::CellList;

/// True if a set is never near the other, where one step is made each number of times in a span from the start, and three
/// others any number of times.
fn tried(
    one: &CellList,
    other: &CellList,
    field: Field,
    start: Step,
    step: Step,
    rest: (Step, Step, Step),
    span: Span,
) -> bool
    requires start { IsShort four_start start }
    requires step { IsStride step }
    requires rest { IsStride rest.0 × IsStride rest.1 × IsStride rest.2 }
    requires span { span.until ≤ number_limit }
    requires field { IsFieldOf field one.now other.now }
    ensures { IsTrue result ↔
        StaysClearBetween one.now other.now start step (rest.0 ∷ rest.1 ∷ rest.2 ∷ []) span.from span.until }
{
    let tries = Tries {
        start,
        step,
        first: rest.0,
        second: rest.1,
        third: rest.2,
        from: span.from,
        until: span.until,
    };
    are_clear(one, other, field, tries)
}

/// True if a set is never near the other, from the start on by four steps that these numbers relate.
fn related(
    one: &CellList,
    other: &CellList,
    field: Field,
    start: Step,
    steps: (Step, Step, Step, Step),
    numbers: Numbers,
) -> bool
    requires start { IsShort four_start start }
    requires steps { IsStride steps.0 × IsStride steps.1 × IsStride steps.2 × IsStride steps.3 }
    requires few { AreFew numbers }
    requires some { 1 ≤ total_above numbers }
    requires stay { StayBy (steps.0 ∷ steps.1 ∷ steps.2 ∷ steps.3 ∷ []) numbers }
    requires field { IsFieldOf field one.now other.now }
    ensures { IsTrue result ↔
        StaysClear one.now other.now start (steps.0 ∷ steps.1 ∷ steps.2 ∷ steps.3 ∷ []) }
{
    let (first, second, third, fourth) = steps;
    let ups = Span {
        from: 0,
        until: above(numbers.first),
    };
    if !tried(
        one,
        other,
        field,
        start,
        first,
        (second, third, fourth),
        ups,
    ) {
        return false;
    }
    let ups = Span {
        from: 0,
        until: above(numbers.second),
    };
    if !tried(
        one,
        other,
        field,
        start,
        second,
        (first, third, fourth),
        ups,
    ) {
        return false;
    }
    let ups = Span {
        from: 0,
        until: above(numbers.third),
    };
    if !tried(
        one,
        other,
        field,
        start,
        third,
        (first, second, fourth),
        ups,
    ) {
        return false;
    }
    let ups = Span {
        from: 0,
        until: above(numbers.fourth),
    };
    tried(
        one,
        other,
        field,
        start,
        fourth,
        (first, second, third),
        ups,
    )
}

/// True if a set is never near the other, from the start on by four steps.
pub fn four_ways(
    one: &CellList,
    other: &CellList,
    field: Field,
    start: Step,
    steps: (Step, Step, Step, Step),
) -> bool
    requires start { IsShort four_start start }
    requires steps { IsStride steps.0 × IsStride steps.1 × IsStride steps.2 × IsStride steps.3 }
    requires field { IsFieldOf field one.now other.now }
    ensures { IsTrue result ↔
        StaysClear one.now other.now start (steps.0 ∷ steps.1 ∷ steps.2 ∷ steps.3 ∷ []) }
{
    let numbers = lightest(space_numbers(steps.0, steps.1, steps.2, steps.3));
    related(one, other, field, start, steps, numbers)
}
