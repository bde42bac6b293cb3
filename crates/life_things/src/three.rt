//! The places reached by three steps, each made any number of times.
ghost use Rattle.std.specs.Prelude.{◌≡◌, ◌↔◌, ◌≤◌, IfNone, IfSome, IsTrue, [], ◌∷◌, pos};
ghost use Rattle.life_model.specs.Generation.{Generation};
ghost use Rattle.life_growth.specs.Relations.Relations.{spanned};
ghost use Rattle.life_things.specs.Clear.{StaysClear, StaysClearBetween, StaysClearOutside};
ghost use Rattle.life_things.specs.Fields.{IsFieldOf, IsNarrow};
ghost use Rattle.life_things.specs.Lattice.Numbers.{AreFew, StayBy, total_above};
ghost use Rattle.life_things.specs.Lattice.Short.{IsShort, IsStride, three_count, three_start};

use crate::field::{Field, span_by};
use crate::lattice::{Numbers, Span, Step, above, after, cross, lightest, plane_numbers};
use crate::ways::two_ways;
use life_cells::CellList;

/// True if a set is never near the other, where one step is made each number of times in a span from the start, and two others
/// any number of times.
fn tried(
    one: &CellList,
    other: &CellList,
    field: Field,
    start: Step,
    step: Step,
    rest: (Step, Step),
    span: Span,
) -> bool
    requires start { IsShort three_start start }
    requires step { IsStride step }
    requires rest { IsStride rest.0 × IsStride rest.1 }
    requires span { span.until ≤ three_count }
    requires field { IsFieldOf field one.now other.now }
    ensures { IsTrue result ↔
        StaysClearBetween one.now other.now start step (rest.0 ∷ rest.1 ∷ []) span.from span.until }
{
    for count in span.from..span.until {
        if !two_ways(one, other, field, after(start, count, step), rest.0, rest.1) {
            return false;
        }
    }
    true
}

/// True if a set is never near the other, from the start on by three steps that these numbers relate.
fn related(
    one: &CellList,
    other: &CellList,
    field: Field,
    start: Step,
    steps: (Step, Step, Step),
    numbers: Numbers,
) -> bool
    requires start { IsShort three_start start }
    requires steps { IsStride steps.0 × IsStride steps.1 × IsStride steps.2 }
    requires few { AreFew numbers }
    requires some { 1 ≤ total_above numbers }
    requires three { numbers.fourth ≡ pos 0 }
    requires stay { StayBy (steps.0 ∷ steps.1 ∷ steps.2 ∷ []) numbers }
    requires field { IsFieldOf field one.now other.now }
    ensures { IsTrue result ↔ StaysClear one.now other.now start (steps.0 ∷ steps.1 ∷ steps.2 ∷ []) }
{
    let (first, second, third) = steps;
    let ups = Span {
        from: 0,
        until: above(numbers.first),
    };
    if !tried(one, other, field, start, first, (second, third), ups) {
        return false;
    }
    let ups = Span {
        from: 0,
        until: above(numbers.second),
    };
    if !tried(one, other, field, start, second, (first, third), ups) {
        return false;
    }
    let ups = Span {
        from: 0,
        until: above(numbers.third),
    };
    tried(one, other, field, start, third, (first, second), ups)
}

/// The numbers of times that the first of three steps may be made from the start for the set to be near the other after the
/// other two, made any number of times; or `None` where the three lie in a plane.
fn span_over(start: Step, first: Step, second: Step, third: Step, field: Field) -> Option<Span>
    requires start { IsShort three_start start }
    requires first { IsStride first }
    requires second { IsStride second }
    requires third { IsStride third }
    requires narrow { IsNarrow field }
    ensures none { IfNone result (spanned first second third ≡ pos 0) }
    ensures few { IfSome result (λ span. span.until ≤ three_count) }
    ensures outside { IfSome result (λ span. (P Q : Generation) → IsFieldOf field P Q →
        StaysClearOutside P Q start first (second ∷ third ∷ []) span.from span.until) }
{
    span_by(cross(second, third), start, first, field)
}

/// True if a set is never near the other, from the start on by three steps.
pub fn three_ways(
    one: &CellList,
    other: &CellList,
    field: Field,
    start: Step,
    first: Step,
    second: Step,
    third: Step,
) -> bool
    requires start { IsShort three_start start }
    requires first { IsStride first }
    requires second { IsStride second }
    requires third { IsStride third }
    requires field { IsFieldOf field one.now other.now }
    ensures { IsTrue result ↔ StaysClear one.now other.now start (first ∷ second ∷ third ∷ []) }
{
    match span_over(start, first, second, third, field) {
        Some(span) => tried(one, other, field, start, first, (second, third), span),
        None => {
            let numbers = lightest(plane_numbers(first, second, third));
            related(one, other, field, start, (first, second, third), numbers)
        }
    }
}
