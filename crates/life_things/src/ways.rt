//! The places reached by two steps, each made any number of times.
ghost use Rattle.std.specs.Prelude.{◌≡◌, ◌≢◌, ℕ, ◌+◌, ◌%◌, ◌<◌, ◌↔◌, ◌≤◌, IfNone, IfSome, IsTrue, [], ◌∷◌, pos};
ghost use Rattle.life_model.specs.Generation.{Generation};
ghost use Rattle.life_growth.specs.Meeting.Sums.{and_then, times};
ghost use Rattle.life_growth.specs.Relations.Relations.{product};
ghost use Rattle.life_things.specs.Clear.{StaysClear, StaysClearBetween, StaysClearOutside};
ghost use Rattle.life_things.specs.Fields.{IsFieldOf, IsNarrow};
ghost use Rattle.life_things.specs.Lattice.Gauges.{across_gauge, along_gauge};
ghost use Rattle.life_things.specs.Lattice.Numbers.{AreFew, StayBy, number_limit, total_above, turned};
ghost use Rattle.life_things.specs.Lattice.Short.{IsShort, IsStride, count_limit, two_start};

use crate::field::{Field, span_by};
use crate::lattice::{
    Numbers, Span, Step, Turn, above, across_gauge, after, along_gauge, first_in_turn, lightest,
    parallel_numbers, turn_of,
};
use crate::places::one_way;
use life_cells::CellList;

/// True if a set is never near the other, where one step is made each number of times in a span from the start, and another any
/// number of times. Only the numbers of one turn are tried.
fn tried_in_turn(
    one: &CellList,
    other: &CellList,
    field: Field,
    start: Step,
    steps: (Step, Step),
    span: Span,
    turn: Turn,
) -> bool
    requires start { IsShort two_start start }
    requires steps { IsStride steps.0 × IsStride steps.1 }
    requires span { span.until ≤ count_limit }
    requires every { 1 ≤ turn.every × turn.every ≤ number_limit }
    requires first { turn.first < turn.every }
    requires others { (n : ℕ) → n % turn.every ≢ turn.first →
        StaysClear one.now other.now (and_then start (times n steps.0)) (steps.1 ∷ []) }
    requires field { IsFieldOf field one.now other.now }
    ensures { IsTrue result ↔
        StaysClearBetween one.now other.now start steps.0 (steps.1 ∷ []) span.from span.until }
{
    if span.until <= span.from {
        return true;
    }
    let mut count = first_in_turn(span.from, turn);
    while count < span.until {
        if !one_way(one, other, field, after(start, count, steps.0), steps.1) {
            return false;
        }
        count += turn.every;
    }
    true
}

/// True if a set is never near the other, where one step is made each number of times in a span from the start, and another any
/// number of times.
fn tried(
    one: &CellList,
    other: &CellList,
    field: Field,
    start: Step,
    step: Step,
    last: Step,
    span: Span,
) -> bool
    requires start { IsShort two_start start }
    requires step { IsStride step }
    requires last { IsStride last }
    requires span { span.until ≤ count_limit }
    requires field { IsFieldOf field one.now other.now }
    ensures { IsTrue result ↔
        StaysClearBetween one.now other.now start step (last ∷ []) span.from span.until }
{
    match turn_of(start.0, step.0, last.0) {
        None => true,
        Some(turn) => tried_in_turn(one, other, field, start, (step, last), span, turn),
    }
}

/// True if a set is never near the other, from the start on by two steps that these numbers relate.
fn related(
    one: &CellList,
    other: &CellList,
    field: Field,
    start: Step,
    step: Step,
    last: Step,
    numbers: Numbers,
) -> bool
    requires start { IsShort two_start start }
    requires step { IsStride step }
    requires last { IsStride last }
    requires few { AreFew numbers }
    requires some { 1 ≤ total_above numbers }
    requires two { numbers.third ≡ pos 0 × numbers.fourth ≡ pos 0 }
    requires stay { StayBy (step ∷ last ∷ []) numbers }
    requires field { IsFieldOf field one.now other.now }
    ensures { IsTrue result ↔ StaysClear one.now other.now start (step ∷ last ∷ []) }
{
    let steps = Span {
        from: 0,
        until: above(numbers.first),
    };
    if !tried(one, other, field, start, step, last, steps) {
        return false;
    }
    let steps = Span {
        from: 0,
        until: above(numbers.second),
    };
    tried(one, other, field, start, last, step, steps)
}

/// The numbers of times that a step may be made from the start for the set to be near the other in some column after another
/// step, made any number of times; or `None` where one goes across as fast as the other.
fn span_across(start: Step, step: Step, last: Step, field: Field) -> Option<Span>
    requires start { IsShort two_start start }
    requires step { IsStride step }
    requires last { IsStride last }
    requires narrow { IsNarrow field }
    ensures none { IfNone result (product (across_gauge last) step ≡ pos 0) }
    ensures few { IfSome result (λ span. span.until ≤ count_limit) }
    ensures outside { IfSome result (λ span. (P Q : Generation) → IsFieldOf field P Q →
        StaysClearOutside P Q start step (last ∷ []) span.from span.until) }
{
    span_by(across_gauge(last), start, step, field)
}

/// The numbers of times that a step may be made from the start for the set to be near the other in some row after another step,
/// made any number of times; or `None` where one goes along as fast as the other.
fn span_along(start: Step, step: Step, last: Step, field: Field) -> Option<Span>
    requires start { IsShort two_start start }
    requires step { IsStride step }
    requires last { IsStride last }
    requires narrow { IsNarrow field }
    ensures none { IfNone result (product (along_gauge last) step ≡ pos 0) }
    ensures few { IfSome result (λ span. span.until ≤ count_limit) }
    ensures outside { IfSome result (λ span. (P Q : Generation) → IsFieldOf field P Q →
        StaysClearOutside P Q start step (last ∷ []) span.from span.until) }
{
    span_by(along_gauge(last), start, step, field)
}

/// The numbers of times that a step may be made from the start for the set to be near the other in some place after another
/// step, made any number of times; or `None` where one step goes as fast as the other.
fn span_beside(start: Step, step: Step, last: Step, field: Field) -> Option<Span>
    requires start { IsShort two_start start }
    requires step { IsStride step }
    requires last { IsStride last }
    requires narrow { IsNarrow field }
    ensures across { IfNone result (product (across_gauge last) step ≡ pos 0) }
    ensures along { IfNone result (product (along_gauge last) step ≡ pos 0) }
    ensures few { IfSome result (λ span. span.until ≤ count_limit) }
    ensures outside { IfSome result (λ span. (P Q : Generation) → IsFieldOf field P Q →
        StaysClearOutside P Q start step (last ∷ []) span.from span.until) }
{
    match span_across(start, step, last, field) {
        None => span_along(start, step, last, field),
        Some(columns) => match span_along(start, step, last, field) {
            None => Some(columns),
            Some(rows) => Some(Span {
                from: columns.from.max(rows.from),
                until: columns.until.min(rows.until),
            }),
        },
    }
}

/// True if a set is never near the other, from the start on by two steps.
pub fn two_ways(
    one: &CellList,
    other: &CellList,
    field: Field,
    start: Step,
    step: Step,
    last: Step,
) -> bool
    requires start { IsShort two_start start }
    requires step { IsStride step }
    requires last { IsStride last }
    requires field { IsFieldOf field one.now other.now }
    ensures { IsTrue result ↔ StaysClear one.now other.now start (step ∷ last ∷ []) }
{
    match span_beside(start, step, last, field) {
        Some(span) => tried(one, other, field, start, step, last, span),
        None => {
            let numbers = lightest(parallel_numbers(step, last));
            related(one, other, field, start, step, last, numbers)
        }
    }
}
