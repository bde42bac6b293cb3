//! What a row of a lawful report says by itself.
ghost use Rattle.std.specs.Prelude.{◌≡◌};
ghost use Rattle.std.specs.Option.{option_copied};
ghost use Rattle.census_rows.specs.Kinds.{said, value_at};
ghost use Rattle.census_readback.specs.Lawful.{has_lawful_code, has_lawful_engines, has_lawful_fault, has_lawful_numbers, has_lawful_rule, is_lawful, is_recurrence, is_way, moves_within, number_in, signed_in, text_in};

use crate::code::{is_code, is_code_after, is_object};
use crate::limits::{BOUND_LIMIT, CELL_LIMIT, FAULT_LIMIT, PERIOD_LIMIT};
use crate::rules::is_rule;
use census_bundle::is_lawful_name;
use census_rows::{Label, Outcome, Row, Value};

// The text with a label, if there is one.
pub fn text_at<'a>(outcome: &Outcome<'a>, label: Label) -> Option<&'a [u8]>
    ensures { option_copied result ≡ text_in (value_at label (said outcome.now).fields) }
{
    match outcome.value(label) {
        Some(Value::Text(bytes)) => Some(bytes),
        _ => None,
    }
}

// The number with a label; 0 if there is none.
pub fn number_at(outcome: &Outcome, label: Label) -> u64
    ensures { result ≡ number_in (value_at label (said outcome.now).fields) }
{
    match outcome.value(label) {
        Some(Value::Number(number)) => number,
        _ => 0,
    }
}

// Whether the rule, if there is one, is a rule as it is printed.
fn has_lawful_rule(outcome: &Outcome) -> bool
    ensures { result ≡ has_lawful_rule (said outcome.now).fields }
{
    match text_at(outcome, Label::Rule) {
        Some(rule) => is_rule(rule),
        None => true,
    }
}

// The signed number with a label; 0 if there is none.
fn signed_at(outcome: &Outcome, label: Label) -> i64
    ensures { result ≡ signed_in (value_at label (said outcome.now).fields) }
{
    match outcome.value(label) {
        Some(Value::Signed(number)) => number,
        _ => 0,
    }
}

// Whether something can move by `dx` and `dy` in `period` generations: each is at most a cell a generation.
fn moves_within(period: u64, dx: i64, dy: i64) -> bool
    ensures { result ≡ moves_within period dx dy }
{
    dx.unsigned_abs() <= period && dy.unsigned_abs() <= period
}

// Whether what recurs after `period` generations, moved by `dx` and `dy`, can have this code.
fn is_recurrence(period: u64, dx: i64, dy: i64, code: &[u8]) -> bool
    ensures { result ≡ is_recurrence period dx dy code.now }
{
    is_code_after((dx, dy) != (0, 0), period, code) && moves_within(period, dx, dy)
}

// Whether the code, if there is one, is one of what recurs with this period and moves so.
fn has_lawful_code(outcome: &Outcome) -> bool
    ensures { result ≡ has_lawful_code (said outcome.now).fields }
{
    match text_at(outcome, Label::Code) {
        Some(code) => is_recurrence(
            number_at(outcome, Label::Period),
            signed_at(outcome, Label::Dx),
            signed_at(outcome, Label::Dy),
            code,
        ),
        None => true,
    }
}

// Whether the number of engines, if there is one, is at least 1.
fn has_lawful_engines(outcome: &Outcome) -> bool
    ensures { result ≡ has_lawful_engines (said outcome.now).fields }
{
    match outcome.value(Label::Engines) {
        Some(Value::Number(number)) => 0 < number,
        Some(_) => false,
        None => true,
    }
}

// Whether the fault, if there is one, is one that a text can have.
fn has_lawful_fault(outcome: &Outcome) -> bool
    ensures { result ≡ has_lawful_fault (said outcome.now).fields }
{
    number_at(outcome, Label::Fault) <= FAULT_LIMIT
}

// Whether there are no more cells than a pattern may have, and what recurs, has fallen apart or is too large has shown it by the
// greatest bound.
fn has_lawful_numbers(outcome: &Outcome) -> bool
    ensures { result ≡ has_lawful_numbers (said outcome.now).fields }
{
    let onset = u128::from(number_at(outcome, Label::Onset));
    let period = u128::from(number_at(outcome, Label::Period));
    number_at(outcome, Label::Population) <= CELL_LIMIT
        && onset + period <= u128::from(BOUND_LIMIT)
        && number_at(outcome, Label::Generation) <= BOUND_LIMIT
}

// Whether an engine may recur after `period` generations, moved by `dx` and `dy`: each is at most a cell a generation.
fn is_way(period: u64, dx: i64, dy: i64) -> bool
    ensures { result ≡ is_way period dx dy }
{
    0 < period && period <= PERIOD_LIMIT && moves_within(period, dx, dy)
}

/// Whether a row's name is lawful, its rule is one as it is printed, its code is one, its fault is one of a text, its numbers
/// are in range, and it counts something if it counts objects or engines. What recurs, and each engine, moves by at most a cell
/// in a generation, and what is left of a pattern or emitted has cells.
pub fn is_lawful(row: &Row) -> bool
    ensures { result ≡ is_lawful row.now }
{
    match row {
        Row::Open { name, .. } => is_lawful_name(*name),
        Row::Line { outcome, name, .. } => {
            has_lawful_rule(outcome)
                && has_lawful_code(outcome)
                && has_lawful_engines(outcome)
                && has_lawful_fault(outcome)
                && has_lawful_numbers(outcome)
                && is_lawful_name(*name)
        }
        Row::Part { code, count, .. } => is_object(*code) && 0 < *count,
        Row::Engine {
            period,
            dx,
            dy,
            count,
            ..
        } => is_way(*period, *dx, *dy) && 0 < *count,
        Row::Emits {
            engine,
            code,
            count,
            ..
        } => 0 < *engine && is_object(*code) && 0 < *count,
        Row::Code {
            rule,
            code,
            count,
            ..
        } => is_rule(*rule) && is_code(*code) && 0 < *count,
        Row::Close { .. } => true,
        Row::End { .. } => true,
    }
}
