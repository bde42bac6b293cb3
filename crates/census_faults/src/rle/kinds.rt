//! Kinds of rules that are not Life-like.

use crate::rle::bytes::count_of;
use life_text::{is_blank, is_digit, is_letter};

/// The kind of a rule that is not Life-like.
#[derive(Clone, Copy, Debug, PartialEq, Eq, Drop)]
pub enum RuleKind {
    /// A name, such as `HighLife`.
    Named,
    /// A rule on a bounded grid, which has `:`, such as `B3/S23:T100,100`.
    Bounded,
    /// A rule with states for the history of a cell, such as `LifeHistory` or `LifeSuper`.
    History,
    /// A rule with a number of states, such as `B2/S/C3` or `23/3/4`.
    Generations,
    /// A rule with a range, such as `R5,C0,M1,S34..58,B34..45,NM`.
    LargerThanLife,
    /// An isotropic rule that distinguishes arrangements of neighbours, such as `B2-a/S12`.
    NonTotalistic,
    /// A rule with a blank inside, such as `B3 / S23`.
    Blank,
    /// None of these.
    Other,
}

// The characters of an isotropic rule that distinguishes arrangements of neighbours, with the letters of arrangements.
const ISOTROPIC: &[u8] = b"012345678/-BSbsceakinyqjrtwz";

const ARRANGEMENTS: &[u8] = b"ceakinyqjrtwz";

// True where a rule's name ends in `History` or `Super`.
fn has_history(rule: &[u8]) -> bool {
    rule.ends_with(b"History") || rule.ends_with(b"Super")
}

// True where a rule has a range, such as `R5`, and a comma, or is five numbers.
fn is_larger(rule: &[u8]) -> bool {
    let has_range = match rule {
        [b'R' | b'r', second, ..] => is_digit(*second),
        _ => false,
    };
    let is_numbers = rule.iter().all(|byte| is_digit(*byte) || *byte == b',');
    (has_range && rule.contains(&b',')) || (count_of(rule, b',') == 4 && is_numbers)
}

// True where a text is one or more digits.
fn is_number(text: &[u8]) -> bool {
    !text.is_empty() && text.iter().all(|byte| is_digit(*byte))
}

// True where a text is a number, with or without `C` or `G` before it.
fn is_states(text: &[u8]) -> bool {
    match text {
        [b'C' | b'c' | b'G' | b'g', rest @ ..] => is_number(rest),
        _ => is_number(text),
    }
}

// True where a rule has two `/` and after the second a number of states.
fn is_generations(rule: &[u8]) -> bool {
    let last = rule.split(|byte| *byte == b'/').last();
    count_of(rule, b'/') == 2 && last.is_some_and(is_states)
}

// True where a rule has only the characters of isotropic rules, and the letter of an arrangement comes right after a number of
// neighbours, or after the `-` before those that are left out.
fn is_non_totalistic(rule: &[u8]) -> bool {
    let mut before = b'/';
    let mut is_arranged = false;
    for byte in rule {
        is_arranged |= (is_digit(before) || before == b'-') && ARRANGEMENTS.contains(byte);
        before = *byte;
    }
    is_arranged && rule.iter().all(|byte| ISOTROPIC.contains(byte))
}

// True where a rule is a name: two letters are side by side, it has no `/`, and it is not a map of all neighbourhoods.
fn is_rule_name(rule: &[u8]) -> bool {
    let mut before = b'/';
    let mut has_word = false;
    for byte in rule {
        has_word |= is_letter(before) && is_letter(*byte);
        before = *byte;
    }
    has_word && !rule.contains(&b'/') && !rule.starts_with(b"MAP")
}

/// The kind of a rule that is not Life-like. The first of these that holds decides:
///
/// - `Bounded`: it has `:`.
/// - `History`: it ends in `History` or `Super`.
/// - `LargerThanLife`: it begins with `R` and a digit and has a comma, or is five numbers with commas between.
/// - `Generations`: it has two `/`, and after the second a number, with or without `C` or `G` before it.
/// - `NonTotalistic`: it is made of `0` to `8`, `/`, `-`, `B`, `S`, `b`, `s` and the letters of arrangements, and one of these
///   letters comes right after a digit or `-`.
/// - `Named`: two letters are side by side, and it has no `/` and doesn't begin with `MAP`.
/// - `Blank`: it has a blank, a tab or CR.
pub fn rule_kind(rule: &[u8]) -> RuleKind {
    if rule.contains(&b':') {
        RuleKind::Bounded
    } else if has_history(rule) {
        RuleKind::History
    } else if is_larger(rule) {
        RuleKind::LargerThanLife
    } else if is_generations(rule) {
        RuleKind::Generations
    } else if is_non_totalistic(rule) {
        RuleKind::NonTotalistic
    } else if is_rule_name(rule) {
        RuleKind::Named
    } else if rule.iter().any(|byte| is_blank(*byte)) {
        RuleKind::Blank
    } else {
        RuleKind::Other
    }
}
