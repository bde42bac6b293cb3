//! Life-like rules, and the texts that name them.
ghost use Rattle.std.specs.Prelude.{◌≡◌, ◌<◌, ◌≤◌, ◌+◌, ◌∷◌, ◌++◌, ◌%◌, false, [], length, drop, take, map, IsTrue, IfSome, OnErr, OnOk, Ok, codes};
ghost use Rattle.std.specs.List.{list_all, prefix_len};
ghost use Rattle.std.specs.Option.{option_copied, option_map};
ghost use Rattle.texts.specs.Bytes.{after_one_of, is_in};
ghost use Rattle.life_cells.specs.Rules.{is_count, members, after_digits, digits_of, digits_by_form, runs_with, after_slash_and, rule_of, rule_text, set_text, life};
ghost use Rattle.std.specs.Prelude.{List, ℕ};
ghost use Rattle.life_cells.specs.Forms.{HasForm, IsDigits};
ghost use Rattle.life_model.specs.Rule.{born, has_bit, stays};
ghost use Rattle.life_model.specs.Rule as model;

use std::alloc::AllocError;
use std::marker::Model;
use thiserror::Error;

/// A Life-like rule: the numbers of live neighbours, from 0 to 8, with which a cell is born, and those with which it
/// stays alive. 0 is never among the births.
///
/// The notation is that of LifeWiki's article on rulestrings and of Golly's help on Life-like rules.
#[derive(Clone, Copy, Debug, PartialEq, Eq, Hash)]
pub struct Rule {
    birth: u16,
    survival: u16,
}

impl Model for Rule {
    ghost use Rattle.std.specs.Prelude.{◌≡◌, ◌<◌, ◌%◌};
    ghost use Rattle.life_model.specs.Rule as model;
    ghost use Rattle.life_model.specs.Coded.{coded_rule};

    ghost Value = { model.Rule };

    ghost coded = { coded_rule };

    ghost view = { λ r. record { birth = r.birth; survival = r.survival } };

    ghost invariant = { λ r. (r.birth < 512) × (r.survival < 512) × (r.birth % 2 ≡ 0) };

    ghost inverse = { λ s. record { birth = s.birth; survival = s.survival } };
}

/// The reason why a text names no rule.
#[derive(Clone, Copy, Debug, PartialEq, Eq, Drop, Error)]
pub enum RuleFault {
    /// It has none of the three forms.
    #[error("rule fault 1")]
    NotLifeLike,
    /// It has one of the three forms, but with 0 among the births.
    #[error("rule fault 2")]
    HasB0,
}

/// The rest of a text whose first byte is one of two.
pub fn after_either<'a>(text: &'a [u8], one: u8, other: u8) -> Option<&'a [u8]>
    ensures { option_copied result ≡ after_one_of (one ∷ other ∷ []) text.now }
{
    match text {
        [first, rest @ ..] => {
            if one == *first || other == *first {
                Some(rest)
            } else {
                None
            }
        }
        [] => None,
    }
}

/// The rest of a text whose first byte is this one.
pub fn after_byte<'a>(text: &'a [u8], byte: u8) -> Option<&'a [u8]>
    ensures { option_copied result ≡ after_one_of (byte ∷ []) text.now }
{
    match text {
        [first, rest @ ..] => { if byte == *first { Some(rest) } else { None } }
        [] => None,
    }
}

// The number of digits from 0 to 8 at the start of a text.
fn count_digits(text: &[u8]) -> usize
    ensures value { result ≡ prefix_len is_count text.now }
    ensures within { result ≤ length text.now }
{
    for (i, byte) in text.iter().enumerate() {
        if *byte < b'0' || *byte > b'8' {
            return i;
        }
    }
    text.len()
}

// True where a text is digits from 0 to 8 and nothing else.
fn is_digits(text: &[u8]) -> bool
    ensures { result ≡ list_all is_count text.now }
{
    text.iter().all(|byte| *byte >= b'0' && *byte <= b'8')
}

// The two runs of digits of a text whose second run is `second`.
fn with_second<'a>(text: &'a [u8], second: Option<&'a [u8]>) -> Option<(&'a [u8], &'a [u8])>
    ensures value { option_map (λ p. (p.0.now, p.1.now)) result ≡
        runs_with text.now (option_copied second.entry) }
    ensures digits { IfSome result
        (λ p. IsTrue (list_all is_count p.0.now) × IsTrue (list_all is_count p.1.now)) }
{
    let second = second?;
    if !is_digits(second) {
        return None;
    }
    Some((&text[..count_digits(text)], second))
}

// The set of these digits, each of which is from 0 to 8.
fn members_of(digits: &[u8]) -> u16
    requires { IsTrue (list_all is_count digits.now) }
    ensures value { result ≡ members digits.now }
    ensures below { result < 512 }
    ensures even { is_in digits.now 48 ≡ false → result % 2 ≡ 0 }
{
    let mut set: u16 = 0;
    for digit in digits {
        set |= 1 << (*digit - b'0');
    }
    set
}

// The two runs of digits in a text after its first letter: digits, `/` or nothing, a second letter, digits.
fn behind_letter<'a>(text: &'a [u8], one: u8, other: u8) -> Option<(&'a [u8], &'a [u8])>
    ensures digits { IfSome result
        (λ p. IsTrue (list_all is_count p.0.now) × IsTrue (list_all is_count p.1.now)) }
    ensures value { option_map (λ p. (p.0.now, p.1.now)) result ≡
        runs_with text.now (after_slash_and (one ∷ other ∷ []) (after_digits text.now)) }
{
    let between = &text[count_digits(text)..];
    let letter = match after_byte(between, b'/') {
        Some(rest) => match after_either(rest, one, other) {
            Some(second) => Some(second),
            None => after_either(between, one, other),
        },
        None => after_either(between, one, other),
    };
    with_second(text, letter)
}

// The birth digits and the survival digits of a text of one of the three forms.
fn digits_by_form(text: &[u8]) -> Option<(&[u8], &[u8])>
    ensures value { option_map (λ p. (p.0.now, p.1.now)) result ≡ digits_by_form text.now }
    ensures digits { IfSome result
        (λ p. IsTrue (list_all is_count p.0.now) × IsTrue (list_all is_count p.1.now)) }
{
    if let Some(rest) = after_either(text, b'B', b'b') {
        return behind_letter(rest, b'S', b's');
    }
    if let Some(rest) = after_either(text, b'S', b's') {
        let (survival, birth) = behind_letter(rest, b'B', b'b')?;
        return Some((birth, survival));
    }
    let (survival, birth) = with_second(text, after_byte(&text[count_digits(text)..], b'/'))?;
    Some((birth, survival))
}

impl Rule {
    /// Conway's Life, B3/S23.
    pub fn life() -> Rule
        ensures { result ≡ life }
    {
        Rule {
            birth: 8,
            survival: 12,
        }
    }

    /// The rule that a text names, in one of three forms, without blanks: `B3/S23` and `S23/B3`, whose letters may be
    /// in lower case and whose `/` may be left out, and `23/3`, with the survivals first. The digits are 0 to 8 in any
    /// order and with repeats, and a run of digits may be empty.
    ///
    /// The result is `HasB0` if a text has one of the forms with 0 among the births, and `NotLifeLike` if it has none of
    /// the forms.
    pub fn parse(text: &[u8]) -> Result<Rule, RuleFault>
        ensures { result ≡ rule_of text.now }
    {
        let Some((birth, survival)) = digits_by_form(text) else {
            return Err(RuleFault::NotLifeLike);
        };
        if birth.contains(&b'0') {
            return Err(RuleFault::HasB0);
        }
        Ok(Rule {
            birth: members_of(birth),
            survival: members_of(survival),
        })
    }
}

impl Rule {
    /// True where a dead cell with this many live neighbours is alive in the next generation. 0 is never among the
    /// births.
    pub fn born(&self, neighbours: u32) -> bool
        requires { neighbours ≤ 8 }
        ensures { result ≡ born self.now neighbours }
    {
        neighbours != 0 && (self.birth >> neighbours) % 2 == 1
    }

    /// True where a live cell with this many live neighbours stays alive in the next generation.
    pub fn stays(&self, neighbours: u32) -> bool
        requires { neighbours ≤ 8 }
        ensures { result ≡ stays self.now neighbours }
    {
        (self.survival >> neighbours) % 2 == 1
    }
}

// Appends the digits of a set, in ascending order.
fn push_set(text: &mut Vec<u8>, set: u16) -> Result<(), AllocError>
    ensures { OnOk result (text.new.items ≡ text.old.items ++ set_text set) }
{
    for n in 0..9u8 {
        if (set >> n) % 2 == 1 {
            text.push(b'0' + n)?;
        }
    }
    Ok(())
}

impl Rule {
    /// Appends the printed rule: `B`, the numbers of births in ascending order, `/S`, the numbers of survivals in
    /// ascending order. If memory runs out, the text is unchanged.
    pub fn text_into(&self, text: &mut Vec<u8>) -> Result<(), AllocError>
        ensures printed { OnOk result (text.new.items ≡ text.old.items ++ rule_text self.now) }
        ensures refused { OnErr result (text.new.items ≡ text.old.items) }
    {
        if *self == Rule::life() {
            return text.extend_from_slice(b"B3/S23");
        }
        let mut printed = Vec::new(*text.allocator());
        printed.push(b'B')?;
        push_set(&mut printed, self.birth)?;
        printed.extend_from_slice(b"/S")?;
        push_set(&mut printed, self.survival)?;
        text.extend_from_slice(printed.as_slice())?;
        Ok(())
    }
}

/// The set of some digits from 0 to 8 has exactly the numbers of these digits.
pub fn members_are_digits()
    ensures { (digits : List ℕ) (n : ℕ) → IsDigits digits → n ≤ 8 →
        has_bit (members digits) n ≡ is_in digits (48 + n) }
{}

/// A printed rule names that rule.
pub fn printed_rules_are_read()
    ensures { (rule : model.Rule) → rule.birth < 512 → rule.survival < 512 → rule.birth % 2 ≡ 0 →
        rule_of (rule_text rule) ≡ Ok rule }
{}

/// The digits of a rule text are those of the one form that it has.
pub fn forms()
    ensures found { (text birth survival : List ℕ) → digits_by_form text ≡ Some (birth, survival) →
        HasForm text birth survival }
    ensures only { (text birth survival : List ℕ) → HasForm text birth survival →
        digits_by_form text ≡ Some (birth, survival) }
{}
