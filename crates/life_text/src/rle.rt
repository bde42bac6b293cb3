//! Reading RLE texts.
ghost use Rattle.std.specs.Prelude.{[], ◌+◌, ◌-◌, ◌<◌, ◌≡◌, ◌≢◌, ◌≤◌, IfErr, IfOk, IsOk, List, OnOk, Some, drop, false, length, take};
ghost use Rattle.std.specs.List.{after_first, before_first};
ghost use Rattle.life_cells.specs.Readings.{Gives};
ghost use Rattle.life_text.specs.Drawing.{drawing, drawing_of};
ghost use Rattle.life_text.specs.Faults.{fault_number, fault_of_number, fault_place, rule_number, without_place};
ghost use Rattle.life_text.specs.Found.{token_found};
ghost use Rattle.life_text.specs.Picture.{picture_of};
ghost use Rattle.life_text.specs.Reader.{IsPlain, count_cap, cells_drawn, first_pen, is_line_feed, placed_all, plain_at, tokens_at};
ghost use Rattle.life_text.specs.Rising.{RisesFrom};
ghost use Rattle.life_text.specs.Rle.{Token, cell_limit, cells_after, first_fault, header_rule, reading, refusal, token_fault};
ghost use Rattle.life_text.specs.declared.rle.RleFault.TheVariants.{Memory};

use crate::drawn::{draw_found, draw_tokens};
use crate::header::line_rule;
use crate::pattern::Pattern;
use crate::pen::{Pen, is_too_far, is_too_many};
use crate::token::{
    Found, is_bad_run, is_missing, is_no_tag, is_other_state, next_token, skip_spaces,
};
use life_cells::{CellList, Rule, RuleFault};
use memchr::memchr;
use std::alloc::{AllocError, Global};
use std::fmt;
use thiserror::Error;

/// The reason why a text is no pattern. `at` is the place of a byte, counted from 0.
#[derive(Clone, Copy, Debug, PartialEq, Eq, Drop, Error)]
pub enum RleFault {
    /// There is no header line, or it doesn't begin with `x`.
    NoHeader,
    /// The header line begins with `x` but doesn't have the form of a header.
    BadHeader,
    /// The header's rule text has this fault.
    Rule(RuleFault),
    /// A letter that names a third state is in the place of a tag.
    ManyStates { at: usize },
    /// A byte that is no tag is in the place of a tag.
    BadChar { at: usize },
    /// A run count is 0, or comes before `!`, another count or the end of the text. `at` is the token's first byte.
    BadRun { at: usize },
    /// A live cell's x or y is above 1,048,575. `at` is the token's first byte.
    TooFar { at: usize },
    /// There are more than 1,048,576 live cells. `at` is the token's first byte.
    TooMany { at: usize },
    /// The text ends where a token should begin.
    NoEnd,
    /// Out of memory.
    Memory,
}

/// The number of a fault of a rule text by itself, not in a header.
pub fn rule_number(fault: RuleFault) -> u8
    ensures { result ≡ rule_number fault }
{
    match fault {
        RuleFault::NotLifeLike => 1,
        RuleFault::HasB0 => 2,
    }
}

impl RleFault {
    /// Each fault that a text can have. A fault that names a byte names byte 0.
    const ALL: [RleFault; 10] = [
        RleFault::NoHeader,
        RleFault::BadHeader,
        RleFault::Rule(RuleFault::NotLifeLike),
        RleFault::Rule(RuleFault::HasB0),
        RleFault::ManyStates { at: 0 },
        RleFault::BadChar { at: 0 },
        RleFault::BadRun { at: 0 },
        RleFault::TooFar { at: 0 },
        RleFault::TooMany { at: 0 },
        RleFault::NoEnd,
    ];

    /// The number of the fault in reports and in the program's lines.
    pub fn number(self) -> u8
        ensures value { result ≡ fault_number self }
        // The number determines the fault, except for its byte.
        ensures told { self ≢ Memory → fault_of_number result ≡ Some (without_place self) }
    {
        match self {
            RleFault::NoHeader => 1,
            RleFault::BadHeader => 2,
            RleFault::Rule(RuleFault::NotLifeLike) => 3,
            RleFault::Rule(RuleFault::HasB0) => 4,
            RleFault::ManyStates { .. } => 5,
            RleFault::BadChar { .. } => 6,
            RleFault::BadRun { .. } => 7,
            RleFault::TooFar { .. } => 8,
            RleFault::TooMany { .. } => 9,
            RleFault::NoEnd => 10,
            RleFault::Memory => 11,
        }
    }

    /// The place of the byte that the fault names, if any.
    pub fn at(self) -> Option<usize>
        ensures { result ≡ fault_place self }
    {
        match self {
            RleFault::ManyStates { at }
            | RleFault::BadChar { at }
            | RleFault::BadRun { at }
            | RleFault::TooFar { at }
            | RleFault::TooMany { at } => Some(at),
            RleFault::NoHeader
            | RleFault::BadHeader
            | RleFault::Rule(_)
            | RleFault::NoEnd
            | RleFault::Memory => None,
        }
    }

    /// The fault of a text that has this number. If it names a byte, that is byte 0. Out of memory has no number here.
    pub fn of_number(number: u64) -> Option<RleFault>
        ensures { result ≡ fault_of_number number }
    {
        for fault in &RleFault::ALL {
            if fault.number() as u64 == number {
                return Some(*fault);
            }
        }
        None
    }
}

impl fmt::Display for RleFault {
    fn fmt<W: fmt::Write>(&self, f: &mut fmt::Formatter<W>) -> fmt::Result {
        let number = self.number();
        match (*self, self.at()) {
            (RleFault::Memory, _) => write!(f, "out of memory"),
            (_, Some(at)) => write!(f, "rle fault {number} at {at}"),
            (_, None) => write!(f, "rle fault {number}"),
        }
    }
}

// The fault of the token that was found, with the pen at this place.
fn found_fault(found: &Found, pen: Pen) -> Option<RleFault>
    requires once { found.now.counted ≡ false → found.now.times ≡ 1 }
    requires few { found.now.times ≤ count_cap }
    requires row { pen.y ≤ count_cap }
    requires column { pen.x ≤ count_cap }
    requires live { pen.live ≤ cell_limit }
    ensures { result ≡ token_fault pen.y pen.x pen.live (token_found found.now) }
{
    if is_other_state(found) {
        return Some(RleFault::ManyStates { at: found.tag_at });
    }
    if is_no_tag(found) {
        return Some(RleFault::BadChar { at: found.tag_at });
    }
    if is_bad_run(found) {
        return Some(RleFault::BadRun { at: found.at });
    }
    if is_too_far(found, pen) {
        return Some(RleFault::TooFar { at: found.at });
    }
    if is_too_many(found, pen) {
        return Some(RleFault::TooMany { at: found.at });
    }
    if is_missing(found) {
        return Some(RleFault::NoEnd);
    }
    None
}

impl From<AllocError> for RleFault {
    ghost use Rattle.std.specs.Prelude.{◌≡◌};
    ghost use Rattle.life_text.specs.declared.rle.RleFault.TheVariants.{Memory};

    ghost from_gives = { λ _ e. e ≡ Memory };

    fn from(_: AllocError) -> RleFault {
        RleFault::Memory
    }
}

// The number of live cells for which there is room from the start.
const FIRST_CELLS: usize = 64;

// The cells of the body that begins at a place, or its first fault.
fn read_body(alloc: Global, text: &[u8], from: usize) -> Result<Vec<(i32, i32)>, RleFault>
    requires { from ≤ length text.now }
    ensures { Gives Memory (λ v. v.items) result
        (placed_all (cells_drawn first_pen (tokens_at text.now from))) }
{
    let mut cells = Vec::with_capacity(alloc, FIRST_CELLS)?;
    let mut pen = Pen {
        y: 0,
        x: 0,
        live: 0,
    };
    let mut at = from;
    'tokens: loop {
        let (behind, place) = draw_tokens(&mut cells, text, at, pen)?;
        if place < text.len() && text[place] == b'!' {
            return Ok(cells);
        }
        let found = next_token(text, place);
        match draw_found(&mut cells, behind, &found)? {
            Some(next) => {
                pen = next;
                at = found.tag_at + 1;
            }
            None => {
                return match found_fault(&found, behind) {
                    Some(fault) => Err(fault),
                    None => Ok(cells),
                };
            }
        }
    }
}

// A rule and cells, sorted by row, then by column.
#[derive(Drop)]
struct Plot {
    rule: Rule,
    cells: Vec<(i32, i32)>,
}

/// The place of the LF that ends the line from a place on, or the text's length. The byte at the place, if there is
/// one, must not be blank or in a comment.
pub fn line_end(text: &[u8], start: usize) -> usize
    requires within { start ≤ length text.now }
    requires plain { start < length text.now → IsPlain text.now start }
    ensures from { start ≤ result }
    ensures within { result ≤ length text.now }
    ensures line { before_first is_line_feed (plain_at text.now start) ≡
        take (result - start) (drop start text.now) }
    ensures more { result < length text.now →
        after_first is_line_feed (plain_at text.now start) ≡ plain_at text.now (result + 1) }
    ensures last { result ≡ length text.now →
        after_first is_line_feed (plain_at text.now start) ≡ plain_at text.now result }
{
    match memchr(b'\n', &text[start..]) {
        Some(len) => start + len,
        None => text.len(),
    }
}

// The pattern that an RLE text means, or its fault.
fn read_text(alloc: Global, text: &[u8]) -> Result<Plot, RleFault>
    ensures gives { Gives Memory drawing result (drawing_of (reading text.now)) }
    ensures memory { IfErr result (λ fault. fault ≡ Memory → IsOk (header_rule text.now)) }
{
    let start = skip_spaces(text, 0);
    let end = line_end(text, start);
    let rule = match line_rule(&text[start..end]) {
        Ok(rule) => rule,
        Err(fault) => return Err(fault),
    };
    let from = if end < text.len() { end + 1 } else { end };
    match read_body(alloc, text, from) {
        Ok(cells) => Ok(Plot { rule, cells }),
        Err(fault) => Err(fault),
    }
}

/// If tokens have no fault, the cells that they mean are sorted by row, then by column, each once, and within the
/// limits.
pub fn rises()
    ensures { (ts : List Token) → first_fault [] ts ≡ None → RisesFrom 0 0 (cells_after [] ts) }
{}

/// Reads an RLE text: the pattern that it means, or its first fault.
///
/// The rules are those of Golly's help on the extended RLE format, in a lenient profile for two states. Each fault says
/// which rule is broken, and at which byte. `Memory` may be the result wherever memory is needed before the place of
/// the fault, but never if the header has a fault.
pub fn read_rle(alloc: Global, text: &[u8]) -> Result<Pattern, RleFault>
    // What is read is what the text means, and the text has no fault.
    ensures found { IfOk result (λ pattern. picture_of (reading text.now) ≡ Ok pattern) }
    ensures lawful { OnOk result (refusal text.now ≡ None) }
    // A fault other than `Memory` is the text's.
    ensures refused { IfErr result (λ fault. fault ≢ Memory → refusal text.now ≡ Some fault) }
    // Only a text with a lawful header can run out of memory.
    ensures memory { IfErr result (λ fault. fault ≡ Memory → IsOk (header_rule text.now)) }
{
    match read_text(alloc, text) {
        Ok(plot) => Ok(Pattern::within(plot.rule, CellList::from_ordered(plot.cells))),
        Err(fault) => Err(fault),
    }
}
