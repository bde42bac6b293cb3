//! Reading lines.
ghost use Rattle.std.specs.Prelude.{◌≡◌, ◌==◌, ◌++◌, ◌∷◌, [], ◌<◌, ◌^◌, ℕ, ℤ, List, length, drop, position, true, IsTrue, IfSome, MatchOption, codes, decimal, FitsSigned};
ghost use Rattle.std.specs.Fmt.{signed_decimal};
ghost use Rattle.std.specs.Int.{w64};
ghost use Rattle.census_rows.specs.declared.row.Finding.{Finding};
ghost use Rattle.census_rows.specs.declared.row.Outcome.{Outcome};
ghost use Rattle.census_rows.specs.declared.row.Row.{Row};
ghost use Rattle.census_rows.specs.Kinds.{said_of, texts_of};
ghost use Rattle.census_rows.specs.Lines.{AreFields, SameSaid, IsWord, HasNoBlank, describes_collection, EndsField, IsOutcome, SameOutcome, IsRow, SameRow, fields_text, outcome_fields, row_text};

use crate::numbers::{number_of, signed_of};
use crate::row::{Finding, Outcome, Row};

// The index of the first blank.
fn first_blank(text: &[u8]) -> Option<usize>
    ensures { result ≡ position (λ byte. byte == 32) text.now }
{
    text.iter().position(|byte| *byte == b' ')
}

// The bytes up to the first blank, and the others.
fn split_field(text: &[u8]) -> (&[u8], &[u8])
    ensures whole { text.now ≡ result.0.now ++ result.1.now }
    ensures front { HasNoBlank result.0.now }
    ensures back { EndsField result.1.now }
{
    text.split_at(first_blank(text).unwrap_or(text.len()))
}

// True where two texts have the same bytes.
fn are_same(text: &[u8], word: &[u8]) -> bool
    ensures yes { result ≡ true → text.now ≡ word.now }
    ensures no { text.now ≡ word.now → result ≡ true }
{
    text == word
}

// The rest of a line, and whether all before it was well-formed.
#[derive(Drop)]
struct Fields<'a> {
    rest: &'a [u8],
    whole: bool,
}

impl<'a> Fields<'a> {
    // The field after the next blank.
    fn field(&mut self) -> &'a [u8]
        ensures sound { self.new.whole ≡ true → (self.old.whole ≡ true) × HasNoBlank result.now
            × (self.old.rest.now ≡ 32 ∷ result.now ++ self.new.rest.now)
            × EndsField self.new.rest.now }
        ensures all { (bytes : List ℕ) (after : List ℕ) → self.old.whole ≡ true
            → HasNoBlank bytes → EndsField after → self.old.rest.now ≡ 32 ∷ bytes ++ after
            → (self.new.whole ≡ true) × (result.now ≡ bytes) × (self.new.rest.now ≡ after) }
    {
        match self.rest {
            [b' ', text @ ..] => {
                let (field, rest) = split_field(text);
                self.rest = rest;
                field
            }
            _ => {
                self.whole = false;
                self.rest
            }
        }
    }

    // A rule or a code.
    fn word(&mut self) -> &'a [u8]
        ensures sound { self.new.whole ≡ true → (self.old.whole ≡ true) × IsWord result.now
            × (self.old.rest.now ≡ 32 ∷ result.now ++ self.new.rest.now)
            × EndsField self.new.rest.now }
        ensures all { (bytes : List ℕ) (after : List ℕ) → self.old.whole ≡ true
            → IsWord bytes → EndsField after → self.old.rest.now ≡ 32 ∷ bytes ++ after
            → (self.new.whole ≡ true) × (result.now ≡ bytes) × (self.new.rest.now ≡ after) }
    {
        let word = self.field();
        self.whole = self.whole && !word.is_empty();
        word
    }

    fn number(&mut self) -> u64
        ensures sound { self.new.whole ≡ true → (self.old.whole ≡ true) × (result < 2 ^ 64)
            × (self.old.rest.now ≡ 32 ∷ decimal result ++ self.new.rest.now)
            × EndsField self.new.rest.now }
        ensures all { (number : ℕ) (after : List ℕ) → self.old.whole ≡ true
            → number < 2 ^ 64 → EndsField after → self.old.rest.now ≡ 32 ∷ decimal number ++ after
            → (self.new.whole ≡ true) × (result ≡ number) × (self.new.rest.now ≡ after) }
    {
        match number_of(self.field()) {
            Some(number) => number,
            None => {
                self.whole = false;
                0
            }
        }
    }

    fn signed(&mut self) -> i64
        ensures sound { self.new.whole ≡ true → (self.old.whole ≡ true) × FitsSigned w64 result
            × (self.old.rest.now ≡ 32 ∷ signed_decimal result ++ self.new.rest.now)
            × EndsField self.new.rest.now }
        ensures all { (number : ℤ) (after : List ℕ) → self.old.whole ≡ true
            → FitsSigned w64 number → EndsField after →
            self.old.rest.now ≡ 32 ∷ signed_decimal number ++ after
            → (self.new.whole ≡ true) × (result ≡ number) × (self.new.rest.now ≡ after) }
    {
        match signed_of(self.field()) {
            Some(number) => number,
            None => {
                self.whole = false;
                0
            }
        }
    }

    // Everything after a blank, up to the end.
    fn name(&mut self) -> &'a [u8]
        ensures sound { self.new.whole ≡ true → (self.old.whole ≡ true)
            × (self.old.rest.now ≡ 32 ∷ result.now) × (self.new.rest.now ≡ []) }
        ensures all { (name : List ℕ) → self.old.whole ≡ true → self.old.rest.now ≡ 32 ∷ name
            → (self.new.whole ≡ true) × (result.now ≡ name) × (self.new.rest.now ≡ []) }
    {
        match self.rest {
            [b' ', name @ ..] => {
                self.rest = &[];
                name
            }
            _ => {
                self.whole = false;
                self.rest
            }
        }
    }

    // The outcome of a pattern.
    fn outcome(&mut self) -> Outcome<'a>
        ensures sound { self.new.whole ≡ true → (self.old.whole ≡ true) × IsOutcome result
            × (self.old.rest.now ≡ fields_text (outcome_fields result) ++ self.new.rest.now) }
        ensures all { (outcome : Outcome) (after : List ℕ) → self.old.whole ≡ true
            → IsOutcome outcome → EndsField after
            → self.old.rest.now ≡ fields_text (outcome_fields outcome) ++ after
            → (self.new.whole ≡ true) × SameOutcome result outcome × (self.new.rest.now ≡ after) }
    {
        let found = self.field();
        self.outcome_of(found)
    }

    // The outcome, after its first word.
    fn outcome_of(&mut self, found: &[u8]) -> Outcome<'a>
        ensures sound { self.new.whole ≡ true → (self.old.whole ≡ true) × IsOutcome result
            × (32 ∷ found.now ++ self.old.rest.now
            ≡ fields_text (outcome_fields result) ++ self.new.rest.now)
            × EndsField self.new.rest.now }
        ensures all { (outcome : Outcome) (after : List ℕ) → self.old.whole ≡ true
            → IsOutcome outcome → EndsField after
            → HasNoBlank found.now → EndsField self.old.rest.now
            → found.now ++ self.old.rest.now ≡
            drop 1 (fields_text (outcome_fields outcome)) ++ after
            → (self.new.whole ≡ true) × SameOutcome result outcome × (self.new.rest.now ≡ after) }
    {
        if are_same(found, b"bad") {
            Outcome::Bad {
                fault: self.number(),
            }
        } else {
            Outcome::Found {
                rule: self.word(),
                population: self.number(),
                finding: self.finding(found),
            }
        }
    }

    // The finding, after rule, population and its word: the fields of each kind.
    fn finding(&mut self, word: &[u8]) -> Finding<'a>
        ensures sound { self.new.whole ≡ true → (self.old.whole ≡ true)
            × (word.now ≡ (said_of result).word) × AreFields (said_of result).fields
            × (self.old.rest.now
            ≡ fields_text (texts_of (said_of result).fields) ++ self.new.rest.now)
            × (EndsField self.old.rest.now → EndsField self.new.rest.now) }
        ensures all { (finding : Finding) (after : List ℕ) → self.old.whole ≡ true
            → AreFields (said_of finding).fields → EndsField after
            → word.now ≡ (said_of finding).word
            → self.old.rest.now ≡ fields_text (texts_of (said_of finding).fields) ++ after
            → (self.new.whole ≡ true) × SameSaid (said_of result) (said_of finding)
            × (self.new.rest.now ≡ after) }
    {
        if are_same(word, b"ok") {
            Finding::Ok {
                onset: self.number(),
                period: self.number(),
                dx: self.signed(),
                dy: self.signed(),
                code: self.word(),
            }
        } else if are_same(word, b"ash") {
            Finding::Ash {
                onset: self.number(),
                objects: self.number(),
            }
        } else if are_same(word, b"none") {
            Finding::Unresolved
        } else if are_same(word, b"large") {
            Finding::Large {
                generation: self.number(),
            }
        } else if are_same(word, b"grows") {
            Finding::Grows {
                engines: self.number(),
            }
        } else {
            self.whole = false;
            Finding::Unresolved
        }
    }

    // The row after the word `engine`.
    fn engine(&mut self) -> Row<'a>
        ensures sound { self.new.whole ≡ true → (self.old.whole ≡ true) × IsRow result
            × (codes "engine" ++ self.old.rest.now ≡ row_text result ++ self.new.rest.now) }
        ensures all { (row : Row) → self.old.whole ≡ true → IsRow row
            → EndsField self.old.rest.now → codes "engine" ++ self.old.rest.now ≡ row_text row
            → (self.new.whole ≡ true) × SameRow result row × (self.new.rest.now ≡ []) }
    {
        Row::Engine {
            collection: self.number(),
            pattern: self.number(),
            number: self.number(),
            period: self.number(),
            dx: self.signed(),
            dy: self.signed(),
            count: self.number(),
        }
    }

    // The row after the word `emits`.
    fn emits(&mut self) -> Row<'a>
        ensures sound { self.new.whole ≡ true → (self.old.whole ≡ true) × IsRow result
            × (codes "emits" ++ self.old.rest.now ≡ row_text result ++ self.new.rest.now) }
        ensures all { (row : Row) → self.old.whole ≡ true → IsRow row
            → EndsField self.old.rest.now → codes "emits" ++ self.old.rest.now ≡ row_text row
            → (self.new.whole ≡ true) × SameRow result row × (self.new.rest.now ≡ []) }
    {
        Row::Emits {
            collection: self.number(),
            pattern: self.number(),
            engine: self.number(),
            code: self.word(),
            count: self.number(),
        }
    }

    // The row after its first word, where it describes a collection.
    fn row_of_collection(&mut self, kind: &[u8]) -> Row<'a>
        ensures sound { self.new.whole ≡ true → (self.old.whole ≡ true) × IsRow result
            × IsTrue (describes_collection result)
            × (kind.now ++ self.old.rest.now ≡ row_text result ++ self.new.rest.now) }
        ensures all { (row : Row) → self.old.whole ≡ true → IsRow row
            → IsTrue (describes_collection row)
            → HasNoBlank kind.now → EndsField self.old.rest.now
            → kind.now ++ self.old.rest.now ≡ row_text row
            → (self.new.whole ≡ true) × SameRow result row × (self.new.rest.now ≡ []) }
    {
        if are_same(kind, b"open") {
            Row::Open {
                collection: self.number(),
                patterns: self.number(),
                name: self.name(),
            }
        } else if are_same(kind, b"code") {
            Row::Code {
                collection: self.number(),
                rule: self.word(),
                code: self.word(),
                count: self.number(),
            }
        } else if are_same(kind, b"close") {
            Row::Close {
                collection: self.number(),
                patterns: self.number(),
                resolved: self.number(),
                unresolved: self.number(),
                refused: self.number(),
            }
        } else {
            self.whole = false;
            Row::End {
                collections: 0,
                patterns: 0,
            }
        }
    }

    // The row after its first word.
    fn row(&mut self, kind: &[u8]) -> Row<'a>
        ensures sound { self.new.whole ≡ true → (self.old.whole ≡ true) × IsRow result
            × (kind.now ++ self.old.rest.now ≡ row_text result ++ self.new.rest.now) }
        ensures all { (row : Row) → self.old.whole ≡ true → IsRow row
            → HasNoBlank kind.now → EndsField self.old.rest.now
            → kind.now ++ self.old.rest.now ≡ row_text row
            → (self.new.whole ≡ true) × SameRow result row × (self.new.rest.now ≡ []) }
    {
        if are_same(kind, b"line") {
            Row::Line {
                collection: self.number(),
                pattern: self.number(),
                outcome: self.outcome(),
                name: self.name(),
            }
        } else if are_same(kind, b"part") {
            Row::Part {
                collection: self.number(),
                pattern: self.number(),
                code: self.word(),
                count: self.number(),
            }
        } else if are_same(kind, b"end") {
            Row::End {
                collections: self.number(),
                patterns: self.number(),
            }
        } else if are_same(kind, b"engine") {
            self.engine()
        } else if are_same(kind, b"emits") {
            self.emits()
        } else {
            self.row_of_collection(kind)
        }
    }
}

/// The row of a line without its LF, or `None` where no row is written like this. Numbers have no leading zeros and fit 64
/// bits, rules and codes have at least one byte and no blank, and a name is the rest of the line, with its blanks.
pub fn read_row(line: &[u8]) -> Option<Row<'_>>
    ensures sound { IfSome result (λ row. IsRow row × (line.now ≡ row_text row)) }
    ensures all { (row : Row) → IsRow row → line.now ≡ row_text row
        → MatchOption result ⊥ (λ found. SameRow found row) }
{
    let (kind, rest) = split_field(line);
    let mut fields = Fields { rest, whole: true };
    let row = fields.row(kind);
    if fields.whole && fields.rest.is_empty() {
        Some(row)
    } else {
        None
    }
}
