//! A page of rows, held in little memory.
ghost use Rattle.std.specs.Prelude.{◌≡◌, ◌<◌, ◌≤◌, ◌^◌, ◌++◌, ◌∷◌, [], drop, length, slice_index_or, MatchResult, OnOk, OnErr};
ghost use Rattle.census_rows.specs.declared.row.Outcome.TheVariants.{Found};
ghost use Rattle.census_rows.specs.declared.row.Row.{Row};
ghost use Rattle.census_rows.specs.declared.row.Row.TheVariants.{Line};
ghost use Rattle.census_rows.specs.Store.Numbers.{Grown};
ghost use Rattle.census_rows.specs.Store.Packed.{pack, packed};
ghost use Rattle.census_rows.specs.Store.Kept.{row_bytes, row_from};

use crate::folding::folded;
use crate::row::{Finding, Outcome, Row};
use crate::store::numbers::{number_in, push_number, push_numbers};
use crate::store::reading::Reader;
use crate::store::tags;
use std::alloc::{AllocError, Global};
use std::marker::Model;

// Rows, each of which is held as its kind, its numbers in as few bytes as they need, and references to its texts. A row takes 2
// bytes for its place, one for its kind, 1 to 5 for the place of its texts, 16 for each text, and for each number at most as
// many as it has digits.
#[derive(Drop)]
pub struct Page<'a> {
    // The kind of each row, the place of its first text, and its numbers.
    bytes: Vec<u8>,
    texts: Vec<&'a [u8]>,
    // The place in `bytes` where each row begins. A page has far fewer than 65,536 bytes.
    places: Vec<u16>,
    // A placeholder for a missing text; none is missing.
    nothing: &'a [u8],
}

impl<'a> Model for Page<'a> {
    ghost use Rattle.std.specs.Prelude.{List, map};
    ghost use Rattle.census_rows.specs.declared.row.Row.{Row};

    ghost Value = { List Row };

    ghost use Rattle.census_rows.specs.Store.Kept.{AreSettled, row_at};

    ghost view = { λ s. map (row_at s.nothing s.bytes.items s.texts.items) s.places.items };

    ghost invariant = { λ s. AreSettled s.nothing s.bytes.items s.texts.items s.places.items };
}

// The bytes from this place on.
fn bytes_from(bytes: &[u8], place: usize) -> &[u8]
    requires { place ≤ length bytes.now }
    ensures { result.now ≡ drop place bytes.now }
{
    let (_, rest) = bytes.split_at(place);
    rest
}

// The texts from this place on.
fn texts_from<'b, 'a>(texts: &'b [&'a [u8]], first: u64) -> &'b [&'a [u8]]
    ensures { result.now ≡ drop first texts.now }
{
    if first < texts.len() as u64 {
        &texts[first as usize..]
    } else {
        &[]
    }
}

// The row at the start of bytes.
fn row_from<'a>(nothing: &'a [u8], bytes: &[u8], texts: &[&'a [u8]]) -> Row<'a>
    ensures { result ≡ row_from nothing.entry bytes.now texts.now }
{
    match bytes {
        [tag, rest @ ..] => {
            let (first, numbers) = number_in(rest);
            let mut reader = Reader {
                bytes: numbers,
                texts: texts_from(texts, first),
                nothing,
            };
            reader.row(*tag)
        }
        [] => Row::End {
            collections: 0,
            patterns: 0,
        },
    }
}

// Appends the bytes of a row, whose first text is at this place. On `Err` some of them may have been appended.
fn push_row(bytes: &mut Vec<u8>, tag: u8, first: u64, numbers: &[u64]) -> Result<(), AllocError>
    ensures grown { Grown bytes.old.items bytes.new.items }
    ensures all { OnOk result
        (bytes.new.items ≡ bytes.old.items ++ row_bytes tag first numbers.now) }
{
    bytes.push(tag)?;
    push_number(bytes, first)?;
    push_numbers(bytes, numbers)
}

impl<'a> Page<'a> {
    // No rows.
    pub fn new(alloc: Global) -> Self
        ensures { result ≡ [] }
    {
        Page {
            bytes: Vec::new(alloc),
            texts: Vec::new(alloc),
            places: Vec::new(alloc),
            nothing: &[],
        }
    }

    // The number of rows.
    pub fn len(&self) -> usize
        ensures value { result ≡ length self.now }
        ensures small { result < 2 ^ 62 }
    {
        self.places.as_slice().len()
    }

    // The row at this index.
    pub fn row(&self, index: usize) -> Row<'a>
        requires { index < length self.now }
        ensures { result ≡ slice_index_or self.now index result }
    {
        let place = self.places[index] as usize;
        let bytes = bytes_from(self.bytes.as_slice(), place);
        row_from(self.nothing, bytes, self.texts.as_slice())
    }

    // Releases the memory that it doesn't need.
    pub fn shrink(&mut self)
        ensures { self.new ≡ self.old }
    {
        self.bytes.shrink_to_fit();
        self.texts.shrink_to_fit();
        self.places.shrink_to_fit();
    }

    // Appends the row of this kind with these numbers and texts.
    fn put(&mut self, tag: u8, numbers: &[u64], texts: &[&'a [u8]]) -> Result<(), AllocError>
        requires { (row : Row) × (packed row ≡ pack tag numbers.now texts.now) }
        ensures ok { OnOk result ((row : Row) → packed row ≡ pack tag numbers.now texts.now
            → self.new ≡ self.old ++ row ∷ []) }
        ensures err { OnErr result (self.new ≡ self.old) }
    {
        let Ok(place) = u16::try_from(self.bytes.len()) else {
            return Err(AllocError);
        };
        push_row(&mut self.bytes, tag, self.texts.len() as u64, numbers)?;
        self.texts.extend_from_slice(texts)?;
        self.places.push(place)?;
        Ok(())
    }

    // Appends the row of a pattern with this finding.
    fn push_found(
        &mut self,
        collection: u64,
        pattern: u64,
        rule: &'a [u8],
        population: u64,
        finding: &Finding<'a>,
        name: &'a [u8],
    ) -> Result<(), AllocError>
        ensures { MatchResult result
            (λ _. self.new ≡ self.old
            ++ Line collection pattern (Found rule.entry population finding.now) name.entry ∷ [])
            (λ _. self.new ≡ self.old) }
    {
        let values = finding.values();
        let [first, second, third, fourth] = values.numbers;
        let numbers = [
            collection, pattern, population, first, second, third, fourth,
        ];
        let numbers = &numbers[..3 + values.count as usize];
        match values.word {
            Some(word) => self.put(finding.kind(), numbers, &[rule, name, word]),
            None => self.put(finding.kind(), numbers, &[rule, name]),
        }
    }

    // Appends the row of a pattern.
    fn push_line(
        &mut self,
        collection: u64,
        pattern: u64,
        outcome: &Outcome<'a>,
        name: &'a [u8],
    ) -> Result<(), AllocError>
        ensures { MatchResult result
            (λ _. self.new ≡ self.old ++ Line collection pattern outcome.now name.entry ∷ [])
            (λ _. self.new ≡ self.old) }
    {
        match outcome {
            Outcome::Found {
                rule,
                population,
                finding,
            } => self.push_found(collection, pattern, *rule, *population, finding, name),
            Outcome::Bad { fault } => self.put(tags::BAD, &[collection, pattern, *fault], &[name]),
        }
    }

    // Appends a row. The only error is out of memory, which leaves the rows unchanged.
    pub fn push(&mut self, row: &Row<'a>) -> Result<(), AllocError>
        ensures { MatchResult result (λ _. self.new ≡ self.old ++ row.now ∷ [])
            (λ _. self.new ≡ self.old) }
    {
        match row {
            Row::Open {
                collection,
                patterns,
                name,
            } => self.put(tags::OPEN, &[*collection, *patterns], &[*name]),
            Row::Line {
                collection,
                pattern,
                outcome,
                name,
            } => self.push_line(*collection, *pattern, outcome, *name),
            Row::Part {
                collection,
                pattern,
                code,
                count,
            } => self.put(tags::PART, &[*collection, *pattern, *count], &[*code]),
            Row::Engine {
                collection,
                pattern,
                number,
                period,
                dx,
                dy,
                count,
            } => self.put(
                tags::ENGINE,
                &[
                    *collection,
                    *pattern,
                    *number,
                    *period,
                    folded(*dx),
                    folded(*dy),
                    *count,
                ],
                &[],
            ),
            Row::Emits {
                collection,
                pattern,
                engine,
                code,
                count,
            } => self.put(
                tags::EMITS,
                &[*collection, *pattern, *engine, *count],
                &[*code],
            ),
            Row::Code {
                collection,
                rule,
                code,
                count,
            } => self.put(tags::CODE, &[*collection, *count], &[*rule, *code]),
            Row::Close {
                collection,
                patterns,
                resolved,
                unresolved,
                refused,
            } => self.put(
                tags::CLOSE,
                &[*collection, *patterns, *resolved, *unresolved, *refused],
                &[],
            ),
            Row::End {
                collections,
                patterns,
            } => self.put(tags::END, &[*collections, *patterns], &[]),
        }
    }
}
