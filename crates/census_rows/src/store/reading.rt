//! Reading rows from bytes and texts.
ghost use Rattle.std.specs.Prelude.{◌≡◌};
ghost use Rattle.census_rows.specs.Store.Numbers.{number_in};
ghost use Rattle.census_rows.specs.Store.Packed.{first_text, other_texts, number_at, finding_of, line_of, open_of, part_of, engine_of, emits_of, code_of, close_of, end_of, row_of};

use crate::folding::unfolded;
use crate::row::{Finding, Outcome, Row};
use crate::store::numbers::number_in;
use crate::store::tags;
use crate::values::ValueReader;

// The rest of a row's numbers and texts, and a placeholder for a missing text.
#[derive(Drop)]
pub struct Reader<'b, 'a> {
    pub bytes: &'b [u8],
    pub texts: &'b [&'a [u8]],
    pub nothing: &'a [u8],
}

impl<'b, 'a> ValueReader<'a> for Reader<'b, 'a> {
    ghost use Rattle.census_rows.specs.Store.Packed.{number_at, first_text};

    ghost number_at = { λ s place. number_at place s.bytes.now };

    ghost first_word = { λ s. first_text s.nothing s.texts.now };

    fn next_number(&mut self) -> u64 {
        self.number()
    }

    fn next_word(&mut self) -> &'a [u8] {
        self.text()
    }
}

impl<'b, 'a> Reader<'b, 'a> {
    fn number(&mut self) -> u64
        ensures number { result ≡ number_at 0 self.old.bytes.now }
        ensures bytes { self.new.bytes.now ≡ (number_in self.old.bytes.now).1 }
        ensures texts { self.new.texts ≡ self.old.texts }
        ensures nothing { self.new.nothing ≡ self.old.nothing }
    {
        let (number, rest) = number_in(self.bytes);
        self.bytes = rest;
        number
    }

    fn text(&mut self) -> &'a [u8]
        ensures text { result ≡ first_text self.old.nothing self.old.texts.now }
        ensures texts { self.new.texts.now ≡ other_texts self.old.texts.now }
        ensures bytes { self.new.bytes ≡ self.old.bytes }
        ensures nothing { self.new.nothing ≡ self.old.nothing }
    {
        match self.texts {
            [text, rest @ ..] => {
                self.texts = rest;
                *text
            }
            [] => self.nothing,
        }
    }

    fn open(&mut self) -> Row<'a>
        ensures { result ≡ open_of self.old.nothing self.old.bytes.now self.old.texts.now }
    {
        Row::Open {
            collection: self.number(),
            patterns: self.number(),
            name: self.text(),
        }
    }

    fn part(&mut self) -> Row<'a>
        ensures { result ≡ part_of self.old.nothing self.old.bytes.now self.old.texts.now }
    {
        Row::Part {
            collection: self.number(),
            pattern: self.number(),
            code: self.text(),
            count: self.number(),
        }
    }

    fn engine(&mut self) -> Row<'a>
        ensures { result ≡ engine_of self.old.nothing self.old.bytes.now self.old.texts.now }
    {
        Row::Engine {
            collection: self.number(),
            pattern: self.number(),
            number: self.number(),
            period: self.number(),
            dx: unfolded(self.number()),
            dy: unfolded(self.number()),
            count: self.number(),
        }
    }

    fn emits(&mut self) -> Row<'a>
        ensures { result ≡ emits_of self.old.nothing self.old.bytes.now self.old.texts.now }
    {
        Row::Emits {
            collection: self.number(),
            pattern: self.number(),
            engine: self.number(),
            code: self.text(),
            count: self.number(),
        }
    }

    fn code(&mut self) -> Row<'a>
        ensures { result ≡ code_of self.old.nothing self.old.bytes.now self.old.texts.now }
    {
        Row::Code {
            collection: self.number(),
            rule: self.text(),
            code: self.text(),
            count: self.number(),
        }
    }

    fn close(&mut self) -> Row<'a>
        ensures { result ≡ close_of self.old.nothing self.old.bytes.now self.old.texts.now }
    {
        Row::Close {
            collection: self.number(),
            patterns: self.number(),
            resolved: self.number(),
            unresolved: self.number(),
            refused: self.number(),
        }
    }

    fn end(&mut self) -> Row<'a>
        ensures { result ≡ end_of self.old.nothing self.old.bytes.now self.old.texts.now }
    {
        Row::End {
            collections: self.number(),
            patterns: self.number(),
        }
    }

    // The finding about a pattern.
    fn finding(&mut self, kind: u8) -> Finding<'a>
        ensures { result ≡ finding_of self.old.nothing kind self.old.bytes.now self.old.texts.now }
    {
        Finding::of_kind(kind, self)
    }

    fn line(&mut self, tag: u8) -> Row<'a>
        ensures { result ≡ line_of self.old.nothing tag self.old.bytes.now self.old.texts.now }
    {
        let collection = self.number();
        let pattern = self.number();
        if tag == tags::BAD {
            return Row::Line {
                collection,
                pattern,
                outcome: Outcome::Bad {
                    fault: self.number(),
                },
                name: self.text(),
            };
        }
        let population = self.number();
        let rule = self.text();
        let name = self.text();
        Row::Line {
            collection,
            pattern,
            outcome: Outcome::Found {
                rule,
                population,
                finding: self.finding(tag),
            },
            name,
        }
    }

    // The row of a kind.
    pub fn row(&mut self, tag: u8) -> Row<'a>
        ensures { result ≡ row_of self.old.nothing tag self.old.bytes.now self.old.texts.now }
    {
        if tag == tags::OPEN {
            self.open()
        } else if tag == tags::PART {
            self.part()
        } else if tag == tags::ENGINE {
            self.engine()
        } else if tag == tags::EMITS {
            self.emits()
        } else if tag == tags::CODE {
            self.code()
        } else if tag == tags::CLOSE {
            self.close()
        } else if tag == tags::END {
            self.end()
        } else {
            self.line(tag)
        }
    }
}
