//! The values of a finding's fields, without their labels.
ghost use Rattle.std.specs.Prelude.{◌≡◌, ◌≤◌, ◌<◌, ◌+◌, ◌++◌, ◌∷◌, [], ℕ, suc, length, take};
ghost use Rattle.census_rows.specs.Kinds.{present};
ghost use Rattle.census_rows.specs.Values.{list_of, numbers_of, words_of};

use crate::folding::folded;
use crate::kinds::{Field, Value};

/// Numbers and words that are read one after the other.
pub trait ValueReader<'a> {
    ghost use Rattle.std.specs.Prelude.{ℕ, List};
    ghost use Rattle.std.specs.Borrow.{Bor};

    // The number at an index among those that aren't read yet.
    ghost number_at: { Self → ℕ → ℕ };

    // The first of the words that aren't read yet.
    ghost first_word: { Self → Bor (List ℕ) };

    /// Reads a number.
    fn next_number(&mut self) -> u64
        ensures number { result ≡ number_at self.old 0 }
        ensures others { (place : ℕ) → number_at self.new place ≡ number_at self.old (suc place) }
        ensures words { first_word self.new ≡ first_word self.old };

    /// Reads a word.
    fn next_word(&mut self) -> &'a [u8]
        ensures { result ≡ first_word self.old };
}

/// The values of fields: numbers, of which those with a sign are folded, and a word, which is a rule or a code.
#[derive(Clone, Copy)]
pub struct Values<'a> {
    /// The numbers; the elements after them have no meaning.
    pub numbers: [u64; 4],
    /// The number of `numbers`.
    pub count: u8,
    /// The word, where there is one.
    pub word: Option<&'a [u8]>,
}

impl<'a> Values<'a> {
    // Adds one more number.
    #[inline(always)]
    fn push(&mut self, number: u64)
        requires { self.old.count < 4 }
        ensures count { self.new.count ≡ self.old.count + 1 }
        ensures numbers { take self.new.count self.new.numbers
            ≡ take self.old.count self.old.numbers ++ number ∷ [] }
        ensures word { self.new.word ≡ self.old.word }
    {
        self.numbers[self.count as usize] = number;
        self.count += 1;
    }

    // Adds the value of one more field, where there is one.
    #[inline(always)]
    fn add(&mut self, field: &Option<Field<'a>>)
        requires room { self.old.count
            + length (numbers_of (present (field.now ∷ []))) ≤ 4 }
        requires alone { length (list_of self.old.word)
            + length (words_of (present (field.now ∷ []))) ≤ 1 }
        ensures count { self.new.count
            ≡ self.old.count + length (numbers_of (present (field.now ∷ []))) }
        ensures numbers { take self.new.count self.new.numbers
            ≡ take self.old.count self.old.numbers ++ numbers_of (present (field.now ∷ [])) }
        ensures word { list_of self.new.word
            ≡ list_of self.old.word ++ words_of (present (field.now ∷ [])) }
    {
        match field {
            Some(field) => match field.value {
                Value::Number(number) => self.push(number),
                Value::Signed(number) => self.push(folded(number)),
                Value::Text(word) => self.word = Some(word),
            },
            None => {}
        }
    }

    // The values of these fields: at most four numbers and one word.
    #[inline(always)]
    pub(crate) fn of(fields: &[Option<Field<'a>>; 5]) -> Values<'a>
        requires few { length (numbers_of (present fields.now)) ≤ 4 }
        requires alone { length (words_of (present fields.now)) ≤ 1 }
        ensures count { result.count ≤ 4 }
        ensures numbers { take result.count result.numbers ≡ numbers_of (present fields.now) }
        ensures word { list_of result.word ≡ words_of (present fields.now) }
    {
        let mut values = Values {
            numbers: [0; 4],
            count: 0,
            word: None,
        };
        for field in fields {
            values.add(field);
        }
        values
    }
}
