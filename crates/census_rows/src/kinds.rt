//! The content of `line` lines, for each kind of outcome.
ghost use Rattle.std.specs.Prelude.{◌≡◌, ◌≤◌, ◌∷◌, [], Some, take};
ghost use Rattle.census_rows.specs.Kinds.{number, signed, text, said_of, said, value_at, present, label_number, finding_of_kind, kind_of};
ghost use Rattle.census_rows.specs.Values.{list_of, numbers_of, words_of};

use crate::folding::unfolded;
use crate::row::{Finding, Outcome};
use crate::values::{ValueReader, Values};

/// The class in which a pattern is counted in the line that closes its collection.
#[derive(Clone, Copy, Debug, PartialEq, Eq)]
pub enum Class {
    /// It recurs, has fallen apart or grows forever.
    Resolved,
    /// It does none of these within the bound, or has too many cells.
    Unresolved,
    /// It is lost, or its text has a fault.
    Refused,
}

/// The lines that follow a `line` line.
#[derive(Clone, Copy, Debug, PartialEq, Eq)]
pub enum Behind {
    /// None.
    Nothing,
    /// `part` lines.
    Parts,
    /// `engine` lines, each followed by its `emits` lines.
    Engines,
}

/// The meaning of a field, and so the column of a table that it is in, if it is in any.
#[derive(Clone, Copy)]
pub enum Label {
    /// Its rule.
    Rule,
    /// The number of its live cells.
    Population,
    /// The first generation of its cycle, or the first that is ash.
    Onset,
    /// The length of its cycle.
    Period,
    /// The distance that it moves to the right in a period.
    Dx,
    /// The distance that it moves down in a period.
    Dy,
    /// Its code.
    Code,
    /// The number of objects that are left.
    Objects,
    /// The first generation that has too many cells.
    Generation,
    /// The number of its text's fault.
    Fault,
    /// The number of its engines.
    Engines,
}

/// The value of a field.
#[derive(Clone, Copy)]
pub enum Value<'a> {
    /// A number.
    Number(u64),
    /// A number that may be negative.
    Signed(i64),
    /// A rule or a code.
    Text(&'a [u8]),
}

/// A field of a `line` line, after its word.
#[derive(Clone, Copy)]
pub struct Field<'a> {
    pub label: Label,
    pub value: Value<'a>,
}

// The numbers of the kinds of findings.
const OK: u8 = 1;

const ASH: u8 = 2;

const UNRESOLVED: u8 = 3;

const LARGE: u8 = 4;

const GROWS: u8 = 5;

/// The number of kinds of findings: they are numbered from 1 to this.
pub const KINDS: u8 = 5;

/// The content of a `line` line: the number of its kind, its word, the fields after rule and population, its class, and the
/// kind of the lines that follow it.
#[derive(Clone, Copy)]
pub struct Said<'a> {
    pub kind: u8,
    pub word: &'static [u8],
    pub fields: [Option<Field<'a>>; 5],
    pub class: Class,
    pub behind: Behind,
}

#[inline(always)]
fn number<'a>(label: Label, value: u64) -> Option<Field<'a>>
    ensures { result ≡ Some (number label value) }
{
    Some(Field {
        label,
        value: Value::Number(value),
    })
}

#[inline(always)]
fn signed<'a>(label: Label, value: i64) -> Option<Field<'a>>
    ensures { result ≡ Some (signed label value) }
{
    Some(Field {
        label,
        value: Value::Signed(value),
    })
}

#[inline(always)]
fn text(label: Label, bytes: &[u8]) -> Option<Field>
    ensures { result ≡ Some (text label bytes.entry) }
{
    Some(Field {
        label,
        value: Value::Text(bytes),
    })
}

impl<'a> Finding<'a> {
    // The content of its line. (It is inlined, so that where only one part is used the others aren't made.)
    #[inline(always)]
    pub(crate) fn said(&self) -> Said<'a>
        ensures kind { result.kind ≡ kind_of self.now }
        ensures word { result.word.now ≡ (said_of self.now).word }
        ensures fields { present result.fields ≡ (said_of self.now).fields }
        ensures class { result.class ≡ (said_of self.now).class }
        ensures behind { result.behind ≡ (said_of self.now).behind }
    {
        match self {
            Finding::Ok {
                onset,
                period,
                dx,
                dy,
                code,
            } => Said {
                kind: OK,
                word: b"ok",
                fields: [
                    number(Label::Onset, *onset),
                    number(Label::Period, *period),
                    signed(Label::Dx, *dx),
                    signed(Label::Dy, *dy),
                    text(Label::Code, *code),
                ],
                class: Class::Resolved,
                behind: Behind::Nothing,
            },
            Finding::Ash { onset, objects } => Said {
                kind: ASH,
                word: b"ash",
                fields: [
                    number(Label::Onset, *onset),
                    number(Label::Objects, *objects),
                    None,
                    None,
                    None,
                ],
                class: Class::Resolved,
                behind: Behind::Parts,
            },
            Finding::Unresolved => Said {
                kind: UNRESOLVED,
                word: b"none",
                fields: [None, None, None, None, None],
                class: Class::Unresolved,
                behind: Behind::Nothing,
            },
            Finding::Large { generation } => Said {
                kind: LARGE,
                word: b"large",
                fields: [
                    number(Label::Generation, *generation),
                    None,
                    None,
                    None,
                    None,
                ],
                class: Class::Unresolved,
                behind: Behind::Nothing,
            },
            Finding::Grows { engines } => Said {
                kind: GROWS,
                word: b"grows",
                fields: [number(Label::Engines, *engines), None, None, None, None],
                class: Class::Resolved,
                behind: Behind::Engines,
            },
        }
    }
}

impl<'a> Finding<'a> {
    /// The word for its kind.
    #[inline(always)]
    pub fn word(&self) -> &'static [u8]
        ensures { result.now ≡ (said_of self.now).word }
    {
        self.said().word
    }

    /// The class in which it is counted.
    #[inline(always)]
    pub fn class(&self) -> Class
        ensures { result ≡ (said_of self.now).class }
    {
        self.said().class
    }

    /// The number of its kind.
    #[inline(always)]
    pub fn kind(&self) -> u8
        ensures { result ≡ kind_of self.now }
    {
        self.said().kind
    }

    /// The values of its fields.
    #[inline(always)]
    pub fn values(&self) -> Values<'a>
        ensures count { result.count ≤ 4 }
        ensures numbers { take result.count result.numbers
            ≡ numbers_of (said_of self.now).fields }
        ensures word { list_of result.word ≡ words_of (said_of self.now).fields }
    {
        Values::of(&self.said().fields)
    }

    /// The finding of the kind with this number, whose numbers and word are read from `values`.
    #[inline(always)]
    pub fn of_kind<R: ValueReader<'a>>(kind: u8, values: &mut R) -> Finding<'a>
        ensures { result ≡ finding_of_kind kind (R.number_at values.old) (R.first_word values.old) }
    {
        if kind == OK {
            Finding::Ok {
                onset: values.next_number(),
                period: values.next_number(),
                dx: unfolded(values.next_number()),
                dy: unfolded(values.next_number()),
                code: values.next_word(),
            }
        } else if kind == ASH {
            Finding::Ash {
                onset: values.next_number(),
                objects: values.next_number(),
            }
        } else if kind == LARGE {
            Finding::Large {
                generation: values.next_number(),
            }
        } else if kind == GROWS {
            Finding::Grows {
                engines: values.next_number(),
            }
        } else {
            Finding::Unresolved
        }
    }
}

impl Label {
    // The number of labels that are declared before it.
    fn number(self) -> u8
        ensures { result ≡ label_number self }
    {
        self as u8
    }
}

// The value of a field, where there is one with this label.
fn value_if<'a>(field: &Option<Field<'a>>, label: Label) -> Option<Value<'a>>
    ensures { result ≡ value_at label (present (field.now ∷ [])) }
{
    match field {
        Some(field) if field.label.number() == label.number() => Some(field.value),
        _ => None,
    }
}

// The value of the field with a label, where there is one.
fn value_in<'a>(fields: &[Option<Field<'a>>], label: Label) -> Option<Value<'a>>
    ensures { result ≡ value_at label (present fields.now) }
{
    for field in fields {
        if let Some(value) = value_if(field, label) {
            return Some(value);
        }
    }
    None
}

impl<'a> Outcome<'a> {
    /// The word for its kind.
    pub fn word(&self) -> &'static [u8]
        ensures { result.now ≡ (said self.now).word }
    {
        match self {
            Outcome::Found { finding, .. } => finding.word(),
            Outcome::Bad { .. } => b"bad",
        }
    }

    /// The value of the field with a label, where there is one.
    pub fn value(&self, label: Label) -> Option<Value<'a>>
        ensures { result ≡ value_at label (said self.now).fields }
    {
        match self {
            Outcome::Found {
                rule,
                population,
                finding,
            } => match label {
                Label::Rule => Some(Value::Text(*rule)),
                Label::Population => Some(Value::Number(*population)),
                _ => value_in(&finding.said().fields, label),
            },
            Outcome::Bad { fault } => match label {
                Label::Fault => Some(Value::Number(*fault)),
                _ => None,
            },
        }
    }

    /// The class in which it is counted.
    pub fn class(&self) -> Class
        ensures { result ≡ (said self.now).class }
    {
        match self {
            Outcome::Found { finding, .. } => finding.class(),
            Outcome::Bad { .. } => Class::Refused,
        }
    }

    /// The lines that follow it.
    pub fn behind(&self) -> Behind
        ensures { result ≡ (said self.now).behind }
    {
        match self {
            Outcome::Found { finding, .. } => finding.said().behind,
            Outcome::Bad { .. } => Behind::Nothing,
        }
    }
}
