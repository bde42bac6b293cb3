//! Writing lines.
ghost use Rattle.std.specs.Prelude.{◌≡◌, ◌∷◌, ◌++◌, [], decimal, if◌then◌else◌};
ghost use Rattle.std.specs.Fmt.{signed_decimal};
ghost use Rattle.watched.specs.Telling.{TellsAfter, sheet};
ghost use Rattle.census_rows.specs.Kinds.{present, said_of, texts_of, value_text};
ghost use Rattle.census_rows.specs.Lines.{describes_collection, describes_growth, fields_text, outcome_fields, row_text};

use crate::fields::{put_field, put_number};
use crate::kinds::{Field, Value};
use crate::row::{Finding, Outcome, Row};
use std::io::Write;
use watched::{Block, Output, put};

// Puts a signed number.
fn put_signed<W: Write>(number: &i64, block: &mut Block, writer: &mut Output<W>)
    ensures { TellsAfter (32 ∷ signed_decimal number.now)
        (sheet block.old writer.old) (sheet block.new writer.new) }
{
    put_number(*number, block, writer);
}

// Puts the value of a field.
fn put_value<W: Write>(value: &Value, block: &mut Block, writer: &mut Output<W>)
    ensures { TellsAfter (32 ∷ value_text value.now)
        (sheet block.old writer.old) (sheet block.new writer.new) }
{
    match value {
        Value::Number(number) => put_number(*number, block, writer),
        Value::Signed(number) => put_signed(number, block, writer),
        Value::Text(bytes) => put_field(*bytes, block, writer),
    }
}

// Puts a field, where there is one.
fn put_optional<W: Write>(field: &Option<Field>, block: &mut Block, writer: &mut Output<W>)
    ensures { TellsAfter (fields_text (texts_of (present (field.now ∷ []))))
        (sheet block.old writer.old) (sheet block.new writer.new) }
{
    match field {
        Some(field) => put_value(&field.value, block, writer),
        None => {}
    }
}

// Puts the fields that are there.
fn put_fields<W: Write>(fields: &[Option<Field>], block: &mut Block, writer: &mut Output<W>)
    ensures { TellsAfter (fields_text (texts_of (present fields.now)))
        (sheet block.old writer.old) (sheet block.new writer.new) }
{
    for field in fields {
        put_optional(field, block, writer);
    }
}

// Puts the fields of a finding: those of most lines at once.
fn put_finding<W: Write>(finding: &Finding, block: &mut Block, writer: &mut Output<W>)
    ensures { TellsAfter (fields_text (texts_of (said_of finding.now).fields))
        (sheet block.old writer.old) (sheet block.new writer.new) }
{
    match finding {
        Finding::Ok {
            onset,
            period,
            dx,
            dy,
            code,
        } => {
            put_number(*onset, block, writer);
            put_number(*period, block, writer);
            put_signed(dx, block, writer);
            put_signed(dy, block, writer);
            put_field(*code, block, writer);
        }
        _ => put_fields(&finding.said().fields, block, writer),
    }
}

// Puts the outcome of a pattern.
fn put_outcome<W: Write>(outcome: &Outcome, block: &mut Block, writer: &mut Output<W>)
    ensures { TellsAfter (fields_text (outcome_fields outcome.now))
        (sheet block.old writer.old) (sheet block.new writer.new) }
{
    put_field(outcome.word(), block, writer);
    match outcome {
        Outcome::Found {
            rule,
            population,
            finding,
        } => {
            put_field(*rule, block, writer);
            put_number(*population, block, writer);
            put_finding(finding, block, writer);
        }
        Outcome::Bad { fault } => put_number(*fault, block, writer),
    }
}

// Puts a line's first word, and its first two numbers.
fn put_start<W: Write>(
    kind: &[u8],
    first: u64,
    second: u64,
    block: &mut Block,
    writer: &mut Output<W>,
)
    ensures { TellsAfter (kind.now ++ fields_text (decimal first ∷ decimal second ∷ []))
        (sheet block.old writer.old) (sheet block.new writer.new) }
{
    put(kind, block, writer);
    put_number(first, block, writer);
    put_number(second, block, writer);
}

// Puts a line about growth, and nothing for another row.
fn put_of_growth<W: Write>(row: &Row, block: &mut Block, writer: &mut Output<W>)
    ensures { TellsAfter (if describes_growth row.now then row_text row.now else [])
        (sheet block.old writer.old) (sheet block.new writer.new) }
{
    match row {
        Row::Engine {
            collection,
            pattern,
            number,
            period,
            dx,
            dy,
            count,
        } => {
            put_start(b"engine", *collection, *pattern, block, writer);
            put_number(*number, block, writer);
            put_number(*period, block, writer);
            put_signed(dx, block, writer);
            put_signed(dy, block, writer);
            put_number(*count, block, writer);
        }
        Row::Emits {
            collection,
            pattern,
            engine,
            code,
            count,
        } => {
            put_start(b"emits", *collection, *pattern, block, writer);
            put_number(*engine, block, writer);
            put_field(*code, block, writer);
            put_number(*count, block, writer);
        }
        _ => {}
    }
}

// Puts a line that describes a collection, and nothing for another row.
fn put_of_collection<W: Write>(row: &Row, block: &mut Block, writer: &mut Output<W>)
    ensures { TellsAfter (if describes_collection row.now then row_text row.now else [])
        (sheet block.old writer.old) (sheet block.new writer.new) }
{
    match row {
        Row::Open {
            collection,
            patterns,
            name,
        } => {
            put_start(b"open", *collection, *patterns, block, writer);
            put_field(*name, block, writer);
        }
        Row::Code {
            collection,
            rule,
            code,
            count,
        } => {
            put(b"code", block, writer);
            put_number(*collection, block, writer);
            put_field(*rule, block, writer);
            put_field(*code, block, writer);
            put_number(*count, block, writer);
        }
        Row::Close {
            collection,
            patterns,
            resolved,
            unresolved,
            refused,
        } => {
            put_start(b"close", *collection, *patterns, block, writer);
            put_number(*resolved, block, writer);
            put_number(*unresolved, block, writer);
            put_number(*refused, block, writer);
        }
        _ => {}
    }
}

/// Puts a line, without its LF. It allocates no memory except for the block.
pub fn put_row<W: Write>(row: &Row, block: &mut Block, writer: &mut Output<W>)
    ensures { TellsAfter (row_text row.now)
        (sheet block.old writer.old) (sheet block.new writer.new) }
{
    match row {
        Row::Line {
            collection,
            pattern,
            outcome,
            name,
        } => {
            put_start(b"line", *collection, *pattern, block, writer);
            put_outcome(outcome, block, writer);
            put_field(*name, block, writer);
        }
        Row::Part {
            collection,
            pattern,
            code,
            count,
        } => {
            put_start(b"part", *collection, *pattern, block, writer);
            put_field(*code, block, writer);
            put_number(*count, block, writer);
        }
        Row::End {
            collections,
            patterns,
        } => put_start(b"end", *collections, *patterns, block, writer),
        Row::Engine { .. } => put_of_growth(row, block, writer),
        Row::Emits { .. } => put_of_growth(row, block, writer),
        _ => put_of_collection(row, block, writer),
    }
}
