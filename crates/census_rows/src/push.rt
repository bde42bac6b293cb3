//! Fields appended to a text.
ghost use Rattle.std.specs.Prelude.{◌≡◌, ◌<◌, ◌+◌, ◌++◌, [], ◌∷◌, OnOk, decimal};
ghost use Rattle.std.specs.Fmt.{signed_decimal};
ghost use Rattle.census_rows.specs.Kinds.{present, said_of, texts_of, value_text};
ghost use Rattle.census_rows.specs.Lines.{fields_text};

use crate::kinds::{Field, Value};
use crate::row::Finding;
use itoa::{Buffer, Integer};
use std::alloc::AllocError;

/// Appends a blank and these bytes.
#[inline(always)]
pub fn push_field(text: &mut Vec<u8>, field: &[u8]) -> Result<(), AllocError>
    ensures { OnOk result (text.new.items ≡ text.old.items ++ 32 ∷ field.now) }
{
    text.push(b' ')?;
    text.extend_from_slice(field)?;
    Ok(())
}

// Appends a blank and a number.
fn push_number<I: Integer>(text: &mut Vec<u8>, number: I) -> Result<(), AllocError>
    ensures { OnOk result (text.new.items ≡ text.old.items ++ 32 ∷ I.text number) }
{
    let mut buffer = Buffer::new();
    push_field(text, buffer.format(number).as_bytes())
}

// Appends a blank and a digit.
#[inline(always)]
fn push_digit(text: &mut Vec<u8>, digit: u8) -> Result<(), AllocError>
    requires { digit < 10 }
    ensures { OnOk result (text.new.items ≡ text.old.items ++ 32 ∷ decimal digit) }
{
    text.extend_from_slice(&[b' ', b'0' + digit])?;
    Ok(())
}

/// Appends a blank and a number, which often has one digit.
#[inline(always)]
pub fn push_count(text: &mut Vec<u8>, count: u64) -> Result<(), AllocError>
    ensures { OnOk result (text.new.items ≡ text.old.items ++ 32 ∷ decimal count) }
{
    if count < 10 {
        return push_digit(text, count as u8);
    }
    push_number(text, count)
}

// Appends a blank and a number with its sign, which often has one digit.
#[inline(always)]
fn push_signed(text: &mut Vec<u8>, number: i64) -> Result<(), AllocError>
    ensures { OnOk result (text.new.items ≡ text.old.items ++ 32 ∷ signed_decimal number) }
{
    if 0 <= number && number < 10 {
        return push_digit(text, number as u8);
    }
    push_number(text, number)
}

// Appends a blank and a value.
#[inline(always)]
fn push_value(text: &mut Vec<u8>, value: &Value) -> Result<(), AllocError>
    ensures { OnOk result (text.new.items ≡ text.old.items ++ 32 ∷ value_text value.now) }
{
    match value {
        Value::Number(number) => push_count(text, *number),
        Value::Signed(number) => push_signed(text, *number),
        Value::Text(bytes) => push_field(text, *bytes),
    }
}

// Appends the fields that are there.
#[inline(always)]
fn push_fields(text: &mut Vec<u8>, fields: &[Option<Field>]) -> Result<(), AllocError>
    ensures { OnOk result
        (text.new.items ≡ text.old.items ++ fields_text (texts_of (present fields.now))) }
{
    for field in fields {
        if let Some(field) = field {
            push_value(text, &field.value)?;
        }
    }
    Ok(())
}

/// Appends the fields of a finding, after rule and population: a blank before each field. It is inlined, so that the fields
/// needn't be collected first.
#[inline(always)]
pub fn push_finding(text: &mut Vec<u8>, finding: &Finding) -> Result<(), AllocError>
    ensures { OnOk result
        (text.new.items ≡
        text.old.items ++ fields_text (texts_of (said_of finding.now).fields)) }
{
    push_fields(text, &finding.said().fields)
}
