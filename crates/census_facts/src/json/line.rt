//! JSON on a line of its own.
ghost use Rattle.std.specs.Prelude.{◌≡◌, ◌++◌, false, IfOk, OnOk};
ghost use Rattle.serde_json.specs.View.{view};
ghost use Rattle.serde_json.specs.Written.{compact_text, has_float};
ghost use Rattle.census_facts.specs.Json.Lines.{data_line, with_line_ends_escaped};

use bstr::ByteSlice;
use serde_json::Value;
use std::alloc::{AllocError, Global};

// JSON in which no byte or character but LF ends a line, for programs that know other line ends.
fn with_line_ends_escaped(alloc: Global, json: &[u8]) -> Result<Vec<u8>, AllocError>
    ensures { IfOk result (λ escaped. escaped.items ≡ with_line_ends_escaped json.now) }
{
    let json = json.replace(alloc, b"\xc2\x85", b"\\u0085")?;
    let json = json.as_slice().replace(alloc, b"\xe2\x80\xa8", b"\\u2028")?;
    json.as_slice().replace(alloc, b"\xe2\x80\xa9", b"\\u2029")
}

/// The JSON of a value, on one line and without blanks, as `serde_json` writes it, with U+0085, U+2028 and U+2029 as escapes. The
/// only error is out of memory.
pub fn json_of(alloc: Global, value: &Value) -> Result<Vec<u8>, AllocError>
    requires { has_float (view value.now) ≡ false }
    ensures { IfOk result
        (λ json. json.items ≡ with_line_ends_escaped (compact_text (view value.now))) }
{
    let json = value.to_vec(alloc)?;
    with_line_ends_escaped(alloc, json.as_slice())
}

// Adds the JSON of a value on a line of its own, which ends with LF.
pub fn push_value(alloc: Global, text: &mut Vec<u8>, value: &Value) -> Result<(), AllocError>
    requires { has_float (view value.now) ≡ false }
    ensures { OnOk result (text.new.items ≡ text.old.items ++ data_line (view value.now)) }
{
    let json = json_of(alloc, value)?;
    text.extend_from_slice(json.as_slice())?;
    text.push(b'\n')?;
    Ok(())
}
