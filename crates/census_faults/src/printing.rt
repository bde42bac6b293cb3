//! Names as they are shown.
ghost use Rattle.std.specs.Prelude.{◌≡◌, ◌++◌, IfOk, OnOk};
ghost use Rattle.census_bundle.specs.Names.{is_name_byte};
ghost use Rattle.census_faults.specs.Printed.{ShowsNameBytes, ShowsNames, printable_text, printed_byte};

use std::alloc::{AllocError, Global};

/// True where a byte may be in a lawful name: it is neither below 32 nor 127.
pub fn is_name_byte(byte: u8) -> bool
    ensures { result ≡ is_name_byte byte }
{
    byte >= 32 && byte != 127
}

// Appends a byte, or `\x` and its two digits.
fn push_byte(text: &mut Vec<u8>, byte: u8) -> Result<(), AllocError>
    ensures { OnOk result (text.new.items ≡ text.old.items ++ printed_byte byte) }
{
    if is_name_byte(byte) {
        text.extend_from_slice(&[byte])?;
    } else {
        let digits = hex::encode(*text.allocator(), [byte])?;
        text.extend_from_slice(b"\\x")?;
        text.extend_from_slice(digits.as_bytes())?;
    }
    Ok(())
}

// Appends bytes as they are shown.
fn push_printed(text: &mut Vec<u8>, bytes: &[u8]) -> Result<(), AllocError>
    ensures { OnOk result (text.new.items ≡ text.old.items ++ printable_text bytes.now) }
{
    for byte in bytes {
        push_byte(text, *byte)?;
    }
    Ok(())
}

/// Bytes as they are shown: each byte that no lawful name has, which is below 32 or 127, as `\x` and two digits from
/// `0` to `f`, and every other byte as it is.
pub fn printable_text(alloc: Global, bytes: &[u8]) -> Result<Vec<u8>, AllocError>
    ensures { IfOk result (λ text. text.items ≡ printable_text bytes.now) }
{
    let mut text = Vec::new(alloc);
    push_printed(&mut text, bytes)?;
    Ok(text)
}

/// Printable text consists only of bytes that lawful names may have, so no name ends a line. Bytes that are all such, as those
/// of a lawful name, are shown unchanged.
pub fn shown_names()
    ensures bytes { ShowsNameBytes }
    ensures names { ShowsNames }
{}
