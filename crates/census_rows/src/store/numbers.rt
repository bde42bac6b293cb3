//! Numbers in bytes: 7 bits in each, the lowest first. All but the last byte of a number are 128 at least.
ghost use Rattle.std.specs.Prelude.{◌≡◌, ◌++◌, OnOk};
ghost use Rattle.census_rows.specs.Store.Numbers.{Grown, number_bytes, number_in, numbers_bytes};

use std::alloc::AllocError;

// The number at the start of bytes, and the bytes after it.
pub fn number_in(bytes: &[u8]) -> (u64, &[u8])
    ensures number { result.0 ≡ (number_in bytes.now).0 }
    ensures rest { result.1.now ≡ (number_in bytes.now).1 }
{
    match bytes {
        [byte, rest @ ..] => {
            if *byte < 128 {
                return (*byte as u64, rest);
            }
            let (high, behind) = number_in(rest);
            (
                high.wrapping_mul(128).wrapping_add(*byte as u64 - 128),
                behind,
            )
        }
        [] => (0, bytes),
    }
}

// Appends a number. On `Err` some bytes may have been appended.
pub fn push_number(bytes: &mut Vec<u8>, number: u64) -> Result<(), AllocError>
    ensures grown { Grown bytes.old.items bytes.new.items }
    ensures all { OnOk result (bytes.new.items ≡ bytes.old.items ++ number_bytes number) }
{
    let mut left = number;
    while 128 <= left {
        bytes.push((left % 128) as u8 + 128)?;
        left /= 128;
    }
    bytes.push(left as u8)?;
    Ok(())
}

// Appends numbers. On `Err` some bytes may have been appended.
pub fn push_numbers(bytes: &mut Vec<u8>, numbers: &[u64]) -> Result<(), AllocError>
    ensures grown { Grown bytes.old.items bytes.new.items }
    ensures all { OnOk result (bytes.new.items ≡ bytes.old.items ++ numbers_bytes numbers.now) }
{
    for number in numbers {
        push_number(bytes, *number)?;
    }
    Ok(())
}
